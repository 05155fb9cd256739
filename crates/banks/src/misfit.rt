// Why a form does not fit a bank.
ghost use Rattle.std.specs.Prelude.{◌≡◌};
ghost use Rattle.banks.specs.Refusals.{misfit, fit_refusal};

use numbers::Refusal;

// The two forms of a pair: before is the reference form, after the compiled one.
#[derive(Clone, Copy, PartialEq, Eq, Debug)]
pub enum Side {
    Before,
    After,
}

// The first row or parameter of a form that does not fit.
#[derive(Clone, Copy, PartialEq, Eq, Debug)]
pub enum FitFault {
    // a row, by its block and its place in it
    AtRow(Side, u8, u8),
    // a parameter, by its place among them
    AtParameter(Side, u8),
}

// Refusal 7: the row stands in the field of its side.
fn refusal_of(side: Side, place: u8, row: u8) -> Refusal
    ensures { result ≡ misfit side place row }
{
    let at = Refusal::at(7, place as usize);
    match side {
        Side::Before => Refusal {
            side: 1,
            before: row,
            ..at
        },
        Side::After => Refusal {
            side: 2,
            after: row,
            ..at
        },
    }
}

impl From<FitFault> for Refusal {
    ghost from_gives = { λ e r. r ≡ fit_refusal e };

    // The number and the fields of the refusal.
    fn from(fault: FitFault) -> Refusal {
        match fault {
            FitFault::AtRow(side, block, row) => refusal_of(side, block, row),
            FitFault::AtParameter(side, parameter) => refusal_of(side, 64, parameter),
        }
    }
}
