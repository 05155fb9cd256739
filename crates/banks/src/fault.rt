// Why no bank is made.
ghost use Rattle.std.specs.Prelude.{◌≡◌};
ghost use Rattle.banks.specs.Refusals.{bank_refusal};

use numbers::Refusal;

#[derive(Clone, Copy, PartialEq, Eq, Debug)]
pub enum BankFault {
    // no widths, or more than there may be
    Count,
    // a width that is not 1, 2, 4 or 8
    Width,
    // more than 64 names in all
    Names,
}

impl From<BankFault> for Refusal {
    ghost from_gives = { λ e r. r ≡ bank_refusal e };

    // The number and the fields of the refusal.
    fn from(fault: BankFault) -> Refusal {
        match fault {
            BankFault::Count | BankFault::Width | BankFault::Names => Refusal::at(15, 0),
        }
    }
}
