// Why no form is read or filled.
ghost use Rattle.std.specs.Prelude.{◌≡◌};
ghost use Rattle.forms.specs.declared.fault.FormFault.TheVariants.{Number};
ghost use Rattle.forms.specs.Refusals.{form_refusal};

use numbers::{NumberFault, Refusal};

// A number's fault stands whole; the others name a byte, or nothing.
#[derive(Clone, Copy, PartialEq, Eq, Debug)]
pub enum FormFault {
    // no number where one should stand
    Number(NumberFault),
    // a count out of its limits
    Count(usize),
    // a kind, field or parameter out of range
    Range(usize),
    // an ending that is not last, or a last row that is none
    Ending(usize),
    // bytes after the last row
    LeftOver(usize),
    // no place for the next row
    NoPlace(usize),
    // a head or rows that are missing or break a rule of forms
    NotAForm,
}

// The number and the fields of the refusal.
impl From<FormFault> for Refusal {
    ghost from_gives = { λ e r. r ≡ form_refusal e };

    fn from(e: FormFault) -> Refusal {
        match e {
            FormFault::Number(fault) => Refusal::from(fault),
            FormFault::Count(at) => Refusal::at(2, at),
            FormFault::Range(at) => Refusal::at(3, at),
            FormFault::Ending(at) => Refusal::at(4, at),
            FormFault::LeftOver(at) => Refusal::at(5, at),
            FormFault::NoPlace(at) => Refusal::at(6, at),
            FormFault::NotAForm => Refusal::at(16, 0),
        }
    }
}

impl From<NumberFault> for FormFault {
    ghost from_gives = { λ e r. r ≡ Number e };

    fn from(e: NumberFault) -> FormFault {
        FormFault::Number(e)
    }
}
