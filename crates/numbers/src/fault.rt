// Why no number is read.
ghost use Rattle.std.specs.Prelude.{◌≡◌};
ghost use Rattle.numbers.specs.Refusals.{number_refusal};

use crate::refusal::Refusal;

// Each names the first byte of the number, or where it would stand.
#[derive(Clone, Copy, PartialEq, Eq, Debug)]
pub enum NumberFault {
    CutOff(usize),
    NotShortest(usize),
    TooLarge(usize),
}

// The number and the fields of the refusal.
impl From<NumberFault> for Refusal {
    ghost from_gives = { λ e r. r ≡ number_refusal e };

    fn from(e: NumberFault) -> Refusal {
        match e {
            NumberFault::CutOff(at) | NumberFault::NotShortest(at) | NumberFault::TooLarge(at) => {
                Refusal::at(1, at)
            }
        }
    }
}
