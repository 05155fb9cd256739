// The banks that a program makes, whose kinds it chooses while it runs.
ghost use Rattle.std.specs.Prelude.{◌≡◌};
ghost use Rattle.choices.specs.declared.any_bank.FramedFault.TheVariants.{Slots};

pub(crate) mod bank;
mod made;

use banks::{BankFault, Either, Frame, Nested, Paired, Unframed, Variables};

// A bank that is no frame.
type Plain = Either<Variables, Either<Nested, Paired>>;

// Any bank: no frame, a frame over one that is none, or a frame over such a frame.
#[derive(Clone, Copy)]
pub struct AnyBank {
    choice: Either<Plain, Either<Frame<Plain>, Frame<Frame<Plain>>>>,
}

// Why a bank gets no frame.
#[derive(Clone, Copy)]
pub enum FramedFault {
    // it has two layers of frames
    Layers,
    // what is wrong with the slots
    Slots(BankFault),
}

impl<B: Drop> From<Unframed<B>> for FramedFault {
    ghost from_gives = { λ e r. r ≡ Slots e.fault };

    fn from(e: Unframed<B>) -> FramedFault {
        FramedFault::Slots(e.fault)
    }
}
