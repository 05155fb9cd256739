// The bank that any bank is.
ghost use Rattle.choices.specs.Banks.{any, any_meaning, plain};
ghost use Rattle.banks.specs.Either.{one_of};
ghost use Rattle.banks.specs.Frame.{frame};
ghost use Rattle.banks.specs.Eithers.{either_laws};
ghost use Rattle.banks.specs.Frames.{frame_laws};
ghost use Rattle.choices.specs.AnyBankLaws.{plain_laws, framed_laws};

use crate::any_bank::AnyBank;
use banks::{Bank, Loss};

// Each method asks the choice. Only a macro would say that once, and the gate takes no impl by a macro of ours.
impl Bank for AnyBank {
    ghost kind = { any };

    ghost meaning = { any_meaning };

    ghost shows = { either_laws plain (one_of (frame plain) (frame (frame plain))) plain_laws (either_laws (frame plain) (frame (frame plain)) framed_laws (frame_laws (frame plain) framed_laws)) };

    fn names(&self) -> u8 {
        self.choice.names()
    }

    fn width(&self, a: u8) -> u8 {
        self.choice.width(a)
    }

    fn touches(&self, a: u8, b: u8) -> bool {
        self.choice.touches(a, b)
    }

    fn kept_over(&self, loss: Loss, a: u8) -> bool {
        self.choice.kept_over(loss, a)
    }

    fn look(&self, a: u8) -> u64 {
        self.choice.look(a)
    }

    fn put(&mut self, a: u8, w: u64) {
        self.choice.put(a, w);
    }

    fn lose(&mut self, loss: Loss, w: u64) {
        self.choice.lose(loss, w);
    }
}
