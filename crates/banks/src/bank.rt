// Banks: what holds the numbers of a form while it runs.
ghost use Rattle.std.specs.Prelude.{◌≡◌};
ghost use Rattle.banks.specs.Kind.{Kind, Laws};

use crate::loss::Loss;

// A bank has 1 to 64 names, numbered from 0. Every question and every change is total: a number that is no
// name has width 0 and look 0, touches nothing and is not kept, and a put under it does nothing. Name, loss
// and word stay separate arguments: any goes with any, so a struct of two would hold no fact.
pub trait Bank {
    // what banks of this kind can mean, and what each question and change does to a meaning
    ghost kind: { Kind };

    // what this bank means
    ghost meaning: { Self → kind.Meaning };

    // How many names there are.
    fn names(&self) -> u8
        ensures { result ≡ (kind.describe (meaning self.now)).names };

    // The width of a name, in bytes.
    fn width(&self, a: u8) -> u8
        ensures { result ≡ (kind.describe (meaning self.now)).width a };

    // Whether a put under one name may change the look of the other.
    fn touches(&self, a: u8, b: u8) -> bool
        ensures { result ≡ (kind.describe (meaning self.now)).touches a b };

    // Whether a name keeps its look over a loss.
    fn kept_over(&self, loss: Loss, a: u8) -> bool
        ensures { result ≡ (kind.describe (meaning self.now)).kept_over loss a };

    // The look: the number that a name holds.
    fn look(&self, a: u8) -> u64
        ensures { result ≡ kind.look (meaning self.now) a };

    // Puts a word under a name.
    fn put(&mut self, a: u8, w: u64)
        ensures { meaning self.new ≡ kind.put (meaning self.old) a w };

    // A loss: what is not kept over it may take bytes of the word.
    fn lose(&mut self, loss: Loss, w: u64)
        ensures { meaning self.new ≡ kind.lose (meaning self.old) loss w };

    // the laws that code over any bank rests on
    ghost shows: { Laws kind };
}
