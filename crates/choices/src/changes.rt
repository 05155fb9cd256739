// What a line does to a bank.
ghost use Rattle.std.specs.Prelude.{◌≡◌};
ghost use Rattle.choices.specs.Banks.{changed};

use banks::{Bank, Loss};

// A change of a bank: a word is put under a name, or a word comes with a loss. An enum and no closure: a
// caller who keeps changes has values of one type.
#[derive(Clone, Copy)]
pub enum Change {
    Put(u8, u64),
    Lose(Loss, u64),
}

impl Change {
    // Changes a bank.
    pub fn apply<B: Bank>(self, bank: &mut B)
        ensures { B.Bank.meaning bank.new ≡ changed B.Bank.kind self (B.Bank.meaning bank.old) }
    {
        match self {
            Change::Put(a, w) => bank.put(a, w),
            Change::Lose(loss, w) => bank.lose(loss, w),
        }
    }
}
