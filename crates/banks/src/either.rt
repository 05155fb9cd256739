// A bank that is one of two, so that a program can choose a kind while it runs.
ghost use Rattle.banks.specs.Either.{one_of};
ghost use Rattle.banks.specs.Meanings.{chosen};
ghost use Rattle.banks.specs.Eithers.{either_laws};

use crate::bank::Bank;
use crate::loss::Loss;

// One of two banks. Both are banks alike, so that a Result, which calls one an error, would say too much.
#[derive(Drop, Clone, Copy)]
pub enum Either<A, B> {
    First(A),
    Second(B),
}

// Each method asks the one it is. Only a macro would say that once, and the gate takes no impl by a macro of ours.
impl<A: Bank, B: Bank> Bank for Either<A, B> {
    ghost kind = { one_of A.Bank.kind B.Bank.kind };

    ghost meaning = { chosen A.Bank.meaning B.Bank.meaning };

    ghost shows = { either_laws A.Bank.kind B.Bank.kind A.Bank.shows B.Bank.shows };

    fn names(&self) -> u8 {
        match self {
            Either::First(bank) => bank.names(),
            Either::Second(bank) => bank.names(),
        }
    }

    fn width(&self, a: u8) -> u8 {
        match self {
            Either::First(bank) => bank.width(a),
            Either::Second(bank) => bank.width(a),
        }
    }

    fn touches(&self, a: u8, b: u8) -> bool {
        match self {
            Either::First(bank) => bank.touches(a, b),
            Either::Second(bank) => bank.touches(a, b),
        }
    }

    fn kept_over(&self, loss: Loss, a: u8) -> bool {
        match self {
            Either::First(bank) => bank.kept_over(loss, a),
            Either::Second(bank) => bank.kept_over(loss, a),
        }
    }

    fn look(&self, a: u8) -> u64 {
        match self {
            Either::First(bank) => bank.look(a),
            Either::Second(bank) => bank.look(a),
        }
    }

    fn put(&mut self, a: u8, w: u64) {
        match self {
            Either::First(bank) => bank.put(a, w),
            Either::Second(bank) => bank.put(a, w),
        }
    }

    fn lose(&mut self, loss: Loss, w: u64) {
        match self {
            Either::First(bank) => bank.lose(loss, w),
            Either::Second(bank) => bank.lose(loss, w),
        }
    }
}
