// A bank's description as a table, made once, so that the check asks the bank nothing more.
ghost use Rattle.std.specs.Prelude.{◌≡◌, ℕ, ◌<◌, ◌≤◌, false};
ghost use Rattle.banks.specs.Outlines.{outlined, Bits};
ghost use Rattle.banks.specs.Words.{bit};

use crate::bank::Bank;
use crate::loss::Loss;
use std::array;

// How many names a bank has, and for each its width, the names that it touches (bit b of word a says
// whether a touches b), and whether it is kept over each loss (bit a). The check takes a whole word at a time, by
// a name for touching and by a loss for what is kept, and asks a width apart from both: hence two tables, and a
// word for each loss.
#[derive(Clone, Copy)]
pub struct Outline {
    pub names: u8,
    pub widths: [u8; 64],
    pub touched: [u64; 64],
    pub kept_over_call: u64,
    pub kept_over_pause: u64,
}

// The word whose bit i is set exactly if the test holds of i, for the numbers below 64.
fn mask<F: Fn(u8) -> bool>(holds: F) -> u64
    requires { F.IsAlwaysCallable holds }
    ensures told { (i : ℕ) → i < 64 → F.post holds i (bit result i) }
    ensures others { (i : ℕ) → 64 ≤ i → bit result i ≡ false }
{
    let mut word = 0;
    for i in 0..64 {
        if holds(i) {
            word |= 1 << i;
        }
    }
    word
}

// The names that a name touches.
fn touched_by<B: Bank>(bank: &B, a: u8) -> u64
    ensures { Bits result ((B.Bank.kind.describe (B.Bank.meaning bank.now)).touches a) }
{
    mask(|b| bank.touches(a, b))
}

impl Outline {
    // The outline of a bank describes what the bank describes.
    pub fn of<B: Bank>(bank: &B) -> Outline
        ensures { outlined result ≡ B.Bank.kind.describe (B.Bank.meaning bank.now) }
    {
        Outline {
            names: bank.names(),
            // below 64, which is proved: `try_from` would add a case that cannot come
            widths: array::from_fn(|a| bank.width(a as u8)),
            touched: array::from_fn(|a| touched_by(bank, a as u8)),
            kept_over_call: mask(|a| bank.kept_over(Loss::Call, a)),
            kept_over_pause: mask(|a| bank.kept_over(Loss::Pause, a)),
        }
    }
}
