// Nested: eight units of eight bytes, each with names for its lowest 1, 2, 4 and 8 bytes.
ghost use Rattle.std.specs.Prelude.{◌≡◌};
ghost use Rattle.banks.specs.Meanings.{units_of};
ghost use Rattle.banks.specs.Nested.{nested, nested_width, unit_after, units_lost, nested_from};
ghost use Rattle.banks.specs.Nests.{nested_laws};

use crate::bank::Bank;
use crate::loss::Loss;
use crate::words::low_bytes;

// Names 0 to 31: name 4 × u + k is the lowest 2^k bytes of unit u.
#[derive(Clone, Copy)]
pub struct Nested {
    units: [u64; 8],
}

// The bytes of a name; 0 where there is none.
fn width_of(a: u8) -> u8
    ensures { result ≡ nested_width a }
{
    if a < 32 { 1 << (a % 4) } else { 0 }
}

// A unit after a put into its lowest bytes: one or two leave the rest, four clear the upper four.
fn unit_after(width: u8, old: u64, w: u64) -> u64
    ensures { result ≡ unit_after width old w }
{
    if width <= 2 {
        old - low_bytes(old, width) + low_bytes(w, width)
    } else {
        low_bytes(w, width)
    }
}

// How many units a loss takes, the first of them. That a call takes half, as of Paired's cells, is chance: each kind
// has its own rule.
fn units_lost(loss: Loss) -> u8
    ensures { result ≡ units_lost loss }
{
    match loss {
        Loss::Call => 4,
        Loss::Pause => 8,
    }
}

impl Nested {
    // As if all units had been lost with a word.
    pub fn new(w: u64) -> Nested
        ensures { units_of result ≡ nested_from w }
    {
        Nested { units: [w; 8] }
    }
}

impl Bank for Nested {
    ghost kind = { nested };

    ghost meaning = { units_of };

    ghost shows = { nested_laws };

    fn names(&self) -> u8 {
        32
    }

    fn width(&self, a: u8) -> u8 {
        width_of(a)
    }

    fn touches(&self, a: u8, b: u8) -> bool {
        a < 32 && b < 32 && a / 4 == b / 4
    }

    fn kept_over(&self, loss: Loss, a: u8) -> bool {
        a < 32 && a / 4 >= units_lost(loss)
    }

    fn look(&self, a: u8) -> u64 {
        if a < 32 {
            low_bytes(self.units[(a / 4) as usize], width_of(a))
        } else {
            0
        }
    }

    fn put(&mut self, a: u8, w: u64) {
        if a < 32 {
            let u = (a / 4) as usize;
            self.units[u] = unit_after(width_of(a), self.units[u], w);
        }
    }

    fn lose(&mut self, loss: Loss, w: u64) {
        self.units[..units_lost(loss) as usize].fill(w);
    }
}
