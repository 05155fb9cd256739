// Paired: sixteen cells of one byte, with names for cells, pairs, fours and halves.
ghost use Rattle.std.specs.Prelude.{◌≡◌, ◌≤◌, length};
ghost use Rattle.banks.specs.Meanings.{by_place, bytes_of};
ghost use Rattle.banks.specs.Paired.{paired, first_cell, cells_of, number_in, cells_lost, paired_from, TouchByCells};
ghost use Rattle.banks.specs.Pairs.{paired_laws};

use crate::bank::Bank;
use crate::loss::Loss;

// Names 0 to 15 are the cells, 16 to 23 the pairs, 24 to 27 the fours, 28 and 29 the halves.
#[derive(Clone, Copy)]
pub struct Paired {
    cells: [u8; 16],
}

// How many cells a name has; 0 where there is none.
fn cells_of(a: u8) -> u8
    ensures { result ≡ cells_of a }
{
    match a {
        0..16 => 1,
        16..24 => 2,
        24..28 => 4,
        28..30 => 8,
        _ => 0,
    }
}

// The first of them.
fn first_cell(a: u8) -> u8
    ensures { result ≡ first_cell a }
{
    match a {
        0..16 => a,
        16..24 => 2 * (a - 16),
        24..28 => 4 * (a - 24),
        28..30 => 8 * (a - 28),
        _ => 0,
    }
}

// The number that cells hold.
fn number_in(cells: &[u8]) -> u64
    requires { length cells.now ≤ 8 }
    ensures { result ≡ number_in (by_place cells.now) 0 (length cells.now) }
{
    let mut number: u64 = 0;
    for cell in cells.iter().rev() {
        number = number * 256 + u64::from(*cell);
    }
    number
}

// How many cells a loss takes, the first of them. That a call takes half, as of Nested's units, is chance: each kind
// has its own rule.
fn cells_lost(loss: Loss) -> u8
    ensures { result ≡ cells_lost loss }
{
    match loss {
        Loss::Call => 8,
        Loss::Pause => 16,
    }
}

// Two names touch exactly if they share a cell.
pub fn touch_by_cells()
    ensures { TouchByCells }
{}

impl Paired {
    // As if all cells had been lost with a word.
    pub fn new(w: u64) -> Paired
        ensures { bytes_of result ≡ paired_from w }
    {
        let mut bank = Paired { cells: [0; 16] };
        bank.lose(Loss::Pause, w);
        bank
    }
}

impl Bank for Paired {
    ghost kind = { paired };

    ghost meaning = { bytes_of };

    ghost shows = { paired_laws };

    fn names(&self) -> u8 {
        30
    }

    fn width(&self, a: u8) -> u8 {
        cells_of(a)
    }

    fn touches(&self, a: u8, b: u8) -> bool {
        first_cell(a) < first_cell(b) + cells_of(b) && first_cell(b) < first_cell(a) + cells_of(a)
    }

    fn kept_over(&self, loss: Loss, a: u8) -> bool {
        a < 30 && first_cell(a) >= cells_lost(loss)
    }

    fn look(&self, a: u8) -> u64 {
        let first = first_cell(a) as usize;
        number_in(&self.cells[first..first + cells_of(a) as usize])
    }

    fn put(&mut self, a: u8, w: u64) {
        let first = first_cell(a) as usize;
        let n = cells_of(a) as usize;
        self.cells[first..first + n].copy_from_slice(&w.to_le_bytes()[..n]);
    }

    fn lose(&mut self, loss: Loss, w: u64) {
        // each half that is lost takes the bytes of the word; one by one, since a proof does not learn
        // what is written through `chunks_exact_mut`
        let bytes = w.to_le_bytes();
        self.cells[..8].copy_from_slice(&bytes);
        match loss {
            Loss::Call => {}
            Loss::Pause => self.cells[8..].copy_from_slice(&bytes),
        }
    }
}
