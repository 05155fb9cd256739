// Making a table of cells, and what it answers.
ghost use Rattle.std.specs.Prelude.{◌≡◌, ◌≤◌, length, take, IfOk, slice_get, slice_index};
ghost use Rattle.banks.specs.Kind.{is_width};
ghost use Rattle.banks.specs.Made.{table_fault, Fresh};
ghost use Rattle.banks.specs.Meanings.{by_place, table_of};
ghost use Rattle.banks.specs.Table.{all_widths, cell_look, no_words, table_put, widths_of, words_of};
ghost use Rattle.std.specs.Result.{result_err};

use crate::cells::{Cell, Cells};
use crate::fault::BankFault;
use crate::words::low_bytes;

// Whether a cell can have so many bytes.
fn is_width(n: u8) -> bool
    ensures { result ≡ is_width n }
{
    matches!(n, 1 | 2 | 4 | 8)
}

// Whether it can have each of these.
fn all_widths(widths: &[u8]) -> bool
    ensures { result ≡ all_widths widths.now }
{
    widths.iter().all(|w| is_width(*w))
}

// A row of 64 cells that begins with the given widths; every word is 0. A `for` over the widths: `array::from_fn` would
// write every cell by itself, and was slower.
fn spread(widths: &[u8]) -> [Cell; 64]
    requires { length widths.now ≤ 64 }
    ensures widths { take (length widths.now) (widths_of result) ≡ widths.now }
    ensures words { by_place (words_of result) ≡ no_words }
    ensures len { length (widths_of result) ≡ 64 }
{
    let mut cells = [Cell {
        width: 0,
        bytes: [0; 8],
    }; 64];
    for (a, width) in widths.iter().enumerate() {
        cells[a].width = *width;
    }
    cells
}

impl Cells {
    // A table of the declared widths, at most so many; every word is 0.
    pub(crate) fn new(most: u8, widths: &[u8]) -> Result<Cells, BankFault>
        requires { most ≤ 64 }
        ensures fault { result_err result ≡ table_fault most widths.now }
        ensures made { IfOk result (λ cells. Fresh widths.now (table_of cells)) }
    {
        if widths.is_empty() || widths.len() > most as usize {
            return Err(BankFault::Count);
        }
        if !all_widths(widths) {
            return Err(BankFault::Width);
        }
        Ok(Cells {
            // at most 64, which is proved: `try_from` would add a fault that cannot come
            count: widths.len() as u8,
            cells: spread(widths),
        })
    }

    // How many cells there are.
    pub(crate) fn len(&self) -> u8
        ensures { result ≡ length (table_of self.now).widths }
    {
        self.count
    }

    // A cell, where there is one.
    fn cell(&self, a: u8) -> Option<Cell>
        ensures { result ≡ slice_get (take self.now.count self.now.cells) a }
    {
        self.cells[..self.count as usize].get(a as usize).copied()
    }

    // The width of a cell; 0 where there is none.
    pub(crate) fn width(&self, a: u8) -> u8
        ensures { result ≡ slice_index (table_of self.now).widths a }
    {
        self.cell(a).map_or(0, |cell| cell.width)
    }

    // What a cell holds; 0 where there is none.
    pub(crate) fn look(&self, a: u8) -> u64
        ensures { result ≡ cell_look (table_of self.now).widths (table_of self.now).words a }
    {
        self.cell(a).map_or(
            0,
            |cell| low_bytes(u64::from_le_bytes(cell.bytes), cell.width),
        )
    }

    // Puts a word into a cell; does nothing where there is none.
    pub(crate) fn put(&mut self, a: u8, w: u64)
        ensures { table_of self.new ≡ table_put (table_of self.old) a w }
    {
        if a < self.count {
            self.cells[a as usize].bytes = w.to_le_bytes();
        }
    }
}
