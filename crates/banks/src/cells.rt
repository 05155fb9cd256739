// The cells that variables and slots are kept in.
ghost use Rattle.banks.specs.Table.{Sound, widths_of};

mod parts;

// A cell: its width, and the bytes of a word, lowest first, of which it holds as many as its width. Bytes and no u64:
// a cell then has nine bytes, and seven of sixteen would be lost to alignment in each of 64 cells of every bank.
#[derive(Clone, Copy)]
struct Cell {
    width: u8,
    bytes: [u8; 8],
}

// A table of 1 to 64 cells. The count stands beside a row of 64: a bank is Copy, which a vector is not.
// Clauses say what it means by `table_of`: a model of a Copy type would have to keep what stands past the count.
#[derive(Clone, Copy)]
pub(crate) struct Cells {
    count: u8,
    cells: [Cell; 64],
    ghost sound: { Sound count (widths_of cells) },
}
