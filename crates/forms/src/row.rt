// What reading stores: rows, and a head for the rest.

// A row: its kind and its fields. Fields that the kind lacks are 0; the source of a move stands in `a`.
// Kinds and operations are the format's numbers, not enums: a lent buffer may hold what is no row.
#[derive(Clone, Copy, PartialEq, Eq, Debug)]
pub struct Row {
    pub kind: u8,
    pub o: u8,
    pub d: u8,
    pub a: u8,
    pub b: u8,
    pub k: u8,
    pub c: u64,
    pub t: u8,
    pub f: u8,
}

impl Row {
    // What fills a buffer before it is read into: a kind that no row has.
    pub const NONE: Row = Row {
        kind: 255,
        o: 0,
        d: 0,
        a: 0,
        b: 0,
        k: 0,
        c: 0,
        t: 0,
        f: 0,
    };
}

// How many blocks and parameters, the parameters' names, and how many rows each block has. What is
// not used is 0. Fixed arrays with counts beside them: a plain record in lent memory, with no heap.
#[derive(Clone, Copy)]
pub struct Head {
    pub blocks: u8,
    pub params: u8,
    pub names: [u8; 8],
    pub counts: [u8; 64],
}

impl Head {
    // A head that was never stored: no blocks.
    pub const NONE: Head = Head {
        blocks: 0,
        params: 0,
        names: [0; 8],
        counts: [0; 64],
    };
}
