// A frame: slots behind the names of any bank, for what its registers cannot hold.
pub(crate) mod layer;

use crate::bank::Bank;
use crate::cells::Cells;
use crate::fault::BankFault;

// A bank with 1 to 32 slots behind its names.
// That all names stay within 64 is the maker's promise and no invariant of the type: Clone would have to be proved,
// and nothing says how many names the clone of a bank has. So the methods ask.
#[derive(Drop, Clone, Copy)]
pub struct Frame<B: Bank> {
    below: B,
    slots: Cells,
}

// A bank that got no frame, handed back with the reason.
#[derive(Drop, Clone, Copy)]
pub struct Unframed<B> {
    pub bank: B,
    pub fault: BankFault,
}
