// Numbers in groups of seven bits, and the refusal that all layers share.
#![tactic(auto)]

mod fault;
mod read;
mod refusal;
mod write;

pub use fault::NumberFault;
pub use read::{Parsed, read_number};
pub use refusal::Refusal;
pub use write::write_number;

#[cfg(test)]
mod tests;
