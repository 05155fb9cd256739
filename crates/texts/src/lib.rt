// Texts: how a job file is cut into lines and words, which words are names and numbers, and how rows,
// refusals and counts are printed.
#![tactic(auto)]

mod classes;
mod labels;
mod names;
mod numerals;
mod storage;
mod words;

pub use labels::{Counts, RefusalText, RowText};
pub use names::name_of;
pub use numerals::{PairsFault, byte_value, number_value, push_pairs, width_value};
pub use storage::stored_rows;
pub use words::{Lines, Words};

#[cfg(test)]
mod tests;
