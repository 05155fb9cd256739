// Choices: banks whose kind a program chooses while it runs, as one type, and changes of a bank as values.
#![tactic(auto)]

mod any_bank;
mod changes;

pub use any_bank::{AnyBank, FramedFault};
pub use changes::Change;

#[cfg(test)]
mod tests;
