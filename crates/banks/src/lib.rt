// Banks: the interface, its laws, four kinds, one that is either of two, and what fits a bank.
#![tactic(auto)]

mod bank;
mod cases;
mod cells;
mod either;
mod fault;
mod fits;
mod frame;
mod laws;
mod loss;
mod misfit;
mod nested;
mod outline;
mod paired;
mod variables;
mod words;

pub use bank::Bank;
pub use cases::bank_cases_hold;
pub use either::Either;
pub use fault::BankFault;
pub use fits::{form_fits, row_fits};
pub use frame::{Frame, Unframed};
pub use laws::{look_after_put, look_beside_put, look_over, touch_each_other};
pub use loss::Loss;
pub use misfit::{FitFault, Side};
pub use nested::Nested;
pub use outline::Outline;
pub use paired::{Paired, touch_by_cells};
pub use variables::Variables;
pub use words::low_bytes;

#[cfg(test)]
mod tests;
