// Forms: the rows of a control block, read into lent buffers and seen through a view.
#![tactic(auto)]

mod fault;
mod form;
mod limits;
mod read;
mod row;

pub use fault::FormFault;
pub use form::Form;
pub use read::read_form;
pub use row::{Head, Row};

#[cfg(test)]
mod tests;
