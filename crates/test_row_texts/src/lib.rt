//! What rows of tests have in common: parts that stand many times, packets in words, and why a row is not
//! read.
#![tactic(auto)]

mod fault;
mod repeated;
mod words;

pub use fault::RowFault;
pub use repeated::push_repeated;
pub use words::in_hexadecimal;
