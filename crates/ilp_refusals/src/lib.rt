//! Refusals by number and name, as programs print them: one table of all.
//!
//! # What is proved
//!
//! - `Refusal` is the table of numbers, names and what they name, which its text is made of; each
//!   `From` gives the one refusal of a fault.
#![tactic(auto)]

mod refusal;

pub use refusal::{Named, Refusal};
