//! Two actors of a desk, from the opening of its log to what a start finds behind a crash.
//!
//! # What is proved
//!
//! Of a log over any device of which it is claimed that it keeps what was synced:
//!
//! - `told_to_two`: of two threads at one desk each books a credit and has it kept; what each is told has all that it had
//!   seen (`Told`).
//! - `find_whole`: whatever crash comes once an actor was told, a start finds a book with all that the actor had seen
//!   (`specs/Whole.antt`).
//!
//! The test runs that over a file that tears (`test_tearing`), and recovers what each of many crashes leaves.
#![tactic(auto)]

mod booking;
#[cfg(test)]
mod tests;
mod told;
mod two_actors;
mod whole;

pub use told::Told;
pub use two_actors::{BothTold, Opening, told_to_two};
pub use whole::find_whole;
