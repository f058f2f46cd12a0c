//! A keeper that tells what it was asked, for proofs and tests.
//!
//! # What is proved
//!
//! - `TellingKeeper` meets each clause of `ilp_keeping::Keeper`, and what it tells is a list: whether entries are kept
//!   now, with what it said, and each journal that it was handed, with what it said of it.
//! - `hand_over`: a call of a worker's keeper adds to that list the journal which the desk had, and what was said of it.
#![tactic(auto)]

mod handing;
mod telling_keeper;

pub use handing::hand_over;
pub use telling_keeper::{Heard, TellingKeeper};
