//! The loops of a running connector's workers: what each has begun, and the connections of that.
//!
//! What threads do when, what a socket gives, and how long anything takes, no clause can say: it stands in
//! the comments, and `test_sockets` tests it over real sockets.
//!
//! # What is proved
//!
//! - All is proved safe: what waits is finished by the worker that began it, and a worker ends only where
//!   nothing of it waits.
#![tactic(auto)]

mod answers;
mod deeds;
mod guest;
mod late;
mod payouts;
mod report_lines;
mod serving;
mod turn;

pub use turn::{Seat, ServingLoop};
