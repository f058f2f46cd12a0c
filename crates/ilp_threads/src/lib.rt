//! The threads of a running connector: its listeners, and the actors of its desk.
//!
//! What threads do when, what a socket gives, and how long anything takes, no clause can say: it stands in
//! the comments, and `test_sockets` tests it over real sockets.
//!
//! # What is proved
//!
//! - Of private functions, by the limit of open files: how many connections may wait (`waiting_by`), how
//!   many packets may be in flight (`in_flight_by`), and how many files are wanted (`wanted`).
//! - All else is proved safe, and that what goes into a thread may.
#![tactic(auto)]

mod accepting;
mod actors;
mod busy;
mod fault;
mod open_files;
mod sides;
mod sweeping;
mod threads;
mod watching;

pub use actors::{KeepingWay, KeptBy};
pub use fault::Unprinted;
pub use ilp_shared::{Asker, MEMORY_IS_SHORT, NextConfig, OnDisk, without_end};
pub use sides::{RunDesk, Sides, SidesRoom, run_desk};
