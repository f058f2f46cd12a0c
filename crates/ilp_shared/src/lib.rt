//! What the threads of a running connector share: the desk with its places and intakes, what wakes its
//! loops, the journal that is kept for them, when a period ends, by which configuration the next one begins,
//! whose payouts are paused, and the sign that the connector ends.
//!
//! What threads do when, what a socket gives, and how long anything takes, no clause can say: it stands in
//! the comments, and `test_sockets` tests it over real sockets.
//!
//! # What is proved
//!
//! - When a period ends by itself, by what its book has (`specs/PeriodDue.antt`).
//! - What a list of names is behind a pause and a resume; and that the report's lines of those whose
//!   payouts are paused are of some list of names, one a peer, in the configuration's order
//!   (`specs/Payouts.antt`).
//! - All else is proved safe, and no more.
#![tactic(auto)]

mod asker;
mod bells;
mod intakes;
mod jobs;
mod keeping;
mod moment;
mod nobody;
mod payouts;
mod period_due;
mod places;
mod reloading;
mod seen;
mod shared;
mod shutdown;

pub use asker::{Asker, MEMORY_IS_SHORT, without_end};
pub use bells::Bells;
pub use intakes::{Intakes, ending_after};
pub use jobs::{Job, LOCAL_AT_ONCE};
pub use keeping::{KeepingAsker, KeepingAsks, KeptJournal, keep_for_loops, keeping_pair};
pub use moment::Moments;
pub use nobody::Nobody;
pub use payouts::{LeftTurns, Payouts};
pub use period_due::PeriodDue;
pub use places::{HeldBack, Places};
pub use reloading::{NextConfig, OnDisk, Reloading};
pub use seen::Seen;
pub use shared::Shared;
pub use shutdown::{KeepRunning, Shutdown, shutdown_pair};
