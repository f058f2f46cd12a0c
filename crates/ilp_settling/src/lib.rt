//! The loop of a running connector's settler: it has the peers' engines settle, of which none holds up the
//! payments of others.
//!
//! What threads do when, what a socket gives, and how long anything takes, no clause can say: it stands in
//! the comments, and `test_sockets` and the cases of `scripts/check.py` test it over real sockets.
//!
//! # What is proved
//!
//! - Of private functions: how long a peer's turns rest (twice as long as the last time, up to five
//!   minutes); whether a peer's balance is at its threshold in a book, since when it is by all looks at it,
//!   and behind a refusal, and whether a settlement that waits may be asked for by then
//!   (`specs/Waiting.antt`); what a period leaves of its turns to the next one (`specs/Rests.antt`).
//! - All else is proved safe, and the settler ends only where no settlement is pending. That each is finished
//!   which it gives out, no clause says.
#![tactic(auto)]

mod course;
mod pauses;
mod settling_loop;
mod telling;
mod turns;
mod waiting;

pub use settling_loop::{SettlerBell, SettlingLoop};
