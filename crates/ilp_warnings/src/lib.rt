//! What a configuration allows and probably doesn't mean, as lines for a person.
//!
//! # What is proved
//!
//! - `warnings`, on the octets that give this configuration, tells only what is so
//!   (`specs/Told.antt`): a field that is told is in the table and not known there, one that may be
//!   meant is known there and at most two edits away, and a peer that is called unreached has no
//!   route.
//! - Each of its sixteen kinds is told wherever it is so (`specs/Complete.antt`). Each field that is
//!   not known in its table is told by a line of its own, whose key is shown where it can't spoil the
//!   line. Of the other peers at one host, of whose packets one reaches a threshold, or on the way to
//!   whom a greatest packet doesn't fit, one is named. `AllocError` is its only error.
#![tactic(auto)]

mod addresses;
mod examined;
mod fields;
mod known;
mod line;
mod peers;
mod routes;
mod telling;
mod tokens;
mod top;
mod values;
mod warning;

pub use telling::warnings;
pub use warning::{ConfigTable, Warning};
