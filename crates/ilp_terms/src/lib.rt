//! The terms of a packet (RFC 0027): when it expires, and what meets its condition.
//!
//! # What is proved
//!
//! - `expiry_read` answers the moment of seventeen digits just where they name a day of the
//!   Gregorian calendar and a time of that day. `expiry_write` is its inverse in the years 0 to
//!   9999. By a law, expiries of one moment are one text.
//! - `meets` says whether the SHA-256 digest of the preimage is the condition.
#![tactic(auto)]

mod calendar;
mod condition;
mod expiry;
mod laws;

pub use condition::meets;
pub use expiry::{LAST_OF_ALL, expiry_read, expiry_write};
pub use laws::one_expiry_a_moment;
