//! What a crash leaves of a journal, and what a start makes of that.
//!
//! # What is proved
//!
//! - `what_was_told_is_recovered`: the book of a run began with entries whose text was saved, and a log goes on from
//!   there. Whatever a crash leaves between the lines of those that were told to be kept and of all that were booked, the
//!   book with which a start begins has all that was told, and has nothing that wasn't booked, but for ends of holds. It is
//!   refused for nothing but want of memory.
#![tactic(auto)]

pub mod laws;
