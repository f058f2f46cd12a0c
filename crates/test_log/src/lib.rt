//! Tests of a desk's log.
//!
//! `two_threads_commit`: two actors of one desk each credit a settlement and commit it, in threads of
//! their own, over a file in memory. Then the file has its head and the lines of both entries, in the
//! order of the journal.
//!
//! The others are over a file in memory whose machine stops in each call of the device in turn, and of
//! each write that wasn't synced the disk has a part. `what_was_told_is_recovered` and
//! `what_was_told_of_a_long_run_is_recovered`: entries that chance picks are booked and committed in
//! groups. A book is recovered of what the disk may have: its journal begins with all entries that were
//! told to be on the disk, and has no others than the desk's but ends of holds. The last two of the name
//! `what_was_told_is_recovered_where_..`: the disk fails in one call before that, and the log is mended.
//! `a_recovery_may_stop_too`: the machine stops in a recovery, and the next finds the same lines.
#![tactic(auto)]

#[cfg(test)]
mod beside;
#[cfg(test)]
mod booking;
#[cfg(test)]
mod crashes;
#[cfg(test)]
mod mending;
#[cfg(test)]
mod recoveries;
#[cfg(test)]
mod recovering;
#[cfg(test)]
mod running;
#[cfg(test)]
mod tearing;
#[cfg(test)]
mod threads;
