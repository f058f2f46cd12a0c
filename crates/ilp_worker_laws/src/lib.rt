//! What follows from the relations of a worker's calls for its peers and their engines.
//!
//! # What is proved
//!
//! - `fulfills_are_kept`: the answer of a forward is a Fulfill, whose preimage meets the condition, just
//!   where two entries are booked and the worker keeps one packet more; else a Reject, and it keeps as
//!   many as before.
//! - `fulfills_are_told_behind_their_entries`: over a keeper that tells, the last that it was asked
//!   before a Fulfill is to keep a journal with the entry that fulfills the hold.
//! - `standing_refusals_are_told`: too great an amount, no route or one back to the sender is refused as
//!   that, or as T00, whatever time and book.
//! - `halves_make_a_forward`: begun, handed on and finished is forwarded. `booked_and_kept_is_finished`:
//!   booked, and kept before a Fulfill, is finished.
//! - `booked_fulfills_are_kept`, `finished_fulfills_are_kept`: the sender is owed a Fulfill just where
//!   the worker keeps one packet more, which is this one. `runs_keep_what_is_told`: over any number of
//!   packets in any order it keeps as many more as Fulfills are owed.
//! - `booked_fulfills_are_told_behind_their_entries`: whatever the worker did since it booked a Fulfill,
//!   over a keeper that tells, the journal that it is then asked to keep has the entry.
//! - `halves_make_a_message`, `halves_make_a_message_to_a_peer`: a message in halves, handed on and
//!   answered by what came, is one whole.
//! - `credits_are_told_behind_their_entries`: over a keeper that tells, the last that it was asked
//!   before an Ok of `credit` is to keep a journal that has the credit, and it said that this is kept.
//! - `booked_credits_wait_for_their_entries`: a credit that is booked and not told waits for as many
//!   entries of the journal that the worker has seen as its own is among.
#![tactic(auto)]

pub mod laws;
