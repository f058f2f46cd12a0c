//! Who may have how many packets and messages in flight, who begins next, and which connection is closed
//! where more wait than may.
//!
//! # What is proved
//!
//! - `Flow` counts what is in flight. For lists of those in flight and of all that began its numbers are
//!   those of the lists (`HasCounts`): of none at first, with one more after `begin`, with one less
//!   after `end`. Only `new` takes memory.
//! - `begin` begins one just where it may: fewer than the limit are in flight, fewer than half of it are
//!   its sender's, and fewer than half go to its receiver; its octets find room in all, and in the half
//!   of it that one sender has. Else nothing changes. `may_begin` tells the same.
//! - `next` is, of those that wait and may begin, the first of the sender whose last turn was longest
//!   ago; none just where none may. Who had the last turn isn't next while one of another sender waits
//!   that may begin: `turns_go_round`.
//! - What begins and ends in this way keeps the limits, and where none is in flight one may begin, be it
//!   the largest packet: `limits_are_kept`, `one_may_begin`.
//! - `closed_next` is, of those that wait, the one that lingers longest; where none does, the oldest whose
//!   request isn't whole; where all are whole, the newest of the sender with most. None just where none
//!   waits.
//! - The definitions (`specs/Flow.antt`, `specs/Closing.antt`) come to worked rows: `rows`.
#![tactic(auto)]

mod closing;
mod flow;
pub mod laws;
mod passage;
mod waiter;

pub use closing::closed_next;
pub use flow::Flow;
pub use passage::Passage;
pub use waiter::Waiter;
