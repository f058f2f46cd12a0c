//! The sweeper and the settler of a desk: the one releases holds whose deadline has come, the other
//! has the peers' engines settle what is owed. Each has a share of the desk and a clock, and the
//! settler a link to the engines and a keeper of the journal.
//!
//! # What is proved
//!
//! - `Sweeper::turn` releases at most one hold, at a moment of its clock, by the book's sweep, and
//!   raises its share by one just where it answers a number.
//! - `Settler::turn` has four steps (`specs/Settler.antt`). Just where the settler doesn't know
//!   that the peer's engine has an account of the peer, the engine is asked for it, once. Where it
//!   says no, the turn is `NoAccount`, and nothing else happens; else the settler knows it from
//!   then on.
//! - Then a book of the desk is asked at a moment of the clock for a settlement. Where it refuses
//!   that for another cause than memory, the open settlement behind the one that was tried last for
//!   this peer is found, else the first of all, by one look (`IsChoosing`). Where there is none, no
//!   engine is asked, and the turn is `Idle` with the refusal.
//! - The keeper is handed the journal that has the one that was booked or found. Where it says that
//!   this is not kept, no engine is asked, and the turn is `Unwritten`. Else the engine is handed just
//!   that one: its amount at the scale of the peer's balance, under its key (`settlement_key_in` of
//!   `ilp_desk`): that of its entry's number in the period, or the one that it had in an earlier one.
//! - Where the engine accepted or refused it, a book is told so at the clock's next moment. Just
//!   where it was still open, the answer is `Closed`, and the list grows by that record. Else it is
//!   `Kept`, as where the engine said neither; then no book is told. Both have the amount and what
//!   the engine said.
//! - The error is want of memory: nothing is booked, no engine asked for a settlement, but that it
//!   has the account is kept.
//! - A turn is also had in two halves (`specs/Halves.antt`), between which others begin and finish.
//!   `begin` does all of a turn up to where the engine is to be asked for a settlement, and gives that
//!   out as an `Asking`: its peer, number, amount and scale, and its key. What it gave out is pending
//!   until `finish` tells a book what the engine said. Room for the record of each that is pending is
//!   kept, so `finish` takes no memory and has no error.
//! - `take_up` begins a turn in which nothing new is asked for: it gives out the open settlement that a
//!   turn would take up, and books nothing (`TakesUpOpen`). Where none is open, the turn is `Withheld`,
//!   which no other turn is.
//! - Where no engine said yet that it has the account, `begin` and `take_up` do nothing. `note_account`
//!   is told that it has.
//! - Both halves, and the engine asked for just that settlement between them, make a turn
//!   (`halves_make_a_turn`). A turn leaves as many pending as there were.
//! - `Settler::new` and `into_end` are as the worker's; `Sweeper::new` can't fail. A settler ends only
//!   where nothing is pending.
//!
//! Each clause on an actor holds for whatever other threads do between two sessions. That what is
//! finished is what this settler gave out, and that the engine said so of it, is up to whoever holds
//! the `Asking`. That a credit answered as kept was ever booked, and that the settlement which an
//! engine is handed is open in the desk's own book, follows from no clause but from the session's code.
#![tactic(auto)]

mod asking;
mod halves;
mod keys;
mod laws;
mod settler;
mod settling;
mod sweeper;
mod turn;

pub use asking::{Asking, BegunTurn};
pub use laws::halves_make_a_turn;
pub use settler::{NoSettler, Settler};
pub use sweeper::Sweeper;
pub use turn::Turn;
