//! The desk of a connector: one book behind a lock, on which threads book by sessions, each with a
//! share that counts what it booked.
//!
//! # What is proved
//!
//! - `Desk::open`, over a book at its base, answers a desk and its actors' shares in order, of no
//!   entry yet; else the book as it was, with `BadWorkers` just where the workers aren't 1 to 64,
//!   `Memory` only where they are.
//! - `LockedBook`, which whoever takes the lock finds, keeps that it is a book of the desk (what
//!   that is (docs/PROOF.md, "why it holds on every schedule"), `specs/Desk.antt`), whatever other
//!   threads did; `book` tells it. It also keeps that a ledger stands at the number of entries
//!   since the opening.
//! - `LockedBook::hold`, `answer`, `expire_one`, `credit`, `ask` and `settle_close` each do exactly
//!   one step of the book's definitions, by the actor of the share that is lent, leave a book of
//!   the desk, and raise the share by the entries that the journal gained.
//! - `Share`, which can't be cloned, keeps that its actor is the desk's and its entries what it has
//!   of the ledger.
//! - `Desk::hold` and the five others take the lock for one session. When it is let go, it is known
//!   that some book of the desk was found, and what the step makes of it is what was replied and
//!   booked (`IsReplyAt`).
//! - The entries are told to a list that only grows. `LockedBook::receipt` gives a receipt for the
//!   journal as it is; `show` tells that what a receipt had seen begins the journal now, and renews
//!   it. So the journal that a session finds begins with what each earlier one left.
//! - `Desk::hold_shown` and the five others are sessions with a receipt: what it had seen begins the
//!   journal that was found, and then it has seen the one that was left, with the session's entry
//!   (`IsShownAt`). `open_settlement_shown` is a look with a receipt (`IsShownLook`).
//! - `LockedBook::earlier_key` tells the key of a settlement that was brought forward from an earlier
//!   period. `settlements_keep_their_keys`: a settlement has one key, whichever book of the desk is
//!   looked at.
//! - `LockedBook::snapshot` copies what the report tells of its book, and `open_settlement` tells the
//!   open settlement that comes next; those of `Desk` tell it of some book of the desk. Nothing
//!   changes.
//! - `gather` answers the book, as it was under the lock, only where each actor has one end (its
//!   share and records) with the records that the journal has of that actor since the opening. It
//!   takes no memory.
//! - Then the shares add up to the entries since the opening, and the records to what was fulfilled
//!   since: how many packets, and each asset's amounts in and out (`specs/Gathering.antt`).
//! - Else `gather` hands desk and ends back, with `Double`, `Missing` or `Disagrees`, in this
//!   order, each of its least actor, by the desk's own book. `UnlockedDesk::book` shows that book,
//!   and `into_desk` puts it under a lock again.
//! - `whole_ends_are_gathered`: where each actor has one end with its records, nothing is refused.
//! - `packets_fit`: of a book opened where no hold was open, what was fulfilled since keeps, in
//!   each asset, within 18446744073709551615. So no sum that actors keep wraps.
#![tactic(auto)]

mod desk;
mod end;
mod gathering;
pub mod laws;
mod locked;
mod naming;
mod receipt;
mod record;
mod records;
mod share;
mod shown;
mod unlocked;

pub use desk::{Desk, NoDesk, WhyNoDesk};
pub use end::End;
pub use gathering::{Closed, NotGathered, WhyNotGathered, gather};
pub use locked::LockedBook;
pub use naming::Naming;
pub use receipt::{EntryList, JournalReceipt};
pub use record::{AnsweredHold, HoldEnd, Record, Recorded};
pub use share::Share;
pub use unlocked::UnlockedDesk;
