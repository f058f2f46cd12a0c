//! What a journal comes to, kept beside it: what each peer is owed and has open, and the books of
//! each asset. Each entry is added once, and each number is read without going over entries.
//!
//! # What is proved
//!
//! - `AreTallies` says what tallies of a journal are: each number is what `ilp_journal`'s
//!   definitions make of the journal, for every peer and every asset.
//! - `Tallies::new` is the tallies of a journal of no entries, by the list of the peers' assets and
//!   a base.
//! - `set_base` moves the base of tallies whose journal lies before both, and `end_totals` that of any,
//!   to one behind its journal.
//! - `apply` makes the tallies of a journal those of the journal with one more entry, for a journal
//!   and an entry that answer only open holds, close only open settlements and name only listed
//!   peers. It takes no memory.
//! - Each reader tells one number of every journal that has these tallies.
//! - Of all tallies `balance`, `bought` and `settled` are within 2^96 of 0; `held`, `fees`, `sold`,
//!   `total_in` and `total_out` are from 0 to 2^96.
#![tactic(auto)]

mod asks;
mod open_asks;
mod rows;
mod step;
mod tallies;

pub use open_asks::MOST_OPEN;
pub use tallies::Tallies;
