//! The statement of a peer's account as text: lines for a person, and comma-separated values for a spreadsheet.
//!
//! # What is proved
//!
//! - Of the private `listed`: its lines are those of the statement (`lines_of` of `ilp_statement`) that are looked for,
//!   and its balances those before the first and behind the last entry.
//! - `Sought::is` is what the definitions say (`specs/Sought.antt`): the digits of the condition begin with those
//!   that were given, whatever their case, or the key is the one that was given.
//! - `Row::of` tells of a line when its entry was booked, what it is to the peer, the amount at the peer's side
//!   (`specs/Amounts.antt`), the number that it ends, and the condition or the key that it is known by: a settlement's
//!   is the one under which its engine was asked, in this period or an earlier one. It tells the other peer's name, for
//!   which cause a packet's money came back, and for which reason a balance was corrected (`specs/Why.antt`). It is
//!   about a correction just where its entry is one.
//! - Of the private `Totals`: a row is counted in the total of its kind and in no other one, from nothing on; a sum is
//!   exact as long as it fits 128 bits (`specs/Totals.antt`).
//!
//! All else is proved safe. That `put_rows` and `put_records` print just what is listed, and how, rows of tests say
//! (`test_statements`).
#![tactic(auto)]

mod account;
mod amount;
mod extent;
mod fault;
mod key;
mod lines;
mod listing;
mod moment;
mod records;
mod row;
mod rows;
mod shown;
mod sought;
mod totals;

pub use amount::Amount;
pub use extent::Extent;
pub use fault::StatementFault;
pub use key::SettlementKey;
pub use moment::{Moment, moment_of};
pub use records::put_records;
pub use row::{About, Row, Why};
pub use rows::put_rows;
pub use sought::Sought;
