//! The statement of a peer's account: which entries of a book's journal are the peer's, what each did to
//! its balance, and what that was before the first and behind the last of them.
//!
//! # What is proved
//!
//! - `Statement::of` lists the peer's entries between two numbers, each with the balance of all entries up to
//!   it (`specs/Statement.antt`): `lines_of`, and the balances before and behind.
//! - `hold_at` and `ask_at` tell what stands under a number.
//! - `number_from` is the number of the first entry that is not before a moment.
#![tactic(auto)]

mod kind;
mod line;
mod moves;
mod standing;
mod statement;
mod times;

pub use kind::Kind;
pub use line::Line;
pub use standing::{ask_at, hold_at};
pub use statement::Statement;
pub use times::number_from;
