//! Periods of a journal that no connector has: closing the books of one and beginning the next, and whether one
//! follows another, or each of a chain the one before.
//!
//! What files give and take, no clause can say: it stands in the comments, and the cases of `scripts/check.py` try it
//! on the program.
//!
//! # What is proved
//!
//! - `next_of`: the book of the next period is the one that `Book::bring_forward` makes at the moment of the last
//!   entry, so the same books give the same text whenever they are closed; or the refusal names why there is none.
//! - What is judged of two texts of a chain is what `ilp_follows::follows` answers. That all texts are found, and what
//!   is read of the file that names their peers, no clause says.
//! - All else is proved safe, and no more.
#![tactic(auto)]

mod beginning;
mod boundary;
mod chain;
mod closing;
mod following;
mod kept_before;
mod left_out;
mod printing;
mod remembered;

pub use beginning::next_of;
pub use chain::follows_all;
pub use closing::{Kept, keep_behind, new_period};
pub use following::follows;
