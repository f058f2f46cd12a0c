//! The closing of a period's books: what is handed to the next period, by a configuration that may be
//! another one, and what forbids it. `Book::bring_forward` of `ilp_book` is made of this.
//!
//! # What is proved
//!
//! - `EndingPeriod::bring_forward` answers what the book of the next period begins with
//!   (`specs/NextPeriod.antt`, `next_book`): each balance, each kept key and each open settlement, and
//!   nothing else; and only where the period may follow (`MayFollow`) and there is room. Else it tells
//!   which of these is wanting (`IsWhyNotClosed`), or that memory is short.
//! - `forward_is_lawful`: by valid configurations the next book is lawful, with no hold open.
//! - `peers_are_brought_forward`: each peer, by its name, has the same balance, keys and open
//!   settlements; `new_peers_have_nothing`: a new one none.
//! - `books_are_brought_forward`: of each asset the balances come to the same, and that is what was
//!   settled in it.
#![tactic(auto)]

mod ending_period;
mod forward_fault;
pub mod periods;
mod settlement_key;

pub use ending_period::EndingPeriod;
pub use forward_fault::ForwardFault;
