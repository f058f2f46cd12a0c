//! What an operator asks of a journal: the statement of a peer's account, of the files as they lie there, also while
//! a connector has them.
//!
//! What files and standard streams give and take, no clause can say: it stands in the comments, and the cases of
//! `scripts/check.py` try it on the program.
//!
//! # What is proved
//!
//! - Of private functions: which peer a name means, of which entries a statement is by two moments, and what a
//!   condition may begin with (`specs/Asked.antt`). Where a time or a condition is refused, that is `Misused`; where a
//!   name is, `Misused` or lack of memory.
//! - Why a statement was not written whole is told as it is: lack of memory, or standard output that failed
//!   (`specs/Faults.antt`).
//! - All else is proved safe, and no more: what a statement has is promised by `ilp_statement`.
#![tactic(auto)]

mod fault;
mod inquiry;
mod naming;
mod printing;
mod spans;

pub use fault::InquiryFault;
pub use ilp_statement_text::Sought;
pub use inquiry::{Form, Inquiry};
pub use printing::print_statement;
