//! A list that only grows, and tokens of those who have seen a beginning of it. It exists in proofs
//! alone, and costs a word of memory.
//!
//! What is kept under a lock is lost to a contract once the lock is free. A token is not: who has one
//! knows of any later state of the list that it begins with what was seen.
//!
//! # What is proved
//!
//! - A `GrownList` is empty when it gets its name, and `grow` makes it what is told, which goes on from
//!   what it was.
//! - A `Seen` keeps a beginning of the list of its name: `seen` gives one of all of the list, and
//!   `check` and `show` tell that it begins the list, whatever was done in between.
#![tactic(auto)]

mod law;
mod list;

pub use law::{ListNaming, Tells};
pub use list::{GrownList, NewList, Seen};
