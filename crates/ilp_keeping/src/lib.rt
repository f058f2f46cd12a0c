//! Where the journal of a desk is kept, so that a crash leaves it: what the actors of the desk are
//! given for that.
//!
//! # What is proved
//!
//! - `Keeper` has a member, `told`: the list of what it was asked, with what it said, or nothing.
//!   Each call adds just itself to that list: `keeps` what it said, `keep` the journal that the
//!   receipt had seen, and what it said of it.
//! - What a receipt has seen begins what it has seen after `keep`.
//! - `Forgetful` says that all is kept, and tells nothing.
//! - `SharedKeeper` is a keeper of which each actor has one. What a receipt has seen begins what it has
//!   seen after `mend`.
//!
//! That a journal of which `Ok` was said lies on a disk is no clause of the trait.
#![tactic(auto)]

mod forgetful;
mod keeper;
mod shared;

pub use forgetful::Forgetful;
pub use keeper::{Keeper, NotKept};
pub use shared::SharedKeeper;
