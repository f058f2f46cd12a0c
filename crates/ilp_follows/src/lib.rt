//! Whether the text of a period follows that of the one before.
//!
//! It is judged by the names, the assets and the run that each had, and by no rule of a configuration: a start has judged
//! by these.
//!
//! # What is proved
//!
//! - `follows` answers only where the text before is one of peers of its configuration, its books may be brought forward
//!   to the next peers as far as names, assets and the run say (`specs/Follows.antt`, `MayHandOn`), and the next text is
//!   of the period behind it and begins with just what `ilp_next_period` defines as its head, balances in any order
//!   (`IsFollowedBy`, `BeginWith`). Else the fault names what is wanting (`IsWhyNotFollowed`); of a line or an entry of
//!   the text before that can't be read it says no more, and neither of memory.
#![tactic(auto)]

mod beginning;
mod ended;
mod fault;
mod following;
mod handing_on;
mod judging;
mod lines;
mod reading;

pub use fault::FollowFault;
pub use following::{PeriodText, follows};
