//! Copies of a journal's files that are one moment's, also while a connector has them.
//!
//! A running connector ends its periods by calls one behind the other: it sets the log aside, begins another, and has
//! other files take the names of the first. Whoever copies one file behind the other meanwhile may get some of before
//! and some of behind that. So here each file is opened, the journal first, and copied; then it is looked at what lies
//! at each name, at the journal's last. Where each name still has the file that was opened, all of them lay there at
//! one moment; else it is done again. A file that is open is no other one's number, so none passes for another.
//!
//! A log only grows, so its copy is a front of it, with all that it had as the backup began, and may end within a line,
//! as a crash leaves one.
//!
//! A log that was set aside is taken back where no next period could begin, and then the journal is written anew before
//! anything is booked: so what was copied by then had all.
//!
//! What files give and take, no clause can say: it stands in the comments. The cases of `scripts/check.py` make backups
//! while periods end.
//!
//! # What is proved
//!
//! - `stands_still`: whether two looks saw the same of each name (`specs/Moment.antt`, `StandsStill`).
//! - `laws::what_stands_still_lay_there`: what two looks see alike lay there at each moment between them, where the
//!   journal is looked at first and last, and no name gets back what it had as long as the journal is the same file
//!   (`GoesOneWay`). That files go so, no clause says.
//! - All else is proved safe, and no more.
#![tactic(auto)]

mod backing_up;
mod copies;
mod held;
pub mod laws;
mod seen;
mod source;

pub use backing_up::{back_up, print_backup};
pub use seen::{Part, Places, Seen, stands_still};
