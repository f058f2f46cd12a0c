//! A connector from the paths that it is started with to its end: it begins with what `ilp_starting` finds,
//! runs by `ilp_running` over any number of periods, and its books end in the journal's file.
//!
//! What files, sockets and standard streams give and take, no clause can say: it stands in the comments,
//! and the cases of `scripts/check.py` try it on the program.
//!
//! # What is proved
//!
//! Of private functions:
//!
//! - A connector runs from period to period: the desk of each is closed with a lawful book, and the next one begins
//!   with a book that follows that; or the reason is of the last (`specs/Periods.antt`).
//! - Behind a period come the books of the next one, as `Book::bring_forward` makes them, only where they may
//!   follow; or the same books, opened anew with all that they have (`specs/Following.antt`). The book whose text is
//!   still to be kept is the one that ended.
//! - Where books are kept, the first period begins with a log, and what comes behind each has one.
//! - A configuration that is read again is taken only where the connector's address, its run, where it listens
//!   and its number of workers are the same; else one of them is named that isn't (`specs/Restart.antt`).
//! - The report is that of the book by `ilp_running::write_report`.
//! - All else is proved safe, and no more.
#![tactic(auto)]

mod begun;
mod config_path;
mod ending;
mod followed;
mod journal_periods;
mod keeping;
mod memory_periods;
mod next_books;
mod periods;
mod reading;
mod report;
mod restart;
mod run;
mod serving;
mod telling;

pub use config_path::ReadsConfigs;
pub use keeping::KeepsPeriods;
pub use serving::serve;
