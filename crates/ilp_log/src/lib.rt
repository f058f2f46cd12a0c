//! The log of a desk: a file to which its entries are written in groups, with one sync for each, before
//! anybody is told of them.
//!
//! The file begins with some first lines (its head), and then has a line for each entry, as in the
//! journal's text. The first entries, up to a number that is its base, stand elsewhere: in the journal
//! that was saved.
//!
//! # What is proved
//!
//! Of the file what follows is said where its device claims what `ilp_line_file::Device` says. Of any
//! other, as a file of the system, it is only tested.
//!
//! - A `Log` keeps that its file has the first so many entries of the desk's journal, and that a crash
//!   now leaves these at least, and none that the desk hadn't booked.
//! - `Log::commit` is `Ok` only where all entries that the receipt had seen are on the disk. A crash at
//!   any moment of `OpenLog::commit` leaves what was written before it, and a beginning of the desk's
//!   journal.
//! - A `Kept` is a token of what was told. `OpenLog::find` tells, whenever it is called later: a crash at
//!   any moment since the telling left all the lines that were told, and none that aren't the desk's.
//! - `OpenLog::commit_all` is `Ok` only where all of a desk's entries are on the disk.
//! - Once a call of the device has failed, each commit fails. `OpenLog::mend` writes the whole log anew then,
//!   into a new file that takes the place of this one, and goes on behind it: a crash at any moment of that
//!   leaves what was written before, and a beginning of the desk's journal, as one of a commit does.
//! - `Log::commit` tells the same of one who waited for another's sync. That its threads write in turns, that each
//!   who waits is called, and that nobody waits for a log that is mended, is order and time, of which no clause
//!   speaks (`Turns`).
//! - `log_texts_have_the_lines_of_journal_texts`: behind its head a log's text is the lines that the
//!   journal's text has of the same entries.
#![tactic(auto)]

mod ack;
mod fault;
mod group;
mod kept;
pub mod laws;
mod log;
mod naming;
mod open_log;
mod pass;
mod renewing;
mod start;
mod turns;

pub use ack::{Ack, OnDisk};
pub use fault::LogFault;
pub use kept::Kept;
pub use log::Log;
pub use naming::LogNaming;
pub use open_log::OpenLog;
pub use start::{BegunLog, LogStart};
