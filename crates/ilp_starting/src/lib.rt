//! With what a connector starts: its configuration, the book that it begins with, and the journal's file,
//! in which that is kept.
//!
//! What files, sockets and standard streams give and take, no clause can say: it stands in the comments,
//! and the cases of `scripts/check.py` try it on the program.
//!
//! # What is proved
//!
//! - `book_of`: where there is no text of a journal a connector begins with a new book, else with
//!   the one as which that text is carried over at a time. Behind a text that a log beside it goes on
//!   from, the log's lines are recovered with it; a log of another text is passed over only where the
//!   journal has all that it has. Where it is refused, the refusal names why
//!   (`specs/Beginning.antt`, `BeginsBy`, `IsWhyNotBegunBy`). It tells where the entries come from
//!   (`specs/Sources.antt`).
//! - Of the private `found_book`: of what is found it is the book of `book_of` at some time, and none is taken by
//!   another run or asset than is remembered, as far as something hangs on them; behind a sudden stop the log's head
//!   says what is (`specs/Finding.antt`, `specs/Remembering.antt`). That all is found which the files have, no clause
//!   says.
//! - The text that `keep_ended` keeps of a period has the journal's entries and behind them the log's lines
//!   (`specs/Ended.antt`, `IsWholeText`), of a log that goes on from that text. By `whole_text` it is the text of all
//!   these entries. `Saved`, as which `keep_set_aside` writes a period, puts the text of its book. A log that was set
//!   aside is over only where the journal's text has what it has, a text of an earlier period does, or it has nothing
//!   (`IsOver`); which file that text is of, no clause says.
//! - `config_of`: the configuration of the octets, or the refusal by their first fault or for want of
//!   memory (`specs/Configuring.antt`).
//! - `book_at` and `written_book_at` have such a book of some text and some log, and tell where its entries come from, or
//!   how many of them stand there.
//! - All else is proved safe, and no more.
#![tactic(auto)]

mod book_file;
mod carrying;
mod configuring;
mod ended;
mod expecting;
mod finding;
mod host;
mod last_one;
pub mod laws;
mod not_carried;
mod recovered;
mod refused;
mod remembering;
mod saved;
mod warning;
mod whole_period;
mod written;

pub use book_file::{Begun, BookFile};
pub use carrying::{Carried, Source, book_of, new_book};
pub use configuring::{config_octets, config_of, configured, noticed};
pub use ended::{keep_ended, keep_set_aside};
pub use finding::book_at;
pub use host::Host;
pub use ilp_journal_file::PlacesFiles;
pub use refused::{Refused, RunFault};
pub use saved::Saved;
pub use warning::{JournalWarnings, Telling, tell_warnings};
pub use written::{WrittenBook, written_book_at};
