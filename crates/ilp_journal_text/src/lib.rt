//! The text of a journal, in which it is kept from one run of the connector to the next.
//!
//! The first line is `ilp-journal 1`, or that of a period above 0 `ilp-journal 2` with its number. The
//! last one is `end` with the number of entries, and between them stands a line for each entry. Peers
//! are named by their names, so a text is read by a configuration. Lines of entries may stand behind a
//! text, as those of entries that were booked since it was saved. What is brought forward from an
//! earlier period stands only in the text of a period above 0, and in no line behind it.
//!
//! # What is proved
//!
//! - `put_journal` writes exactly the text of a period with a journal, by a configuration
//!   (`specs/Text.antt`, `journal_text`). Where a write fails or takes no octet it wrote a front of
//!   the text, and not all of it. It has no allocator. Where it wrote all, the numbers of the
//!   entries are of the types that a text allows (`IsTyped`).
//! - `JournalText::begin` and `next` read a text, an entry at a time (`specs/Reading.antt`): what
//!   is answered is the entry of the next line, which can stand in a text of the configuration and of
//!   the text's period; at the end line, none; and else the number of a line that no text has there.
//!   `next` takes memory for a key alone.
//! - `entry_line` is the line of an entry. It is one line, without NUL. It has no allocator.
//! - `JournalLines::begin` and `next` read lines that stand behind a text, of which a last one without
//!   its end is bad (`AreLinesOf`, `IsFirstBadEntryLine`).
//! - `one_journal`: by a valid configuration no text stands for two journals, nor for two periods.
//!   `one_first_bad_line`: a text that stands for one has no bad line, and no text has two first
//!   bad lines.
//! - `one_list` and `one_first_bad_entry_line` say the same of lines. `beginnings_of_lines`: whole lines
//!   that begin the lines of entries are those of the first entries.
//! - `laws`: worked texts, with each kind of entry and each cause.
#![tactic(auto)]

mod entry;
mod fields;
pub mod laws;
mod line;
mod parsing;
mod reading;
mod writing;

pub use entry::entry_line;
pub use line::Line;
pub use reading::{JournalLines, JournalText, TextFault};
pub use writing::put_journal;
