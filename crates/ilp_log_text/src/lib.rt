//! The text of a log's file, which stands beside the file of a journal: which text of the journal
//! it goes on from, what is remembered of the run, and the lines of the entries that were booked
//! since.
//!
//! The first line is `ilp-log 1 COUNT DIGEST`: how many entries the journal's text has that the
//! log goes on from, and that text's SHA-256 digest (FIPS 180-4) in hexadecimal digits; where
//! there is no text yet, 0 and the digest of nothing. The second line has the lines that
//! `ilp_remembered` keeps of the run and of each peer, with `; ` between them. Then comes a line
//! for each entry, as in the journal's text. What a crash left behind the last whole line, and
//! from a NUL octet on, is no line.
//!
//! # What is proved
//!
//! - `head_text` is the first two lines (`specs/Head.antt`, `head_lines`). Neither has a NUL or a
//!   line end within it, so a file that begins with them begins with two lines (`AreLines` of
//!   `ilp_line_file`).
//! - `LogText::read` reads the octets of a file just where its lines begin with two such lines
//!   (`specs/Text.antt`, `IsLogText`); else it says which of the two is the first that is missing
//!   or bad (`IsBadHead`). `one_log_text`: no file has two readings, and none a reading and a bad
//!   line.
//! - `is_of` says whether this is the text that a log goes on from: whether its digest is the
//!   log's.
//! - `is_in` says whether a later text of the journal, of whatever period, has the log's lines from
//!   the number `count` on (`IsIn`). `later_text`: where it has the entries, it has the lines.
//! - `remembered_in` is the text that `ilp_remembered::change_of` reads of the second line.
//!   `same_text`: of the second line of a valid configuration it is the text that is remembered
//!   of it.
//! - `laws`: worked lines.
//!
//! Only want of memory is refused, but by `read`, which takes none. That `head_text` is given the
//! number of the text's entries, its caller sees to: nothing here counts them.
#![tactic(auto)]

mod first_line;
mod head;
pub mod laws;
mod lines;
mod reading;
mod remembering;

pub use head::head_text;
pub use reading::{BadHead, LogText};
pub use remembering::remembered_in;

#[cfg(test)]
mod tests;
