//! Scripts, replayed over a new book: what their lines print, from any reader to any writer, and which are
//! bad, and why.
//!
//! # What is proved
//!
//! - `replay`, where Ok, read its reader to the end and wrote exactly the text that the definitions
//!   give of it (`specs/Replay.antt`): lines are run in turn by the steps of a new book of the
//!   configuration, and each reply is printed. Where it stopped, it wrote a front of that text;
//!   after 61 and 65 nothing.
//! - `replay` reads at most 1,048,577 times. 61 `ReadFault` comes just where a read failed, 64
//!   `WriteFault` just where a write failed or took no octet, 65 `ScriptTooLong` only after
//!   1,048,577 octets, which never give Ok.
//! - `bad_lines` names just the lines of a script that are bad, by number (`specs/BadLines.antt`);
//!   which of their fields is wrong is tested.
//! - `laws`: a line is bad just where it prints `bad line`, whatever the book has. A script's lines
//!   book what a list of the book's six calls books, each by the actor 0 and within its conditions.
//!   So the book that a script leaves is lawful.
//! - `ReplayFault::refusal` is each fault's.
#![tactic(auto)]

mod form;
pub mod laws;
mod line;
mod line_faults;
mod lines;
mod reply;
mod runner;

pub use line_faults::{BadLine, Command, LineFault, Part, bad_lines};
pub use runner::{ReplayFault, SCRIPT_LIMIT, replay};
