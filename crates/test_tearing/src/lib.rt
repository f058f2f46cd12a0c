//! A file in memory of which a crash leaves what was synced, and any pieces of what was not.
//!
//! # What is proved
//!
//! - `TearingFile` meets each clause of `ilp_line_file::Device`, and claims to. So they can all be met by a file
//!   that loses octets (`specs/Tearing.antt` says what a crash may leave of it).
//! - What `TearingFile::left` makes, for the tests, is of what a crash may leave.
//!
//! The tests crash a file of lines in each of its calls, with some losses each, and recover it.
#![tactic(auto)]

mod change;
mod disk;
mod loss;
mod stops;
mod tearing_file;
#[cfg(test)]
mod tests;

pub use loss::Loss;
pub use stops::Stops;
pub use tearing_file::TearingFile;
