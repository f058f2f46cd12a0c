//! A file of lines that survives a crash: it grows at its end, on a disk that may lose what was not
//! synced.
//!
//! `Device` says what such a disk does: of a write that isn't synced a crash leaves each octet as it
//! was or as it is written, and past the old end zeros or nothing. That a file of the system does so, no
//! clause can say. So each device tells whether it is claimed (`claims`).
//!
//! # What is proved
//!
//! Of a device of which it is claimed:
//!
//! - The lines of a file (`recovered`) are the whole lines before its first NUL octet. What else a
//!   crash leaves behind them is no line. `end_of` says where they end.
//! - `LineFile::append` puts whole lines behind those that are there, with one write and one sync. A
//!   crash at any moment of it leaves the lines from before, and a beginning of the new ones. At Ok
//!   all of them are on the disk.
//! - `LineFile::reserve` writes zeros ahead, and `recover` reads the lines and cuts off what stands
//!   behind them. A crash at any moment of either leaves the same lines.
//! - `LineFile::take_place` has a new file of lines take its place: a crash at any moment of it leaves
//!   what it might have left before, or all of the new one.
//! - After `recover` the file is ready to grow, and its text is that of its lines.
//! - `Failed` is answered only where the disk failed, and a fault of the disk is counted.
#![tactic(auto)]

mod device;
mod line_file;
mod memory;

pub use device::{Device, DeviceFault};
pub use line_file::{LineFile, end_of, recover};
pub use memory::MemoryDevice;

#[cfg(test)]
mod tests;
