//! Where a log begins.

use ilp_line_file::{Device, LineFile};

/// Where a log begins: what its file has before the lines of entries, and the number of the first entry
/// that has a line there.
#[derive(Drop)]
pub struct LogStart {
    /// The text of its head: whole lines, each with its line feed.
    pub head: Vec<u8>,
    /// How many entries stand elsewhere, in the journal that was saved.
    pub base: u32,
}

/// The file of a log with which a connector begins. It has its head alone, and the entries are written behind it.
#[derive(Drop)]
pub struct BegunLog<D: Device + Drop> {
    /// The file.
    pub file: LineFile<D>,
    /// Its head, and how many entries stand elsewhere. The log goes on from them.
    pub start: LogStart,
}
