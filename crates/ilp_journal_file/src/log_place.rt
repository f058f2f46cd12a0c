//! Where a log lies.

use crate::holding::HeldLock;
use crate::named_log::NamedLog;
use crate::placing::PlacesFiles;
use ilp_accounts::LogSync;
use std::alloc::Global;
use std::io;
use std::io::ErrorKind;
use std::sync::Arc;

/// Where a log lies, and what it may be.
#[derive(Drop)]
pub(crate) struct LogPlace {
    /// The path of its journal, as lines tell it.
    pub(crate) journal: String,
    /// Its path, likewise.
    pub(crate) path: String,
    /// What is written, and then takes its place.
    pub(crate) new: String,
    /// What is locked by whoever has the journal.
    pub(crate) lock: String,
    pub(crate) held: HeldLock,
    /// Which file it is.
    pub(crate) named: Arc<NamedLog, Global>,
    pub(crate) folder: String,
    /// The rights of its file.
    pub(crate) mode: u32,
    /// The most octets that it may have.
    pub(crate) most: u64,
    /// When its lines reach the disk.
    pub(crate) sync: LogSync,
}

impl LogPlace {
    /// Where a new file lies, the name that it takes, and the folder of both.
    pub(crate) fn renaming(&self) -> (&str, &str, &str) {
        (self.new.as_str(), self.path.as_str(), self.folder.as_str())
    }

    /// Finds that the file that is locked lies at the lock's path.
    pub(crate) fn expect_held<R: PlacesFiles>(&self, rt: &R) -> io::Result<()> {
        match self.held.is_at(rt, self.lock.as_str())? {
            true => Ok(()),
            false => Err(io::Error::from(ErrorKind::ResourceBusy)),
        }
    }
}
