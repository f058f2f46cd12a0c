//! What a running connector looks at of its journal's files beside what it writes.

use crate::holding::HeldLock;
use crate::named_log::NamedLog;
use crate::placing::PlacesFiles;
use crate::taking::JournalFile;
use ilp_notices::journal_lost;
use std::alloc::{AllocError, Global};
use std::io::{Eprint, ErrorKind};
use std::sync::Arc;
use std::time::Clock;

/// The files of a journal that is had, for a thread that looks at them beside those who write.
#[derive(Drop)]
pub struct JournalWatch {
    journal: String,
    lock: String,
    log: String,
    held: HeldLock,
    named: Arc<NamedLog, Global>,
}

impl<F> JournalFile<F> {
    /// Its files, to be looked at by another thread.
    pub fn watch(&self, alloc: Global) -> Result<JournalWatch, AllocError> {
        let names = &self.names;
        Ok(JournalWatch {
            journal: String::from_str(alloc, names.journal.as_str())?,
            lock: String::from_str(alloc, names.lock.as_str())?,
            log: String::from_str(alloc, names.log.as_str())?,
            held: self.held,
            named: Arc::try_clone(&self.named)?,
        })
    }
}

impl JournalWatch {
    /// Whether the journal is still had, as far as the system says. Where it isn't a line says so, each time.
    pub fn has_journal<R: PlacesFiles + Clock + Eprint>(&self, rt: &R) -> bool {
        match self.held.is_at(rt, self.lock.as_str()) {
            Ok(false) => {
                journal_lost(rt, self.journal.as_str(), self.lock.as_str());
                false
            }
            _ => true,
        }
    }

    /// Whether the file that was given the log's name last lies there, as far as the system says.
    pub fn has_log<R: PlacesFiles>(&self, rt: &R) -> bool {
        match rt.look(self.log.as_str()) {
            Ok(there) => self.named.is(there.identity),
            Err(error) => error.kind() != ErrorKind::NotFound || !self.named.is_there(),
        }
    }
}
