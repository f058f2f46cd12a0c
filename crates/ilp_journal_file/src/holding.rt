//! Whether whoever has a journal still has it.

use crate::fault::FileFault;
use crate::names::Names;
use crate::placing::{FileIdentity, PlacesFiles};
use crate::taking::JournalFile;
use ilp_notices::{journal_lost, journal_unread, log_left};
use std::io;
use std::io::{Eprint, ErrorKind};
use std::rt::Files;
use std::time::Clock;

/// Which file is locked by whoever has a journal. As long as it lies at the lock's path, nobody else has the journal.
#[derive(Clone, Copy, PartialEq, Eq)]
pub struct HeldLock {
    // None where nothing is locked.
    identity: Option<FileIdentity>,
}

impl HeldLock {
    /// Nothing is locked: nothing of the journal may be changed.
    pub(crate) const NONE: HeldLock = HeldLock { identity: None };

    /// This file is locked.
    pub(crate) fn of(identity: FileIdentity) -> HeldLock {
        HeldLock {
            identity: Some(identity),
        }
    }

    /// Whether the file that is locked lies at the path, as far as the system says.
    pub(crate) fn is_at<R: PlacesFiles>(self, rt: &R, path: &str) -> io::Result<bool> {
        match rt.look(path) {
            Ok(there) => Ok(self.identity == Some(there.identity)),
            Err(error) if error.kind() == ErrorKind::NotFound => Ok(false),
            Err(error) => Err(error),
        }
    }
}

impl Names {
    /// Finds that the file that is locked lies at the lock's path.
    ///
    /// It is refused as `Unread` where it doesn't, or the system doesn't say, and a line says so.
    pub(crate) fn expect_held<R>(&self, rt: &R, held: HeldLock) -> Result<(), FileFault>
    where
        R: PlacesFiles + Clock + Eprint,
    {
        let (journal, lock) = (self.journal.as_str(), self.lock.as_str());
        match held.is_at(rt, lock) {
            Ok(true) => return Ok(()),
            Ok(false) => journal_lost(rt, journal, lock),
            Err(error) => journal_unread(rt, lock, &error),
        }
        Err(FileFault::Unread)
    }

    /// Removes a file of the journal that is needed no more, as `remove` does.
    ///
    /// It is refused as `Unread` where the file that is locked doesn't lie at the lock's path, and as `Unwritten` where
    /// it can't be removed or the system doesn't say. A line says which.
    pub(crate) fn remove_held<R>(&self, rt: &R, held: HeldLock, path: &str) -> Result<(), FileFault>
    where
        R: Files + PlacesFiles + Clock + Eprint,
    {
        let (journal, lock) = (self.journal.as_str(), self.lock.as_str());
        match held.is_at(rt, lock) {
            Ok(true) => self.remove(rt, path),
            Ok(false) => {
                journal_lost(rt, journal, lock);
                Err(FileFault::Unread)
            }
            Err(error) => {
                log_left(rt, path, &error);
                Err(FileFault::Unwritten)
            }
        }
    }
}

impl<F> JournalFile<F> {
    /// What is locked of it.
    pub fn held(&self) -> HeldLock {
        self.held
    }

    /// Whether it is known that another may have it by now.
    pub fn is_lost<R: PlacesFiles>(&self, rt: &R) -> bool {
        matches!(self.held.is_at(rt, self.names.lock.as_str()), Ok(false))
    }

    /// Finds that it is still had, before a file of it takes another's place or goes: somebody may have removed or
    /// replaced the file that is locked, so that another connector has the journal.
    ///
    /// It is refused as `Unread` where it isn't, and a line says so.
    pub(crate) fn expect_held<R>(&self, rt: &R) -> Result<(), FileFault>
    where
        R: PlacesFiles + Clock + Eprint,
    {
        self.names.expect_held(rt, self.held)
    }
}
