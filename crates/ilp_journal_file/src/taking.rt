//! Taking a journal's file, so that no other connector has it.

use crate::fault::FileFault;
use crate::holding::HeldLock;
use crate::locking::LockFile;
use crate::named_log::NamedLog;
use crate::names::Names;
use crate::placing::PlacesFiles;
use ilp_notices::{Again, journal_in_use, journal_not_locked, left_unsaved, not_made};
use std::alloc::{AllocError, Global};
use std::fs::{File, OpenOptions, TryLockError};
use std::io::Eprint;
use std::rt::Files;
use std::sync::Arc;
use std::thread::sleep;
use std::time::{Clock, Duration};
use std::{fs, io};

// How often a lock that another has is tried again, and the milliseconds before each time: who looks at
// the journal (`look_at`) has it for a moment.
const TRIES: u32 = 10;

const REST: u64 = 50;

/// A journal's file, which no other connector has while this lives.
#[derive(Drop)]
pub struct JournalFile<F = File> {
    pub(crate) names: Names,
    /// Who does again what can't be written, as lines tell it.
    pub(crate) again: Again,
    /// Which file is locked.
    pub(crate) held: HeldLock,
    /// Which file its log is.
    pub(crate) named: Arc<NamedLog, Global>,
    // The system unlocks it when it is closed, however the program ends.
    lock: F,
}

impl<F: LockFile> JournalFile<F> {
    /// Takes the journal at this path, which need not be there yet. `J.lock` is made where it is not
    /// there, and stays.
    ///
    /// Refusals: `Unwritten` where the path is empty, or `J.lock` can't be made; `Unread` where what stands
    /// at the journal's path or beside it is no plain file with one name, or is a mount point, the journal is
    /// the kept text of a period that has ended, another connector has it, or `J.running` is there; `Memory`.
    pub fn take<R>(rt: &R, alloc: Global, path: &str) -> Result<JournalFile<F>, FileFault>
    where
        R: Files<File = F> + PlacesFiles<File = F> + Clock + Eprint,
    {
        let names = Names::of(alloc, path)?;
        names.expect_named(rt)?;
        names.expect_fit(rt, alloc)?;
        names.expect_not_kept(rt)?;
        let lock = match open_lock(rt, names.lock.as_str()) {
            Ok(lock) => lock,
            Err(error) => {
                not_made(rt, names.lock.as_str(), &error);
                return Err(FileFault::Unwritten);
            }
        };
        names.expect_locked(rt, lock_patiently(rt, &lock))?;
        let held = names.held_by(rt, &lock)?;
        names.expect_saved(rt)?;
        if let Ok(true) = fs::exists(rt, names.new.as_str()) {
            left_unsaved(rt, names.new.as_str());
        }
        Ok(JournalFile {
            names,
            again: Again::ByCommand,
            held,
            named: NamedLog::shared(alloc)?,
            lock,
        })
    }
}

impl<F> JournalFile<F> {
    /// The same for a connector that serves: what it can't write it does again by itself, and lines say so.
    pub fn serving(self) -> JournalFile<F> {
        let JournalFile {
            names,
            again: _,
            held,
            named,
            lock,
        } = self;
        JournalFile {
            names,
            again: Again::ByItself,
            held,
            named,
            lock,
        }
    }
}

impl JournalFile<()> {
    /// The files of a journal at this path of which another value of this process holds the lock.
    pub fn held_elsewhere(
        alloc: Global,
        path: &str,
        held: HeldLock,
    ) -> Result<JournalFile<()>, AllocError> {
        let names = Names::of(alloc, path)?;
        Ok(JournalFile {
            names,
            again: Again::ByItself,
            held,
            named: NamedLog::shared(alloc)?,
            lock: (),
        })
    }

    /// The files of a journal at this path that is only read: nothing of it can be changed.
    pub fn untaken(alloc: Global, path: &str) -> Result<JournalFile<()>, AllocError> {
        let names = Names::of(alloc, path)?;
        Ok(JournalFile {
            names,
            again: Again::ByCommand,
            held: HeldLock::NONE,
            named: NamedLog::shared(alloc)?,
            lock: (),
        })
    }
}

impl Names {
    // What is held by whoever has locked this file, which lay at the lock's path.
    //
    // It is refused as `Unread` where another lies there now, and where the system doesn't say which it is.
    fn held_by<R: PlacesFiles + Clock + Eprint>(
        &self,
        rt: &R,
        lock: &R::File,
    ) -> Result<HeldLock, FileFault> {
        let held = match rt.identity(lock) {
            Ok(identity) => HeldLock::of(identity),
            Err(error) => {
                journal_not_locked(rt, self.lock.as_str(), &error);
                return Err(FileFault::Unread);
            }
        };
        match held.is_at(rt, self.lock.as_str()) {
            Ok(true) => return Ok(held),
            Ok(false) => journal_in_use(rt, self.journal.as_str()),
            Err(error) => journal_not_locked(rt, self.lock.as_str(), &error),
        }
        Err(FileFault::Unread)
    }

    /// Finds that a lock was had.
    ///
    /// It is refused as `Unread` where it wasn't.
    pub(crate) fn expect_locked<R: Clock + Eprint>(
        &self,
        rt: &R,
        locked: Result<(), TryLockError>,
    ) -> Result<(), FileFault> {
        match locked {
            Ok(()) => Ok(()),
            Err(TryLockError::WouldBlock) => {
                journal_in_use(rt, self.journal.as_str());
                Err(FileFault::Unread)
            }
            Err(TryLockError::Error(error)) => {
                journal_not_locked(rt, self.lock.as_str(), &error);
                Err(FileFault::Unread)
            }
        }
    }
}

// Locks a file, also where another has it for a moment.
fn lock_patiently<R: Clock, F: LockFile>(rt: &R, lock: &F) -> Result<(), TryLockError> {
    for _try in 0..TRIES {
        match lock.try_lock_alone() {
            Err(TryLockError::WouldBlock) => sleep(rt, Duration::from_millis(REST)),
            outcome => return outcome,
        }
    }
    lock.try_lock_alone()
}

// The file that is locked, with what it has in it.
fn open_lock<R: Files>(rt: &R, path: &str) -> io::Result<R::File> {
    OpenOptions::new().write(true).create(true).open(rt, path)
}
