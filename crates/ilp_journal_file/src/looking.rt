//! What a start would find, found without changing anything.

use crate::fault::FileFault;
use crate::locking::LockFile;
use crate::names::Names;
use crate::reading::read;
use ilp_notices::{journal_unread, not_made};
use std::alloc::Global;
use std::fs;
use std::io::{Eprint, ErrorKind};
use std::rt::Files;
use std::time::Clock;

/// What a start finds of a journal.
#[derive(Drop)]
pub struct Found {
    /// Its text, or nothing where there is no file.
    pub text: Option<Vec<u8>>,
    /// The text of `J.log`, or nothing where there is no file.
    pub log: Option<Vec<u8>>,
    /// What an earlier start had `J.lock` keep, or nothing.
    pub remembered: Vec<u8>,
}

/// What a start over the journal at this path would find. No file is made or changed, so whether one may
/// be made is not found out.
///
/// Refusals: `Unread` where `JournalFile::take`, `read`, `read_log` or `remembered` would be refused by it;
/// `Unwritten` where the path is empty or the folder is not there; `Memory`.
pub fn look_at<R>(rt: &R, alloc: Global, path: &str) -> Result<Found, FileFault>
where
    R: Files + Clock + Eprint,
    R::File: LockFile,
{
    let names = Names::of(alloc, path)?;
    names.expect_named(rt)?;
    names.expect_fit(rt, alloc)?;
    names.expect_not_kept(rt)?;
    if let Err(error) = fs::metadata(rt, names.folder()) {
        not_made(rt, names.lock.as_str(), &error);
        return Err(FileFault::Unwritten);
    }
    names.expect_unused(rt)?;
    names.expect_saved(rt)?;
    let remembered = names.remembered(rt, alloc)?;
    let text = read(rt, alloc, names.journal.as_str())?;
    let log = read(rt, alloc, names.log.as_str())?;
    Ok(Found {
        text,
        log,
        remembered,
    })
}

impl Names {
    // Finds no connector that has the journal. Its lock is had for a moment beside others that look, which is in no
    // start's way: that tries again.
    fn expect_unused<R>(&self, rt: &R) -> Result<(), FileFault>
    where
        R: Files + Clock + Eprint,
        R::File: LockFile,
    {
        match fs::open(rt, self.lock.as_str()) {
            Ok(lock) => self.expect_locked(rt, lock.try_lock_beside()),
            Err(error) if error.kind() == ErrorKind::NotFound => Ok(()),
            Err(error) => {
                journal_unread(rt, self.lock.as_str(), &error);
                Err(FileFault::Unread)
            }
        }
    }
}
