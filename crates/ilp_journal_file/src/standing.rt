//! What stands at the paths of a journal's files.

use crate::fault::FileFault;
use crate::mounts::is_mount_point;
use crate::names::Names;
use ilp_notices::journal_unfit;
use std::alloc::Global;
use std::fs;
use std::fs::Metadata;
use std::io::Eprint;
use std::os::unix::fs::{FileTypeExt, MetadataExt};
use std::rt::Files;
use std::time::Clock;
use thiserror::Error;

/// Why what stands at a path can't be a file of a journal.
#[derive(Clone, Copy, Debug, PartialEq, Eq, Error)]
enum Unfit {
    /// What is locked and logged beside it would not be beside the file that it leads to.
    #[error("it is a symbolic link: give the path of the file that it is to be")]
    Link,
    /// A connector that runs by the other name would lock other files.
    #[error("the file has another name too: remove that one, or put a copy in its place")]
    SecondName,
    #[error("it is a folder")]
    Folder,
    /// Whoever opens it waits for its other end.
    #[error("it is a named pipe: move it away")]
    Pipe,
    #[error("it is a device or a socket: give the path of a file")]
    NoFile,
    /// No other file can take its place.
    #[error("it is a mount point, so what is saved can't take its place: mount the folder that it lies in")]
    Mount,
}

impl Names {
    /// Finds at each of the paths nothing, or a plain file with one name; and that a saved text can take
    /// the journal's place. Where the system doesn't say what stands there, opening it will.
    ///
    /// It is refused as `Unread`, and as `Memory`.
    pub(crate) fn expect_fit<R>(&self, rt: &R, alloc: Global) -> Result<(), FileFault>
    where
        R: Files + Clock + Eprint,
    {
        let journal = self.journal.as_str();
        expect_plain(rt, journal)?;
        expect_plain(rt, self.lock.as_str())?;
        expect_plain(rt, self.running.as_str())?;
        expect_plain(rt, self.new.as_str())?;
        expect_plain(rt, self.log.as_str())?;
        expect_plain(rt, self.log_new.as_str())?;
        expect_plain(rt, self.ended.as_str())?;
        expect_plain(rt, self.next.as_str())?;
        if is_mount_point(rt, alloc, journal)? {
            journal_unfit(rt, journal, Unfit::Mount);
            return Err(FileFault::Unread);
        }
        Ok(())
    }

    /// The rights of the journal's file, as its mode, or those of a new file where there is none.
    pub(crate) fn mode<R: Files>(&self, rt: &R) -> u32 {
        match fs::symlink_metadata(rt, self.journal.as_str()) {
            Ok(metadata) => metadata.mode() & RIGHTS,
            Err(_) => NEW,
        }
    }
}

// Who may read, write and run a file, of its mode.
const RIGHTS: u32 = 0o777;

// The rights that a new file is asked for; the system takes off what its user has set (umask).
const NEW: u32 = 0o666;

/// Finds nothing at the path, or a plain file with one name. Where the system doesn't say what stands there,
/// opening it will.
///
/// It is refused as `Unread`.
pub(crate) fn expect_plain<R: Files + Clock + Eprint>(rt: &R, path: &str) -> Result<(), FileFault> {
    let Ok(metadata) = fs::symlink_metadata(rt, path) else {
        return Ok(());
    };
    match why_unfit(&metadata) {
        None => Ok(()),
        Some(why) => {
            journal_unfit(rt, path, why);
            Err(FileFault::Unread)
        }
    }
}

/// Finds no named pipe at the path, nor behind a link there.
///
/// It is refused as `Unread`.
pub(crate) fn expect_no_pipe<R>(rt: &R, path: &str) -> Result<(), FileFault>
where
    R: Files + Clock + Eprint,
{
    match fs::metadata(rt, path) {
        Ok(metadata) if metadata.file_type().is_fifo() => {
            journal_unfit(rt, path, Unfit::Pipe);
            Err(FileFault::Unread)
        }
        _ => Ok(()),
    }
}

// What is in the way of what stands there, as the system tells it.
fn why_unfit(metadata: &Metadata) -> Option<Unfit> {
    let kind = metadata.file_type();
    if kind.is_symlink() {
        Some(Unfit::Link)
    } else if kind.is_dir() {
        Some(Unfit::Folder)
    } else if kind.is_fifo() {
        Some(Unfit::Pipe)
    } else if !kind.is_file() {
        Some(Unfit::NoFile)
    } else if metadata.nlink() > 1 {
        Some(Unfit::SecondName)
    } else {
        None
    }
}
