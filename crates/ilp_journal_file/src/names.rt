//! The names of the files.
ghost use Rattle.std.specs.Prelude.{◌≡◌, ◌++◌, codes, string_bytes, IfOk};
ghost use Rattle.std.specs.Fmt.{decimal};

use crate::fault::FileFault;
use ilp_notices::not_made;
use std::alloc::{AllocError, Global};
use std::fs::OpenFile;
use std::io::{Eprint, ErrorKind};
use std::path::Path;
use std::rt::Files;
use std::time::Clock;
use std::{fs, io};

/// The names of a journal's file and of those that stand beside it.
#[derive(Drop)]
pub(crate) struct Names {
    /// The journal.
    pub(crate) journal: String,
    /// What is written, and then takes the journal's place.
    pub(crate) new: String,
    /// What a connector locks for as long as it has the journal.
    pub(crate) lock: String,
    /// What a connector's entries are written to as they come.
    pub(crate) log: String,
    /// What a log begins as, and then takes its place.
    pub(crate) log_new: String,
    /// The log of a period that has ended, until the text of that is kept.
    pub(crate) ended: String,
    /// What the journal begins the next period with, until it takes the journal's place.
    pub(crate) next: String,
    /// The mark of a connector of an earlier version, which had no log.
    pub(crate) running: String,
}

impl Names {
    /// The names for a journal at this path.
    pub(crate) fn of(alloc: Global, path: &str) -> Result<Names, AllocError>
        ensures journal { IfOk result (λ names. string_bytes names.journal ≡ path.now) }
        ensures new { IfOk result (λ names. string_bytes names.new ≡ path.now ++ codes ".new") }
        ensures lock { IfOk result (λ names. string_bytes names.lock ≡ path.now ++ codes ".lock") }
        ensures log { IfOk result (λ names. string_bytes names.log ≡ path.now ++ codes ".log") }
        ensures log_new { IfOk result (λ names.
            string_bytes names.log_new ≡ path.now ++ codes ".log.new") }
        ensures ended { IfOk result (λ names. string_bytes names.ended ≡ path.now ++ codes ".ended") }
        ensures next { IfOk result (λ names. string_bytes names.next ≡ path.now ++ codes ".next") }
        ensures running { IfOk result (λ names.
            string_bytes names.running ≡ path.now ++ codes ".running") }
    {
        Ok(Names {
            journal: format!(in alloc; "{path}")?,
            new: beside(alloc, path, ".new")?,
            lock: beside(alloc, path, ".lock")?,
            log: beside(alloc, path, ".log")?,
            log_new: beside(alloc, path, ".log.new")?,
            ended: beside(alloc, path, ".ended")?,
            next: beside(alloc, path, ".next")?,
            running: beside(alloc, path, ".running")?,
        })
    }

    /// The name of the file in which the text of a period is kept that has ended.
    pub(crate) fn period(&self, alloc: Global, period: u32) -> Result<String, AllocError>
        ensures { IfOk result (λ name. string_bytes name
            ≡ string_bytes self.now.journal ++ (codes "." ++ decimal period)) }
    {
        let journal = self.journal.as_str();
        format!(in alloc; "{journal}.{period}")
    }

    /// Finds that the path names a file at all.
    ///
    /// It is refused as `Unwritten` where it is empty, as where a script has not set it.
    pub(crate) fn expect_named<R: Clock + Eprint>(&self, rt: &R) -> Result<(), FileFault> {
        if self.journal.is_empty() {
            not_made(
                rt,
                self.journal.as_str(),
                &io::Error::from(ErrorKind::NotFound),
            );
            return Err(FileFault::Unwritten);
        }
        Ok(())
    }

    /// The journal's folder.
    pub(crate) fn folder(&self) -> &str {
        match Path::new(self.journal.as_str()).parent() {
            Some(folder) if !folder.as_str().is_empty() => folder.as_str(),
            _ => ".",
        }
    }

    /// Has the system keep the names in the folder as they are now, even where the machine stops.
    pub(crate) fn sync_folder<R: Files>(&self, rt: &R) -> io::Result<()> {
        fs::open(rt, self.folder())?.sync_all()
    }
}

// The name of a file beside the journal at this path, by its ending.
fn beside(alloc: Global, path: &str, ending: &str) -> Result<String, AllocError>
    ensures { IfOk result (λ name. string_bytes name ≡ path.now ++ ending.now) }
{
    format!(in alloc; "{path}{ending}")
}
