//! The log beside a journal: how it begins and ends.
ghost use Rattle.std.specs.Prelude.{IfOk};
ghost use Rattle.ilp_journal_file.specs.Begun.{HasAlone};

use crate::fault::FileFault;
use crate::limited::most_octets;
use crate::log_device::LogDevice;
use crate::log_place::LogPlace;
use crate::names::Names;
use crate::placing::PlacesFiles;
use crate::taking::JournalFile;
use ilp_accounts::LogSync;
use ilp_line_file::Device;
use ilp_notices::{journal_unread, log_begun, log_grows, log_left, not_made};
use std::alloc::{AllocError, Global};
use std::fs;
use std::fs::OpenFile;
use std::io::{Eprint, ErrorKind, Read, Seek, Write};
use std::rt::Files;
use std::sync::Arc;
use std::time::Clock;

impl<F> JournalFile<F> {
    /// The path of `J.log`, as lines tell it.
    pub fn log_path(&self) -> &str {
        self.names.log.as_str()
    }

    /// Begins a log with these first lines, in place of one that is there. `J.log.new` is made with them and
    /// the journal's rights, and takes the place of `J.log` as a whole. The device is that file, and what it
    /// has is on the disk. A line tells when what is written to it will be.
    ///
    /// Refusals: `Unwritten` where it failed, and a line says so: then `J.log` is as it was, or the one with
    /// these lines alone; `Unread` where another may have the journal by now, and `Memory`, and nothing is changed.
    pub fn begin_log<'r, R>(
        &self,
        rt: &'r R,
        alloc: Global,
        head: &[u8],
        sync: LogSync,
    ) -> Result<LogDevice<'r, R, F>, FileFault>
    where
        R: Files<File = F> + PlacesFiles<File = F> + Clock + Eprint,
        F: Read + Write + Seek + OpenFile + Drop,
        ensures begun { R.PlacesFiles.claims → IfOk result
            (HasAlone ⟦<LogDevice<'r, R, F> as Device>⟧.seen ⟦<LogDevice<'r, R, F> as Device>⟧.may_leave head.now) }
    {
        self.expect_held(rt)?;
        let place = self.log_place(rt, alloc, sync)?;
        match LogDevice::create(rt, place, head) {
            Ok(device) => {
                log_begun(rt, self.log_path(), sync);
                Ok(device)
            }
            Err(error) => {
                not_made(rt, self.log_path(), &error);
                Err(FileFault::Unwritten)
            }
        }
    }

    /// Finds that the log has so many octets as when it was read, none where there was no log: else another connector
    /// writes to it, which has taken the journal without this lock.
    ///
    /// It is refused as `Unread` where it has others, and where the system doesn't say. A line says so.
    pub fn expect_still_log<R: PlacesFiles + Clock + Eprint>(
        &self,
        rt: &R,
        octets: Option<usize>,
    ) -> Result<(), FileFault> {
        let there = match rt.look(self.log_path()) {
            Ok(there) => Some(there.len),
            Err(error) if error.kind() == ErrorKind::NotFound => None,
            Err(error) => {
                journal_unread(rt, self.log_path(), &error);
                return Err(FileFault::Unread);
            }
        };
        if there == octets.map(|count| count as u64) {
            return Ok(());
        }
        log_grows(rt, self.names.journal.as_str(), self.log_path());
        Err(FileFault::Unread)
    }

    /// Whether a log lies beside the journal. Where the system doesn't say, one may.
    pub fn may_have_log<R: Files>(&self, rt: &R) -> bool {
        !matches!(fs::exists(rt, self.log_path()), Ok(false))
    }

    /// Removes the log, of which the journal has all. Where there is none nothing is done. Where it can't be
    /// removed, a line says that the next start does it.
    pub fn remove_log<R: Files + PlacesFiles + Clock + Eprint>(&self, rt: &R) {
        let _ = self.expect_no_log(rt);
    }

    /// The same, for whoever can't go on beside a log. It is refused as `Unwritten` where it can't be removed, and as
    /// `Unread` where another may have the journal by now.
    pub fn expect_no_log<R: Files + PlacesFiles + Clock + Eprint>(
        &self,
        rt: &R,
    ) -> Result<(), FileFault> {
        self.names.remove_held(rt, self.held, self.log_path())
    }
}

impl<F> JournalFile<F> {
    // Where the log lies.
    fn log_place<R: Files>(
        &self,
        rt: &R,
        alloc: Global,
        sync: LogSync,
    ) -> Result<LogPlace, AllocError> {
        let names = &self.names;
        Ok(LogPlace {
            journal: String::from_str(alloc, names.journal.as_str())?,
            path: String::from_str(alloc, names.log.as_str())?,
            new: String::from_str(alloc, names.log_new.as_str())?,
            lock: String::from_str(alloc, names.lock.as_str())?,
            folder: String::from_str(alloc, names.folder())?,
            held: self.held,
            named: Arc::try_clone(&self.named)?,
            mode: names.mode(rt),
            most: most_octets(rt, alloc),
            sync,
        })
    }
}

impl Names {
    /// Removes a file that is needed no more, where it is there, and has the system keep that it is gone.
    /// Where it can't be removed a line says so.
    pub(crate) fn remove<R: Files + Clock + Eprint>(
        &self,
        rt: &R,
        path: &str,
    ) -> Result<(), FileFault> {
        let removed = match fs::remove_file(rt, path) {
            Ok(()) => self.sync_folder(rt),
            Err(error) if error.kind() == ErrorKind::NotFound => Ok(()),
            Err(error) => Err(error),
        };
        match removed {
            Ok(()) => Ok(()),
            Err(error) => {
                log_left(rt, path, &error);
                Err(FileFault::Unwritten)
            }
        }
    }
}
