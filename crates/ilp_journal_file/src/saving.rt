//! Saving a journal's file.

use crate::fault::FileFault;
use crate::limited::Limited;
use crate::placing::PlacesFiles;
use crate::taking::JournalFile;
use crate::writing::{Content, create_anew, write_synced};
use ilp_notices::{journal_saved, not_saved, not_saved_at_start, not_saved_yet, not_synced};
use std::alloc::Global;
use std::io::Eprint;
use std::rt::Files;
use std::thread::sleep;
use std::time::{Clock, Duration};
use std::{fs, io};

// How often writing is tried again, and the seconds before each time.
const TRIES: u32 = 60;

const REST: u64 = 1;

/// How far a save has come.
#[derive(Clone, Copy, PartialEq, Eq)]
enum Reached {
    /// The journal is as at the start.
    Nothing,
    /// It is the new one, and the system may forget that where the machine stops.
    Name,
}

impl<F> JournalFile<F> {
    /// Writes the journal before a log begins: as `save` does, but once, and it leaves the log as it is.
    ///
    /// Refusals: `Unread` where another may have the journal by now, and `Unwritten` where it failed, of which a line
    /// says so. Then the journal's text is the one from before, or that of the content, which the system may forget where the machine stops.
    pub fn save_at_start<R, C>(&self, rt: &R, alloc: Global, content: &C) -> Result<(), FileFault>
    where
        R: Files + PlacesFiles + Clock + Eprint,
        C: Content,
    {
        self.expect_held(rt)?;
        match self.put_anew(rt, alloc, content) {
            Ok(()) => Ok(()),
            Err(error) => {
                not_saved_at_start(rt, self.names.journal.as_str(), self.again, &error);
                Err(FileFault::Unwritten)
            }
        }
    }

    /// Writes the journal, and removes the log. `J.new` is written and takes the place of `J` as a whole,
    /// with its rights. Where that fails, all of it is done again each second for a minute. The log goes only once
    /// the device has the journal by its name; where it can't be removed, the journal is saved all the same.
    ///
    /// Refusals: `Unread` where another may have the journal by now, as a line says; `Unwritten` where it failed to the
    /// last. A line says which: `J` is as it was, and `J.new` has what could be written; or `J` is the new one. In each
    /// case the log is left.
    pub fn save<R, C>(&self, rt: &R, alloc: Global, content: &C) -> Result<(), FileFault>
    where
        R: Files + PlacesFiles + Clock + Eprint,
        C: Content,
    {
        self.expect_held(rt)?;
        // What was begun for a log anew may have the last of the disk's room.
        let _ = fs::remove_file(rt, self.names.log_new.as_str());
        let mut reached = Reached::Nothing;
        match self.put_patiently(rt, alloc, content, &mut reached) {
            Ok(()) => {
                journal_saved(rt, self.names.journal.as_str(), content.entries());
                self.remove_log(rt);
                Ok(())
            }
            Err(last) => {
                self.tell_unsaved(rt, reached, &last);
                Err(FileFault::Unwritten)
            }
        }
    }

    // As `put_anew`, and where that fails again each second for a minute. The error is the last one.
    fn put_patiently<R, C>(
        &self,
        rt: &R,
        alloc: Global,
        content: &C,
        reached: &mut Reached,
    ) -> io::Result<()>
    where
        R: Files + Clock + Eprint,
        C: Content,
    {
        let mut last = match self.put_reaching(rt, alloc, content, reached) {
            Ok(()) => return Ok(()),
            Err(error) => error,
        };
        not_saved_yet(rt, self.names.journal.as_str(), &last);
        for _try in 0..TRIES {
            sleep(rt, Duration::from_secs(REST));
            match self.put_reaching(rt, alloc, content, reached) {
                Ok(()) => return Ok(()),
                Err(error) => last = error,
            }
        }
        Err(last)
    }

    // Writes the journal anew, and tells how far that comes. It begins from the front also behind a call that failed:
    // what a sync was to write that failed is lost, and no later one writes it.
    fn put_reaching<R, C>(
        &self,
        rt: &R,
        alloc: Global,
        content: &C,
        reached: &mut Reached,
    ) -> io::Result<()>
    where
        R: Files,
        C: Content,
    {
        self.replace(rt, alloc, content, self.names.journal.as_str())?;
        *reached = Reached::Name;
        self.names.sync_folder(rt)
    }

    /// Writes the journal anew. It is on the device by its name then.
    pub(crate) fn put_anew<R, C>(&self, rt: &R, alloc: Global, content: &C) -> io::Result<()>
    where
        R: Files,
        C: Content,
    {
        self.put_reaching(rt, alloc, content, &mut Reached::Nothing)
    }

    /// Writes `J.new`, and gives it this name once the device has it.
    pub(crate) fn replace<R, C>(
        &self,
        rt: &R,
        alloc: Global,
        content: &C,
        name: &str,
    ) -> io::Result<()>
    where
        R: Files,
        C: Content,
    {
        let new = self.names.new.as_str();
        let file = create_anew(rt, new, self.names.mode(rt))?;
        write_synced(alloc, Limited::new(rt, alloc, file), content)?;
        fs::rename(rt, new, name)
    }

    fn tell_unsaved<R: Clock + Eprint>(&self, rt: &R, reached: Reached, last: &io::Error) {
        let (path, log) = (self.names.journal.as_str(), self.log_path());
        match reached {
            Reached::Nothing => not_saved(rt, path, self.names.new.as_str(), log, last),
            Reached::Name => not_synced(rt, path, log, last),
        }
    }
}
