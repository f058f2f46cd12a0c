//! A period that ends in a running connector. Its log is set aside, so that the next one can begin at once, and has
//! what the journal's text lacks until the period is kept as a whole.

use crate::fault::FileFault;
use crate::placing::PlacesFiles;
use crate::reading::read;
use crate::taking::JournalFile;
use crate::writing::Content;
use ilp_notices::{left_next, period_begun};
use std::alloc::Global;
use std::fs::OpenFile;
use std::io::Eprint;
use std::rt::Files;
use std::time::Clock;
use std::{fs, io};

impl<F> JournalFile<F> {
    /// The text of `J.ended`, or nothing where there is no file.
    ///
    /// Refusals: `Unread` where it can't be read or has more than 8,589,934,592 octets; `Memory`.
    pub fn read_ended<R>(&self, rt: &R, alloc: Global) -> Result<Option<Vec<u8>>, FileFault>
    where
        R: Files + Clock + Eprint,
    {
        read(rt, alloc, self.names.ended.as_str())
    }

    /// The text of `J.next`, or nothing where there is no file.
    ///
    /// Refusals: `Unread` where it can't be read or has more than 8,589,934,592 octets; `Memory`.
    pub fn read_next<R>(&self, rt: &R, alloc: Global) -> Result<Option<Vec<u8>>, FileFault>
    where
        R: Files + Clock + Eprint,
    {
        read(rt, alloc, self.names.next.as_str())
    }

    /// Sets the log aside of a period that has ended, and has the next one of this number begin with this text.
    /// `J` and the log have all of the period that ended. `J.next` is written; once the device has it by its name,
    /// `J.log` becomes `J.ended`, and from then on the journal is `J.next`.
    ///
    /// It is refused as `Unwritten` where it failed, and as `Unread` where another may have the journal by now. A line
    /// says so. Then `J` is as it was, and the log has its
    /// name or the other one.
    pub fn set_aside<R, C>(
        &self,
        rt: &R,
        alloc: Global,
        period: u32,
        content: &C,
    ) -> Result<(), FileFault>
    where
        R: Files + PlacesFiles + Clock + Eprint,
        C: Content,
    {
        let next = self.names.next.as_str();
        self.expect_held(rt)?;
        self.unless_unwritten(rt, next, self.replace(rt, alloc, content, next))?;
        self.unless_unwritten(rt, next, self.names.sync_folder(rt))?;
        self.unless_unwritten(rt, self.names.ended.as_str(), self.rename_log(rt))?;
        period_begun(rt, self.names.journal.as_str(), period, content.entries());
        Ok(())
    }

    // Has the log, of which the device has all, have its other name.
    fn rename_log<R: Files>(&self, rt: &R) -> io::Result<()> {
        let (log, ended) = (self.names.log.as_str(), self.names.ended.as_str());
        fs::open(rt, log)?.sync_all()?;
        fs::rename(rt, log, ended)?;
        self.names.sync_folder(rt)
    }

    /// Has `J.ended` be the log again, where the next period did not begin.
    ///
    /// It is refused as `Unwritten` where it failed, and as `Unread` where another may have the journal by now. A line
    /// says so.
    pub fn take_back<R: Files + PlacesFiles + Clock + Eprint>(
        &self,
        rt: &R,
    ) -> Result<(), FileFault> {
        let (ended, log) = (self.names.ended.as_str(), self.names.log.as_str());
        self.expect_held(rt)?;
        self.unless_unwritten(rt, log, fs::rename(rt, ended, log))?;
        self.unless_unwritten(rt, log, self.names.sync_folder(rt))
    }

    /// Has `J.next` take the place of `J`, whose period is kept.
    ///
    /// It is refused as `Unwritten` where it failed, and as `Unread` where another may have the journal by now. A line
    /// says so.
    pub fn begin_next<R: Files + PlacesFiles + Clock + Eprint>(
        &self,
        rt: &R,
    ) -> Result<(), FileFault> {
        let (next, journal) = (self.names.next.as_str(), self.names.journal.as_str());
        self.expect_held(rt)?;
        self.unless_unwritten(rt, journal, fs::rename(rt, next, journal))?;
        self.unless_unwritten(rt, journal, self.names.sync_folder(rt))
    }

    /// Removes `J.ended`, whose period is kept. Where it can't be removed, a line says so.
    pub fn remove_ended<R: Files + PlacesFiles + Clock + Eprint>(
        &self,
        rt: &R,
    ) -> Result<(), FileFault> {
        let ended = self.names.ended.as_str();
        self.names.remove_held(rt, self.held, ended)
    }

    /// Tells that `J.next` is there, with which no period has begun, and whether it goes now.
    pub fn tell_next<R: Clock + Eprint>(&self, rt: &R, goes: bool) {
        left_next(rt, self.names.next.as_str(), goes);
    }

    /// Removes `J.next` where it is there, with which no period has begun. Where it can't be removed, a line says so.
    pub fn forget_next<R: Files + PlacesFiles + Clock + Eprint>(
        &self,
        rt: &R,
    ) -> Result<(), FileFault> {
        let next = self.names.next.as_str();
        self.names.remove_held(rt, self.held, next)
    }
}
