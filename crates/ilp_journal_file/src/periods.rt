//! Periods of a journal that have ended. The text of each is kept in a file of its own beside the journal, and is
//! never written again.

use crate::comparing::has_text;
use crate::fault::FileFault;
use crate::placing::PlacesFiles;
use crate::reading::read;
use crate::standing::expect_plain;
use crate::taking::JournalFile;
use crate::writing::Content;
use ilp_notices::{period_begun, period_differs, period_kept, period_unwritten};
use std::alloc::Global;
use std::io::Eprint;
use std::rt::Files;
use std::time::Clock;
use std::{fs, io};

impl<F> JournalFile<F> {
    /// The text of a period that has ended, `J.P` for its number P, or nothing where there is no file.
    ///
    /// Refusals: `Unread` where it is no plain file with one name, can't be read or has more than
    /// 8,589,934,592 octets; `Memory`.
    pub fn read_period<R>(
        &self,
        rt: &R,
        alloc: Global,
        period: u32,
    ) -> Result<Option<Vec<u8>>, FileFault>
    where
        R: Files + Clock + Eprint,
    {
        let path = self.names.period(alloc, period)?;
        expect_plain(rt, path.as_str())?;
        read(rt, alloc, path.as_str())
    }

    /// Keeps the text of a period that has ended as `J.P` for its number P. It is written as `J.new`, and takes
    /// the name once the device has it; so too where a `J.P` has this text already, since the device may not have
    /// that by its name. It has then.
    ///
    /// Refusals: `Unread` where `J.P` has another text, or another may have the journal by now, and those of
    /// `read_period`; `Unwritten` where it can't be written; `Memory`. A line says which. The journal is as it was.
    pub fn keep_period<R, C>(
        &self,
        rt: &R,
        alloc: Global,
        period: u32,
        content: &C,
    ) -> Result<(), FileFault>
    where
        R: Files + PlacesFiles + Clock + Eprint,
        C: Content,
    {
        let path = self.names.period(alloc, period)?;
        let path = path.as_str();
        self.expect_free(rt, alloc, period, content)?;
        self.expect_held(rt)?;
        self.unless_unwritten(rt, path, self.replace(rt, alloc, content, path))?;
        self.unless_unwritten(rt, path, self.names.sync_folder(rt))?;
        let journal = self.names.journal.as_str();
        period_kept(rt, journal, period, path, content.entries());
        Ok(())
    }

    /// Finds that the text of a period can be kept as `J.P`: there is no such file, or it has this text already.
    ///
    /// Refusals: `Unread` where it has another text, and a line says so; those of `read_period`.
    pub fn expect_free<R, C>(
        &self,
        rt: &R,
        alloc: Global,
        period: u32,
        content: &C,
    ) -> Result<(), FileFault>
    where
        R: Files + Clock + Eprint,
        C: Content,
    {
        match self.read_period(rt, alloc, period)? {
            Some(text) if !has_text(content, &text) => {
                period_differs(rt, self.names.period(alloc, period)?.as_str());
                Err(FileFault::Unread)
            }
            _ => Ok(()),
        }
    }

    /// Removes `J.P` where it has this text, of which the device has all by the journal's name: a stop or a failure
    /// came between the two files of a next period, so that did not begin, and this one goes on. Any other text stays.
    ///
    /// Refusals: those of `read_period`; `Unwritten` where it can't be removed, and a line says so.
    pub fn forget_period<R, C>(
        &self,
        rt: &R,
        alloc: Global,
        period: u32,
        content: &C,
    ) -> Result<(), FileFault>
    where
        R: Files + PlacesFiles + Clock + Eprint,
        C: Content,
    {
        match self.read_period(rt, alloc, period)? {
            Some(text) if has_text(content, &text) => {
                let path = self.names.period(alloc, period)?;
                self.expect_held(rt)?;
                self.unless_unwritten(rt, path.as_str(), fs::remove_file(rt, path.as_str()))?;
                self.unless_unwritten(rt, path.as_str(), self.names.sync_folder(rt))
            }
            _ => Ok(()),
        }
    }

    /// Has the text of a period take the place of the journal, whose text is kept elsewhere: as `save` does, but
    /// once.
    ///
    /// Refusals: `Unread` where another may have the journal by now, and `Unwritten` where it failed, of which a line
    /// says so. Then the journal is as it was, or has this text.
    pub fn begin_period<R, C>(
        &self,
        rt: &R,
        alloc: Global,
        period: u32,
        content: &C,
    ) -> Result<(), FileFault>
    where
        R: Files + PlacesFiles + Clock + Eprint,
        C: Content,
    {
        let journal = self.names.journal.as_str();
        self.expect_held(rt)?;
        self.unless_unwritten(rt, journal, self.put_anew(rt, alloc, content))?;
        period_begun(rt, journal, period, content.entries());
        Ok(())
    }

    /// What a write came to. One that failed is told.
    pub(crate) fn unless_unwritten<R: Clock + Eprint>(
        &self,
        rt: &R,
        path: &str,
        written: io::Result<()>,
    ) -> Result<(), FileFault> {
        match written {
            Ok(()) => Ok(()),
            Err(error) => {
                period_unwritten(rt, path, self.again, &error);
                Err(FileFault::Unwritten)
            }
        }
    }
}
