//! What stands in the file that is locked.

use crate::fault::FileFault;
use crate::limited::Limited;
use crate::names::Names;
use crate::noting::Noting;
use crate::placing::PlacesFiles;
use crate::standing::expect_no_pipe;
use crate::taking::JournalFile;
use ilp_io::{ReadFault, WriteFault, put_all, read_to_limit};
use ilp_notices::{journal_unread, not_made};
use std::alloc::Global;
use std::fs::{OpenFile, OpenOptions};
use std::io::{Eprint, ErrorKind};
use std::rt::Files;
use std::time::Clock;
use std::{fs, io};

// The most octets that are kept; a text that is longer is none of a connector's.
const LONGEST: usize = 65_536;

impl<F> JournalFile<F> {
    /// What an earlier start had `J.lock` keep, or nothing. It may be a part of that, where the machine
    /// stopped then.
    ///
    /// Refusals: `Unread` where it can't be read; `Memory`.
    pub fn remembered<R>(&self, rt: &R, alloc: Global) -> Result<Vec<u8>, FileFault>
    where
        R: Files + Clock + Eprint,
    {
        self.names.remembered(rt, alloc)
    }

    /// Has `J.lock` keep this text, until another start has it keep another. Where it has it already
    /// nothing is written.
    ///
    /// Refusals: `Unwritten` where it can't be written; `Unread` where another may have the journal by now; else those
    /// of `remembered`.
    pub fn remember<R>(&self, rt: &R, alloc: Global, text: &[u8]) -> Result<(), FileFault>
    where
        R: Files + PlacesFiles + Clock + Eprint,
    {
        self.expect_held(rt)?;
        if self.names.remembered(rt, alloc)?.as_slice() == text {
            return Ok(());
        }
        match self.names.put_remembered(rt, alloc, text) {
            Ok(()) => Ok(()),
            Err(error) => {
                not_made(rt, self.names.lock.as_str(), &error);
                Err(FileFault::Unwritten)
            }
        }
    }
}

impl Names {
    /// As `JournalFile::remembered`, and nothing where there is no `J.lock`.
    pub(crate) fn remembered<R>(&self, rt: &R, alloc: Global) -> Result<Vec<u8>, FileFault>
    where
        R: Files + Clock + Eprint,
    {
        let path = self.lock.as_str();
        expect_no_pipe(rt, path)?;
        let file = match fs::open(rt, path) {
            Ok(file) => file,
            Err(error) if error.kind() == ErrorKind::NotFound => return Ok(Vec::new(alloc)),
            Err(error) => {
                journal_unread(rt, path, &error);
                return Err(FileFault::Unread);
            }
        };
        let mut reader = Noting::new(file);
        match read_to_limit(alloc, &mut reader, LONGEST) {
            Ok(text) => Ok(text),
            Err(ReadFault::TooLong) => Ok(Vec::new(alloc)),
            Err(ReadFault::Memory) => Err(FileFault::Memory),
            Err(ReadFault::Failed) => {
                let failed = io::Error::from(ErrorKind::Other);
                journal_unread(rt, path, &reader.error.unwrap_or(failed));
                Err(FileFault::Unread)
            }
        }
    }

    // Writes it where it stands: what is locked is this file, so no other may take its place.
    fn put_remembered<R: Files>(&self, rt: &R, alloc: Global, text: &[u8]) -> io::Result<()> {
        let file = OpenOptions::new()
            .write(true)
            .truncate(true)
            .open(rt, self.lock.as_str())?;
        let mut writer = Noting::new(Limited::new(rt, alloc, file));
        match put_all(&mut writer, text) {
            Ok(()) => writer.inner.inner.sync_all(),
            Err(WriteFault) => {
                let took_none = io::Error::from(ErrorKind::WriteZero);
                Err(writer.error.unwrap_or(took_none))
            }
        }
    }
}
