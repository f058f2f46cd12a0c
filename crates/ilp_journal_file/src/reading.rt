//! Reading a journal's file, and its log.

use crate::fault::FileFault;
use crate::noting::Noting;
use crate::standing::expect_no_pipe;
use crate::taking::JournalFile;
use ilp_io::{ReadFault, read_to_limit};
use ilp_notices::{journal_too_long, journal_unread};
use std::alloc::Global;
use std::fs::OpenFile;
use std::io::{Eprint, ErrorKind};
use std::rt::Files;
use std::time::Clock;
use std::{fs, io};

/// The most octets of a text that is read.
pub(crate) const TEXT_LIMIT: usize = 8_589_934_592;

impl<F> JournalFile<F> {
    /// The text of the journal, or nothing where there is no file.
    ///
    /// Refusals: `Unread` where it can't be read or has more than 8,589,934,592 octets; `Memory`.
    pub fn read<R>(&self, rt: &R, alloc: Global) -> Result<Option<Vec<u8>>, FileFault>
    where
        R: Files + Clock + Eprint,
    {
        read(rt, alloc, self.names.journal.as_str())
    }

    /// The text of `J.log`, or nothing where there is no file.
    ///
    /// Refusals: `Unread` where it can't be read or has more than 8,589,934,592 octets; `Memory`.
    pub fn read_log<R>(&self, rt: &R, alloc: Global) -> Result<Option<Vec<u8>>, FileFault>
    where
        R: Files + Clock + Eprint,
    {
        read(rt, alloc, self.names.log.as_str())
    }
}

/// The text of the journal at this path, also while a connector has it.
///
/// Refusals: `Unread` where there is none, and those of `JournalFile::read`.
pub fn read_text<R>(rt: &R, alloc: Global, path: &str) -> Result<Vec<u8>, FileFault>
where
    R: Files + Clock + Eprint,
{
    match read(rt, alloc, path)? {
        Some(text) => Ok(text),
        None => {
            journal_unread(rt, path, &io::Error::from(ErrorKind::NotFound));
            Err(FileFault::Unread)
        }
    }
}

/// The text at this path, or nothing where there is no file. A named pipe is not waited for.
///
/// Refusals: those of `JournalFile::read`.
pub(crate) fn read<R>(rt: &R, alloc: Global, path: &str) -> Result<Option<Vec<u8>>, FileFault>
where
    R: Files + Clock + Eprint,
{
    expect_no_pipe(rt, path)?;
    let file = match fs::open(rt, path) {
        Ok(file) => file,
        Err(error) if error.kind() == ErrorKind::NotFound => return Ok(None),
        Err(error) => {
            journal_unread(rt, path, &error);
            return Err(FileFault::Unread);
        }
    };
    if is_too_long(&file) {
        journal_too_long(rt, path);
        return Err(FileFault::Unread);
    }
    let mut reader = Noting::new(file);
    match read_to_limit(alloc, &mut reader, TEXT_LIMIT) {
        Ok(text) => Ok(Some(text)),
        Err(ReadFault::Memory) => Err(FileFault::Memory),
        Err(_) => {
            tell_unread(rt, path, &reader);
            Err(FileFault::Unread)
        }
    }
}

// Whether the system says so, before any of it is in memory. A pipe has no length.
fn is_too_long<F: OpenFile>(file: &F) -> bool {
    match file.metadata() {
        Ok(metadata) => metadata.len() > TEXT_LIMIT as u64,
        Err(_) => false,
    }
}

// Why a file that was opened was not read to its end: the error of a read, or its length.
fn tell_unread<R: Clock + Eprint, F>(rt: &R, path: &str, reader: &Noting<F>) {
    match &reader.error {
        Some(error) => journal_unread(rt, path, error),
        None => journal_too_long(rt, path),
    }
}
