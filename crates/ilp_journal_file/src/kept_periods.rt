//! Which periods are kept beside a journal.

use crate::fault::FileFault;
use crate::kept_text::period_at;
use crate::names::Names;
use ilp_notices::journal_unread;
use std::alloc::AllocGlobal;
use std::io::{Eprint, ErrorKind};
use std::path::Path;
use std::rt::Files;
use std::time::Clock;
use std::{fs, io};

/// The number of the last period, of those from this one on, whose text is kept beside the journal at this path, if
/// one is: of the files `J.P` that lie there, and begin as a text of the period P does, the greatest P.
///
/// Refusals: `Unread` where the journal's folder can't be read, and a line says so; `Memory`.
pub fn last_kept<R>(rt: &R, path: &str, from: u32) -> Result<Option<u32>, FileFault>
where
    R: AllocGlobal + Files + Clock + Eprint + Copy,
{
    let names = Names::of(rt.alloc(), path)?;
    match names.last_kept(rt, from) {
        Ok(last) => Ok(last),
        Err(error) if error.kind() == ErrorKind::OutOfMemory => Err(FileFault::Memory),
        Err(error) => {
            journal_unread(rt, names.folder(), &error);
            Err(FileFault::Unread)
        }
    }
}

impl Names {
    // The same, as the system tells it.
    fn last_kept<R: AllocGlobal + Files + Copy>(
        &self,
        rt: &R,
        from: u32,
    ) -> io::Result<Option<u32>> {
        let journal = Path::new(self.journal.as_str()).file_name().unwrap_or("");
        let mut last = None;
        for entry in fs::read_dir(rt, self.folder())? {
            let found = match entry {
                Ok(entry) => self.kept_in(rt, entry.file_name(), journal)?,
                // None of the journal's files has a name that is no text.
                Err(error) if error.kind() == ErrorKind::InvalidFilename => None,
                Err(error) => return Err(error),
            };
            if found >= Some(from) {
                last = last.max(found);
            }
        }
        Ok(last)
    }

    // The number of the period that the file of this name keeps of a journal, if it keeps one.
    fn kept_in<R: AllocGlobal + Files>(
        &self,
        rt: &R,
        name: &str,
        journal: &str,
    ) -> io::Result<Option<u32>> {
        let Some(period) = period_in(name, journal) else {
            return Ok(None);
        };
        let path = self.period(rt.alloc(), period)?;
        let is_one = period_at(rt, path.as_str()) == Some(period);
        Ok(if is_one { Some(period) } else { None })
    }
}

// The number of a period by the name of its file: digits, as they are written.
fn period_in(name: &str, journal: &str) -> Option<u32> {
    let digits = name.strip_prefix(journal)?.strip_prefix('.')?;
    let is_padded = digits.len() > 1 && digits.starts_with('0');
    if is_padded || !digits.bytes().all(|octet| octet.is_ascii_digit()) {
        return None;
    }
    digits.parse().ok()
}
