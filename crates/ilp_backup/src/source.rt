//! The files of a journal that are copied.

use crate::seen::{Part, Places, Seen};
use ilp_journal_file::{FileIdentity, PlacesFiles};
use ilp_notices::{journal_unfit, journal_unread};
use ilp_refusals::Refusal;
use ilp_starting::Refused;
use std::alloc::{AllocError, Global};
use std::io::{Eprint, ErrorKind, Read};
use std::os::unix::fs::MetadataExt;
use std::path::Path;
use std::rt::Files;
use std::time::Clock;
use std::{fs, io};

/// What the text that is remembered has at most; a longer one is none of a connector's.
const LONGEST: usize = 65_536;

/// The ending of the name of the file that is locked, and which has what is remembered.
pub(crate) const LOCK: &str = ".lock";

/// What is behind the number of a period in the name of what is kept of the configurations between which it ended.
pub(crate) const BETWEEN: &str = ".remembered";

/// A journal's files.
#[derive(Clone, Copy)]
pub(crate) struct Source<'r, R> {
    pub(crate) rt: &'r R,
    /// The path of the journal.
    pub(crate) path: &'r str,
}

/// A file that was opened.
#[derive(Drop)]
pub(crate) struct HeldFile<F> {
    pub(crate) file: F,
    pub(crate) identity: FileIdentity,
    pub(crate) shape: Shape,
}

/// What a copy of a file is to have of it beside its octets.
#[derive(Clone, Copy)]
pub(crate) struct Shape {
    /// Who may read, write and run it.
    pub(crate) mode: u32,
    /// How many octets it had as it was opened.
    pub(crate) len: u64,
}

// Who may read, write and run a file, of its mode.
const RIGHTS: u32 = 0o777;

/// What the name of a part's file has behind that of the journal.
pub(crate) fn ending_of(part: Part) -> &'static str {
    match part {
        Part::Journal => "",
        Part::Log => ".log",
        Part::Ended => ".ended",
        Part::Next => ".next",
    }
}

impl<'r, R, F> Source<'r, R>
where
    R: AllocGlobal + Files<File = F> + PlacesFiles<File = F> + Clock + Eprint + Copy,
    F: Read + Drop,
{
    /// The file of a part, opened, or nothing where there is none.
    ///
    /// It is refused as `JournalUnread` where it can't be opened, and a line says so; and as `Memory`.
    pub(crate) fn open(&self, part: Part) -> Result<Option<HeldFile<F>>, Refused> {
        let path = beside(self.rt.alloc(), self.path, ending_of(part))?;
        self.open_at(path.as_str())
    }

    /// The file at a path, likewise.
    pub(crate) fn open_at(&self, path: &str) -> Result<Option<HeldFile<F>>, Refused> {
        let Some(shape) = self.shape_of(path)? else {
            return Ok(None);
        };
        match self.opened(path, shape) {
            Ok(held) => Ok(Some(held)),
            Err(error) if error.kind() == ErrorKind::NotFound => Ok(None),
            Err(error) => Err(self.unread(path, &error)),
        }
    }

    // The file at a path, as the system tells it.
    fn opened(&self, path: &str, shape: Shape) -> io::Result<HeldFile<F>> {
        let file = fs::open(self.rt, path)?;
        let identity = self.rt.identity(&file)?;
        Ok(HeldFile {
            file,
            identity,
            shape,
        })
    }

    // The shape of the plain file that is there, if one is: a link would lead elsewhere, and whoever opens a pipe waits
    // for its other end.
    fn shape_of(&self, path: &str) -> Result<Option<Shape>, Refused> {
        match fs::symlink_metadata(self.rt, path) {
            Ok(there) if there.is_file() => Ok(Some(Shape {
                mode: there.mode() & RIGHTS,
                len: there.len(),
            })),
            Ok(_) => {
                journal_unfit(self.rt, path, "it is no plain file");
                Err(Refused::from(Refusal::JournalUnread))
            }
            Err(error) if error.kind() == ErrorKind::NotFound => Ok(None),
            Err(error) => Err(self.unread(path, &error)),
        }
    }

    /// Which files lie at the names now; at the journal's it is looked last.
    pub(crate) fn look(&self) -> Result<Places, Refused> {
        let next = self.look_at(Part::Next)?;
        let ended = self.look_at(Part::Ended)?;
        let log = self.look_at(Part::Log)?;
        Ok(Places {
            journal: self.look_at(Part::Journal)?,
            log,
            ended,
            next,
        })
    }

    fn look_at(&self, part: Part) -> Result<Option<FileIdentity>, Refused> {
        let path = beside(self.rt.alloc(), self.path, ending_of(part))?;
        match self.rt.look(path.as_str()) {
            Ok(there) => Ok(Some(there.identity)),
            Err(error) if error.kind() == ErrorKind::NotFound => Ok(None),
            Err(error) => Err(self.unread(path.as_str(), &error)),
        }
    }

    /// What is seen of all of it now; at the journal's name it is looked last.
    pub(crate) fn see(&self) -> Result<Seen, Refused> {
        let remembered = self.remembered()?;
        let kept = self.kept()?;
        Ok(Seen {
            places: self.look()?,
            remembered,
            kept,
        })
    }

    /// What the file that is locked has now, and nothing where there is none.
    pub(crate) fn remembered(&self) -> Result<Vec<u8>, Refused> {
        let alloc = self.rt.alloc();
        let path = beside(alloc, self.path, LOCK)?;
        let Some(held) = self.open_at(path.as_str())? else {
            return Ok(Vec::new(alloc));
        };
        let HeldFile { file, .. } = held;
        let mut text = Vec::new(alloc);
        let mut limited = file.take(LONGEST as u64);
        match limited.read_to_end(&mut text) {
            Ok(_) => Ok(text),
            Err(error) => Err(self.unread(path.as_str(), &error)),
        }
    }

    /// The numbers of the periods whose texts lie beside the journal now, in order.
    pub(crate) fn kept(&self) -> Result<Vec<u32>, Refused> {
        self.numbers("")
    }

    /// The numbers of the periods beside which a file of this ending lies now, in order.
    pub(crate) fn numbers(&self, ending: &str) -> Result<Vec<u32>, Refused> {
        match self.listed(ending) {
            Ok(numbers) => Ok(numbers),
            Err(error) => Err(self.unread(folder_of(self.path), &error)),
        }
    }

    // The same, as the system tells it.
    fn listed(&self, ending: &str) -> io::Result<Vec<u32>> {
        let journal = name_of(self.path);
        let mut numbers = Vec::new(self.rt.alloc());
        for entry in fs::read_dir(self.rt, folder_of(self.path))? {
            match entry {
                Ok(entry) => {
                    if let Some(period) = period_in(entry.file_name(), journal, ending) {
                        numbers.push(period)?;
                    }
                }
                // None of the journal's files has a name that is no text.
                Err(error) if error.kind() == ErrorKind::InvalidFilename => {}
                Err(error) => return Err(error),
            }
        }
        numbers.sort_unstable();
        Ok(numbers)
    }

    /// Tells that a file can't be read, and refuses that.
    pub(crate) fn unread(&self, path: &str, error: &io::Error) -> Refused {
        if error.kind() == ErrorKind::OutOfMemory {
            return Refused::from(Refusal::Memory);
        }
        journal_unread(self.rt, path, error);
        Refused::from(Refusal::JournalUnread)
    }
}

// The folder of the journal at a path.
fn folder_of(path: &str) -> &str {
    match Path::new(path).parent() {
        Some(folder) if !folder.as_str().is_empty() => folder.as_str(),
        _ => ".",
    }
}

/// The name there of the journal at a path.
pub(crate) fn name_of(path: &str) -> &str {
    match Path::new(path).file_name() {
        Some(name) => name,
        None => "",
    }
}

/// The path that has this behind that of the journal.
pub(crate) fn beside(alloc: Global, path: &str, ending: &str) -> Result<String, AllocError> {
    format!(in alloc; "{path}{ending}")
}

// The number of a period by the name of its file: digits, as they are written, before this ending.
fn period_in(name: &str, journal: &str, ending: &str) -> Option<u32> {
    let digits = name
        .strip_prefix(journal)?
        .strip_prefix('.')?
        .strip_suffix(ending)?;
    let is_padded = digits.len() > 1 && digits.starts_with('0');
    if is_padded || !digits.bytes().all(|octet| octet.is_ascii_digit()) {
        return None;
    }
    digits.parse().ok()
}
