//! The folder that gets the copies.

use crate::source::{Shape, beside};
use ilp_journal_file::PlacesFiles;
use std::alloc::{AllocError, Global};
use std::fs::OpenFile;
use std::io::{ErrorKind, Read, Write};
use std::path::Path;
use std::rt::Files;
use std::{fs, io};

// What is behind the name of a copy as long as not all of them are whole.
const PART: &str = ".part";

// The system's number of the error that a file is too large (EFBIG).
const TOO_LARGE: i32 = 27;

/// A copy that was written, under the name that it has until all are whole.
#[derive(Drop)]
pub(crate) struct Copied<F> {
    file: F,
    part: String,
    path: String,
}

/// The folder that gets the copies, and those that it has.
#[derive(Drop)]
pub(crate) struct Copies<'r, R, F> {
    rt: &'r R,
    folder: &'r str,
    /// The journal's name there.
    name: &'r str,
    // Whether it was made for them.
    is_made: bool,
    copied: Vec<Copied<F>>,
}

impl<'r, R, F> Copies<'r, R, F>
where
    R: AllocGlobal + Files<File = F> + PlacesFiles<File = F> + Copy,
    F: Read + Write + OpenFile + Drop,
{
    /// The folder at this path, which is made where it isn't there. One that has anything in it is refused as
    /// `AlreadyExists`.
    pub(crate) fn begin(rt: &'r R, folder: &'r str, name: &'r str) -> io::Result<Self> {
        let is_made = match fs::metadata(rt, folder) {
            Ok(_) => {
                expect_empty(rt, folder)?;
                false
            }
            Err(error) if error.kind() == ErrorKind::NotFound => {
                fs::create_dir(rt, folder)?;
                true
            }
            Err(error) => return Err(error),
        };
        Ok(Copies {
            rt,
            folder,
            name,
            is_made,
            copied: Vec::new(rt.alloc()),
        })
    }

    /// How many copies there are.
    pub(crate) fn len(&self) -> usize {
        self.copied.len()
    }

    /// Copies a file of this shape, from where it is read on, as that whose name has this behind the journal's.
    pub(crate) fn put<S: Read>(
        &mut self,
        ending: &str,
        shape: Shape,
        source: &mut S,
    ) -> io::Result<()> {
        let alloc = self.rt.alloc();
        if shape.len > self.rt.most_octets() {
            return Err(io::Error::from_raw_os_error(TOO_LARGE));
        }
        let path = path_in(alloc, self.folder, self.name, ending)?;
        let part = beside(alloc, path.as_str(), PART)?;
        let mut file = self.rt.create_anew(part.as_str(), shape.mode)?;
        let copied = io::copy(source, &mut file);
        self.copied.push(Copied { file, part, path })?;
        match copied {
            Ok(_) => Ok(()),
            Err(error) => Err(error),
        }
    }

    /// Removes the copies that there are, to begin again.
    pub(crate) fn clear(&mut self) {
        for copied in &self.copied {
            let _ = fs::remove_file(self.rt, copied.part.as_str());
        }
        self.copied.clear();
    }

    /// Has the disk keep the copies, each by its own name then. The first one gets that last: it is the journal, and
    /// without it the others are refused by a start.
    pub(crate) fn finish(&self) -> io::Result<()> {
        for copied in &self.copied {
            copied.file.sync_all()?;
        }
        for copied in self.copied.iter().rev() {
            fs::rename(self.rt, copied.part.as_str(), copied.path.as_str())?;
        }
        fs::open(self.rt, self.folder)?.sync_all()?;
        if self.is_made {
            fs::open(self.rt, parent_of(self.folder))?.sync_all()?;
        }
        Ok(())
    }

    /// Removes all that was written, and the folder where it was made.
    pub(crate) fn give_up(&self) {
        for copied in &self.copied {
            let _ = fs::remove_file(self.rt, copied.part.as_str());
            let _ = fs::remove_file(self.rt, copied.path.as_str());
        }
        if self.is_made {
            let _ = fs::remove_dir(self.rt, self.folder);
        }
    }
}

// Finds nothing in a folder.
fn expect_empty<R: AllocGlobal + Files + Copy>(rt: &R, folder: &str) -> io::Result<()> {
    for entry in fs::read_dir(rt, folder)? {
        entry?;
        return Err(io::Error::from(ErrorKind::AlreadyExists));
    }
    Ok(())
}

// The folder in which this one lies.
fn parent_of(folder: &str) -> &str {
    match Path::new(folder).parent() {
        Some(parent) if !parent.as_str().is_empty() => parent.as_str(),
        _ => ".",
    }
}

fn path_in(alloc: Global, folder: &str, name: &str, ending: &str) -> Result<String, AllocError> {
    format!(in alloc; "{folder}/{name}{ending}")
}
