//! Which texts of a journal's periods lie beside it.

use crate::boundary::folder_of;
use ilp_notices::journal_unread;
use ilp_refusals::Refusal;
use ilp_starting::Refused;
use std::alloc::{AllocError, Global};
use std::io::{Eprint, ErrorKind};
use std::path::Path;
use std::rt::Files;
use std::time::Clock;
use std::{fs, io};

/// The numbers of the periods whose texts lie beside the journal at this path, in order.
///
/// It is refused as `JournalUnread` where its folder can't be read, and a line says so; and as `Memory`.
pub(crate) fn kept_beside<R>(rt: &R, path: &str) -> Result<Vec<u32>, Refused>
where
    R: AllocGlobal + Files + Clock + Eprint + Copy,
{
    let folder = folder_of(path);
    match numbers_in(rt, folder, name_of(path)) {
        Ok(numbers) => Ok(numbers),
        Err(error) => Err(unread(rt, folder, &error)),
    }
}

/// The path of the one journal beside which texts of periods lie in this folder; nothing where there is none, or more
/// than one.
///
/// Refusals: those of `kept_beside`.
pub(crate) fn journal_in<R>(rt: &R, folder: &str) -> Result<Option<String>, Refused>
where
    R: AllocGlobal + Files + Clock + Eprint + Copy,
{
    match one_name_in(rt, folder) {
        Ok(Some(name)) => Ok(Some(format!(in rt.alloc(); "{folder}/{name}")?)),
        Ok(None) => Ok(None),
        Err(error) => Err(unread(rt, folder, &error)),
    }
}

// The numbers of the periods of the journal of this name in a folder.
fn numbers_in<R>(rt: &R, folder: &str, journal: &str) -> io::Result<Vec<u32>>
where
    R: AllocGlobal + Files + Copy,
{
    let mut numbers = Vec::new(rt.alloc());
    for entry in fs::read_dir(rt, folder)? {
        match entry {
            Ok(entry) => {
                if let Some((name, period)) = period_in(entry.file_name())
                    && name == journal
                {
                    numbers.push(period)?;
                }
            }
            // None of the journal's files has a name that is no text.
            Err(error) if error.kind() == ErrorKind::InvalidFilename => {}
            Err(error) => return Err(error),
        }
    }
    numbers.sort_unstable();
    Ok(numbers)
}

// The name of the journals whose periods lie in a folder, where it is one.
fn one_name_in<R>(rt: &R, folder: &str) -> io::Result<Option<String>>
where
    R: AllocGlobal + Files + Copy,
{
    let mut found: Option<String> = None;
    for entry in fs::read_dir(rt, folder)? {
        match entry {
            Ok(entry) => match (period_in(entry.file_name()), &found) {
                (None, _) => {}
                (Some((name, _)), Some(other)) if name == other.as_str() => {}
                (Some(_), Some(_)) => return Ok(None),
                (Some((name, _)), None) => found = Some(String::from_str(rt.alloc(), name)?),
            },
            Err(error) if error.kind() == ErrorKind::InvalidFilename => {}
            Err(error) => return Err(error),
        }
    }
    Ok(found)
}

// The name of a journal and the number of its period, by the name of the file that keeps it: digits, as they are
// written, behind that of the journal and a dot.
fn period_in(name: &str) -> Option<(&str, u32)> {
    let (journal, digits) = name.rsplit_once('.')?;
    let is_padded = digits.len() > 1 && digits.starts_with('0');
    if journal.is_empty() || is_padded || !digits.bytes().all(|octet| octet.is_ascii_digit()) {
        return None;
    }
    Some((journal, digits.parse().ok()?))
}

// The name of the journal at a path in its folder.
fn name_of(path: &str) -> &str {
    Path::new(path).file_name().unwrap_or("")
}

// Tells that a folder can't be read, and refuses that.
fn unread<R: Clock + Eprint>(rt: &R, folder: &str, error: &io::Error) -> Refused {
    if error.kind() == ErrorKind::OutOfMemory {
        return Refused::from(Refusal::Memory);
    }
    journal_unread(rt, folder, error);
    Refused::from(Refusal::JournalUnread)
}
