//! What is kept of the two configurations between which a period ended: `JOURNAL.P.remembered`, by which a chain of
//! periods is judged.

use ilp_accounts::Config;
use ilp_journal_file::{JournalFile, PlacesFiles};
use ilp_notices::{journal_lost, not_made};
use ilp_refusals::Refusal;
use ilp_remembered::remembered_text;
use ilp_starting::Refused;
use std::alloc::{AllocError, Global};
use std::fs::OpenFile;
use std::io::{Eprint, Write};
use std::os::unix::fs::MetadataExt;
use std::path::Path;
use std::rt::Files;
use std::time::Clock;
use std::{fs, io};

// Who may read and write a file, of its mode; and the rights that one is asked for where there is no journal yet.
const RIGHTS: u32 = 0o777;

const NEW: u32 = 0o666;

// The system's number of the error that a file is too large (EFBIG).
const TOO_LARGE: i32 = 27;

/// The path of what is kept of the configurations between which a period ended.
pub(crate) fn boundary_path(alloc: Global, path: &str, period: u32) -> Result<String, AllocError> {
    format!(in alloc; "{path}.{period}.remembered")
}

/// Keeps the names and the assets of the peers of two configurations, their runs, and the SHA-256 digests of their files:
/// of the one by which a period ends, and of the one by which the next begins. It is written as `JOURNAL.new`, and takes its name once the device has it,
/// in the place of what an earlier attempt to end the period has left.
///
/// Refusals: `WriteFault` where it can't be written; `JournalUnread` where another may have the journal by now. A line
/// says which. `Memory`.
pub(crate) fn keep_boundary<R, F>(
    rt: &R,
    file: &JournalFile<F>,
    path: &str,
    period: u32,
    ended: &Config,
    next: &Config,
) -> Result<(), Refused>
where
    R: AllocGlobal + Files<File = F> + PlacesFiles<File = F> + Clock + Eprint,
    F: Write + OpenFile + Drop,
{
    let alloc = rt.alloc();
    let name = boundary_path(alloc, path, period)?;
    let new = format!(in alloc; "{path}.new")?;
    let text = boundary_text(alloc, ended, next)?;
    if file.is_lost(rt) {
        let lock = format!(in alloc; "{path}.lock")?;
        journal_lost(rt, path, lock.as_str());
        return Err(Refused::from(Refusal::JournalUnread));
    }
    match put(rt, path, new.as_str(), name.as_str(), text.as_bytes()) {
        Ok(()) => Ok(()),
        Err(error) => {
            not_made(rt, name.as_str(), &error);
            Err(Refused::from(Refusal::WriteFault))
        }
    }
}

// What is kept of both, one behind the other.
fn boundary_text(alloc: Global, ended: &Config, next: &Config) -> Result<String, AllocError> {
    let before = kept_text(alloc, ended)?;
    let behind = kept_text(alloc, next)?;
    format!(in alloc; "{before}{behind}")
}

// What is remembered of a configuration, and behind it which file it was.
fn kept_text(alloc: Global, config: &Config) -> Result<String, AllocError> {
    let text = remembered_text(alloc, config)?;
    let digest = hex::encode(alloc, config.digest().as_slice())?;
    format!(in alloc; "{text}config {digest}\n")
}

// Writes a file anew beside the journal at a path, with its rights, until the device has it by its name.
fn put<R, F>(rt: &R, path: &str, new: &str, name: &str, text: &[u8]) -> io::Result<()>
where
    R: Files<File = F> + PlacesFiles<File = F>,
    F: Write + OpenFile + Drop,
{
    if text.len() as u64 > rt.most_octets() {
        return Err(io::Error::from_raw_os_error(TOO_LARGE));
    }
    let mut file = rt.create_anew(new, mode_of(rt, path))?;
    file.write_all(text)?;
    file.sync_all()?;
    rt.give_name(&mut file, new, name, folder_of(path))
}

// The rights of the journal at a path.
fn mode_of(rt: &impl Files, path: &str) -> u32 {
    match fs::symlink_metadata(rt, path) {
        Ok(there) => there.mode() & RIGHTS,
        Err(_) => NEW,
    }
}

/// The folder of the journal at a path.
pub(crate) fn folder_of(path: &str) -> &str {
    match Path::new(path).parent() {
        Some(folder) if !folder.as_str().is_empty() => folder.as_str(),
        _ => ".",
    }
}
