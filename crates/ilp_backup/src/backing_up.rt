//! A backup of a journal.

use crate::copies::Copies;
use crate::held::HeldFiles;
use crate::seen::{Part, stands_still};
use crate::source::{BETWEEN, LOCK, Source, beside, ending_of, name_of};
use ilp_journal_file::PlacesFiles;
use ilp_refusals::Refusal;
use ilp_starting::{Refused, RunFault};
use std::alloc::{AllocError, Global};
use std::fs::OpenFile;
use std::io;
use std::io::{Eprint, ErrorKind, Print, Read, Write};
use std::rt::Files;
use std::time::Clock;

// How often the files are copied, where a connector changes them meanwhile.
const TRIES: u32 = 100;

/// Copies the files of the journal at a path into a folder, and prints how many. The folder is made where it isn't
/// there.
///
/// Refusals: those of `back_up`. Where standard output fails the copies are there.
pub fn print_backup<R, F>(rt: &R, path: &str, folder: &str) -> Result<(), RunFault>
where
    R: AllocGlobal + Files<File = F> + PlacesFiles<File = F> + Clock + Print + Eprint + Copy,
    F: Read + Write + OpenFile + Drop,
{
    let count = back_up(rt, path, folder)?;
    match println!(rt; "backup of {count} files") {
        Ok(()) => Ok(()),
        Err(_) => Err(RunFault::OutputFailed),
    }
}

/// Copies the files of the journal at a path into a folder that isn't there or has nothing in it, as they lay there at
/// one moment since the call: the journal, its log, what a period leaves for a moment as it ends, what is remembered,
/// and the text of each period that is kept, with what is kept beside it. How many they are. A connector may have the
/// journal.
///
/// Refusals: `JournalUnread` where there is none, a file can't be read, or they changed each time that they were copied;
/// `WriteFault` where the folder isn't empty or a copy can't be written; `Memory`. Then nothing is left of the copies,
/// as far as they can be removed. The journal's files are as they were.
pub fn back_up<R, F>(rt: &R, path: &str, folder: &str) -> Result<usize, Refused>
where
    R: AllocGlobal + Files<File = F> + PlacesFiles<File = F> + Clock + Eprint + Copy,
    F: Read + Write + OpenFile + Drop,
{
    let source = Source { rt, path };
    if HeldFiles::open(&source)?.is_nothing() {
        return Err(source.unread(path, &io::Error::from(ErrorKind::NotFound)));
    }
    let mut copies = match Copies::begin(rt, folder, name_of(path)) {
        Ok(copies) => copies,
        Err(error) => return Err(unwritten(rt.alloc(), folder, &error)),
    };
    match copy_patiently(&source, &mut copies, folder) {
        Ok(()) => Ok(copies.len()),
        Err(refused) => {
            copies.give_up();
            Err(refused)
        }
    }
}

// What a try at copying came to.
#[derive(Clone, Copy, PartialEq, Eq)]
enum Try {
    // All copies are of one moment.
    Copied,
    // The files changed meanwhile.
    Changed,
}

// Copies all files, again where they changed meanwhile, until the disk has the copies.
fn copy_patiently<R, F>(
    source: &Source<'_, R>,
    copies: &mut Copies<'_, R, F>,
    folder: &str,
) -> Result<(), Refused>
where
    R: AllocGlobal + Files<File = F> + PlacesFiles<File = F> + Clock + Eprint + Copy,
    F: Read + Write + OpenFile + Drop,
{
    let alloc = source.rt.alloc();
    for _ in 0..TRIES {
        if copy_once(source, copies, folder)? == Try::Copied {
            return match copies.finish() {
                Ok(()) => Ok(()),
                Err(error) => Err(unwritten(alloc, folder, &error)),
            };
        }
        copies.clear();
    }
    Err(changed(alloc, source.path))
}

// Copies all files once: those that take each other's places, and behind the second look the texts of periods, which
// never become others.
fn copy_once<R, F>(
    source: &Source<'_, R>,
    copies: &mut Copies<'_, R, F>,
    folder: &str,
) -> Result<Try, Refused>
where
    R: AllocGlobal + Files<File = F> + PlacesFiles<File = F> + Clock + Eprint + Copy,
    F: Read + Write + OpenFile + Drop,
{
    let mut held = HeldFiles::open(source)?;
    if let Err(error) = put_held(copies, &mut held) {
        return Err(unwritten(source.rt.alloc(), folder, &error));
    }
    if !stands_still(&held.seen, &source.see()?) {
        return Ok(Try::Changed);
    }
    if copy_kept(source, copies, folder, &held.seen.kept, "")? == Try::Changed {
        return Ok(Try::Changed);
    }
    // It lies there before any other file of a boundary does, and for good once that is crossed.
    copy_kept(source, copies, folder, &source.numbers(BETWEEN)?, BETWEEN)
}

// Copies the files that were opened, and what is remembered. The journal is the first.
fn put_held<R, F>(copies: &mut Copies<'_, R, F>, held: &mut HeldFiles<F>) -> io::Result<()>
where
    R: AllocGlobal + Files<File = F> + PlacesFiles<File = F> + Copy,
    F: Read + Write + OpenFile + Drop,
{
    for part in [Part::Journal, Part::Ended, Part::Next, Part::Log] {
        if let Some(found) = held.part(part) {
            copies.put(ending_of(part), found.shape, &mut found.file)?;
        }
    }
    if held.seen.remembered.is_empty() {
        return Ok(());
    }
    let shape = held.lock_shape();
    let mut remembered = held.seen.remembered.as_slice();
    copies.put(LOCK, shape, &mut remembered)
}

// Copies the texts of these periods, or what lies beside each with this ending.
fn copy_kept<R, F>(
    source: &Source<'_, R>,
    copies: &mut Copies<'_, R, F>,
    folder: &str,
    kept: &[u32],
    behind: &str,
) -> Result<Try, Refused>
where
    R: AllocGlobal + Files<File = F> + PlacesFiles<File = F> + Clock + Eprint + Copy,
    F: Read + Write + OpenFile + Drop,
{
    let alloc = source.rt.alloc();
    for period in kept {
        let ending = ending_of_period(alloc, *period, behind)?;
        let path = beside(alloc, source.path, ending.as_str())?;
        let Some(mut found) = source.open_at(path.as_str())? else {
            return Ok(Try::Changed);
        };
        if let Err(error) = copies.put(ending.as_str(), found.shape, &mut found.file) {
            return Err(unwritten(alloc, folder, &error));
        }
    }
    Ok(Try::Copied)
}

fn ending_of_period(alloc: Global, period: u32, behind: &str) -> Result<String, AllocError> {
    format!(in alloc; ".{period}{behind}")
}

// That a copy can't be written.
fn unwritten(alloc: Global, folder: &str, error: &io::Error) -> Refused {
    if error.kind() == ErrorKind::OutOfMemory {
        return Refused::from(Refusal::Memory);
    }
    let why = format!(in alloc;
        "backup {folder:?}: {error}: give a folder that is empty or not there yet, with room; nothing is left in it, and the journal is as it was"
    );
    Refused::because(Refusal::WriteFault, why)
}

// That the files changed each time.
fn changed(alloc: Global, path: &str) -> Refused {
    let why = format!(in alloc;
        "journal {path:?}: its files changed each of {TRIES} times that they were copied: give the command again"
    );
    Refused::because(Refusal::JournalUnread, why)
}
