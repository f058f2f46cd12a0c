//! The book of a journal that is only looked at, though a connector may have it.
ghost use Rattle.std.specs.Prelude.{◌≡◌, ◌≤◌, length, min, option_map, IfOk};
ghost use Rattle.ilp_starting.specs.Finding.{IsWritten};
ghost use Rattle.ilp_starting.specs.Sources.{entries_in, written_by};

use crate::carrying::{Carried, Source, line_count};
use crate::finding::{behind_ended, found_book, octets_of, remembered_of};
use crate::refused::Refused;
use ilp_accounts::Config;
use ilp_book::Book;
use ilp_journal_file::{Found, JournalFile};
use ilp_log_text::LogText;
use ilp_notices::journal_unread;
use ilp_refusals::Refusal;
use std::fs::File;
use std::io;
use std::io::{Eprint, ErrorKind};
use std::rt::Files;
use std::time::Clock;

// How often the files are read, where a connector changes them meanwhile.
const READS: usize = 3;

/// A book of what stands in a journal's files.
#[derive(Drop)]
pub struct WrittenBook {
    pub book: Book,
    /// How many of its entries stand in the files. Those behind them are the ends that a start would book now of the
    /// holds that are open.
    pub written: u32,
    /// What is remembered of the configuration by which it was last begun.
    pub remembered: Vec<u8>,
}

/// The book of what stands in the files of the journal at this path, which a connector may have, or in the file of a
/// period that is kept. No file is made or changed.
///
/// Refusals: those of `book_of`; `JournalUnread` where there is neither a file nor a log, or the configuration has
/// another run or other assets than what the journal has open, of which a line on standard error says more.
pub fn written_book_at<R>(rt: &R, config: &Config, path: &str) -> Result<WrittenBook, Refused>
where
    R: AllocGlobal + Files<File = File> + Clock + Eprint + Copy,
    ensures begins { IfOk result (λ w. IsWritten config.now w.book w.written) }
    ensures config { IfOk result (λ w. w.book.config ≡ config.now) }
    ensures within { IfOk result (λ w. w.written ≤ length w.book.entries) }
{
    let found = steady_files(rt, path)?;
    if found.text.is_none() && found.log.is_none() {
        journal_unread(rt, path, &io::Error::from(ErrorKind::NotFound));
        return Err(Refused::from(Refusal::JournalUnread));
    }
    match found_book(rt, config, path, &found) {
        Ok(carried) => {
            let remembered = remembered_of(rt.alloc(), &found, carried.source)?;
            Ok(written_book(carried, &found, remembered))
        }
        Err(refused) => Err(refused),
    }
}

// The book that was carried over from what was found.
fn written_book(carried: Carried, found: &Found, remembered: Vec<u8>) -> WrittenBook
    ensures book { result.book ≡ carried.book }
    ensures within { result.written ≤ length result.book.entries }
    ensures written { result.written
        ≡ min (written_by carried.source (option_map (λ t. t.items) found.now.text))
        (length carried.book.entries) }
    ensures remembered { result.remembered.items ≡ remembered.items }
{
    let Carried { book, source } = carried;
    let written = written_entries(found, source).min(book.len());
    WrittenBook {
        book,
        written,
        remembered,
    }
}

// How many entries stand in the files.
fn written_entries(found: &Found, source: Source) -> u32
    ensures { result ≡ written_by source (option_map (λ t. t.items) found.now.text) }
{
    match source {
        Source::Logged { saved, logged } => saved.saturating_add(logged),
        Source::Saved | Source::OlderLog => entries_of(octets_of(&found.text).unwrap_or(&[])),
    }
}

// How many entries a journal's text has, beside its first line and its last.
fn entries_of(text: &[u8]) -> u32
    ensures { result ≡ entries_in text.now }
{
    u32::try_from(line_count(text).saturating_sub(2)).unwrap_or(u32::MAX)
}

// What is found of the journal, where that was not changed while it was read.
fn steady_files<R>(rt: &R, path: &str) -> Result<Found, Refused>
where
    R: AllocGlobal + Files<File = File> + Clock + Eprint,
{
    for _ in 1..READS {
        match files_at(rt, path) {
            Ok(found) if is_of_one_moment(rt, path, &found) => return Ok(found),
            // A line has told of it.
            Err(refused) if refused.why.is_none() => return Err(refused),
            _ => {}
        }
    }
    files_at(rt, path)
}

// What is found of the journal now. The log comes first: a close saves the text with all that the log has, and removes
// the log then, so a text that is read behind it lacks nothing.
fn files_at<R>(rt: &R, path: &str) -> Result<Found, Refused>
where
    R: AllocGlobal + Files<File = File> + Clock + Eprint,
{
    let alloc = rt.alloc();
    let file = JournalFile::untaken(alloc, path)?;
    let log = file.read_log(rt, alloc)?;
    let found = Found {
        text: file.read(rt, alloc)?,
        log,
        remembered: file.remembered(rt, alloc)?,
    };
    behind_ended(rt, path, found)
}

// Whether the log goes on from the journal's text, or the journal has what it has; where there was none, whether there
// is none still, since a period that ends has its log set aside before there is the next one. One that can't be read
// is told of later.
fn is_of_one_moment<R>(rt: &R, path: &str, found: &Found) -> bool
where
    R: AllocGlobal + Files<File = File> + Clock + Eprint,
{
    let Some(octets) = &found.log else {
        return has_no_log(rt, path);
    };
    let text = octets_of(&found.text).unwrap_or(&[]);
    match LogText::read(octets) {
        Ok(log) => log.is_of(text) || log.is_in(text),
        Err(_) => true,
    }
}

// Whether the journal at this path has no log now.
fn has_no_log<R>(rt: &R, path: &str) -> bool
where
    R: AllocGlobal + Files<File = File> + Clock + Eprint,
{
    let alloc = rt.alloc();
    match JournalFile::untaken(alloc, path) {
        Ok(file) => matches!(file.read_log(rt, alloc), Ok(None)),
        Err(_) => false,
    }
}
