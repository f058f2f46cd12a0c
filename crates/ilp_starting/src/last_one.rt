//! Whether a journal is the last one of those that lie beside each other.
ghost use Rattle.std.specs.Prelude.{◌≡◌};

use crate::refused::Refused;
use crate::saved::Saved;
use ilp_book::Book;
use ilp_journal_file::{FileFault, Found, JournalFile, begins_with, last_kept};
use ilp_notices::{journal_gone, journal_older};
use ilp_refusals::Refusal;
use std::io::Eprint;
use std::rt::Files;
use std::time::Clock;

/// Finds that nothing lies beside the journal which it and its log don't have, by what was found of them and by their
/// book: no text of a later period, none of its own that has more than the book, and where there is no journal and no
/// log nothing that was of one. An older copy of it would have balances go back, and keys be credited again.
///
/// Refusals: `JournalUnread`, of which a line on standard error says more; `Memory`. Nothing is changed.
pub(crate) fn expect_last<R>(rt: &R, path: &str, found: &Found, book: &Book) -> Result<(), Refused>
where
    R: AllocGlobal + Files + Clock + Eprint + Copy,
{
    if found.text.is_none() {
        return expect_none(rt, path, found);
    }
    let Some(last) = last_kept(rt, path, book.period())? else {
        return Ok(());
    };
    if last == book.period() && has_kept(rt, path, book)? {
        return Ok(());
    }
    journal_older(rt, path, last, book.period());
    Err(Refused::from(Refusal::JournalUnread))
}

// Finds that no journal was there.
fn expect_none<R>(rt: &R, path: &str, found: &Found) -> Result<(), Refused>
where
    R: AllocGlobal + Files + Clock + Eprint + Copy,
{
    let alloc = rt.alloc();
    let file = JournalFile::untaken(alloc, path)?;
    let is_left = found.log.is_none() && file.read_next(rt, alloc)?.is_some();
    if !is_left && last_kept(rt, path, 0)?.is_none() {
        return Ok(());
    }
    journal_gone(rt, path);
    Err(Refused::from(Refusal::JournalUnread))
}

// Whether a book has all that is kept of its period.
fn has_kept<R>(rt: &R, path: &str, book: &Book) -> Result<bool, FileFault>
where
    R: AllocGlobal + Files + Clock + Eprint + Copy,
{
    let alloc = rt.alloc();
    let file = JournalFile::untaken(alloc, path)?;
    let whole = Saved {
        book,
        config: book.config(),
    };
    match file.read_period(rt, alloc, book.period())? {
        Some(text) => Ok(begins_with(&whole, without_end(&text))),
        None => Ok(true),
    }
}

// A text of a journal without its last line, which says how many entries it has.
fn without_end(text: &[u8]) -> &[u8] {
    let lines = text.strip_suffix(b"\n").unwrap_or(text);
    match lines.iter().rposition(|octet| *octet == b'\n') {
        Some(last) => lines.get(..last).unwrap_or(lines),
        None => lines,
    }
}
