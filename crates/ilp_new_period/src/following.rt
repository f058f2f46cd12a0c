//! Whether one journal follows another.

use crate::beginning::next_of;
use ilp_accounts::Config;
use ilp_book::Book;
use ilp_journal::{Entry, What};
use ilp_journal_file::read_text;
use ilp_journal_text::entry_line;
use ilp_refusals::Refusal;
use ilp_starting::{Carried, Refused, RunFault, book_of, configured};
use std::alloc::{AllocError, Global};
use std::rt::Runtime;

/// Says whether the journal at a path begins with what the period at another path has brought forward, each read by a
/// configuration of its own. No file is changed. Prints `period P follows period N`.
///
/// Refusals: those of `configured`, `book_of` and `next_of`; `NotFollowing`, with the first entry that differs.
pub fn follows<R>(
    rt: &R,
    config: &str,
    ended: &str,
    next_config: &str,
    journal: &str,
) -> Result<(), RunFault>
where
    R: Runtime + AllocGlobal + Copy,
{
    let config = configured(rt, config)?;
    let next_config = configured(rt, next_config)?;
    let ended = Kept {
        path: ended,
        config: &config,
    };
    let journal = Kept {
        path: journal,
        config: &next_config,
    };
    follows_by(rt, ended, journal)
}

// A journal's file, and the configuration by which it is read.
#[derive(Clone, Copy)]
struct Kept<'k> {
    path: &'k str,
    config: &'k Config,
}

impl Kept<'_> {
    // Its book. The file has to be there.
    fn book<R>(&self, rt: &R) -> Result<Book, Refused>
    where
        R: Runtime + AllocGlobal + Copy,
    {
        let text = read_text(rt, rt.alloc(), self.path)?;
        match book_of(rt.alloc(), self.config, self.path, Some(&text), None, 0) {
            Ok(carried) => {
                let Carried { book, source: _ } = carried;
                Ok(book)
            }
            Err(refused) => Err(refused),
        }
    }
}

// The same of files and their configurations.
fn follows_by<R>(rt: &R, ended: Kept<'_>, journal: Kept<'_>) -> Result<(), RunFault>
where
    R: Runtime + AllocGlobal + Copy,
{
    let ended = ended.book(rt)?;
    follows_book(rt, &ended, journal)
}

fn follows_book<R>(rt: &R, ended: &Book, journal: Kept<'_>) -> Result<(), RunFault>
where
    R: Runtime + AllocGlobal + Copy,
{
    let next = next_of(rt.alloc(), ended, journal.config)?;
    follows_next(rt, &next, journal)
}

fn follows_next<R>(rt: &R, next: &Book, journal: Kept<'_>) -> Result<(), RunFault>
where
    R: Runtime + AllocGlobal + Copy,
{
    let begun = journal.book(rt)?;
    match first_difference(next, &begun) {
        None => print_followed(rt, next.period()),
        Some(entry) => {
            let why = why(rt.alloc(), journal.path, next, &begun, entry);
            let refused = Refused::because(Refusal::NotFollowing { entry }, why);
            Err(RunFault::Refused(refused))
        }
    }
}

fn print_followed<R: Runtime>(rt: &R, period: u32) -> Result<(), RunFault> {
    let before = period.saturating_sub(1);
    match println!(rt; "period {period} follows period {before}") {
        Ok(()) => Ok(()),
        Err(_) => Err(RunFault::OutputFailed),
    }
}

// The number of the first entry at which a book that has begun is not the next one with something booked behind it: of
// another period it is the first of all. Balances may be opened in another order: then it began by a configuration
// that has the peers in that.
fn first_difference(next: &Book, begun: &Book) -> Option<u32> {
    if begun.period() != next.period() {
        return Some(0);
    }
    let behind = next.len();
    (0..behind)
        .find(|number| !is_brought_forward(next, begun, *number))
        .or(
            begun
                .entry(behind)
                .is_some_and(|entry| entry.what.is_brought_forward())
                .then_some(behind),
        )
}

// Whether the next book has the entry of a number of one that has begun: where it opens a balance, which is done once
// for a peer, under any number; else under the same.
fn is_brought_forward(next: &Book, begun: &Book, number: u32) -> bool {
    let Some(entry) = begun.entry(number) else {
        return false;
    };
    if matches!(entry.what, What::Opened { .. }) {
        (0..next.len()).any(|place| has_entry(next, place, begun.config(), entry))
    } else {
        has_entry(next, number, begun.config(), entry)
    }
}

// Whether a book has this entry of a configuration under a number. Peers are the same by their names.
fn has_entry(next: &Book, number: u32, config: &Config, entry: &Entry) -> bool {
    let Some(own) = next.entry(number) else {
        return false;
    };
    entry_line(next.config(), own).as_slice() == entry_line(config, entry).as_slice()
}

// Why it doesn't follow, for a person.
fn why(
    alloc: Global,
    path: &str,
    next: &Book,
    begun: &Book,
    entry: u32,
) -> Result<String, AllocError> {
    let (period, other) = (next.period(), begun.period());
    if period != other {
        return format!(in alloc; "{path:?} is of the period {other}, and not of {period}");
    }
    format!(in alloc; "{path:?} has another entry {entry} than what was brought forward")
}
