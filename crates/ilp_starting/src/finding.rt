//! The book of what a start finds.
ghost use Rattle.std.specs.Prelude.{◌≡◌, length, option_map, IfErr, IfOk, OnOk};
ghost use Rattle.ilp_starting.specs.Finding.{BeginsOfSome, BeginsOnce, IsWhyNotFound};
ghost use Rattle.ilp_starting.specs.Remembering.{IsRemembered, IsRememberedBy, IsWhyNotKept};
ghost use Rattle.ilp_starting.specs.Remembering.{KeepsRemembered};
ghost use Rattle.ilp_starting.specs.Sources.{IsSource};

use crate::carrying::{Carried, Source, book_of};
use crate::ended::{Aside, aside_of, or_nothing, period_of};
use crate::last_one::expect_last;
use crate::not_carried::ended_of_another_text;
use crate::refused::Refused;
use crate::remembering::expect_unchanged;
use crate::whole_period::WholePeriod;
use ilp_accounts::Config;
use ilp_journal_file::{Found, JournalFile, LockFile, look_at};
use ilp_link_traits::Clock;
use ilp_links::SystemClock;
use ilp_log_text::{LogText, remembered_in};
use std::alloc::{AllocError, Global};
use std::io::Eprint;
use std::rt::Files;
use std::time;

/// The book with which a connector would begin from the journal at this path now. No file is made or
/// changed.
///
/// Refusals: those of `book_of`; `JournalUnread` or `WriteFault` where the journal's file could not be
/// used, a text lies beside it that it lacks, or the configuration has another run or other assets than what the
/// journal has open, of which a line on standard error says more.
pub fn book_at<R>(rt: &R, config: &Config, path: &str) -> Result<Carried, Refused>
where
    R: AllocGlobal + Files + time::Clock + Eprint + Copy,
    R::File: LockFile,
    ensures begins { IfOk result (λ c. BeginsOfSome config.now c.book c.source) }
    ensures config { IfOk result (λ c. c.book.config ≡ config.now) }
    ensures opening { IfOk result (λ c. length c.book.entries ≡ c.book.base) }
{
    let found = look_at(rt, rt.alloc(), path)?;
    expect_keepable(rt, path, &found)?;
    let found = behind_ended(rt, path, found)?;
    last_found(rt, config, path, &found)
}

/// The book of what was found, beside which nothing lies that it lacks.
pub(crate) fn last_found<R>(
    rt: &R,
    config: &Config,
    path: &str,
    found: &Found,
) -> Result<Carried, Refused>
where
    R: AllocGlobal + Files + time::Clock + Eprint + Copy,
    ensures config { IfOk result (λ c. c.book.config ≡ config.now) }
    ensures opening { IfOk result (λ c. length c.book.entries ≡ c.book.base) }
    ensures begins { IfOk result (λ c. BeginsOnce config.now
        (option_map (λ t. t.items) found.now.text) (option_map (λ t. t.items) found.now.log) c.book) }
    ensures source { IfOk result (λ c. IsSource (option_map (λ t. t.items) found.now.text)
        (option_map (λ t. t.items) found.now.log) c.source) }
{
    let carried = found_book(rt, config, path, found)?;
    match expect_last(rt, path, found, &carried.book) {
        Ok(()) => Ok(carried),
        Err(refused) => Err(refused),
    }
}

// Finds that the period can be kept as a whole whose log was set aside, if one was: nothing lies in its way.
fn expect_keepable<R>(rt: &R, path: &str, found: &Found) -> Result<(), Refused>
where
    R: AllocGlobal + Files + time::Clock + Eprint,
{
    let alloc = rt.alloc();
    let file = JournalFile::untaken(alloc, path)?;
    let Some(octets) = file.read_ended(rt, alloc)? else {
        return Ok(());
    };
    let Ok(log) = LogText::read(&octets) else {
        return Err(ended_of_another_text(alloc, path));
    };
    let text = octets_of(&found.text);
    if aside_of(rt, &file, text, &log)? != Aside::Ended {
        return Ok(());
    }
    match WholePeriod::of(alloc, text, &log)? {
        Some(whole) => Ok(file.expect_free(rt, alloc, period_of(or_nothing(text)), &whole)?),
        None => Err(ended_of_another_text(alloc, path)),
    }
}

/// What a start would find where the log of a period was set aside, once that is kept.
pub(crate) fn behind_ended<R>(rt: &R, path: &str, found: Found) -> Result<Found, Refused>
where
    R: AllocGlobal + Files + time::Clock + Eprint,
{
    let alloc = rt.alloc();
    let file = JournalFile::untaken(alloc, path)?;
    let Some(ended) = file.read_ended(rt, alloc)? else {
        return Ok(found);
    };
    let Ok(log) = LogText::read(&ended) else {
        return Err(ended_of_another_text(alloc, path));
    };
    let mut found = found;
    match aside_of(rt, &file, octets_of(&found.text), &log)? {
        Aside::Ended => found.text = file.read_next(rt, alloc)?,
        Aside::InForce => found.log = Some(ended),
        Aside::Over => {}
        Aside::Strange => return Err(ended_of_another_text(alloc, path)),
    }
    Ok(found)
}

/// The book of what was found of the journal at this path, as of now, by a configuration that has the run
/// and the assets which are remembered.
pub(crate) fn found_book<R>(
    rt: &R,
    config: &Config,
    path: &str,
    found: &Found,
) -> Result<Carried, Refused>
where
    R: AllocGlobal + time::Clock + Eprint + Copy,
    ensures config { IfOk result (λ c. c.book.config ≡ config.now) }
    ensures opening { IfOk result (λ c. length c.book.entries ≡ c.book.base) }
    ensures unchanged { IfOk result (λ c. KeepsRemembered c.book.config c.book.entries c.source
        (option_map (λ t. t.items) found.now.log) found.now.remembered.items) }
    ensures begins { IfOk result (λ c. BeginsOnce config.now
        (option_map (λ t. t.items) found.now.text) (option_map (λ t. t.items) found.now.log) c.book) }
    ensures source { IfOk result (λ c. IsSource (option_map (λ t. t.items) found.now.text)
        (option_map (λ t. t.items) found.now.log) c.source) }
    ensures refused { IfErr result (λ r. IsWhyNotFound config.now
        (option_map (λ t. t.items) found.now.text) (option_map (λ t. t.items) found.now.log)
        found.now.remembered.items r.refusal) }
{
    let now = SystemClock::new(*rt).now();
    let (text, log) = (octets_of(&found.text), octets_of(&found.log));
    let carried = book_of(rt.alloc(), config, path, text, log, now)?;
    match expect_remembered(rt, path, &carried, found) {
        Ok(()) => Ok(carried),
        Err(refused) => Err(refused),
    }
}

// Finds that a book's configuration has the run and the assets that are remembered.
fn expect_remembered<R>(rt: &R, path: &str, carried: &Carried, found: &Found) -> Result<(), Refused>
where
    R: AllocGlobal + time::Clock + Eprint,
    ensures ok { OnOk result (KeepsRemembered carried.now.book.config carried.now.book.entries
        carried.now.source (option_map (λ t. t.items) found.now.log) found.now.remembered.items) }
    ensures err { IfErr result (λ r. IsWhyNotKept carried.now.book.config carried.now.book.entries
        carried.now.source (option_map (λ t. t.items) found.now.log) found.now.remembered.items
        r.refusal) }
{
    let remembered = remembered_of(rt.alloc(), found, carried.source)?;
    expect_unchanged(rt, path, &carried.book, &remembered)
}

/// The octets of what was found.
pub(crate) fn octets_of(text: &Option<Vec<u8>>) -> Option<&[u8]>
    ensures { option_map (λ t. t.now) result ≡ option_map (λ t. t.items) text.now }
{
    match text {
        Some(octets) => Some(octets.as_slice()),
        None => None,
    }
}

/// What is remembered of the run whose entries these are: behind a sudden stop the log says it.
pub(crate) fn remembered_of(
    alloc: Global,
    found: &Found,
    source: Source,
) -> Result<Vec<u8>, AllocError>
    ensures { IfOk result (λ text. IsRemembered source (option_map (λ t. t.items) found.now.log)
        found.now.remembered.items text.items) }
{
    match source {
        Source::Saved => Vec::from_slice(alloc, &found.remembered),
        Source::OlderLog => Vec::from_slice(alloc, &found.remembered),
        Source::Logged { .. } => remembered_by(alloc, octets_of(&found.log), &found.remembered),
    }
}

// What the head of a log says, and what is kept where there is none that can be read.
fn remembered_by(alloc: Global, log: Option<&[u8]>, kept: &[u8]) -> Result<Vec<u8>, AllocError>
    ensures { IfOk result (λ text. IsRememberedBy (option_map (λ t. t.now) log.entry) kept.now
        text.items) }
{
    let Some(octets) = log else {
        return Vec::from_slice(alloc, kept);
    };
    match LogText::read(octets) {
        Ok(log) => remembered_in(alloc, log.remembered()),
        Err(_) => Vec::from_slice(alloc, kept),
    }
}
