//! The book that a connector begins with.
ghost use Rattle.std.specs.Prelude.{◌≡◌, length, option_map, Some, None, IfOk, IfErr};
ghost use Rattle.ilp_book.specs.Book.{new_book};
ghost use Rattle.ilp_book.specs.Carry.{IsCarriedOver};
ghost use Rattle.ilp_book.specs.Recover.{IsRecovered};
ghost use Rattle.ilp_line_file.specs.Text.{text_of};
ghost use Rattle.ilp_refusals.specs.declared.refusal.Refusal.TheVariants as refusals;
ghost use Rattle.ilp_starting.specs.Beginning.{BeginsBy, BeginsWith, BeginsWithLog, IsWhyNotBegun};
ghost use Rattle.ilp_starting.specs.Beginning.{IsWhyNotBegunBy, IsWhyNotBegunWithLog};
ghost use Rattle.ilp_starting.specs.Beginning.{IsWhyNotRecoveredBy, line_count};
ghost use Rattle.ilp_starting.specs.Sources.{IsSource, IsSourceBeside, logged_by};

use crate::not_carried::{bad_head, not_carried, not_recovered, of_another_text};
use crate::refused::Refused;
use ilp_accounts::Config;
use ilp_book::Book;
use ilp_log_text::LogText;
use std::alloc::Global;

/// The text of a journal in which nothing was booked.
pub(crate) const NO_ENTRIES: &[u8] = b"ilp-journal 1\nend 0\n";

/// Where the entries come from with which a book begins.
#[derive(Clone, Copy, Debug, PartialEq, Eq)]
pub enum Source {
    /// The journal's text, where there is one.
    Saved,
    /// It has all that a log has which lies beside it.
    OlderLog,
    /// So many come from the text, and behind these so many from the log.
    Logged { saved: u32, logged: u32 },
}

/// A book with which a connector begins, and where its entries come from.
#[derive(Drop)]
pub struct Carried {
    pub book: Book,
    pub source: Source,
}

/// The book of a journal's text and of the log beside it, as they are found, at this time in milliseconds
/// since 1970. Where there is no log it is that of the text, and a new one where there is none. A log that
/// goes on from this text has the entries behind it, and holds that are open end as `Book::carry_over`
/// says. A log of an older text, all of which the journal has, is passed over.
///
/// Refusals: `BadJournalText` and `Unlawful`, with the line of the file at which that shows, the journal's
/// or the log's; `JournalUnread` where the log is neither; `Memory`.
pub fn book_of(
    alloc: Global,
    config: &Config,
    path: &str,
    text: Option<&[u8]>,
    log: Option<&[u8]>,
    now: i64,
) -> Result<Carried, Refused>
    ensures begins { IfOk result (λ c. BeginsBy config.now (option_map (λ t. t.now) text.entry)
        (option_map (λ t. t.now) log.entry) now c.book) }
    ensures refused { IfErr result (λ r. IsWhyNotBegunBy config.now (option_map (λ t. t.now) text.entry)
        (option_map (λ t. t.now) log.entry) r.refusal) }
    ensures config { IfOk result (λ c. c.book.config ≡ config.now) }
    ensures opening { IfOk result (λ c. length c.book.entries ≡ c.book.base) }
    ensures source { IfOk result (λ c. IsSource (option_map (λ t. t.now) text.entry)
        (option_map (λ t. t.now) log.entry) c.source) }
{
    let Some(octets) = log else {
        return saved_book(alloc, config, path, text, now);
    };
    match LogText::read(octets) {
        Ok(log) => logged_book(alloc, config, path, text, &log, now),
        Err(bad) => Err(bad_head(alloc, path, bad)),
    }
}

// The book of a journal's text, or a new one where there is none.
fn saved_book(
    alloc: Global,
    config: &Config,
    path: &str,
    text: Option<&[u8]>,
    now: i64,
) -> Result<Carried, Refused>
    ensures begins { IfOk result (λ c. BeginsWith config.now (option_map (λ t. t.now) text.entry) now
        c.book) }
    ensures refused { IfErr result (λ r. IsWhyNotBegun config.now (option_map (λ t. t.now) text.entry)
        r.refusal) }
    ensures config { IfOk result (λ c. c.book.config ≡ config.now) }
    ensures opening { IfOk result (λ c. length c.book.entries ≡ c.book.base) }
    ensures source { IfOk result (λ c. c.source ≡ Source.Saved) }
{
    if let Some(text) = text {
        return carried_book(alloc, config, path, text, Source::Saved, now);
    }
    match new_book(alloc, config) {
        Ok(book) => Ok(Carried {
            book,
            source: Source::Saved,
        }),
        Err(refused) => Err(refused),
    }
}

// The book of a log that was read, and of a journal's text, where there is one.
fn logged_book(
    alloc: Global,
    config: &Config,
    path: &str,
    text: Option<&[u8]>,
    log: &LogText<'_>,
    now: i64,
) -> Result<Carried, Refused>
    ensures begins { IfOk result (λ c. BeginsWithLog config.now (option_map (λ t. t.now) text.entry)
        log.now now c.book) }
    ensures refused { IfErr result (λ r. IsWhyNotBegunWithLog config.now
        (option_map (λ t. t.now) text.entry) log.now r.refusal) }
    ensures config { IfOk result (λ c. c.book.config ≡ config.now) }
    ensures opening { IfOk result (λ c. length c.book.entries ≡ c.book.base) }
    ensures source { IfOk result (λ c. IsSourceBeside (option_map (λ t. t.now) text.entry)
        log.now c.source) }
{
    match text {
        Some(text) => book_beside(alloc, config, path, text, log, now),
        None => book_without(alloc, config, path, log, now),
    }
}

// The book of a log that lies beside this text of the journal.
fn book_beside(
    alloc: Global,
    config: &Config,
    path: &str,
    text: &[u8],
    log: &LogText<'_>,
    now: i64,
) -> Result<Carried, Refused>
    ensures begins { IfOk result (λ c. BeginsWithLog config.now (Some text.now) log.now now c.book) }
    ensures refused { IfErr result
        (λ r. IsWhyNotBegunWithLog config.now (Some text.now) log.now r.refusal) }
    ensures config { IfOk result (λ c. c.book.config ≡ config.now) }
    ensures opening { IfOk result (λ c. length c.book.entries ≡ c.book.base) }
    ensures source { IfOk result (λ c. IsSourceBeside (Some text.now) log.now c.source) }
{
    if log.is_of(text) {
        recovered_book(alloc, config, path, text, log, now)
    } else if log.is_in(text) && line_count(text) as u64 >= u64::from(log.count()) + 2 {
        carried_book(alloc, config, path, text, Source::OlderLog, now)
    } else {
        Err(of_another_text(alloc, path))
    }
}

// The book of a log beside which there is no journal.
fn book_without(
    alloc: Global,
    config: &Config,
    path: &str,
    log: &LogText<'_>,
    now: i64,
) -> Result<Carried, Refused>
    ensures begins { IfOk result (λ c. BeginsWithLog config.now None log.now now c.book) }
    ensures refused { IfErr result
        (λ r. IsWhyNotBegunWithLog config.now None log.now r.refusal) }
    ensures config { IfOk result (λ c. c.book.config ≡ config.now) }
    ensures opening { IfOk result (λ c. length c.book.entries ≡ c.book.base) }
    ensures source { IfOk result (λ c. IsSourceBeside None log.now c.source) }
{
    if log.is_of(&[]) {
        recovered_book(alloc, config, path, NO_ENTRIES, log, now)
    } else {
        Err(of_another_text(alloc, path))
    }
}

// The book of a journal's text.
fn carried_book(
    alloc: Global,
    config: &Config,
    path: &str,
    text: &[u8],
    source: Source,
    now: i64,
) -> Result<Carried, Refused>
    ensures begins { IfOk result (λ c. IsCarriedOver config.now text.now now c.book) }
    ensures refused { IfErr result
        (λ r. IsWhyNotBegun config.now (Some text.now) r.refusal) }
    ensures config { IfOk result (λ c. c.book.config ≡ config.now) }
    ensures opening { IfOk result (λ c. length c.book.entries ≡ c.book.base) }
    ensures source { IfOk result (λ c. c.source ≡ source) }
{
    match Book::carry_over(alloc, config, text, now) {
        Ok(book) => Ok(Carried { book, source }),
        Err(fault) => Err(not_carried(alloc, path, text, fault)),
    }
}

// The book of a journal's text, and behind it the entries of a log that goes on from there.
fn recovered_book(
    alloc: Global,
    config: &Config,
    path: &str,
    saved: &[u8],
    log: &LogText<'_>,
    now: i64,
) -> Result<Carried, Refused>
    ensures begins { IfOk result
        (λ c. IsRecovered config.now saved.now (text_of log.now.lines) now c.book) }
    ensures refused { IfErr result
        (λ r. IsWhyNotRecoveredBy config.now saved.now (text_of log.now.lines) r.refusal) }
    ensures config { IfOk result (λ c. c.book.config ≡ config.now) }
    ensures opening { IfOk result (λ c. length c.book.entries ≡ c.book.base) }
    ensures source { IfOk result (λ c. c.source ≡ logged_by log.now) }
{
    match Book::recover(alloc, config, saved, log.lines(), now) {
        Ok(book) => {
            let source = Source::Logged {
                saved: log.count(),
                logged: u32::try_from(line_count(log.lines())).unwrap_or(u32::MAX),
            };
            Ok(Carried { book, source })
        }
        Err(fault) => Err(not_recovered(alloc, path, saved, log, fault)),
    }
}

/// How many lines a text has.
pub(crate) fn line_count(text: &[u8]) -> usize
    ensures { result ≡ line_count text.now }
{
    text.iter().filter(|octet| **octet == b'\n').count()
}

/// A book in which nothing was booked.
pub fn new_book(alloc: Global, config: &Config) -> Result<Book, Refused>
    ensures begins { IfOk result (λ b. b ≡ new_book config.now) }
    ensures refused { IfErr result (λ r. r.refusal ≡ refusals.Memory) }
{
    match Book::new(alloc, config) {
        Ok(book) => Ok(book),
        Err(denied) => Err(Refused::from(denied)),
    }
}
