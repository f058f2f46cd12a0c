//! A period that ended while a connector ran: its log was set aside, and its text may not be kept yet.
ghost use Rattle.std.specs.Prelude.{◌≡◌, ◌↔◌, [], option_map, IfOk, IsSomeAnd, IsTrue};
ghost use Rattle.ilp_log_text.specs.Text.{IsIn};
ghost use Rattle.ilp_starting.specs.Beginning.{GoesOn, text_or_nothing};
ghost use Rattle.ilp_starting.specs.Ended.{IsOver, IsPeriodOf};
ghost use Rattle.ilp_starting.specs.declared.ended.Aside.TheVariants as asides;

use crate::finding::octets_of;
use crate::not_carried::ended_of_another_text;
use crate::refused::Refused;
use crate::saved::{Saved, SavedText};
use crate::whole_period::WholePeriod;
use ilp_book::Book;
use ilp_journal_file::{Content, FileFault, JournalFile, PlacesFiles};
use ilp_journal_text::JournalText;
use ilp_log_text::LogText;
use std::io::Eprint;
use std::rt::Files;
use std::time::Clock;

/// What a log that was set aside is, beside what stands there now.
#[derive(Clone, Copy, Debug, PartialEq, Eq)]
pub(crate) enum Aside {
    /// It goes on from the journal's text, and the next period has begun: the two are the period before.
    Ended,
    /// It goes on from the journal's text, and no other period has begun.
    InForce,
    /// The journal's text has all of it, or that of the period before.
    Over,
    /// None of these.
    Strange,
}

/// Keeps the text of a period that ended while a connector ran, and has the journal be that of the next one, where
/// that is still to be done. A stop at any moment of it leaves what the same call goes on from.
///
/// Refusals: `JournalUnread` where a file can't be read, or the log that was set aside is of another journal;
/// `WriteFault` where one can't be written; `Memory`. A line on standard error says more, or the refusal.
pub fn keep_ended<R, F>(rt: &R, file: &JournalFile<F>, path: &str) -> Result<(), Refused>
where
    R: AllocGlobal + Files + PlacesFiles + Clock + Eprint,
{
    let alloc = rt.alloc();
    let Some(octets) = file.read_ended(rt, alloc)? else {
        return Ok(());
    };
    let Ok(log) = LogText::read(&octets) else {
        return Err(ended_of_another_text(alloc, path));
    };
    let text = file.read(rt, alloc)?;
    let text = octets_of(&text);
    match aside_of(rt, file, text, &log)? {
        Aside::Ended => {
            let Some(whole) = WholePeriod::of(alloc, text, &log)? else {
                return Err(ended_of_another_text(alloc, path));
            };
            keep_whole(rt, file, period_of(or_nothing(text)), &whole)?;
        }
        Aside::InForce => file.take_back(rt)?,
        Aside::Over => forget_ended(rt, file, text)?,
        Aside::Strange => return Err(ended_of_another_text(alloc, path)),
    }
    Ok(())
}

/// The same where the book of the period that ended is at hand, and its log was set aside: its text is written of that.
/// Neither journal nor log is read, and but for a text that is kept of the period already, what it holds in memory
/// doesn't grow with the book.
///
/// Refusals: `WriteFault` where a file can't be written; `JournalUnread` where one of the period has another text;
/// `Memory`. A line on standard error says more.
pub fn keep_set_aside<R, F>(rt: &R, file: &JournalFile<F>, book: &Book) -> Result<(), Refused>
where
    R: AllocGlobal + Files + PlacesFiles + Clock + Eprint,
{
    let whole = Saved {
        book,
        config: book.config(),
    };
    match keep_whole(rt, file, book.period(), &whole) {
        Ok(()) => Ok(()),
        Err(fault) => Err(Refused::from(fault)),
    }
}

// Removes the log that was set aside, of which all is kept elsewhere: by the journal, of which this is the text, or
// beside it. What the system shows of the journal may be what it failed to write, so it is written first.
fn forget_ended<R, F>(rt: &R, file: &JournalFile<F>, text: Option<&[u8]>) -> Result<(), FileFault>
where
    R: AllocGlobal + Files + PlacesFiles + Clock + Eprint,
{
    if let Some(text) = text {
        file.save_at_start(rt, rt.alloc(), &SavedText(text))?;
    }
    file.remove_ended(rt)
}

/// Removes what a period behind this one was to begin with, where it is there: this one goes on. A line says so, and of
/// one that is of another period and stays.
///
/// Refusals: those of `JournalFile::read_next`; `Unwritten` where it can't be removed, and a line says so.
pub(crate) fn forget_next<R, F>(rt: &R, file: &JournalFile<F>, period: u32) -> Result<(), FileFault>
where
    R: AllocGlobal + Files + PlacesFiles + Clock + Eprint,
{
    match file.read_next(rt, rt.alloc())? {
        Some(text) => {
            let goes = period_of(text.as_slice()) > period;
            file.tell_next(rt, goes);
            if goes { file.forget_next(rt) } else { Ok(()) }
        }
        None => Ok(()),
    }
}

// Keeps a period, of which this is the text, and has the next one be the journal.
fn keep_whole<R, F>(
    rt: &R,
    file: &JournalFile<F>,
    period: u32,
    whole: &impl Content,
) -> Result<(), FileFault>
where
    R: AllocGlobal + Files + PlacesFiles + Clock + Eprint,
{
    file.keep_period(rt, rt.alloc(), period, whole)?;
    file.begin_next(rt)?;
    file.remove_ended(rt)
}

/// What a log that was set aside is, beside this text of the journal, or beside none.
pub(crate) fn aside_of<R, F>(
    rt: &R,
    file: &JournalFile<F>,
    text: Option<&[u8]>,
    log: &LogText<'_>,
) -> Result<Aside, FileFault>
where
    R: AllocGlobal + Files + Clock + Eprint,
    ensures ended { IfOk result (λ aside. aside ≡ asides.Ended
        → GoesOn log.now (option_map (λ t. t.now) text.entry)) }
    ensures in_force { IfOk result (λ aside. aside ≡ asides.InForce
        → GoesOn log.now (option_map (λ t. t.now) text.entry)) }
    ensures over { IfOk result (λ aside. aside ≡ asides.Over
        → IsOver log.now (option_map (λ t. t.now) text.entry)) }
{
    let octets = or_nothing(text);
    if log.is_of(octets) {
        return beside_own_text(rt, file, log);
    }
    if log.is_in(octets) {
        return Ok(Aside::Over);
    }
    let Some(before) = period_of(octets).checked_sub(1) else {
        return Ok(Aside::Strange);
    };
    let kept = file.read_period(rt, rt.alloc(), before)?;
    if is_kept_in(octets_of(&kept), log) {
        Ok(Aside::Over)
    } else {
        Ok(Aside::Strange)
    }
}

// Whether a text is kept, and has all that the log has.
fn is_kept_in(kept: Option<&[u8]>, log: &LogText<'_>) -> bool
    ensures { IsTrue result ↔ IsSomeAnd kept.entry (λ text. IsIn log.now text.now) }
{
    match kept {
        Some(text) => log.is_in(text),
        None => false,
    }
}

// What it is beside the text from which it goes on.
fn beside_own_text<R, F>(
    rt: &R,
    file: &JournalFile<F>,
    log: &LogText<'_>,
) -> Result<Aside, FileFault>
where
    R: AllocGlobal + Files + Clock + Eprint,
    ensures over { IfOk result (λ aside. aside ≡ asides.Over → log.now.lines ≡ []) }
{
    let alloc = rt.alloc();
    if file.read_next(rt, alloc)?.is_some() {
        return Ok(Aside::Ended);
    }
    if log.lines().is_empty() {
        return Ok(Aside::Over);
    }
    match file.read_log(rt, alloc)? {
        None => Ok(Aside::InForce),
        Some(_) => Ok(Aside::Strange),
    }
}

/// The octets of a text, and none where there is no text.
pub(crate) fn or_nothing(text: Option<&[u8]>) -> &[u8]
    ensures { result.now ≡ text_or_nothing (option_map (λ t. t.now) text.entry) }
{
    text.unwrap_or(&[])
}

/// The number of the period that a text is of, or that of the first one.
pub(crate) fn period_of(text: &[u8]) -> u32
    ensures { IsPeriodOf text.now result }
{
    match JournalText::begin(text) {
        Ok(text) => text.period(),
        Err(_) => 0,
    }
}
