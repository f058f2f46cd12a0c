//! Why a connector begins with no book, and the line of a file at which that shows.
ghost use Rattle.std.specs.Prelude.{◌≡◌};
ghost use Rattle.ilp_refusals.specs.Refusals.{carry_refusal};
ghost use Rattle.ilp_refusals.specs.declared.refusal.Refusal.TheVariants as refusals;
ghost use Rattle.ilp_starting.specs.Beginning.{head_refusal, recover_refusal};

use crate::expecting::{expected_at, expected_of_entry};
use crate::refused::Refused;
use ilp_book::{BrokenRule, CarryFault, RecoverFault};
use ilp_log_text::{BadHead, LogText};
use ilp_refusals::Refusal;
use std::alloc::{AllocError, Global};

// How many lines a journal has before those of entries, and a log.
const JOURNAL_HEAD: u64 = 1;

const LOG_HEAD: u64 = 2;

/// Why a journal's text is not carried over.
pub(crate) fn not_carried(alloc: Global, path: &str, text: &[u8], fault: CarryFault) -> Refused
    ensures { result.refusal ≡ carry_refusal fault }
{
    let why = match fault {
        CarryFault::BadJournalText { line } => bad_line(alloc, path, text, line),
        CarryFault::Unlawful { entry, rule } => {
            unlawful(alloc, path, u64::from(entry) + JOURNAL_HEAD, entry, rule)
        }
        CarryFault::Memory => return Refused::from(Refusal::Memory),
    };
    Refused::because(Refusal::from(&fault), why)
}

/// Why a journal's text and its log are not recovered.
pub(crate) fn not_recovered(
    alloc: Global,
    path: &str,
    text: &[u8],
    log: &LogText<'_>,
    fault: RecoverFault,
) -> Refused
    ensures { result.refusal ≡ recover_refusal fault }
{
    match fault {
        RecoverFault::BadJournalText { line } => {
            not_carried(alloc, path, text, CarryFault::BadJournalText { line })
        }
        RecoverFault::BadLogLine { line } => {
            let why = bad_log_line(alloc, path, log, line);
            let line = line.saturating_add(LOG_HEAD);
            Refused::because(Refusal::BadJournalText { line }, why)
        }
        RecoverFault::Unlawful { entry, rule } => match entry.checked_sub(log.count()) {
            None => not_carried(alloc, path, text, CarryFault::Unlawful { entry, rule }),
            Some(behind) => {
                let why = unlawful_in_log(alloc, path, behind, entry, rule);
                Refused::because(Refusal::from(&CarryFault::Unlawful { entry, rule }), why)
            }
        },
        RecoverFault::Memory => Refused::from(Refusal::Memory),
    }
}

/// That a log's first lines are none.
pub(crate) fn bad_head(alloc: Global, path: &str, bad: BadHead) -> Refused
    ensures { result.refusal ≡ head_refusal bad }
{
    match bad {
        BadHead::First => {
            let why = bad_head_line(alloc, path, 1, "`ilp-log 1 COUNT DIGEST`");
            Refused::because(Refusal::BadJournalText { line: 1 }, why)
        }
        BadHead::Second => {
            let why = bad_head_line(alloc, path, 2, "`run RUN; peer NAME CODE SCALE; ..`");
            Refused::because(Refusal::BadJournalText { line: 2 }, why)
        }
    }
}

/// That a log goes on from another text than that of the journal beside it, which lacks what the log has.
pub(crate) fn of_another_text(alloc: Global, path: &str) -> Refused
    ensures { result.refusal ≡ refusals.JournalUnread }
{
    let why = format!(in alloc;
        "journal {path:?}: its log goes on from another text, and the journal lacks what the log has: put both back as they stood together, or move the log away and lose what it has"
    );
    Refused::because(Refusal::JournalUnread, why)
}

/// That a log which was set aside as its period ended goes on from another text than that of the journal beside it,
/// and nobody has kept what it has.
pub(crate) fn ended_of_another_text(alloc: Global, path: &str) -> Refused
    ensures { result.refusal ≡ refusals.JournalUnread }
{
    let why = format!(in alloc;
        "journal {path:?}: the log of an ended period beside it, named .ended, is of another text, and what it has stands nowhere else: put both back as they stood together, or move that one away and lose what it has"
    );
    Refused::because(Refusal::JournalUnread, why)
}

fn bad_line(alloc: Global, path: &str, text: &[u8], line: u64) -> Result<String, AllocError> {
    let expected = expected_at(alloc, text, line)?;
    format!(in alloc; "{path:?} line {line}: expected {expected}")
}

fn bad_head_line(alloc: Global, path: &str, line: u64, form: &str) -> Result<String, AllocError> {
    let log = log_path(alloc, path)?;
    format!(in alloc; "{log:?} line {line}: expected {form}, ended by LF")
}

// The line is one of those behind the head.
fn bad_log_line(
    alloc: Global,
    path: &str,
    log: &LogText<'_>,
    line: u64,
) -> Result<String, AllocError> {
    let expected = expected_of_entry(alloc, log.lines(), line)?;
    let (file, number) = (log_path(alloc, path)?, line.saturating_add(LOG_HEAD));
    format!(in alloc; "{file:?} line {number}: expected {expected}")
}

// What is not lawful at the line of an entry; `behind` lines of the file stand before it, of entries and
// of its head.
fn unlawful(
    alloc: Global,
    file: &str,
    behind: u64,
    entry: u32,
    rule: BrokenRule,
) -> Result<String, AllocError> {
    let line = behind.saturating_add(1);
    format!(in alloc;
        "{file:?} line {line}: the entry {entry} is not lawful: {rule}: where the configuration was changed, `connector new-period` brings the books forward to it; a period that is kept has its own"
    )
}

fn unlawful_in_log(
    alloc: Global,
    path: &str,
    behind: u32,
    entry: u32,
    rule: BrokenRule,
) -> Result<String, AllocError> {
    let file = log_path(alloc, path)?;
    unlawful(
        alloc,
        file.as_str(),
        u64::from(behind) + LOG_HEAD,
        entry,
        rule,
    )
}

// The path of the log beside the journal at this path.
fn log_path(alloc: Global, path: &str) -> Result<String, AllocError> {
    format!(in alloc; "{path}.log")
}
