//! The entries of a text.
ghost use Rattle.std.specs.Prelude.{◌≡◌, ◌∷◌, ◌++◌, [], ◌↔◌, IsTrue, IfErr, IfOk, OnOk};
ghost use Rattle.ilp_journal.specs.Journal.{AnswersHold, ClosesAsk};
ghost use Rattle.ilp_journal_text.specs.Reading.{IsTextOf};
ghost use Rattle.ilp_follows.specs.Follows.{IsOfReading};

use crate::fault::FollowFault;
use ilp_accounts::Config;
use ilp_journal::{Entry, Journal};
use ilp_journal_text::JournalText;
use std::alloc::Global;

/// The number of a period, and what its text has.
#[derive(Drop)]
pub(crate) struct ReadPeriod {
    pub(crate) number: u32,
    pub(crate) journal: Journal,
}

/// Reads the text of a period with peers of this configuration.
///
/// It is refused at the first bad line, at an entry that names nothing before it, and where memory is short.
pub(crate) fn read_period(
    alloc: Global,
    config: &Config,
    text: &[u8],
) -> Result<ReadPeriod, FollowFault>
    ensures ok { IfOk result (λ read. IsTextOf config.now read.number read.journal.entries text.now) }
    ensures refused { IfErr result IsOfReading }
{
    let mut lines = JournalText::begin(text)?;
    let mut read = ReadPeriod {
        number: lines.period(),
        journal: Journal::new(alloc, line_count(text))?,
    };
    while let Some(entry) = lines.next(config)? {
        read.take(entry)?;
    }
    Ok(read)
}

impl ReadPeriod {
    // Takes up the entry that comes next.
    fn take(&mut self, entry: Entry) -> Result<(), FollowFault>
        ensures entries { OnOk result
            (self.new.journal.entries ≡ self.old.journal.entries ++ entry ∷ []) }
        ensures number { self.new.number ≡ self.old.number }
        ensures refused { IfErr result IsOfReading }
    {
        let number = self.journal.len();
        if !names_earlier(&self.journal, &entry) {
            return Err(FollowFault::NamesNothing { entry: number });
        }
        if number >= self.journal.limit() {
            return Err(FollowFault::Memory);
        }
        self.journal.reserve(1)?;
        self.journal.push_reserved(entry);
        Ok(())
    }
}

// Whether the hold that an entry answers, or the settlement that it closes, stands in the journal.
fn names_earlier(journal: &Journal, entry: &Entry) -> bool
    ensures { IsTrue result ↔ (AnswersHold journal.now.entries entry.now
        × ClosesAsk journal.now.entries entry.now) }
{
    answers_hold(journal, entry) && closes_ask(journal, entry)
}

fn answers_hold(journal: &Journal, entry: &Entry) -> bool
    ensures { IsTrue result ↔ AnswersHold journal.now.entries entry.now }
{
    match entry.what.answered() {
        Some(hold) => journal.hold(hold).is_some(),
        None => true,
    }
}

fn closes_ask(journal: &Journal, entry: &Entry) -> bool
    ensures { IsTrue result ↔ ClosesAsk journal.now.entries entry.now }
{
    match entry.what.closed() {
        Some(ask) => journal.ask(ask).is_some(),
        None => true,
    }
}

// How many lines a text has, of which each entry is one.
fn line_count(text: &[u8]) -> u32 {
    let count = text.iter().filter(|octet| **octet == b'\n').count();
    u32::try_from(count).unwrap_or(u32::MAX)
}
