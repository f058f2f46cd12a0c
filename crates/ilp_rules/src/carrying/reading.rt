//! The entries of a saved journal, and those that were logged behind it, are taken up.
ghost use Rattle.std.specs.Prelude.{◌≡◌, ◌∷◌, ◌++◌, [], ℕ, OnOk, OnErr, IfOk, IfErr};
ghost use Rattle.ilp_accounts.specs.Configuration.{Configuration};
ghost use Rattle.ilp_journal.specs.Journal.{Entries};
ghost use Rattle.ilp_journal_text.specs.Reading.{IsTextOf, IsFirstBadLine, AreLinesOf, IsFirstBadEntryLine};
ghost use Rattle.ilp_rules.specs.Book.{pushed};
ghost use Rattle.ilp_rules.specs.TakenUp.{StopsAt, AreTakenUp, NamesLine};

use super::Carrying;
use crate::fault::Stop;
use ilp_accounts::Config;
use ilp_journal::Entry;
use ilp_journal_text::{JournalLines, JournalText, TextFault};
use std::alloc::{AllocError, Allocator};

/// Entries are taken up one after another, up to the first that is unlawful or for which memory is
/// short. Those behind it are read all the same, since a bad line there is what is told then.
#[derive(Drop)]
pub(crate) struct TakingUp<A: Allocator> {
    /// The book of the entries that were taken up.
    pub(crate) carrying: Carrying<A>,
    /// Whether those are all that came.
    pub(crate) taken: Result<(), Stop>,
}

impl<A: Allocator + Clone> TakingUp<A> {
    /// No entry of a period came yet. `AllocError` tells that memory is short.
    fn new(alloc: A, config: &Config, period: u32) -> Result<TakingUp<A>, AllocError>
        ensures { IfOk result (λ taking.
            AreTakenUp config.now period [] taking.carrying taking.taken) }
    {
        Ok(TakingUp {
            carrying: Carrying::new(alloc, config, period)?,
            taken: Ok(()),
        })
    }

    /// Takes up the entries of the text of a journal, which come first, as those of its period.
    pub(crate) fn of_text(alloc: A, config: &Config, text: &[u8]) -> Result<TakingUp<A>, TextFault>
        ensures ok { IfOk result (λ taking. (period : ℕ) × (entries : Entries)
            × IsTextOf config.now period entries text.now
            × AreTakenUp config.now period entries taking.carrying taking.taken) }
        ensures err { IfErr result (NamesLine (IsFirstBadLine config.now text.now)) }
    {
        let mut lines = JournalText::begin(text)?;
        let Ok(mut taking) = TakingUp::new(alloc, config, lines.period()) else {
            return Err(TextFault::Memory);
        };
        while let Some(entry) = lines.next(&taking.carrying.config)? {
            taking.take(entry);
        }
        Ok(taking)
    }

    /// Takes up the entries of lines that were logged.
    pub(crate) fn take_lines(&mut self, text: &[u8]) -> Result<(), TextFault>
        ensures ok { (C : Configuration) (period : ℕ) (before : Entries)
            → AreTakenUp C period before self.old.carrying self.old.taken
            → OnOk result ((entries : Entries) × AreLinesOf C entries text.now
            × AreTakenUp C period (before ++ entries) self.new.carrying self.new.taken) }
        ensures err { (C : Configuration) (period : ℕ) (before : Entries)
            → AreTakenUp C period before self.old.carrying self.old.taken
            → IfErr result (NamesLine (IsFirstBadEntryLine C text.now)) }
    {
        let mut lines = JournalLines::begin(text);
        while let Some(entry) = lines.next(&self.carrying.config)? {
            self.take(entry);
        }
        Ok(())
    }

    // Takes an entry up, if all before it were taken up and it may come next.
    fn take(&mut self, entry: Entry)
        ensures { (C : Configuration) (period : ℕ) (before : Entries)
            → AreTakenUp C period before self.old.carrying self.old.taken
            → AreTakenUp C period (before ++ entry ∷ []) self.new.carrying self.new.taken }
    {
        if self.taken.is_ok() {
            self.taken = self.carrying.take_up(entry);
        }
    }
}

impl<A: Allocator + Clone> Carrying<A> {
    // Takes up an entry, if it may come next.
    fn take_up(&mut self, entry: Entry) -> Result<(), Stop>
        ensures ok { OnOk result (self.new ≡ pushed self.old entry) }
        ensures err { IfErr result (StopsAt self.old entry) }
        ensures unchanged { OnErr result (self.new ≡ self.old) }
    {
        if let Err(rule) = self.judge(&entry) {
            let number = self.journal.len();
            return Err(Stop::Unlawful {
                entry: number,
                rule,
            });
        }
        self.push(entry)?;
        Ok(())
    }
}
