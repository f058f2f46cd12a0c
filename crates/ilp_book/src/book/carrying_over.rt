//! A book that is carried over from one run of the connector to the next, also behind a crash.
ghost use Rattle.std.specs.Prelude.{◌≡◌, ℤ, IfOk, IfErr, OnOk, OnErr, is_err, if◌then◌else◌};
ghost use Rattle.std.specs.Io.KnownBytes.{Appends};
ghost use Rattle.ilp_io.specs.Counts.{CountsUp};
ghost use Rattle.ilp_io.specs.Writing.{AppendsProperPrefix};
ghost use Rattle.ilp_journal_text.specs.Text.{journal_text};
ghost use Rattle.ilp_rules.specs.declared.fault.CarryFault.{CarryFault};
ghost use Rattle.ilp_rules.specs.declared.fault.CarryFault.TheVariants as carry_fault;
ghost use Rattle.ilp_rules.specs.Carried.{carried};
ghost use Rattle.ilp_rules.specs.Carry.{IsCarriedOver, IsWhyNotCarried};
ghost use Rattle.ilp_rules.specs.Recover.{IsRecovered, IsWhyNotRecovered};

use crate::book::Book;
use ilp_accounts::Config;
use ilp_io::{Sink, WriteFault};
use ilp_journal_text::put_journal;
use ilp_rules::{Beginning, CarryFault, RecoverFault};
use std::alloc::Allocator;

impl<A: Allocator + Clone> Book<A> {
    /// The book that begins with the journal of which this is the text, as `save` wrote it. Each hold
    /// that is open in it ends at the moment of `now`, in the order of their numbers: as Late where its
    /// deadline has come, and else because the connector starts again. Settlements that are open stay
    /// so.
    ///
    /// The refusals come in the order of `CarryFault`. A peer that isn't there, a number outside its
    /// type, a last line without its end and a wrong count are bad at their line; a text that ends
    /// before its last line, at the line behind its end.
    pub fn carry_over(
        alloc: A,
        config: &Config,
        text: &[u8],
        now: i64,
    ) -> Result<Book<A>, CarryFault>
        ensures ok { IfOk result (IsCarriedOver config.now text.now now) }
        ensures err { IfErr result (IsWhyNotCarried config.now text.now) }
    {
        let beginning = Beginning::carry_over(alloc, config, text, now)?;
        Ok(Book::of(beginning))
    }

    /// The book that goes on behind a crash: it begins with the journal of which `saved` is the text, as
    /// `save` wrote it, and behind it with the entries that were booked since, of which `logged` has the
    /// lines, as `entry_line` of `ilp_journal_text` makes them. They are judged as one journal. Its open
    /// holds end as those of `carry_over` do.
    ///
    /// The refusals come in the order of `RecoverFault`. A last line of what was logged is bad where it
    /// lacks its end.
    pub fn recover(
        alloc: A,
        config: &Config,
        saved: &[u8],
        logged: &[u8],
        now: i64,
    ) -> Result<Book<A>, RecoverFault>
        ensures ok { IfOk result (IsRecovered config.now saved.now logged.now now) }
        ensures err { IfErr result (IsWhyNotRecovered config.now saved.now logged.now) }
    {
        let beginning = Beginning::recover(alloc, config, saved, logged, now)?;
        Ok(Book::of(beginning))
    }
}

impl<A: Allocator> Book<A> {
    // The book of these parts.
    pub(super) fn of(beginning: Beginning<A>) -> Book<A>
        ensures { result ≡ beginning }
    {
        let Beginning {
            config,
            period,
            base,
            journal,
            tables,
        } = beginning;
        Book {
            config,
            period,
            base,
            journal,
            tables,
        }
    }

    /// Writes the text of the period with its journal, which `carry_over` reads, with the peers' names
    /// in the configuration, the book's own. No memory is taken. It is refused only where a write fails
    /// or takes no octet. Then a front of the text was taken, and not all of it. What it wrote whole is
    /// carried over by that configuration, and refused for nothing but want of memory.
    pub fn save<W: Sink>(&self, config: &Config, sink: &mut W) -> Result<(), WriteFault>
        requires own { config.now ≡ self.now.config }
        ensures ok { OnOk result (Appends (W.contents sink.old) (W.contents sink.new)
            (journal_text config.now self.now.period self.now.entries)) }
        ensures carried { OnOk result ((now : ℤ) → IsCarriedOver config.now
            (journal_text config.now self.now.period self.now.entries) now
            (carried config.now self.now.period self.now.entries now)) }
        ensures refused { OnOk result ((fault : CarryFault) → IsWhyNotCarried config.now
            (journal_text config.now self.now.period self.now.entries) fault → fault ≡ carry_fault.Memory) }
        ensures err { OnErr result (AppendsProperPrefix (W.contents sink.old) (W.contents sink.new)
            (journal_text config.now self.now.period self.now.entries)) }
        ensures failed { CountsUp (W.failures sink.old) (W.failures sink.new)
            (if is_err result then 1 else 0) }
    {
        put_journal(config, self.period, &self.journal, sink)
    }
}
