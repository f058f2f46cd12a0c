//! What a book begins with that is carried over from one run of the connector to the next.
ghost use Rattle.std.specs.Prelude.{◌≡◌, ℕ, None, IfOk, IfErr};
ghost use Rattle.ilp_journal.specs.Journal.{open_hold_at};
ghost use Rattle.ilp_rules.specs.Carried.{begun_with};
ghost use Rattle.ilp_rules.specs.Carry.{IsCarriedOver, IsWhyNotCarried};
ghost use Rattle.ilp_rules.specs.Recover.{IsRecovered, IsWhyNotRecovered};

use crate::carrying::{Carrying, TakingUp};
use crate::fault::{CarryFault, RecoverFault};
use crate::tables::Tables;
use ilp_accounts::Config;
use ilp_journal::Journal;
use std::alloc::Allocator;
use std::marker::Model;

/// The parts of a book that begins with carried entries, with its tables beside its journal and room in
/// memory for whatever ends what is open. No hold is open in it, and all of its entries lie below its
/// base.
#[derive(Drop)]
pub struct Beginning<A: Allocator> {
    /// What the book is configured to do.
    pub config: Config,
    /// The number of its period.
    pub period: u32,
    /// How many entries there are.
    pub base: u32,
    /// The carried entries, and the ends of those of their holds that were open.
    pub journal: Journal<A>,
    /// What stands beside the journal.
    pub tables: Tables<A>,
}

impl<A: Allocator> Model for Beginning<A> {
    ghost use Rattle.ilp_journal.specs.Journal.{IsBase};
    ghost use Rattle.ilp_rules.specs.Book.{PlainBook};
    ghost use Rattle.ilp_rules.specs.Parts.{AreParts, book_of};

    ghost Value = { PlainBook };

    ghost view = { λ b. book_of b.config b.period b.base b.journal };

    ghost invariant = { λ b.
        AreParts b.config b.period b.base b.journal b.tables.tallies b.tables.holds b.tables.keys
        × IsBase b.journal.entries b.base };
}

impl<A: Allocator + Clone> Beginning<A> {
    /// What a book begins with that goes on with the journal of which this is the text. Each hold that
    /// is open in it ends at the moment of `now`, in the order of their numbers: as Late where its
    /// deadline has come, and else because the connector starts again. Settlements that are open stay
    /// so.
    ///
    /// The refusals come in the order of `CarryFault`. A peer that isn't there, a number outside its
    /// type, a last line without its end and a wrong count are bad at their line; a text that ends
    /// before its last line, at the line behind its end.
    pub fn carry_over(
        alloc: A,
        config: &Config,
        text: &[u8],
        now: i64,
    ) -> Result<Beginning<A>, CarryFault>
        ensures ok { IfOk result (IsCarriedOver config.now text.now now) }
        ensures err { IfErr result (IsWhyNotCarried config.now text.now) }
    {
        match Beginning::recover(alloc, config, text, &[], now) {
            Ok(beginning) => Ok(beginning),
            Err(RecoverFault::BadJournalText { line }) => Err(CarryFault::BadJournalText { line }),
            // Where there are no lines there is no bad one.
            Err(RecoverFault::BadLogLine { .. }) => unreachable!(),
            Err(RecoverFault::Unlawful { entry, rule }) => Err(CarryFault::Unlawful {
                entry,
                rule,
            }),
            Err(RecoverFault::Memory) => Err(CarryFault::Memory),
        }
    }

    /// What a book begins with that goes on behind a crash: with the journal of which `saved` is the
    /// text, and behind it the entries that were booked since, of which `logged` has the lines, as
    /// `entry_line` of `ilp_journal_text` makes them. They are judged as one journal. Its open holds end
    /// as those of `carry_over` do.
    ///
    /// The refusals come in the order of `RecoverFault`. A last line of what was logged is bad where it
    /// lacks its end.
    pub fn recover(
        alloc: A,
        config: &Config,
        saved: &[u8],
        logged: &[u8],
        now: i64,
    ) -> Result<Beginning<A>, RecoverFault>
        ensures ok { IfOk result (IsRecovered config.now saved.now logged.now now) }
        ensures err { IfErr result (IsWhyNotRecovered config.now saved.now logged.now) }
    {
        let mut taking = match TakingUp::of_text(alloc, config, saved) {
            Ok(taking) => taking,
            Err(fault) => return Err(RecoverFault::of_saved(fault)),
        };
        if let Err(fault) = taking.take_lines(logged) {
            return Err(RecoverFault::of_logged(fault));
        }
        let TakingUp {
            mut carrying,
            taken,
        } = taking;
        taken?;
        carrying.end_holds(now);
        Ok(Beginning::begun_with(carrying))
    }

    /// All that was taken up, where no hold is open in it.
    pub fn begun_with(carrying: Carrying<A>) -> Beginning<A>
        requires ended { (n : ℕ) → open_hold_at carrying.entries n ≡ None }
        ensures { result ≡ begun_with carrying.config carrying.period carrying.entries }
    {
        let Carrying {
            config,
            period,
            journal,
            mut tables,
        } = carrying;
        let base = journal.len();
        tables.tallies.set_base(base);
        Beginning {
            config,
            period,
            base,
            journal,
            tables,
        }
    }
}
