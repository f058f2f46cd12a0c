//! A journal that is carried over or begun: its entries are taken up one by one.
mod ending;
mod heads;
mod judging;
mod reading;

ghost use Rattle.std.specs.Prelude.{◌≡◌, OnOk, OnErr, IfOk};
ghost use Rattle.ilp_journal.specs.Journal.{closing};
ghost use Rattle.ilp_rules.specs.Book.{has_room, pushed};
ghost use Rattle.ilp_rules.specs.Lawful.{IsLawful};
ghost use Rattle.ilp_rules.specs.Judging.{carrying};

use crate::tables::Tables;
use ilp_accounts::Config;
use ilp_journal::{Entry, Journal};
pub(crate) use reading::TakingUp;
use std::alloc::{AllocError, Allocator};
use std::marker::Model;

// No journal has an entry of this number: it is the base while what a book began with comes in.
const BEHIND_ALL: u32 = u32::MAX;

/// A book that isn't whole yet: it is lawful as far as it has come, and began with all of that. Holds
/// may be open in it. Its table of holds stays empty all the same, since all of them end before there is
/// a book: so no hold is put there and taken out again.
#[derive(Drop)]
pub struct Carrying<A: Allocator> {
    pub(crate) config: Config,
    pub(crate) period: u32,
    pub(crate) journal: Journal<A>,
    pub(crate) tables: Tables<A>,
}

impl<A: Allocator> Model for Carrying<A> {
    ghost use Rattle.ilp_rules.specs.Book.{PlainBook};
    ghost use Rattle.ilp_rules.specs.Judging.{behind_all};
    ghost use Rattle.ilp_rules.specs.Parts.{AreCarried, book_of};

    ghost Value = { PlainBook };

    ghost view = { λ c. book_of c.config c.period behind_all c.journal };

    ghost invariant = { λ c.
        AreCarried c.config c.period c.journal c.tables.tallies c.tables.holds c.tables.keys };
}

impl<A: Allocator + Clone> Carrying<A> {
    /// A book of a period without entries yet. `AllocError` tells that memory is short.
    pub fn new(alloc: A, config: &Config, period: u32) -> Result<Carrying<A>, AllocError>
        ensures { IfOk result (λ c. c ≡ carrying config.now period) }
    {
        let journal = Journal::new(alloc.clone()?, config.journal())?;
        let tables = Tables::new(alloc, config, BEHIND_ALL)?;
        Ok(Carrying {
            config: config.copy()?,
            period,
            journal,
            tables,
        })
    }

    /// Takes up an entry that may come next. `AllocError` tells that memory is short, and leaves all as it
    /// was.
    pub fn push(&mut self, entry: Entry) -> Result<(), AllocError>
        requires lawful { IsLawful (pushed self.old entry) }
        ensures ok { OnOk result (self.new ≡ pushed self.old entry) }
        ensures err { OnErr result (self.new ≡ self.old) }
    {
        let number = self.journal.len();
        let open_count = self.tables.tallies.open_count();
        self.journal.reserve(open_count as usize + 2)?;
        self.tables.prepare(number, &entry.what)?;
        self.tables.tallies.apply(&self.journal, &entry);
        self.journal.push_reserved(entry);
        Ok(())
    }
}

impl<A: Allocator> Carrying<A> {
    /// Whether so many more entries fit, beside those that end what is open.
    pub fn has_room(&self, more: u32) -> bool
        ensures { result ≡ has_room self.now more }
    {
        let open_count = self.tables.tallies.open_count();
        let needed = u64::from(self.journal.len()) + u64::from(open_count) + u64::from(more);
        needed <= u64::from(self.config.journal())
    }

    /// Takes up an entry that ends something, for which room was made with what it ends.
    pub(crate) fn close(&mut self, ending: Entry)
        requires ends { closing ending.what ≡ 1 }
        requires lawful { IsLawful (pushed self.old ending) }
        ensures { self.new ≡ pushed self.old ending }
    {
        self.tables.tallies.apply(&self.journal, &ending);
        self.journal.push_reserved(ending);
    }
}
