//! The closing of a period's books, and the book of the next period.
ghost use Rattle.std.specs.Prelude.{◌≡◌, IfOk, IfErr, OnOk, OnErr, IsSome};
ghost use Rattle.ilp_journal.specs.Journal.{open_hold_at};
ghost use Rattle.ilp_book.specs.Reopened.{reopened};
ghost use Rattle.ilp_next_period.specs.NextPeriod.{MayFollow, HasRoomForHead, IsWhyNotClosed, next_book};

use crate::book::Book;
use crate::fault::HoldOpen;
use ilp_accounts::Config;
use ilp_next_period::{EndingPeriod, ForwardFault};
use std::alloc::Allocator;

impl<A: Allocator + Clone> Book<A> {
    /// The book of the next period, by a configuration that may be another one: it begins with each
    /// balance, each kept key and each open settlement of this book, and has nothing else. This book
    /// stays as it is; its holds have to be over.
    ///
    /// Peers are the same by their names, and assets by code and scale. The books are closed at the moment
    /// of `now`. What it costs is by peers, keys and open settlements, and not by entries.
    pub fn bring_forward(
        &self,
        alloc: A,
        config: &Config,
        now: i64,
    ) -> Result<Book<A>, ForwardFault>
        ensures ok { IfOk result (λ next. next ≡ next_book self.now config.now now) }
        ensures may { OnOk result (MayFollow self.now config.now) }
        ensures room { OnOk result (HasRoomForHead self.now config.now now) }
        ensures err { IfErr result (IsWhyNotClosed self.now config.now now) }
    {
        let ending = EndingPeriod {
            config: &self.config,
            period: self.period,
            base: self.base,
            journal: &self.journal,
            tables: &self.tables,
        };
        let beginning = ending.bring_forward(alloc, config, now)?;
        Ok(Book::of(beginning))
    }
}

impl<A: Allocator> Book<A> {
    /// Opens the book anew, with all that it has, for a desk that goes on from it. It is refused where a hold
    /// is open, and stays as it is then.
    pub fn reopen(&mut self) -> Result<(), HoldOpen>
        ensures opened { OnOk result (self.new ≡ reopened self.old) }
        ensures stays { OnErr result (self.new ≡ self.old) }
        ensures open { IfErr result (λ why. IsSome (open_hold_at self.old.entries why.number)) }
    {
        if let Some((_, number)) = self.tables.holds.earliest() {
            return Err(HoldOpen { number });
        }
        let base = self.journal.len();
        self.tables.tallies.end_totals(base);
        self.base = base;
        Ok(())
    }
}
