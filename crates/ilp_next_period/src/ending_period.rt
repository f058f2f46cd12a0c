//! A period whose books are to be closed.
mod bringing_forward;
mod following;

ghost use Rattle.std.specs.Prelude.{◌≡◌};
ghost use Rattle.ilp_accounts.specs.Valid.{IsValid};
ghost use Rattle.ilp_journal.specs.Balance.{balance};
ghost use Rattle.ilp_rules.specs.Book.{moment_at};

use ilp_accounts::Config;
use ilp_journal::Journal;
use ilp_rules::{Tables, moment_at};
use std::alloc::Allocator;
use std::marker::Model;

/// The parts of a book whose period ends. They are only read.
#[derive(Drop)]
pub struct EndingPeriod<'b, A: Allocator> {
    /// What the book is configured to do.
    pub config: &'b Config,
    /// The number of its period.
    pub period: u32,
    /// How many entries it began with.
    pub base: u32,
    /// What was booked.
    pub journal: &'b Journal<A>,
    /// What stands beside the journal.
    pub tables: &'b Tables<A>,
}

impl<'b, A: Allocator> Model for EndingPeriod<'b, A> {
    ghost use Rattle.ilp_rules.specs.Book.{PlainBook};
    ghost use Rattle.ilp_rules.specs.Parts.{AreParts, book_of};

    ghost Value = { PlainBook };

    ghost view = { λ b. book_of b.config.now b.period b.base b.journal.now };

    ghost invariant = { λ b.
        AreParts b.config.now b.period b.base b.journal.now b.tables.now.tallies b.tables.now.holds
        b.tables.now.keys };
}

impl<'b, A: Allocator> EndingPeriod<'b, A> {
    // What the book is configured to do.
    fn config(&self) -> &Config
        ensures value { result.now ≡ self.now.config }
        ensures valid { IsValid self.now.config }
    {
        self.config
    }

    // The number of the period.
    fn period(&self) -> u32
        ensures { result ≡ self.now.period }
    {
        self.period
    }

    // What the connector owes the peer.
    fn balance(&self, peer: u32) -> i128
        ensures value { result ≡ balance self.now.entries peer }
    {
        self.tables.tallies.balance(peer)
    }

    // The moment at which the books are closed.
    fn moment_at(&self, now: i64) -> i64
        ensures moment { result ≡ moment_at self.now.entries now }
    {
        moment_at(self.journal, now)
    }
}
