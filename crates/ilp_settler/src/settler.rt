//! The settler: it has the peers' engines settle what is owed to them.
ghost use Rattle.std.specs.Prelude.{◌≡◌, ◌+◌, ◌<◌, true, [], IfOk, IfErr};
ghost use Rattle.ilp_book.specs.Configured.{IsKnown};
ghost use Rattle.ilp_desk.specs.Portion.{holding};
ghost use Rattle.ilp_settler.specs.Settler.{settler, no_accounts, none_tried, knows_account, with_account, Turns};
ghost use Rattle.ilp_settler.specs.Halves.{BeginsTurn, TakesUpOpen, pending_more, FinishesTurn};

use crate::asking::{Asking, BegunTurn};
use crate::settling::{MOST_PEERS, SettlerParts, reserve_beside};
use crate::turn::Turn;
use ilp_accounts::Config;
use ilp_desk::{Desk, End, JournalReceipt, Naming, Record, Share};
use ilp_keeping::Keeper;
use ilp_link_traits::{Clock, EngineLink, EngineReply};
use std::alloc::{AllocError, Allocator, Global};
use std::marker::Model;
use std::sync::Wait;

/// The settler of a desk: its share, the records of what it booked, its clock and its way to the
/// peers' engines.
#[derive(Drop)]
pub struct Settler<
    J: Naming,
    C: Clock + Drop,
    E: EngineLink + Drop,
    K: Keeper<J> + Drop,
    A: Allocator = Global,
> {
    parts: SettlerParts<J, C, E, K, A>,
}

impl<J: Naming, C: Clock + Drop, E: EngineLink + Drop, K: Keeper<J> + Drop, A: Allocator> Model
    for Settler<J, C, E, K, A> {
    ghost use Rattle.ilp_settler.specs.Settler.{PlainSettler, settler};

    ghost Value = { PlainSettler };

    ghost view = { λ s. settler s.parts.share s.parts.records.items (C.told s.parts.clock) (E.told s.parts.engine)
        s.parts.accounts s.parts.tried s.parts.receipt (K.told s.parts.keeper) s.parts.pending };
}

/// What was given for a settler that there is no memory for, as it was given.
#[derive(Drop)]
pub struct NoSettler<J: Naming, C: Clock + Drop, E: EngineLink + Drop, K: Keeper<J> + Drop> {
    /// The share of the desk, with which nothing was booked meanwhile.
    pub share: Share<J>,
    /// The receipt, which was shown nothing.
    pub receipt: JournalReceipt<J>,
    /// The clock, which was not asked.
    pub clock: C,
    /// The way to the engines, of which none was handed anything.
    pub engine: E,
    /// The keeper, which was not asked.
    pub keeper: K,
}

impl<J: Naming, C: Clock + Drop, E: EngineLink + Drop, K: Keeper<J> + Drop, A: Allocator> Settler<
    J,
    C,
    E,
    K,
    A,
> {
    /// A settler with this share and these links, which keeps no record yet and knows of no account.
    /// Room is made for the record of a first settlement; where memory for that is denied, all is
    /// handed back.
    pub fn new(
        alloc: A,
        share: Share<J>,
        receipt: JournalReceipt<J>,
        clock: C,
        engine: E,
        keeper: K,
    ) -> Result<Settler<J, C, E, K, A>, NoSettler<J, C, E, K>>
    where
        A: Copy,
        ensures settler { IfOk result (λ s. s ≡ settler share [] (C.told clock) (E.told engine) no_accounts none_tried
            receipt (K.told keeper) 0) }
        ensures share { IfErr result (λ e. e.share ≡ share) }
        ensures links { IfErr result (λ e. (e.clock ≡ clock) × (e.engine ≡ engine)) }
        ensures kept { IfErr result (λ e. (e.receipt ≡ receipt) × (e.keeper ≡ keeper)) }
    {
        let mut records = Vec::new(alloc);
        let Ok(()) = reserve_beside(&mut records, 0) else {
            return Err(NoSettler {
                share,
                receipt,
                clock,
                engine,
                keeper,
            });
        };
        let parts = SettlerParts {
            share,
            records,
            receipt,
            clock,
            engine,
            keeper,
            accounts: [false; MOST_PEERS],
            tried: [None; MOST_PEERS],
            pending: 0,
        };
        Ok(Settler { parts })
    }

    /// The settler's share of the desk.
    pub fn share(&self) -> &Share<J>
        ensures { result.now ≡ self.now.share }
    {
        &self.parts.share
    }

    /// The records of what it booked, in order.
    pub fn records(&self) -> &[Record]
        ensures { result.now ≡ self.now.records }
    {
        self.parts.records.as_slice()
    }

    /// How many settlements began and are not finished.
    pub fn pending(&self) -> usize
        ensures { result ≡ self.now.pending }
    {
        self.parts.pending
    }

    /// Has a peer's engine settle what is due to the peer (RFC 0038), or what is still open. An
    /// engine that never said that it has an account of the peer is asked for that first, and where
    /// it says no the turn ends as `NoAccount`. Then a settlement is booked; where the book refuses
    /// that, the open one behind the one that was tried last for this peer is taken up, else the
    /// first of all. Where none is open, the turn ends as `Idle`. The keeper is handed the journal
    /// that has its entry; where that is not kept, the turn ends as `Unwritten`. The engine is asked
    /// for it while no lock is held, and what it said is booked. The key is `RUN-NUMBER` in the first
    /// period and `RUN.PERIOD-NUMBER` in a later one; a settlement of an earlier period keeps its own.
    ///
    /// The error is want of memory, which is denied before the engine is asked to settle. Nothing is
    /// booked then, share and records are as they were, and that the engine has the account is kept,
    /// so that the next turn does not ask for it again.
    pub fn turn(&mut self, rt: &impl Wait, desk: &Desk<J>, peer: u32) -> Result<Turn, AllocError>
    where
        A: Copy,
        requires known { IsKnown J.desk.config peer }
        ensures turns { Turns J.desk peer self.old self.new result }
        ensures pending { self.new.pending ≡ self.old.pending }
    {
        self.parts.turn(rt, desk, peer)
    }

    /// The first half of a turn, up to where the peer's engine is to be asked for a settlement
    /// (RFC 0038). What is to be settled is booked, or found open, and kept as in a turn; then the
    /// engine is to be asked for it, it counts as tried, and it is pending until `finish`. Any number
    /// may be pending, for as long as memory lasts: room for the record of each is kept. Where nothing
    /// is to be settled, or its entry is not kept, the turn is over.
    ///
    /// Where no engine said yet that it has an account of the peer, `NeedsAccount` leaves all as it
    /// was: the engine is to be asked for that, and `note_account` told where it says yes.
    ///
    /// The error is want of memory, which is denied before the desk is asked or by the desk. Nothing
    /// is booked then, and share, records and what is pending are as they were.
    pub fn begin(
        &mut self,
        rt: &impl Wait,
        desk: &Desk<J>,
        peer: u32,
    ) -> Result<BegunTurn<A>, AllocError>
    where
        A: Copy,
        requires known { IsKnown J.desk.config peer }
        ensures begun { BeginsTurn J.desk peer self.old self.new result }
        ensures pending { self.new.pending ≡ self.old.pending + pending_more result }
    {
        self.parts.begin(rt, desk, peer)
    }

    /// Begins a turn as `begin` does, but no book is asked for a new settlement: the open one behind
    /// the one that was tried last for this peer is taken up, else the first of all. So what was asked
    /// for goes on while nothing new is to be. It is kept, given out and pending as there. Where none
    /// is open, the turn is over as `Withheld`.
    ///
    /// Where no engine said yet that it has an account of the peer, `NeedsAccount` leaves all as it
    /// was, as in `begin`. The error is want of memory, and leaves all as it was.
    pub fn take_up(
        &mut self,
        rt: &impl Wait,
        desk: &Desk<J>,
        peer: u32,
    ) -> Result<BegunTurn<A>, AllocError>
    where
        A: Copy,
        requires known { IsKnown J.desk.config peer }
        ensures taken { TakesUpOpen J.desk peer self.old self.new result }
        ensures unbooked { (self.new.share ≡ self.old.share) × (self.new.records ≡ self.old.records)
            × (self.new.moments ≡ self.old.moments) }
        ensures pending { self.new.pending ≡ self.old.pending + pending_more result }
    {
        self.parts.take_up(rt, desk, peer)
    }

    /// The peer's engine said that it has an account of the peer: it is not to be asked for that
    /// again. All else stays.
    pub fn note_account(&mut self, config: &Config, peer: u32)
        requires known { IsKnown config.now peer }
        ensures noted { self.new
            ≡ record self.old { accounts = with_account self.old.accounts peer } }
        ensures knows { knows_account self.new.accounts peer ≡ true }
    {
        self.parts.note_account(config, peer)
    }

    /// The second half of a turn: a book is told what the peer's engine said of a settlement of this
    /// settler, if it accepted or refused it, and the record is kept. It takes no memory and has no
    /// error. What is pending may be finished in any order.
    pub fn finish(
        &mut self,
        rt: &impl Wait,
        desk: &Desk<J>,
        asking: Asking<A>,
        said: EngineReply,
    ) -> Turn
        requires waits { 0 < self.old.pending }
        ensures finished { FinishesTurn J.desk asking said self.old self.new result }
        ensures pending { self.new.pending + 1 ≡ self.old.pending }
    {
        self.parts.finish(rt, desk, asking, said)
    }
}

impl<J: Naming, C: Clock + Drop, E: EngineLink + Drop, K: Keeper<J> + Drop> Settler<J, C, E, K> {
    /// What the settler hands back in the end, when no settlement is pending: its share and its
    /// records.
    pub fn into_end(self) -> End<J>
        requires none { self.pending ≡ 0 }
        ensures { result ≡ holding self.share self.records }
    {
        let Settler { parts } = self;
        parts.into_end()
    }
}
