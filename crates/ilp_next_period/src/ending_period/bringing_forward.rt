//! The closing of a period's books, and the book of the next period.
ghost use Rattle.std.specs.Prelude.{◌≡◌, ◌+◌, [], Some, IfOk, IfErr, OnOk, IfSome};
ghost use Rattle.std.specs.Option.{option_copied};
ghost use Rattle.ilp_journal.specs.declared.entry.What.TheVariants as what;
ghost use Rattle.ilp_journal.specs.Journal.{ask_at, next_open_number, opening};
ghost use Rattle.ilp_journal.specs.BroughtForward.{earlier_balance, earlier_key_at, earlier_place, head_entry};
ghost use Rattle.ilp_rules.specs.Book.{moment_at};
ghost use Rattle.ilp_rules.specs.Configured.{IsKnown};
ghost use Rattle.ilp_rules.specs.Lawful.{IsLawful};
ghost use Rattle.ilp_rules.specs.SettlementKeys.{settlement_key_at};
ghost use Rattle.ilp_next_period.specs.NextPeriod.{MayFollow, HasRoomForHead, HasLeft, Leaves, ComesNext, IsWhyNotClosed, places_by_name, next_book, next_opening, next_credit, next_settlement, handed_on, behind_balances, behind_credits, lesser, next_open};

use crate::ending_period::EndingPeriod;
use crate::forward_fault::ForwardFault;
use crate::settlement_key::settlement_key;
use ilp_accounts::Config;
use ilp_journal::head::{known, opened, pending};
use ilp_journal::{Ask, Entry, Key};
use ilp_rules::{Beginning, Carrying};
use std::alloc::{AllocError, Allocator};

impl<'b, A: Allocator + Clone> EndingPeriod<'b, A> {
    /// What the book of the next period begins with, by a configuration that may be another one: each
    /// balance, each kept key and each open settlement, and nothing else. Holds have to be over.
    ///
    /// Peers are the same by their names, and assets by code and scale. The books are closed at the moment
    /// of `now`. What it costs is by peers, keys and open settlements, and not by entries.
    pub fn bring_forward(
        &self,
        alloc: A,
        config: &Config,
        now: i64,
    ) -> Result<Beginning<A>, ForwardFault>
        ensures ok { IfOk result (λ next. next ≡ next_book self.now config.now now) }
        ensures may { OnOk result (MayFollow self.now config.now) }
        ensures room { OnOk result (HasRoomForHead self.now config.now now) }
        ensures err { IfErr result (IsWhyNotClosed self.now config.now now) }
    {
        self.judge_next(config)?;
        let mut next = Carrying::new(alloc, config, self.period + 1)?;
        self.open_balances(config, now, &mut next)?;
        self.bring_credits(config, now, &mut next)?;
        self.bring_settlements(config, now, &mut next)?;
        Ok(Beginning::begun_with(next))
    }

    // Brings the balances forward, in the order of the configuration's peers.
    fn open_balances(
        &self,
        config: &Config,
        now: i64,
        next: &mut Carrying<A>,
    ) -> Result<(), ForwardFault>
        requires left { HasLeft self.now config.now now next.old (handed_on self.now config.now now) }
        ensures ok { OnOk result
            (HasLeft self.now config.now now next.new (behind_balances self.now config.now now)) }
        ensures err { IfErr result (IsWhyNotClosed self.now config.now now) }
    {
        for place in 0..config.peers() {
            self.open_balance(config, now, place, next)?;
        }
        Ok(())
    }

    // Brings the balance forward of the peer that has this place in the configuration.
    fn open_balance(
        &self,
        config: &Config,
        now: i64,
        place: u32,
        next: &mut Carrying<A>,
    ) -> Result<(), ForwardFault>
        requires there { IsKnown config.now place }
        requires left { ComesNext self.now config.now now (next_opening self.now config.now place) next.old }
        ensures ok { OnOk result
            (Leaves self.now config.now now (next_opening self.now config.now place) next.old next.new) }
        ensures err { IfErr result (IsWhyNotClosed self.now config.now now) }
    {
        let balance = self.earlier_balance(config, place);
        match opened(self.moment_at(now), place, balance) {
            Some(entry) => self.take_next(config, now, next, entry, 1),
            None => Ok(()),
        }
    }

    // The balance that the peer of this place in the configuration has here: 0 of a new one.
    fn earlier_balance(&self, config: &Config, place: u32) -> i64
        requires there { IsKnown config.now place }
        requires may { MayFollow self.now config.now }
        ensures { result ≡ earlier_balance self.now.entries
            (earlier_place (places_by_name self.now.config config.now) place) }
    {
        // The configuration is valid, and the balance is at least the peer's least there, of 64 bits.
        let _ = config.peers();
        let _ = config.least(place);
        match self.config().peer_by_name(config.name(place).as_bytes()) {
            Some(peer) => self.balance(peer) as i64,
            None => 0,
        }
    }

    // Brings the credits forward, in order.
    fn bring_credits(
        &self,
        config: &Config,
        now: i64,
        next: &mut Carrying<A>,
    ) -> Result<(), ForwardFault>
        requires left { HasLeft self.now config.now now next.old (behind_balances self.now config.now now) }
        ensures ok { OnOk result
            (HasLeft self.now config.now now next.new (behind_credits self.now config.now now)) }
        ensures err { IfErr result (IsWhyNotClosed self.now config.now now) }
    {
        for number in self.credit_numbers() {
            self.bring_credit(config, now, *number, next)?;
        }
        Ok(())
    }

    // Brings the credit of this number forward, if its peer has a place in the configuration.
    fn bring_credit(
        &self,
        config: &Config,
        now: i64,
        number: u32,
        next: &mut Carrying<A>,
    ) -> Result<(), ForwardFault>
        requires left { ComesNext self.now config.now now (next_credit self.now config.now number) next.old }
        ensures ok { OnOk result
            (Leaves self.now config.now now (next_credit self.now config.now number) next.old next.new) }
        ensures err { IfErr result (IsWhyNotClosed self.now config.now now) }
    {
        let Some(credit) = self.credit_of(number) else {
            return Ok(());
        };
        let Some(place) = self.place_in(config, credit.peer) else {
            return Ok(());
        };
        let entry = known(
            self.config().allocator(),
            self.moment_at(now),
            place,
            credit,
        )?;
        self.take_next(config, now, next, entry, 1)
    }

    // Brings the open settlements forward, in order.
    fn bring_settlements(
        &self,
        config: &Config,
        now: i64,
        next: &mut Carrying<A>,
    ) -> Result<(), ForwardFault>
        requires left { HasLeft self.now config.now now next.old (behind_credits self.now config.now now) }
        ensures ok { OnOk result (HasLeft self.now config.now now next.new []) }
        ensures err { IfErr result (IsWhyNotClosed self.now config.now now) }
    {
        let mut tried = None;
        while let Some(number) = self.next_open(tried) {
            self.bring_settlement(config, now, number, next)?;
            tried = Some(number);
        }
        Ok(())
    }

    // Brings the open settlement of this number forward, if its peer has a place in the configuration.
    fn bring_settlement(
        &self,
        config: &Config,
        now: i64,
        number: u32,
        next: &mut Carrying<A>,
    ) -> Result<(), ForwardFault>
        requires left { ComesNext self.now config.now now
            (next_settlement self.now config.now number) next.old }
        ensures ok { OnOk result (Leaves self.now config.now now
            (next_settlement self.now config.now number) next.old next.new) }
        ensures err { IfErr result (IsWhyNotClosed self.now config.now now) }
    {
        let Some(ask) = self.ask_of(number) else {
            return Ok(());
        };
        let Some(place) = self.place_in(config, ask.peer) else {
            return Ok(());
        };
        let entry = self.pending_entry(self.moment_at(now), place, ask, number)?;
        self.take_next(config, now, next, entry, 2)
    }

    // Takes up what comes next in the head, where there is room for it and what closes it.
    fn take_next(
        &self,
        config: &Config,
        now: i64,
        next: &mut Carrying<A>,
        entry: Entry,
        room: u32,
    ) -> Result<(), ForwardFault>
        requires left { ComesNext self.now config.now now (Some entry.what) next.old }
        requires booked { entry ≡ head_entry (moment_at self.now.entries now) entry.what }
        requires room { room ≡ 1 + opening entry.what }
        ensures ok { OnOk result
            (Leaves self.now config.now now (Some entry.what) next.old next.new) }
        ensures err { IfErr result (IsWhyNotClosed self.now config.now now) }
    {
        if !next.has_room(room) {
            return Err(ForwardFault::Full);
        }
        next.push(entry)?;
        Ok(())
    }
}

// What it reads.
impl<'b, A: Allocator> EndingPeriod<'b, A> {
    // A settlement that is brought forward: under the key that it has, which it keeps.
    fn pending_entry(
        &self,
        moment: i64,
        place: u32,
        ask: Ask,
        number: u32,
    ) -> Result<Entry, AllocError>
        requires { ask_at self.now.entries number ≡ Some ask }
        ensures { IfOk result (λ entry. entry ≡ head_entry moment (what.Pending place ask.amount
            (settlement_key_at self.now.config self.now.period self.now.entries number))) }
    {
        let alloc = self.config().allocator();
        match self.earlier_key(number) {
            Some(key) => pending(alloc, moment, place, ask.amount, key),
            None => {
                let key = settlement_key(alloc, self.config(), self.period(), number)?;
                pending(alloc, moment, place, ask.amount, &key)
            }
        }
    }

    // The key that the settlement of this number had in an earlier period, if it is of one.
    fn earlier_key(&self, number: u32) -> Option<&Key>
        ensures value { option_copied result ≡ earlier_key_at self.now.entries number }
        ensures lawful { IsLawful self.now }
    {
        self.journal.earlier_key(number)
    }

    // The settlement of this number.
    fn ask_of(&self, number: u32) -> Option<Ask>
        ensures value { result ≡ ask_at self.now.entries number }
        ensures known { IfSome (ask_at self.now.entries number)
            (λ ask. IsKnown self.now.config ask.peer) }
    {
        self.journal.ask(number)
    }

    // The open settlement of least number behind the one that was tried last, to whatever peer.
    fn next_open(&self, tried: Option<u32>) -> Option<u32>
        ensures { result ≡ next_open self.now.entries tried }
    {
        let mut least = None;
        for peer in 0..self.config.peers() {
            least = lesser(least, self.next_open_ask(peer, tried));
        }
        least
    }

    // The open settlement of least number behind the one that was tried last, to this peer.
    fn next_open_ask(&self, peer: u32, tried: Option<u32>) -> Option<u32>
        ensures { result ≡ next_open_number self.now.entries peer tried }
    {
        self.tables.tallies.next_open_ask(peer, tried)
    }
}

// The lesser of two numbers, where there are both.
fn lesser(one: Option<u32>, other: Option<u32>) -> Option<u32>
    ensures { result ≡ lesser one other }
{
    match (one, other) {
        (Some(one), Some(other)) => Some(one.min(other)),
        (None, other) => other,
        (one, None) => one,
    }
}
