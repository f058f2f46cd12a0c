//! Whether what is brought forward from an earlier period may come next in a journal.
ghost use Rattle.std.specs.Prelude.{◌≡◌, ◌==◌, ℕ, ◌<◌, ◌≤◌, ◌^◌, ◌++◌, ◌∷◌, ℤ, pos, ◌+ℤ◌, ◌≤ℤ◌, int_lt, Bool, false, List, length, position, All, ◌↔◌, codes, IsTrue, IsSome, IsSomeAnd, IfSome, MatchOption, IfErr, OnOk, OnErr};
ghost use Rattle.std.specs.Fmt.{decimal};
ghost use Rattle.std.specs.List.{list_all};
ghost use Rattle.ilp_accounts.specs.Configuration.{peer_at};
ghost use Rattle.ilp_order.specs.Places.{passes_at};
ghost use Rattle.ilp_journal.specs.declared.entry.Entry.{Entry as PlainEntry};
ghost use Rattle.ilp_journal.specs.declared.entry.What.TheVariants as what;
ghost use Rattle.ilp_rules.specs.declared.rule.BrokenRule.TheVariants as BrokenRule;
ghost use Rattle.ilp_journal.specs.Balance.{balance};
ghost use Rattle.ilp_journal.specs.Booked.{most_sum};
ghost use Rattle.ilp_rules.specs.Broken.{BreaksRule};
ghost use Rattle.ilp_rules.specs.Configured.{IsKnown};
ghost use Rattle.ilp_rules.specs.Heads.{IsHead, IsOfPeriodFrom, StartsWith, StandsInHead, has_earlier_key, is_key_octet, pending_at, period_mark};

use super::Carrying;
use crate::asks::are_few_open;
use crate::rule::BrokenRule;
use ilp_accounts::Config;
use ilp_journal::{Credited, Journal, Key};
use itoa::Buffer;
use std::alloc::Allocator;
use std::str;

impl<A: Allocator> Carrying<A> {
    /// Whether a balance may be brought forward: one that isn't 0, of a peer that has none yet.
    pub(super) fn judge_opened(&self, peer: u32, balance: i64) -> Result<(), BrokenRule>
        ensures ok { OnOk result (StandsInHead self.now.config self.now.period self.now.base
            self.now.entries (what.Opened peer balance)) }
        ensures err { OnErr result (StandsInHead self.now.config self.now.period self.now.base
            self.now.entries (what.Opened peer balance) → ⊥) }
        ensures broken { (moment : ℤ) → IfErr result (BreaksRule self.now.config self.now.period
            self.now.entries moment (what.Opened peer balance)) }
    {
        if self.config.peers() <= peer {
            return Err(BrokenRule::Peer);
        }
        self.judge_head()?;

        // In a head no other kind moves a balance, and none is opened at 0.
        if balance == 0 || self.tables.tallies.balance(peer) != 0 {
            return Err(BrokenRule::Opening);
        }
        Ok(())
    }

    /// Whether a credit of an earlier period may be brought forward: under a key that is new.
    pub(super) fn judge_known(&self, credit: &Credited) -> Result<(), BrokenRule>
        ensures ok { OnOk result (StandsInHead self.now.config self.now.period self.now.base
            self.now.entries (what.Known credit.now)) }
        ensures err { OnErr result (StandsInHead self.now.config self.now.period self.now.base
            self.now.entries (what.Known credit.now) → ⊥) }
        ensures broken { (moment : ℤ) → IfErr result (BreaksRule self.now.config self.now.period
            self.now.entries moment (what.Known credit.now)) }
    {
        if self.config.peers() <= credit.peer {
            return Err(BrokenRule::Peer);
        }
        self.judge_head()?;
        let key = credit.key.as_slice();
        if self.tables.keys.find(credit.peer, key).is_some() {
            return Err(BrokenRule::KeyTaken);
        }
        Ok(())
    }

    /// Whether a settlement of an earlier period may be brought forward: where few enough are open, under
    /// a key that can go out and that no other one has.
    pub(super) fn judge_pending(&self, peer: u32, amount: u64, key: &Key) -> Result<(), BrokenRule>
        ensures ok { OnOk result (StandsInHead self.now.config self.now.period self.now.base
            self.now.entries (what.Pending peer amount key.now)) }
        ensures err { OnErr result (StandsInHead self.now.config self.now.period self.now.base
            self.now.entries (what.Pending peer amount key.now) → ⊥) }
        ensures broken { (moment : ℤ) → IfErr result (BreaksRule self.now.config self.now.period
            self.now.entries moment (what.Pending peer amount key.now)) }
    {
        if self.config.peers() <= peer {
            return Err(BrokenRule::Peer);
        }
        self.judge_head()?;
        if !are_few_open(&self.tables.tallies, peer) {
            return Err(BrokenRule::StillOpen);
        }
        let key = key.as_slice();
        if !are_key_octets(key)
            || is_brought_under(&self.journal, key)
            || is_of_period_from(&self.config, self.period, key)
        {
            return Err(BrokenRule::SettlementKey);
        }
        Ok(())
    }

    // Whether something may still be brought forward.
    fn judge_head(&self) -> Result<(), BrokenRule>
        ensures ok { OnOk result ((0 < self.now.period) × IsHead self.now.entries) }
        ensures err { OnErr result ((0 < self.now.period) × IsHead self.now.entries → ⊥) }
        ensures broken { IfErr result (λ rule. rule ≡ BrokenRule.Head) }
        ensures begun { length self.now.entries < self.now.base }
    {
        if self.period == 0 || !self.is_head() {
            return Err(BrokenRule::Head);
        }
        Ok(())
    }

    // Whether all that came was brought forward: then the last is, and the rule of that tells it of all
    // before it.
    fn is_head(&self) -> bool
        ensures { IsTrue result ↔ IsHead self.now.entries }
    {
        let len = self.journal.len();
        if len == 0 {
            return true;
        }
        match self.journal.get(len - 1) {
            Some(last) => last.what.is_brought_forward(),
            None => true,
        }
    }

    /// Whether a balance that is brought forward leaves its peer at its least or above it.
    pub(super) fn judge_opening(&self, peer: u32, opened: i64) -> Result<(), BrokenRule>
        requires known { IsKnown self.now.config peer }
        ensures ok { OnOk result ((peer_at self.now.config peer).least
            ≤ℤ (balance self.now.entries peer +ℤ opened)) }
        ensures err { OnErr result ((peer_at self.now.config peer).least
            ≤ℤ (balance self.now.entries peer +ℤ opened) → ⊥) }
        ensures broken { IfErr result (λ rule. rule ≡ BrokenRule.Least) }
    {
        let balance = self.tables.tallies.balance(peer);
        if is_below(balance, opened, self.config.least(peer)) {
            return Err(BrokenRule::Least);
        }
        Ok(())
    }
}

// Whether a balance and what is opened lie below the least that their peer may come to.
fn is_below(balance: i128, opened: i64, least: i64) -> bool
    requires low { pos 0 ≤ℤ (balance +ℤ pos (most_sum)) }
    requires high { balance ≤ℤ pos (most_sum) }
    ensures { result ≡ int_lt (balance +ℤ opened) least }
{
    balance + i128::from(opened) < i128::from(least)
}

fn is_key_octet(octet: u8) -> bool
    ensures { result ≡ is_key_octet octet }
{
    33 <= octet && octet <= 126
}

fn are_key_octets(octets: &[u8]) -> bool
    ensures { result ≡ list_all is_key_octet octets.now }
{
    octets.iter().all(|octet| is_key_octet(*octet))
}

// Whether a settlement is brought forward under the key.
fn is_brought_under<A: Allocator>(journal: &Journal<A>, key: &[u8]) -> bool
    ensures { IsTrue result ↔ IsSome (pending_at journal.now.entries key.now) }
{
    for number in 0..journal.len() {
        if has_earlier_key(journal, number, key) {
            return true;
        }
    }
    false
}

// Whether the entry of this number brings a settlement forward under the key.
fn has_earlier_key<A: Allocator>(journal: &Journal<A>, number: u32, key: &[u8]) -> bool
    ensures { result ≡ passes_at (λ (e : PlainEntry). has_earlier_key key.now e.what)
        journal.now.entries number }
{
    match journal.earlier_key(number) {
        Some(other) => other.as_slice() == key,
        None => false,
    }
}

// Whether a settlement of the period, or of a later one, could have the key.
fn is_of_period_from(config: &Config, period: u32, key: &[u8]) -> bool
    ensures { IsTrue result ↔ IsOfPeriodFrom config.now period key.now }
{
    match key.strip_prefix(config.run().as_bytes()) {
        Some(rest) => has_mark_from(period, rest),
        None => false,
    }
}

// Whether what follows the run in a key begins with the mark of the period, or of a later one.
fn has_mark_from(period: u32, rest: &[u8]) -> bool
    ensures { IsTrue result ↔ ((later : ℕ) × (period ≤ later) × (later < 2 ^ 32)
        × StartsWith rest.now (period_mark later)) }
{
    let marked = marked_period(rest);
    period <= marked && has_mark(marked, rest)
}

// The number of the period with whose mark it begins, if it does with one.
fn marked_period(rest: &[u8]) -> u32
    ensures { (period : ℕ) (after : List ℕ) → period < 2 ^ 32
        → rest.now ≡ period_mark period ++ after → result ≡ period }
{
    match marked_number(rest) {
        Some(number) => number_in(number),
        None => 0,
    }
}

// The number in the mark of a period above 0, if it begins with one.
fn marked_number(rest: &[u8]) -> Option<&[u8]>
    ensures { (period : ℕ) (after : List ℕ) → period < 2 ^ 32
        → rest.now ≡ period_mark period ++ after
        → MatchOption result (period ≡ 0) (λ number. number.now ≡ decimal period) }
{
    match rest.strip_prefix(b".") {
        Some(rest) => before_hyphen(rest),
        None => None,
    }
}

// What stands before the first hyphen.
fn before_hyphen(octets: &[u8]) -> Option<&[u8]>
    ensures { (front after : List ℕ) → All (λ octet. (octet == 45) ≡ false) front
        → octets.now ≡ front ++ 45 ∷ after → IsSomeAnd result (λ found. found.now ≡ front) }
{
    match hyphen_at(octets) {
        Some(place) => Some(&octets[..place]),
        None => None,
    }
}

// The place of the first hyphen.
fn hyphen_at(octets: &[u8]) -> Option<usize>
    ensures value { result ≡ position (λ octet. octet == 45) octets.now }
    ensures within { IfSome result (λ place. place ≤ length octets.now) }
{
    octets.iter().position(|octet| *octet == b'-')
}

// The number that a text tells, where it tells one as a key does.
fn number_in(text: &[u8]) -> u32
    ensures { (n : ℕ) → n < 2 ^ 32 → text.now ≡ decimal n → result ≡ n }
{
    match str::from_utf8(text) {
        Ok(text) => text.parse::<u32>().unwrap_or(0),
        Err(_) => 0,
    }
}

// Whether it begins with the mark of the period.
fn has_mark(period: u32, rest: &[u8]) -> bool
    ensures { IsTrue result ↔ StartsWith rest.now (period_mark period) }
{
    if period == 0 {
        return rest.starts_with(b"-");
    }
    match rest.strip_prefix(b".") {
        Some(rest) => has_number(period, rest),
        None => false,
    }
}

// Whether it begins with the number of the period and a hyphen.
fn has_number(period: u32, rest: &[u8]) -> bool
    ensures { IsTrue result ↔ StartsWith rest.now (decimal period ++ codes "-") }
{
    let mut digits = Buffer::new();
    match rest.strip_prefix(digits.format(period).as_bytes()) {
        Some(rest) => rest.starts_with(b"-"),
        None => false,
    }
}
