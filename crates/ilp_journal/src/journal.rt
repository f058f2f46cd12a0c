//! The journal: entries that are only ever added, as far as its limit.

ghost use Rattle.std.specs.Prelude.{◌≡◌, ◌+◌, ◌<◌, ◌≤◌, pos, ◌+ℤ◌, ◌≤ℤ◌, [], ◌∷◌, ◌++◌, ◌↔◌, length, IsTrue, IsOk, IfOk, OnOk, OnErr, slice_get};
ghost use Rattle.std.specs.Option.{option_copied};
ghost use Rattle.ilp_journal.specs.Booked.{Booked, most_sum};
ghost use Rattle.ilp_journal.specs.Journal.{AnswersHold, ClosesAsk, answer_of, closing_of, hold_at, ask_at};
ghost use Rattle.ilp_journal.specs.Balance.{balance};
ghost use Rattle.ilp_journal.specs.Credits.{credit_at};
ghost use Rattle.ilp_journal.specs.BroughtForward.{earlier_key_at};

use crate::answers::{answer_at, hold_at};
use crate::balances::owed;
use crate::closings::{ask_at, closing_at};
use crate::entry::{Ask, Credited, Entry, Hold};
use crate::key::Key;
use crate::page::Slot;
use crate::pages::Pages;
use std::alloc::{AllocError, Allocator, Global};
use std::marker::Model;

/// A list of entries that tells how many more it takes without memory. An entry's number is its
/// place in the list, from 0.
#[derive(Drop)]
pub struct Journal<A: Allocator = Global> {
    pages: Pages<A>,
    limit: u32,
}

impl<A: Allocator> Model for Journal<A> {
    ghost use Rattle.ilp_journal.specs.Booked.{Booked};
    ghost use Rattle.ilp_journal.specs.Slots.{entries_of, IsClosedJournal};

    ghost Value = { Booked };

    ghost view = { λ j. record {
      entries = entries_of j.pages.slots;
      spare = j.pages.spare;
      limit = j.limit;
    } };

    ghost invariant = { λ j. IsClosedJournal j.pages j.limit };
}

impl<A: Allocator> Journal<A> {
    /// A journal with no entry, for at most `limit` of them. It takes memory for the list of its pages,
    /// and none for entries. `AllocError` tells that memory is short.
    pub fn new(alloc: A, limit: u32) -> Result<Journal<A>, AllocError>
        ensures empty { IfOk result (λ j. j.entries ≡ []) }
        ensures limit { IfOk result (λ j. j.limit ≡ limit) }
    {
        Ok(Journal {
            pages: Pages::new(alloc, limit)?,
            limit,
        })
    }

    /// How many entries there are: the number that the next one gets.
    pub fn len(&self) -> u32
        ensures count { result ≡ length self.now.entries }
        ensures within { length self.now.entries ≤ self.now.limit }
    {
        self.pages.len()
    }

    /// Whether there is no entry yet.
    pub fn is_empty(&self) -> bool
        ensures { IsTrue result ↔ (self.now.entries ≡ []) }
    {
        self.pages.len() == 0
    }

    /// How many entries there may be at most.
    pub fn limit(&self) -> u32
        ensures { result ≡ self.now.limit }
    {
        self.limit
    }

    /// How many more entries fit without memory, whatever the limit.
    pub fn spare(&self) -> usize
        ensures { result ≡ self.now.spare }
    {
        self.pages.spare()
    }

    /// The entry of this number.
    pub fn get(&self, number: u32) -> Option<&Entry>
        ensures { option_copied result ≡ slice_get self.now.entries number }
    {
        self.pages.entry(number)
    }

    /// The hold under this number: `None` where the entry is of another kind, or there is none.
    pub fn hold(&self, number: u32) -> Option<Hold>
        ensures { result ≡ hold_at self.now.entries number }
    {
        hold_at(&self.pages, number)
    }

    /// The asked settlement under this number: `None` where the entry is of another kind, or there
    /// is none.
    pub fn ask(&self, number: u32) -> Option<Ask>
        ensures { result ≡ ask_at self.now.entries number }
    {
        ask_at(&self.pages, number)
    }

    /// The credit whose key the entry of this number keeps: `None` where the entry is of another kind,
    /// or there is none.
    pub fn credit(&self, number: u32) -> Option<&Credited>
        ensures { option_copied result ≡ credit_at self.now.entries number }
    {
        match self.pages.entry(number) {
            Some(entry) => entry.what.credit(),
            None => None,
        }
    }

    /// The key under which the settlement of this number was asked for in an earlier period: `None`
    /// where the entry is of another kind, or there is none.
    pub fn earlier_key(&self, number: u32) -> Option<&Key>
        ensures { option_copied result ≡ earlier_key_at self.now.entries number }
    {
        match self.pages.entry(number) {
            Some(entry) => entry.what.earlier_key(),
            None => None,
        }
    }

    /// Adds an entry, into room that is there: `spare` and `len` tell whether it is. What it answers
    /// or closes must stand in the journal: `hold` and `ask` tell whether it does.
    pub fn push_reserved(&mut self, entry: Entry)
        requires room { 1 ≤ self.old.spare }
        requires limit { length self.old.entries < self.old.limit }
        requires answers { AnswersHold self.old.entries entry }
        requires closes { ClosesAsk self.old.entries entry }
        ensures entries { self.new.entries ≡ self.old.entries ++ entry ∷ [] }
        ensures used { self.new.spare + 1 ≡ self.old.spare }
        ensures limit { self.new.limit ≡ self.old.limit }
    {
        let number = self.pages.len();
        self.pages.close(entry.what.ended(), number);
        self.pages.push_reserved(Slot {
            entry,
            closer: None,
        });
    }

    /// What the connector owes the peer, in units of the peer's asset: all that its balance rose
    /// by, less all that it fell by. Each call adds up all entries.
    pub fn balance(&self, peer: u32) -> i128
        ensures sum { result ≡ balance self.now.entries peer }
        ensures low { pos 0 ≤ℤ (result +ℤ pos most_sum) }
        ensures high { result ≤ℤ pos most_sum }
    {
        owed(&self.pages, peer)
    }

    /// The number of the first entry that fulfills or releases the hold of this number.
    pub fn answer_of(&self, hold: u32) -> Option<u32>
        ensures { result ≡ answer_of self.now.entries hold }
    {
        answer_at(&self.pages, hold)
    }

    /// The number of the first entry that confirms or undoes the settlement of this number.
    pub fn closing_of(&self, ask: u32) -> Option<u32>
        ensures { result ≡ closing_of self.now.entries ask }
    {
        closing_at(&self.pages, ask)
    }
}

impl<A: Allocator + Clone> Journal<A> {
    /// Makes room for `additional` more entries. `AllocError` tells that memory is short, or could never
    /// be enough for so many.
    pub fn reserve(&mut self, additional: usize) -> Result<(), AllocError>
        ensures entries { self.new.entries ≡ self.old.entries }
        ensures limit { self.new.limit ≡ self.old.limit }
        ensures ok { OnOk result (additional ≤ self.new.spare) }
        ensures kept { self.old.spare ≤ self.new.spare }

        // It takes memory only where that room is missing, and a refusal leaves all as it was.
        ensures enough { additional ≤ self.old.spare → IsOk result }
        ensures unmoved { additional ≤ self.old.spare → self.new ≡ self.old }
        ensures refused { OnErr result (self.old.spare < additional) }
        ensures err { OnErr result (self.new ≡ self.old) }
    {
        self.pages.reserve(additional)
    }
}
