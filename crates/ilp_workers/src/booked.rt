//! A packet that is booked, until its sender is answered.
ghost use Rattle.std.specs.Prelude.{◌≡◌, ◌≤◌};
ghost use Rattle.ilp_workers.specs.Booked.{booked, handed_journal, no_journal};

use ilp_desk::Naming;
use ilp_keeping::NotKept;
use ilp_oer::Octets;
use ilp_replies::{Answer, Receipt};
use std::alloc::{Allocator, Global};
use std::marker::{Model, PhantomData};

/// A packet whose end is booked, with all that its sender is answered. A Fulfill is told only once the
/// keeper was handed a journal that has its entry; it says how many entries such a journal has at
/// least. It can't be cloned.
#[derive(Drop)]
pub struct Booked<J: Naming, A: Allocator = Global> {
    receipt: Receipt,
    octets: Octets<A>,
    // How many entries the keeper is to be handed first; 0 for a Reject.
    behind: u32,
    desk: PhantomData<J>,
}

impl<J: Naming, A: Allocator> Model for Booked<J, A> {
    ghost use Rattle.ilp_workers.specs.Booked.{PlainBooked, booked};

    ghost Value = { PlainBooked };

    ghost view = { λ b. booked b.receipt b.octets.octets b.behind };
}

impl<J: Naming, A: Allocator> Booked<J, A> {
    pub(crate) fn new(receipt: Receipt, octets: Octets<A>, behind: u32) -> Booked<J, A>
        ensures { result ≡ booked receipt octets.octets behind }
    {
        Booked {
            receipt,
            octets,
            behind,
            desk: PhantomData,
        }
    }

    /// What became of its Prepare.
    pub fn receipt(&self) -> Receipt
        ensures { result ≡ self.now.receipt }
    {
        self.receipt
    }

    /// How many entries the journal has at least that the keeper is to be handed before the sender is
    /// told; 0 where it may be told now.
    pub fn behind(&self) -> u32
        ensures { result ≡ self.now.behind }
    {
        self.behind
    }

    /// What the sender is answered, behind the journal that the keeper was handed. Whatever the keeper
    /// said of it, a Fulfill is told, which the next peer is owed.
    pub fn tell(self, handed: &HandedJournal<J>) -> Answer<A>
        requires behind { self.behind ≤ handed.now.entries }
        ensures receipt { result.receipt ≡ self.receipt }
        ensures octets { result.octets.octets ≡ self.octets }
    {
        let Booked {
            receipt,
            octets,
            behind: _,
            desk: _,
        } = self;
        Answer { receipt, octets }
    }
}

/// A journal of a desk that a keeper was handed, or none: how many entries it had, and what the keeper
/// said of it.
#[derive(Drop)]
pub struct HandedJournal<J: Naming> {
    entries: u32,
    said: Result<(), NotKept>,
    desk: PhantomData<J>,
}

impl<J: Naming> Model for HandedJournal<J> {
    ghost use Rattle.ilp_workers.specs.Booked.{PlainHandedJournal, handed_journal};

    ghost Value = { PlainHandedJournal };

    ghost view = { λ h. handed_journal h.entries h.said };
}

impl<J: Naming> HandedJournal<J> {
    pub(crate) fn new(entries: u32, said: Result<(), NotKept>) -> HandedJournal<J>
        ensures { result ≡ handed_journal entries said }
    {
        HandedJournal {
            entries,
            said,
            desk: PhantomData,
        }
    }

    /// None was handed to anybody. Behind it Rejects may be told.
    pub fn none() -> HandedJournal<J>
        ensures { result ≡ no_journal }
    {
        HandedJournal::new(0, Ok(()))
    }

    /// How many entries it had.
    pub fn entries(&self) -> u32
        ensures { result ≡ self.now.entries }
    {
        self.entries
    }

    /// What the keeper said of it.
    pub fn said(&self) -> Result<(), NotKept>
        ensures { result ≡ self.now.said }
    {
        self.said
    }
}
