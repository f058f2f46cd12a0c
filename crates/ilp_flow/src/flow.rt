//! How many packets and messages are in flight, whose they are, and who begins next.
ghost use Rattle.std.specs.Prelude.{◌≡◌, ◌/◌, ◌<◌, ◌≤◌, ◌+◌, ◌↔◌, IsTrue, List, [], ◌∷◌, ◌++◌, length, IfOk, MatchBool};
ghost use Rattle.std.specs.Bool.{OnTrue, OnFalse};
ghost use Rattle.ilp_flow.specs.declared.passage.Passage.{Passage};
ghost use Rattle.ilp_flow.specs.Flow.{room_of, MayBegin, BeginsNext};
ghost use Rattle.ilp_flow.specs.Counts.{limit_of, IsFor, IsKnownTo, AreKnownTo, HasCounts, KeepsLimits, Begins, with_one, without_one, sooner};

use crate::passage::Passage;
use std::alloc::{AllocError, Global};

// How many octets there is room for, for each that may be in flight, and for how many of them at least.
const OCTETS_OF_EACH: u64 = 8192;

const LEAST_WITH_ROOM: u32 = 16;

/// How many are in flight, of each sender and to each receiver, and when each sender had its last turn.
#[derive(Drop)]
pub struct Flow {
    // How many there may be, in all, and of one sender or to one receiver.
    most: u32,
    part: u32,
    // How many octets there may be. One sender has half of it at most.
    room: u64,
    // How many there are.
    flying: u32,
    octets: u64,
    senders: Vec<OfSender>,
    receivers: Vec<u32>,
    // How many began so far.
    begun: u64,
}

// How many are one sender's, of how many octets, and how many had begun when its last one had; 0 where it
// never had a turn.
#[derive(Clone, Copy, Drop)]
pub(crate) struct OfSender {
    flying: u32,
    octets: u64,
    turn: u64,
}

impl OfSender {
    // One more of so many octets began, in this turn.
    fn with_one(self, octets: u32, turn: u64) -> OfSender
        ensures { result ≡ with_one self octets turn }
    {
        OfSender {
            flying: self.flying.saturating_add(1),
            octets: self.octets.saturating_add(u64::from(octets)),
            turn,
        }
    }

    // One of so many octets ended.
    fn without_one(self, octets: u32) -> OfSender
        ensures { result ≡ without_one self octets }
    {
        OfSender {
            flying: self.flying.saturating_sub(1),
            octets: self.octets.saturating_sub(u64::from(octets)),
            turn: self.turn,
        }
    }
}

impl Flow {
    /// None is in flight. There may be so many in all, and half as many, but one at least, of one sender
    /// or to one receiver. For octets there is room of 8,192 for each that may be, and for 16 at least;
    /// one sender has half of it. There are so many senders and receivers.
    pub fn new(alloc: Global, most: u32, parties: u32) -> Result<Flow, AllocError>
        ensures counts { IfOk result (λ flow. HasCounts flow [] []) }
        ensures limit { IfOk result (λ flow. limit_of flow ≡ most) }
        ensures parties { IfOk result (λ flow. IsFor flow parties) }
    {
        let never = OfSender {
            flying: 0,
            octets: 0,
            turn: 0,
        };
        Ok(Flow {
            most,
            part: (most / 2).max(1),
            room: u64::from(most.max(LEAST_WITH_ROOM)) * OCTETS_OF_EACH,
            flying: 0,
            octets: 0,
            senders: vec![in alloc; never; parties as usize]?,
            receivers: vec![in alloc; 0; parties as usize]?,
            begun: 0,
        })
    }

    /// Whether the sender and the receiver of it are among these parties.
    pub fn knows(&self, passage: Passage) -> bool
        ensures { IsTrue result ↔ IsKnownTo self.now passage }
    {
        (passage.sender as usize) < self.senders.len()
            && (passage.receiver as usize) < self.receivers.len()
    }

    /// How many are in flight.
    pub fn flying(&self) -> u32
        ensures { (flying begun : List Passage) → HasCounts self.now flying begun
            → result ≡ length flying }
    {
        self.flying
    }

    /// How many octets may be in flight at once.
    pub fn room(&self) -> u64
        ensures { (flying begun : List Passage) → HasCounts self.now flying begun
            → result ≡ room_of (limit_of self.now) }
    {
        self.room
    }

    /// Whether one more may begin.
    pub fn may_begin(&self, passage: Passage) -> bool
        requires known { IsKnownTo self.now passage }
        ensures { (flying begun : List Passage) → HasCounts self.now flying begun
            → MatchBool result (MayBegin (limit_of self.now) flying passage)
            (¬ MayBegin (limit_of self.now) flying passage) }
    {
        let of_sender = self.senders[passage.sender as usize];
        let of_receiver = self.receivers[passage.receiver as usize];
        self.has_place(of_sender, of_receiver) && self.has_room(of_sender, passage.octets)
    }

    // Whether there may be one more, of a sender with so many and to a receiver with so many.
    fn has_place(&self, of_sender: OfSender, of_receiver: u32) -> bool
        ensures { IsTrue result ↔ (self.now.flying < self.now.most)
            × (of_sender.flying < self.now.part) × (of_receiver < self.now.part) }
    {
        self.flying < self.most && of_sender.flying < self.part && of_receiver < self.part
    }

    // Whether so many octets more find room, of a sender with so many.
    fn has_room(&self, of_sender: OfSender, octets: u32) -> bool
        ensures { IsTrue result ↔ (self.now.octets + octets ≤ self.now.room)
            × (of_sender.octets + octets ≤ self.now.room / 2) }
    {
        fits(self.octets, octets, self.room) && fits(of_sender.octets, octets, self.room / 2)
    }

    /// Who of those that wait, the first to come in front, begins next: of all that may the one whose
    /// sender's last turn was longest ago, and of several such the first. Turns are counted up to
    /// 2^64 - 1, and later ones are alike.
    pub fn next(&self, waiting: &[Passage]) -> Option<usize>
        requires known { AreKnownTo self.now waiting.now }
        ensures { (flying begun : List Passage) → HasCounts self.now flying begun
            → BeginsNext (limit_of self.now) flying begun waiting.now result }
    {
        let mut best: Option<Turn> = None;
        for (place, passage) in waiting.iter().enumerate() {
            if self.may_begin(*passage) {
                best = sooner(best, place, self.senders[passage.sender as usize].turn);
            }
        }
        best.map(|turn| turn.place)
    }

    /// Begins this one if it may, and says whether it did: it is in flight from now on, and its sender had
    /// the last turn. Else nothing changes.
    pub fn begin(&mut self, passage: Passage) -> bool
        requires known { IsKnownTo self.old passage }
        ensures begins { (flying begun : List Passage) → HasCounts self.old flying begun
            → OnTrue result (Begins self.old self.new flying begun passage) }
        ensures refuses { (flying begun : List Passage) → HasCounts self.old flying begun
            → OnFalse result (¬ MayBegin (limit_of self.old) flying passage) }
        ensures unchanged { OnFalse result (self.new ≡ self.old) }
        ensures limits { KeepsLimits self.old self.new }
    {
        if !self.may_begin(passage) {
            return false;
        }
        // What may begin is far from the ends of these numbers. The count of turns stays at its last.
        self.begun = self.begun.saturating_add(1);
        self.flying = self.flying.saturating_add(1);
        self.octets = self.octets.saturating_add(u64::from(passage.octets));
        let sender = passage.sender as usize;
        self.senders[sender] = self.senders[sender].with_one(passage.octets, self.begun);
        let receiver = passage.receiver as usize;
        self.receivers[receiver] = self.receivers[receiver].saturating_add(1);
        true
    }

    /// One that is in flight ends, and is in flight no longer. Of one that wasn't, nothing is said; no
    /// number falls below 0.
    pub fn end(&mut self, passage: Passage)
        requires known { IsKnownTo self.old passage }
        ensures counts { (before after begun : List Passage)
            → HasCounts self.old (before ++ passage ∷ after) begun
            → HasCounts self.new (before ++ after) begun }
        ensures limits { KeepsLimits self.old self.new }
    {
        self.flying = self.flying.saturating_sub(1);
        self.octets = self.octets.saturating_sub(u64::from(passage.octets));
        let sender = passage.sender as usize;
        self.senders[sender] = self.senders[sender].without_one(passage.octets);
        let receiver = passage.receiver as usize;
        self.receivers[receiver] = self.receivers[receiver].saturating_sub(1);
    }
}

// Whether so many octets more find room beside these.
fn fits(octets: u64, more: u32, room: u64) -> bool
    ensures { IsTrue result ↔ (octets + more ≤ room) }
{
    octets <= room && u64::from(more) <= room - octets
}

// One that waits, and when its sender had its last turn.
#[derive(Clone, Copy)]
pub(crate) struct Turn {
    place: usize,
    turn: u64,
}

// The one before, if there is one and its sender's last turn was no later, else this one.
fn sooner(best: Option<Turn>, place: usize, turn: u64) -> Option<Turn>
    ensures { result ≡ sooner best place turn }
{
    match best {
        Some(one) if one.turn <= turn => Some(one),
        _ => Some(Turn { place, turn }),
    }
}
