//! What an actor keeps of what it booked.

use ilp_book::EngineVerdict;
use ilp_journal::Cause;

/// What the books say of an entry, as the actor that booked it keeps it: of each that ended a hold
/// in time, credited a peer or closed a settlement.
#[derive(Clone, Copy, Debug, PartialEq, Eq)]
pub struct Record {
    /// The number of the entry.
    pub number: u32,
    /// What it booked.
    pub what: Recorded,
}

/// What an entry booked, and of what it ended.
#[derive(Clone, Copy, Debug, PartialEq, Eq)]
pub enum Recorded {
    /// A hold ended, for another cause than its deadline.
    Answered(AnsweredHold),
    /// A settlement from a peer, or a correction: what its balance moved by, in units of its asset, and whether
    /// it fell.
    Credited {
        peer: u32,
        amount: u64,
        lowers: bool,
    },
    /// A settlement to a peer, in units of its asset, and what its engine said of it.
    Closed {
        ask: u32,
        peer: u32,
        amount: u64,
        verdict: EngineVerdict,
    },
}

/// A hold, and how it ended.
#[derive(Clone, Copy, Debug, PartialEq, Eq)]
pub struct AnsweredHold {
    /// The number of the hold.
    pub hold: u32,
    /// The peer that sent the Prepare.
    pub from: u32,
    /// The peer that it went on to.
    pub to: u32,
    /// What the sender paid, or has back, in units of its asset.
    pub amount: u64,
    /// What the receiver got, or would have got, in units of its own asset.
    pub out: u64,
    /// The condition of the Prepare.
    pub condition: [u8; 32],
    /// Whether it was fulfilled.
    pub ended: HoldEnd,
}

/// How a hold ended.
#[derive(Clone, Copy, Debug, PartialEq, Eq)]
pub enum HoldEnd {
    /// The sender's amount went on to the receiver.
    Fulfilled,
    /// The sender has its amount back, for this cause.
    Released(Cause),
}
