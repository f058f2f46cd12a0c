//! A packet that waits for what the next peer replies.
ghost use Rattle.std.specs.Prelude.{◌≡◌, ◌+◌, ◌≤◌, length};
ghost use Rattle.ilp_replies.specs.Rejects.{longest_local_reject};
ghost use Rattle.ilp_workers.specs.Pending.{waiting};

use ilp_book::Held;
use ilp_desk::Naming;
use ilp_oer::Octets;
use ilp_replies::{EngineMessage, Receipt};
use std::alloc::{Allocator, Global};
use std::marker::{Model, PhantomData};

/// What the end of a hold tells of its Prepare.
#[derive(Clone, Copy, Debug, PartialEq, Eq)]
pub struct HeldPrepare {
    /// The peer that sent it.
    pub from: u32,
    /// Its amount, in units of that peer's asset.
    pub amount: u64,
    /// What the preimage of a Fulfill has to meet.
    pub condition: [u8; 32],
    /// The hold.
    pub held: Held,
}

/// A packet that a worker holds, until that worker finishes it with what the next peer replied. It
/// owns the octets that this peer is to be handed, in whose room there is place for any Reject of
/// the connector's own; room for its record is kept in the worker. It can't be cloned. A worker of
/// which one was let go never again has none that waits.
#[derive(Drop)]
pub struct Pending<J: Naming, A: Allocator = Global> {
    // Whose share the hold was booked with.
    actor: u32,
    prepare: HeldPrepare,
    octets: Octets<A>,
    desk: PhantomData<J>,
}

impl<J: Naming, A: Allocator> Model for Pending<J, A> {
    ghost use Rattle.std.specs.Prelude.{◌+◌, ◌≤◌, length};
    ghost use Rattle.ilp_replies.specs.Rejects.{longest_local_reject};
    ghost use Rattle.ilp_workers.specs.Pending.{PlainPending, waiting};

    ghost Value = { PlainPending };

    ghost view = { λ p. waiting p.actor p.prepare p.octets.octets };

    ghost invariant = { λ p. longest_local_reject ≤ length p.octets.octets + p.octets.spare };
}

impl<J: Naming, A: Allocator> Pending<J, A> {
    pub(crate) fn new(actor: u32, prepare: HeldPrepare, octets: Octets<A>) -> Pending<J, A>
        requires room { longest_local_reject ≤ length octets.octets + octets.spare }
        ensures { result ≡ waiting actor prepare octets.octets }
    {
        Pending {
            actor,
            prepare,
            octets,
            desk: PhantomData,
        }
    }

    /// The actor of the worker that began it, and is to finish it.
    pub fn actor(&self) -> u32
        ensures { result ≡ self.now.actor }
    {
        self.actor
    }

    /// What the end of its hold tells of it.
    pub fn prepare(&self) -> HeldPrepare
        ensures { result ≡ self.now.prepare }
    {
        self.prepare
    }

    /// The peer that is to be handed the octets.
    pub fn to(&self) -> u32
        ensures { result ≡ self.now.prepare.held.to }
    {
        self.prepare.held.to
    }

    /// What that peer is to be handed: a Prepare.
    pub fn octets(&self) -> &[u8]
        ensures { result.now ≡ self.now.octets }
    {
        self.octets.as_slice()
    }

    /// From this moment on no fulfillment counts; milliseconds since 1970.
    pub fn deadline(&self) -> i64
        ensures { result ≡ self.now.prepare.held.deadline }
    {
        self.prepare.held.deadline
    }

    // Its octets, with their room for a Reject.
    pub(crate) fn into_room(self) -> Octets<A>
        ensures { longest_local_reject ≤ length result.octets + result.spare }
    {
        let Pending {
            actor: _,
            prepare: _,
            octets,
            desk: _,
        } = self;
        octets
    }
}

/// What the first half of a forward comes to.
#[derive(Drop)]
pub enum Begun<J: Naming, A: Allocator = Global> {
    /// The sender is answered.
    Answered(Receipt),
    /// The next peer is to be handed a packet.
    Waits(Pending<J, A>),
    /// The settlement engine here is to be handed a message.
    Asks(EngineMessage<A>),
}
