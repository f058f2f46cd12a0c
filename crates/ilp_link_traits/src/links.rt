//! A clock, and ways to peers and to settlement engines.
ghost use Rattle.std.specs.Prelude.{◌≡◌, []};
ghost use Rattle.ilp_link_traits.specs.Links.{Tells, came_of, sending, asking, settling, messaging, asked, settled, messaged};

use ilp_oer::Octets;
use std::alloc::Allocator;
use thiserror::Error;

/// No reply came over a link.
#[derive(Clone, Copy, Debug, PartialEq, Eq, Error)]
#[error("no reply came")]
pub struct LinkFault;

/// What an engine says of a settlement that it was asked for (RFC 0038).
#[derive(Clone, Copy, Debug, PartialEq, Eq)]
pub enum EngineReply {
    /// It takes the settlement on.
    Accepted,
    /// It does not, and never will under this key. It said so by this status of HTTP.
    Refused { status: u16 },
    /// It may or may not have taken it on: no response came, or one with a status that says neither.
    Unknown { status: Option<u16> },
}

/// What the octets are that a peer replied to a Prepare (RFC 0027).
#[derive(Clone, Copy, Debug, PartialEq, Eq)]
pub enum ReplyKind {
    /// A Fulfill or a Reject.
    Answer,
    /// Neither: another packet, or none.
    NoAnswer,
}

/// Where moments come from. Where it tells, `told` is the moments that it gave.
pub trait Clock {
    ghost use Rattle.std.specs.Prelude.{List, Option, None, ℤ};

    ghost told: { Self → Option (List ℤ) } = { λ _. None };

    /// The time, in milliseconds since 1970.
    fn now(&mut self) -> i64
        ensures { Tells (told self.old) result (told self.new) };
}

/// The way to the peers. Where it tells, `told` is what it was handed, each with what came back.
pub trait Uplink {
    ghost use Rattle.std.specs.Prelude.{List, Option, None};
    ghost use Rattle.ilp_link_traits.specs.Links.{Sending};

    ghost told: { Self → Option (List Sending) } = { λ _. None };

    /// Hands a packet to a peer and waits for what it replies, which counts before the deadline,
    /// in milliseconds since 1970. The octets that come are put into `reply`, which is empty
    /// before; after a fault they mean nothing.
    fn send<A: Allocator>(
        &mut self,
        to: u32,
        packet: &[u8],
        deadline: i64,
        reply: &mut Octets<A>,
    ) -> Result<(), LinkFault>
        requires { reply.old.octets ≡ [] }
        ensures { Tells (told self.old)
            (sending to packet.now deadline (came_of result reply.new.octets)) (told self.new) };

    /// By this the link learns of which hold the packet is that it is handed next: the hold's number,
    /// the amount that goes out, in units of the receiving peer's asset, and the condition. It hands
    /// nothing to anybody. A link that doesn't care leaves it as it is.
    fn note_hold(&mut self, number: u32, amount: u64, condition: &[u8; 32])
        ensures { told self.new ≡ told self.old }
    {}

    /// By this the link learns what the octets are that this peer replied last, from whoever read
    /// them. It hands nothing to anybody. A link that doesn't care leaves it as it is.
    fn note_reply(&mut self, from: u32, kind: ReplyKind)
        ensures { told self.new ≡ told self.old }
    {}
}

/// The way to the peers' settlement engines (RFC 0038). Where it tells, `told` is what it was
/// handed, each with what came back.
pub trait EngineLink {
    ghost use Rattle.std.specs.Prelude.{List, Option, None};
    ghost use Rattle.ilp_link_traits.specs.Links.{ToEngine};

    ghost told: { Self → Option (List ToEngine) } = { λ _. None };

    /// Whether the engine has an account of the peer, which is set up if it has none.
    fn account(&mut self, peer: u32) -> bool
        ensures { Tells (told self.old) (asked (asking peer result)) (told self.new) };

    /// Asks for a settlement to the peer, of an amount at a scale, under a key that the engine
    /// takes once.
    fn settle(&mut self, peer: u32, key: &[u8], amount: u64, scale: u8) -> EngineReply
        ensures { Tells (told self.old)
            (settled (settling peer key.now amount scale result)) (told self.new) };

    /// Hands a message of the peer's engine to the engine here. The octets that it answers are put
    /// into `reply`, which is empty before; after a fault they mean nothing.
    fn message<A: Allocator>(
        &mut self,
        peer: u32,
        octets: &[u8],
        reply: &mut Octets<A>,
    ) -> Result<(), LinkFault>
        requires { reply.old.octets ≡ [] }
        ensures { Tells (told self.old)
            (messaged (messaging peer octets.now (came_of result reply.new.octets))) (told self.new) };
}
