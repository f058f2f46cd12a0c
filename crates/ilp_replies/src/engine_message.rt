//! Messages between settlement engines that wait for an answer (RFC 0038).
ghost use Rattle.std.specs.Prelude.{◌≡◌, ◌+◌, ◌≤◌, length};
ghost use Rattle.ilp_replies.specs.EngineMessage.{engine_message, peer_message};
ghost use Rattle.ilp_replies.specs.Replies.{octets_of};
ghost use Rattle.ilp_replies.specs.Messages.{longest_fulfill, IsMessageTold};

use crate::answer::{Answer, Receipt};
use crate::messages::put_answer;
use crate::rejects::{LocalReject, ToldReject, put_local_reject};
use ilp_accounts::Config;
use ilp_oer::Octets;
use std::alloc::{Allocator, Global};
use std::marker::Model;

/// A message of a peer's engine, until the engine here has answered it. It owns the data, in whose room
/// there is place for the longest Fulfill. Nothing is booked of it, and no worker has to end it.
#[derive(Drop)]
pub struct EngineMessage<A: Allocator = Global> {
    from: u32,
    octets: Octets<A>,
}

impl<A: Allocator> Model for EngineMessage<A> {
    ghost use Rattle.std.specs.Prelude.{◌+◌, ◌≤◌, length};
    ghost use Rattle.ilp_replies.specs.Messages.{longest_fulfill};
    ghost use Rattle.ilp_replies.specs.EngineMessage.{PlainEngineMessage, engine_message};

    ghost Value = { PlainEngineMessage };

    ghost view = { λ m. engine_message m.from m.octets.octets };

    ghost invariant = { λ m. longest_fulfill ≤ length m.octets.octets + m.octets.spare };
}

impl<A: Allocator> EngineMessage<A> {
    /// A message of that peer's engine, with its data.
    pub fn new(from: u32, octets: Octets<A>) -> EngineMessage<A>
        requires room { longest_fulfill ≤ length octets.octets + octets.spare }
        ensures { result ≡ engine_message from octets.octets }
    {
        EngineMessage { from, octets }
    }

    /// The peer whose engine sent it.
    pub fn from(&self) -> u32
        ensures { result ≡ self.now.from }
    {
        self.from
    }

    /// The data that the engine here is to be handed.
    pub fn octets(&self) -> &[u8]
        ensures { result.now ≡ self.now.octets }
    {
        self.octets.as_slice()
    }

    /// What the peer is answered: a Fulfill of 32 zero octets with what the engine answered, or T01
    /// where it answered nothing or more than 32,767 octets. It takes no memory.
    pub fn answer(self, config: &Config, came: Option<Octets<A>>) -> Answer<A>
        ensures { IsMessageTold config.now (octets_of came) result.receipt result.octets.octets }
    {
        let EngineMessage { from: _, octets } = self;
        let mut out = octets;
        out.clear();
        let told = match &came {
            Some(answer) => put_answer(&mut out, answer.as_slice()),
            None => Err(LocalReject::PeerUnreachable),
        };
        let rejected = match told {
            Ok(()) => None,
            Err(why) => {
                put_local_reject(&mut out, config, why);
                Some(ToldReject::Own(why))
            }
        };
        Answer {
            receipt: Receipt::unbooked(rejected),
            octets: out,
        }
    }
}

/// A message of the engine here, until the peer has replied to its packet.
#[derive(Drop)]
pub struct PeerMessage<A: Allocator = Global> {
    to: u32,
    packet: Octets<A>,
    deadline: i64,
}

impl<A: Allocator> Model for PeerMessage<A> {
    ghost use Rattle.ilp_replies.specs.EngineMessage.{PlainPeerMessage, peer_message};

    ghost Value = { PlainPeerMessage };

    ghost view = { λ m. peer_message m.to m.packet.octets m.deadline };
}

impl<A: Allocator> PeerMessage<A> {
    /// A message for that peer: its packet, and from which moment on no reply counts; milliseconds
    /// since 1970.
    pub fn new(to: u32, packet: Octets<A>, deadline: i64) -> PeerMessage<A>
        ensures { result ≡ peer_message to packet.octets deadline }
    {
        PeerMessage {
            to,
            packet,
            deadline,
        }
    }

    /// The peer that is to be handed the packet.
    pub fn to(&self) -> u32
        ensures { result ≡ self.now.to }
    {
        self.to
    }

    /// What that peer is to be handed: a Prepare.
    pub fn packet(&self) -> &[u8]
        ensures { result.now ≡ self.now.packet }
    {
        self.packet.as_slice()
    }

    /// From this moment on no reply counts; milliseconds since 1970.
    pub fn deadline(&self) -> i64
        ensures { result ≡ self.now.deadline }
    {
        self.deadline
    }
}
