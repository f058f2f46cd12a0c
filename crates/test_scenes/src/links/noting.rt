//! A way to the peers that notes what they were handed.

ghost use Rattle.std.specs.Prelude.{◌≡◌, [], ◌∷◌, ◌++◌, IfSome, IfOk, IsOkAnd, IsSomeAnd};
ghost use Rattle.ilp_workers.specs.Links.{came_of, sending};

use ilp_link_traits::{LinkFault, ReplyKind, Uplink};
use ilp_oer::Octets;
use std::alloc::{AllocError, Allocator, Global};
use std::marker::Model;

/// What a peer was handed, and what came back.
#[derive(Drop)]
pub(crate) struct Sent {
    to: u32,
    packet: Vec<u8>,
    deadline: i64,
    came: Option<Vec<u8>>,
}

impl Model for Sent {
    ghost use Rattle.std.specs.Prelude.{option_map};
    ghost use Rattle.std.specs.declared.vec.Vec.{Vec};
    ghost use Rattle.ilp_workers.specs.Links.{Sending, sending};

    ghost Value = { Sending };

    ghost view = { λ s. sending s.to s.packet.items s.deadline (option_map (λ came. came.items) s.came) };
}

/// A way to the peers that notes what they were handed, for as long as there is memory.
#[derive(Drop)]
pub(crate) struct Noting<U: Uplink + Drop> {
    uplink: U,
    alloc: Global,
    sent: Option<Vec<Sent>>,
}

impl<U: Uplink + Drop> Noting<U> {
    /// Notes over this way to the peers.
    pub(crate) fn new(alloc: Global, uplink: U) -> Noting<U> {
        Noting {
            uplink,
            alloc,
            sent: Some(Vec::new(alloc)),
        }
    }
}

impl<U: Uplink + Drop> Uplink for Noting<U> {
    ghost use Rattle.std.specs.Prelude.{option_map};
    ghost use Rattle.std.specs.declared.vec.Vec.{Vec};

    ghost told = { λ peer. option_map (λ sent. sent.items) peer.sent };

    fn send<A: Allocator>(
        &mut self,
        to: u32,
        packet: &[u8],
        deadline: i64,
        reply: &mut Octets<A>,
    ) -> Result<(), LinkFault> {
        let result = self.uplink.send(to, packet, deadline, reply);
        let noted = note(self.alloc, to, packet, deadline, result, reply.as_slice());
        self.sent = with(self.sent.take(), noted);
        result
    }

    fn note_reply(&mut self, from: u32, kind: ReplyKind) {
        self.uplink.note_reply(from, kind);
    }
}

// One more, if there is memory for it and was for those before.
fn with(sent: Option<Vec<Sent>>, noted: Result<Sent, AllocError>) -> Option<Vec<Sent>>
    ensures { IfSome result (λ after. IsOkAnd noted (λ one. IsSomeAnd sent (λ before.
        after.items ≡ before.items ++ one ∷ []))) }
{
    let mut sent = sent?;
    let Ok(noted) = noted else {
        return None;
    };
    let Ok(()) = sent.push(noted) else {
        return None;
    };
    Some(sent)
}

// What was handed and what came, if there is memory for it.
fn note(
    alloc: Global,
    to: u32,
    packet: &[u8],
    deadline: i64,
    replied: Result<(), LinkFault>,
    octets: &[u8],
) -> Result<Sent, AllocError>
    ensures { IfOk result (λ s. s ≡ sending to packet.now deadline (came_of replied octets.now)) }
{
    let packet = packet.to_vec(alloc)?;
    let came = match replied {
        Ok(()) => Some(octets.to_vec(alloc)?),
        Err(LinkFault) => None,
    };
    Ok(Sent {
        to,
        packet,
        deadline,
        came,
    })
}
