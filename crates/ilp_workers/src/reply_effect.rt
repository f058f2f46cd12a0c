//! What a peer's reply comes to.
ghost use Rattle.std.specs.Prelude.{◌≡◌};
ghost use Rattle.ilp_link_traits.specs.Links.{came_of};
ghost use Rattle.ilp_workers.specs.Forwarding.{effect_of, effect_of_none, effect_of_fulfill, reject_told, kind_of};

use ilp_book::PeerReply;
use ilp_desk::HoldEnd;
use ilp_journal::Cause;
use ilp_link_traits::{LinkFault, ReplyKind};
use ilp_packet::Packet;
use ilp_replies::{LocalReject, ToldReject};
use ilp_terms::meets;

/// What the sender of a Prepare is told.
#[derive(Clone, Copy, Debug, PartialEq, Eq)]
pub enum Told {
    /// The Fulfill that the peer replied, in its own octets.
    Fulfill,
    /// A Reject.
    Reject(ToldReject),
}

impl Told {
    // The Reject, if it is one.
    pub(crate) fn rejected(self) -> Option<ToldReject>
        ensures { result ≡ reject_told self }
    {
        match self {
            Told::Fulfill => None,
            Told::Reject(reject) => Some(reject),
        }
    }
}

/// What a reply comes to: what the book is told, how the hold ends if it is open and in time, and
/// what the sender is told then.
#[derive(Clone, Copy, Debug, PartialEq, Eq)]
pub struct ReplyEffect {
    pub answer: PeerReply,
    pub ended: HoldEnd,
    pub told: Told,
}

impl ReplyEffect {
    // What the link is told of the octets that came.
    pub(crate) fn kind(&self) -> ReplyKind
        ensures { result ≡ kind_of self.now.answer }
    {
        match self.answer {
            PeerReply::Fulfill(_) => ReplyKind::Answer,
            PeerReply::BadFulfill => ReplyKind::Answer,
            PeerReply::Reject(_) => ReplyKind::Answer,
            PeerReply::NoReply => ReplyKind::NoAnswer,
        }
    }
}

// What came for a Prepare of this condition: the octets of the reply, if the link has no fault.
pub(crate) fn effect_by(
    condition: &[u8; 32],
    came: Result<(), LinkFault>,
    reply: &[u8],
) -> ReplyEffect
    ensures { result ≡ effect_of condition.now (came_of came reply.now) }
{
    let Ok(()) = came else {
        return effect_by_none();
    };
    match Packet::read(reply) {
        Ok(Packet::Fulfill(fulfill)) => effect_by_fulfill(condition, fulfill.preimage),
        Ok(Packet::Reject(reject)) => ReplyEffect {
            answer: PeerReply::Reject(*reject.code),
            ended: HoldEnd::Released(Cause::Peer(*reject.code)),
            told: Told::Reject(ToldReject::Peer { code: *reject.code }),
        },
        Ok(Packet::Prepare(_)) => effect_by_none(),
        Err(_) => effect_by_none(),
    }
}

// A Fulfill came.
fn effect_by_fulfill(condition: &[u8; 32], preimage: &[u8; 32]) -> ReplyEffect
    ensures { result ≡ effect_of_fulfill condition.now preimage.now }
{
    if meets(condition, preimage) {
        ReplyEffect {
            answer: PeerReply::Fulfill(*preimage),
            ended: HoldEnd::Fulfilled,
            told: Told::Fulfill,
        }
    } else {
        ReplyEffect {
            answer: PeerReply::BadFulfill,
            ended: HoldEnd::Released(Cause::WrongPreimage),
            told: Told::Reject(ToldReject::Own(LocalReject::WrongCondition)),
        }
    }
}

// Nothing came that ends a hold.
fn effect_by_none() -> ReplyEffect
    ensures { result ≡ effect_of_none }
{
    ReplyEffect {
        answer: PeerReply::NoReply,
        ended: HoldEnd::Released(Cause::NoReply),
        told: Told::Reject(ToldReject::Own(LocalReject::PeerUnreachable)),
    }
}
