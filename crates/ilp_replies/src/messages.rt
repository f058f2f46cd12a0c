//! The packets of messages between settlement engines (RFC 0038): Prepares of amount 0 to `peer.settle`,
//! and the Fulfills of 32 zero octets that answer them.
ghost use Rattle.std.specs.Prelude.{◌≡◌, ◌+◌, ◌≤◌, [], length, Some, None, option_map, is_some, IfOk, IfErr, OnOk, OnErr, MatchBool};
ghost use Rattle.ilp_terms.specs.Expiry.{IsMoment};
ghost use Rattle.ilp_packet.specs.Packet.{most_payload, plain_prepare, prepare, fulfill, IsPrepare, Spells};
ghost use Rattle.ilp_book.specs.Configured.{IsKnown};
ghost use Rattle.ilp_link_traits.specs.Links.{came_of};
ghost use Rattle.ilp_replies.specs.Messages.{within_years, IsForEngine, message_refusal, IsWhyRefused, engine_answer, answered_with, zero_fulfill, longest_fulfill, message_expiry, message_prepare, peer_answer_of, kind_of_reply};

use crate::rejects::LocalReject;
use ilp_accounts::Config;
use ilp_link_traits::{LinkFault, ReplyKind};
use ilp_oer::Octets;
use ilp_packet::{Fulfill, Packet, Prepare, write_fulfill, write_prepare};
use ilp_terms::LAST_OF_ALL;
use std::alloc::{AllocError, Allocator};
use thiserror::Error;

/// The most octets of a message, which is the data of a packet.
pub const MAX_MESSAGE: usize = 32_767;

// How many octets a Fulfill with that much data has.
const LONGEST_FULFILL: usize = 32_806;

// Where messages go.
const SETTLE_ADDRESS: [u8; 11] = *b"peer.settle";

// The fulfillment of every message.
const ZERO_PREIMAGE: [u8; 32] = [0; 32];

// Its SHA-256 digest, the condition of every message.
const ZERO_CONDITION: [u8; 32] = [
    0x66, 0x68, 0x7a, 0xad, 0xf8, 0x62, 0xbd, 0x77, 0x6c, 0x8f, 0xc1, 0x8b, 0x8e, 0x9f, 0x8e, 0x20,
    0x08, 0x97, 0x14, 0x85, 0x6e, 0xe2, 0x33, 0xb3, 0x90, 0x2a, 0x59, 0x1d, 0x0d, 0x5f, 0x29, 0x25,
];

/// Why a message to a peer's engine has no answer.
#[derive(Clone, Copy, Debug, PartialEq, Eq, Error)]
pub enum MessageFault {
    /// It has more than 32,767 octets.
    #[error("the message has more than 32767 octets")]
    TooLong,
    /// Memory for its packet was denied.
    #[error("no memory for the message")]
    Memory,
    /// The peer was asked, and no Fulfill of 32 zero octets came.
    #[error("no answer came")]
    NoAnswer,
}

/// Whether a Prepare is for the settlement engine here.
pub fn is_for_engine(packet: &Prepare<'_>) -> bool
    ensures { MatchBool result (IsForEngine (plain_prepare packet.now))
        (¬ IsForEngine (plain_prepare packet.now)) }
{
    packet.destination == SETTLE_ADDRESS.as_slice()
}

// The first refusal of a Prepare for the engine here, at this time.
fn message_refusal(
    config: &Config,
    from: u32,
    packet: &Prepare<'_>,
    now: i64,
) -> Option<LocalReject>
    requires known { IsKnown config.now from }
    ensures { result ≡ message_refusal config.now from now (plain_prepare packet.now) }
{
    if packet.amount != 0 {
        return Some(LocalReject::InvalidAmount);
    }
    if packet.condition != &ZERO_CONDITION {
        return Some(LocalReject::WrongCondition);
    }
    if packet.expires <= within_years(now) {
        return Some(LocalReject::TransferTimedOut);
    }
    if config.engine(from).is_none() {
        return Some(LocalReject::Unreachable);
    }
    None
}

// A time, brought to the years 1970 to 9999.
fn within_years(now: i64) -> i64
    ensures { result ≡ within_years now }
{
    now.min(LAST_OF_ALL).max(0)
}

/// The data of a Prepare for the engine here, in room for the longest Fulfill, or the first refusal at
/// this time (milliseconds since 1970): F03, F05, R00 or F02. Where there is none, T00 tells that memory
/// was denied.
pub fn message_octets<A: Allocator>(
    alloc: A,
    config: &Config,
    from: u32,
    packet: &Prepare<'_>,
    now: i64,
) -> Result<Octets<A>, LocalReject>
    requires known { IsKnown config.now from }
    requires packet { IsPrepare (plain_prepare packet.now) }
    ensures passes { OnOk result
        (message_refusal config.now from now (plain_prepare packet.now) ≡ None) }
    ensures octets { IfOk result (λ octets. octets.octets ≡ packet.now.payload.now) }
    ensures room { IfOk result (λ octets. longest_fulfill ≤ length octets.octets + octets.spare) }
    ensures err { IfErr result (λ why. IsWhyRefused
        (message_refusal config.now from now (plain_prepare packet.now)) why) }
{
    if let Some(why) = message_refusal(config, from, packet, now) {
        return Err(why);
    }
    let mut octets = Octets::new(alloc);
    let Ok(()) = octets.reserve(LONGEST_FULFILL) else {
        return Err(LocalReject::InternalError);
    };
    octets.append_reserved(packet.payload);
    Ok(octets)
}

// Writes the Fulfill of what an engine answered, into room that is there for the longest.
pub(crate) fn put_answer<A: Allocator>(
    out: &mut Octets<A>,
    answer: &[u8],
) -> Result<(), LocalReject>
    requires cleared { out.old.octets ≡ [] }
    requires room { longest_fulfill ≤ out.old.spare }
    ensures answer { answered_with result answer.now ≡ engine_answer (Some answer.now) }
    ensures packet { OnOk result (Spells out.new.octets (fulfill (zero_fulfill answer.now))) }
    ensures err { OnErr result (out.new ≡ out.old) }
{
    if answer.len() > MAX_MESSAGE {
        return Err(LocalReject::PeerUnreachable);
    }
    let packet = Fulfill {
        preimage: &ZERO_PREIMAGE,
        payload: answer,
    };
    let Ok(()) = write_fulfill(out, &packet) else {
        unreachable!();
    };
    Ok(())
}

/// When a message expires that is sent at this time: after the longest hold, but never after the year
/// 9999. Both are milliseconds since 1970.
pub fn message_expiry(config: &Config, now: i64) -> i64
    ensures value { result ≡ message_expiry config.now now }
    ensures moment { IsMoment result }
{
    let latest = within_years(now) + i64::from(config.max_hold_ms());
    latest.min(LAST_OF_ALL)
}

/// Writes the Prepare that carries a message in place of what `out` holds. Where memory for it is denied,
/// nothing is said of what `out` holds then.
pub fn put_message<A: Allocator>(
    out: &mut Octets<A>,
    octets: &[u8],
    expires: i64,
) -> Result<(), AllocError>
    requires within { length octets.now ≤ most_payload }
    requires moment { IsMoment expires }
    ensures { OnOk result (Spells out.new.octets (prepare (message_prepare expires octets.now))) }
{
    let packet = Prepare {
        amount: 0,
        expires,
        condition: &ZERO_CONDITION,
        destination: &SETTLE_ADDRESS,
        payload: octets,
    };
    out.clear();
    write_prepare(out, &packet)
}

/// What the peer's engine answered, by the octets that came back for its message: the data of the
/// Fulfill of 32 zero octets, if they stand for one.
pub fn peer_answer_in(octets: &[u8]) -> Option<&[u8]>
    ensures { option_map (λ answer. answer.now) result ≡ peer_answer_of (Some octets.now) }
{
    match Packet::read(octets) {
        Ok(Packet::Fulfill(fulfill)) if fulfill.preimage == &ZERO_PREIMAGE => Some(fulfill.payload),
        _ => None,
    }
}

/// What came back for a message.
#[derive(Clone, Copy)]
pub struct MessageReply {
    /// What the link is told of it.
    pub kind: ReplyKind,
    /// Whether it is a Fulfill of 32 zero octets.
    pub is_answer: bool,
}

impl MessageReply {
    // A Fulfill of 32 zero octets.
    const ANSWER: MessageReply = MessageReply {
        kind: ReplyKind::Answer,
        is_answer: true,
    };

    // Another Fulfill, or a Reject.
    const REFUSAL: MessageReply = MessageReply {
        kind: ReplyKind::Answer,
        is_answer: false,
    };

    // Neither a Fulfill nor a Reject, or nothing.
    const NONE: MessageReply = MessageReply {
        kind: ReplyKind::NoAnswer,
        is_answer: false,
    };
}

/// Reads what came back for a message: the octets of the reply, if the link has no fault.
pub fn message_reply(came: Result<(), LinkFault>, reply: &[u8]) -> MessageReply
    ensures kind { result.kind ≡ kind_of_reply (came_of came reply.now) }
    ensures answer { result.is_answer ≡ is_some (peer_answer_of (came_of came reply.now)) }
{
    let Ok(()) = came else {
        return MessageReply::NONE;
    };
    match Packet::read(reply) {
        Ok(Packet::Fulfill(fulfill)) if fulfill.preimage == &ZERO_PREIMAGE => MessageReply::ANSWER,
        Ok(Packet::Fulfill(_)) => MessageReply::REFUSAL,
        Ok(Packet::Reject(_)) => MessageReply::REFUSAL,
        Ok(Packet::Prepare(_)) => MessageReply::NONE,
        Err(_) => MessageReply::NONE,
    }
}
