//! The contents of the three packets (RFC 0027): their fields in order, each read and checked at
//! once.
//!
//! What reads an octet string of any octets is inlined, so that its content and the rest are passed
//! on in registers, and so are the readers of the two small packets. A Prepare's is one piece of code.
ghost use Rattle.std.specs.Prelude.{◌≡◌, Ok, Err};
ghost use Rattle.ilp_packet.specs.Packet.{plain_prepare, plain_fulfill, plain_reject};
ghost use Rattle.ilp_packet.specs.Reading.{Gives, prepare_in, fulfill_in, reject_in, payload_in, content_at, prepare_at, fulfill_at, reject_at};

use crate::fault::PacketFault;
use crate::fields::{
    take_address, take_chunk, take_expiry, take_last, take_string, take_string_within,
};
use crate::packet::{Fulfill, Prepare, Reject};

// The greatest number of octets of a packet's data.
const MAX_PAYLOAD: usize = 32_767;
// The greatest number of octets of a Reject's message.
const MAX_MESSAGE: usize = 8_191;
// The greatest number of octets of the address that triggered a Reject.
const MAX_TRIGGERED_BY: usize = 1_023;

/// A Prepare, from what follows its type octet.
#[inline(never)]
pub(crate) fn read_prepare(input: &[u8]) -> Result<Prepare<'_>, PacketFault>
    ensures { Gives plain_prepare result (prepare_at input.now) }
{
    prepare_of(read_content(input)?)
}

/// A Fulfill, from what follows its type octet.
#[inline(always)]
pub(crate) fn read_fulfill(input: &[u8]) -> Result<Fulfill<'_>, PacketFault>
    ensures { Gives plain_fulfill result (fulfill_at input.now) }
{
    fulfill_of(read_content(input)?)
}

/// A Reject, from what follows its type octet.
#[inline(always)]
pub(crate) fn read_reject(input: &[u8]) -> Result<Reject<'_>, PacketFault>
    ensures { Gives plain_reject result (reject_at input.now) }
{
    reject_of(read_content(input)?)
}

// The content after a type octet: one octet string, which nothing follows.
#[inline(always)]
#[tactic(auto, unfolding(crate::specs::Reading::content_at))]
fn read_content(input: &[u8]) -> Result<&[u8], PacketFault>
    ensures { Gives (λ content. content.now) result (content_at input.now) }
{
    let (content, rest) = take_string(input)?;
    take_last(content, rest)
}

// The fields of a Prepare.
#[tactic(auto, unfolding(crate::specs::Reading::prepare_in, crate::specs::Reading::amount_at))]
fn prepare_of(content: &[u8]) -> Result<Prepare<'_>, PacketFault>
    ensures { Gives plain_prepare result (prepare_in content.now) }
{
    let (amount, rest) = take_chunk::<8>(content)?;
    let (expires, rest) = take_expiry(rest)?;
    let (condition, rest) = take_chunk::<32>(rest)?;
    let (destination, rest) = take_address(rest)?;
    let payload = read_payload(rest)?;
    Ok(Prepare {
        amount: u64::from_be_bytes(*amount),
        expires,
        condition,
        destination,
        payload,
    })
}

// The fields of a Fulfill.
#[tactic(auto, unfolding(crate::specs::Reading::fulfill_in))]
fn fulfill_of(content: &[u8]) -> Result<Fulfill<'_>, PacketFault>
    ensures { Gives plain_fulfill result (fulfill_in content.now) }
{
    let (preimage, rest) = take_chunk::<32>(content)?;
    let payload = read_payload(rest)?;
    Ok(Fulfill { preimage, payload })
}

// The fields of a Reject. All but the lengths may be any octets.
#[tactic(auto, unfolding(crate::specs::Reading::reject_in))]
fn reject_of(content: &[u8]) -> Result<Reject<'_>, PacketFault>
    ensures { Gives plain_reject result (reject_in content.now) }
{
    let (code, rest) = take_chunk::<3>(content)?;
    let (triggered_by, rest) = take_string_within(MAX_TRIGGERED_BY, rest)?;
    let (message, rest) = take_string_within(MAX_MESSAGE, rest)?;
    let payload = read_payload(rest)?;
    Ok(Reject {
        code,
        triggered_by,
        message,
        payload,
    })
}

// The data, the last field of each content.
#[inline(always)]
#[tactic(auto, unfolding(crate::specs::Reading::payload_in))]
fn read_payload(input: &[u8]) -> Result<&[u8], PacketFault>
    ensures { Gives (λ payload. payload.now) result (payload_in input.now) }
{
    let (payload, rest) = take_string_within(MAX_PAYLOAD, input)?;
    take_last(payload, rest)
}
