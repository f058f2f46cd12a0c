//! The packets of ILPv4 (RFC 0027).
ghost use Rattle.std.specs.Prelude.{◌≡◌, Some, IfOk, IfErr, IsOkAnd};
ghost use Rattle.ilp_packet.specs.Packet.{PlainPacket, plain, Spells};
ghost use Rattle.ilp_packet.specs.Reading.{Gives, reading, fault_of};

use crate::contents::{read_fulfill, read_prepare, read_reject};
use crate::fault::PacketFault;

/// The type octet of a Prepare.
pub(crate) const PREPARE: u8 = 12;

/// The type octet of a Fulfill.
pub(crate) const FULFILL: u8 = 13;

/// The type octet of a Reject.
pub(crate) const REJECT: u8 = 14;

/// A packet, whose fields are slices of the octets that it was read from.
#[derive(Clone, Copy, Debug, PartialEq, Eq)]
pub enum Packet<'a> {
    /// Asks for an amount to be passed on (type octet 12).
    Prepare(Prepare<'a>),
    /// Says that the receiver took it (type octet 13).
    Fulfill(Fulfill<'a>),
    /// Says that it was not passed on (type octet 14).
    Reject(Reject<'a>),
}

/// Asks for an amount to be passed on to a destination, until it expires.
#[derive(Clone, Copy, Debug, PartialEq, Eq)]
pub struct Prepare<'a> {
    /// In units of the sending account's asset, at its scale.
    pub amount: u64,
    /// In milliseconds since 1970-01-01, UTC.
    pub expires: i64,
    /// The SHA-256 digest of the fulfillment that is asked for.
    pub condition: &'a [u8; 32],
    /// An address (RFC 0015).
    pub destination: &'a [u8],
    /// The data for the receiver, at most 32,767 octets.
    pub payload: &'a [u8],
}

/// Says that the receiver took the amount.
#[derive(Clone, Copy, Debug, PartialEq, Eq)]
pub struct Fulfill<'a> {
    /// The fulfillment, whose SHA-256 digest is the Prepare's condition.
    pub preimage: &'a [u8; 32],
    /// The data for the sender, at most 32,767 octets.
    pub payload: &'a [u8],
}

/// Says that the amount was not passed on, and why.
#[derive(Clone, Copy, Debug, PartialEq, Eq)]
pub struct Reject<'a> {
    /// An error code (RFC 0027, "Error Codes"), any three octets.
    pub code: &'a [u8; 3],
    /// The address of whom the Reject is from, any octets, at most 1,023.
    pub triggered_by: &'a [u8],
    /// A text for people, any octets, at most 8,191.
    pub message: &'a [u8],
    /// The data for the sender, at most 32,767 octets.
    pub payload: &'a [u8],
}

impl<'a> Packet<'a> {
    /// Reads a packet, all of the input, in one pass and without memory (RFC 0027, "ILP Packets").
    /// The first fault from left to right is answered: of the type octet, of the octet string that
    /// is the content, `Trailing` after it, of each field in order, `Trailing` after the last.
    #[inline(always)]
    pub fn read(input: &'a [u8]) -> Result<Packet<'a>, PacketFault>
        // What is read is what the octets stand for, and no such octets are refused.
        ensures ok { IfOk result (λ packet. Spells input.now (plain packet)) }
        ensures every { (packet : PlainPacket) → Spells input.now packet
            → IsOkAnd result (λ found. plain found ≡ packet) }

        // A refusal is the first fault from left to right.
        ensures fault { IfErr result (λ fault. fault_of input.now ≡ Some fault) }
        ensures reading { Gives plain result (reading input.now) }
    {
        read_by_type(input)
    }
}

// Reads a packet by its type octet. It is inlined, since a packet that is passed on as one of three
// has zeros in the fields that it lacks.
#[inline(always)]
#[tactic(auto, unfolding(crate::specs::Reading::reading))]
fn read_by_type(input: &[u8]) -> Result<Packet<'_>, PacketFault>
    ensures { Gives plain result (reading input.now) }
{
    match input {
        [] => Err(PacketFault::Truncated),
        [PREPARE, rest @ ..] => Ok(Packet::Prepare(read_prepare(rest)?)),
        [FULFILL, rest @ ..] => Ok(Packet::Fulfill(read_fulfill(rest)?)),
        [REJECT, rest @ ..] => Ok(Packet::Reject(read_reject(rest)?)),
        [_, ..] => Err(PacketFault::UnknownType),
    }
}
