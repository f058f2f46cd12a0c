//! A packet as a line of text, for people.
ghost use Rattle.std.specs.Prelude.{◌≡◌, ◌⊎◌, Ok, Err, IfOk, IfErr, option_map, string_bytes};
ghost use Rattle.ilp_packet.specs.Packet.{plain, plain_prepare, plain_fulfill, plain_reject, prepare, fulfill, reject, IsPrepare, IsWithin};
ghost use Rattle.ilp_packet.specs.Address.{IsAddress};
ghost use Rattle.ilp_packet.specs.Reading.{reading};
ghost use Rattle.ilp_described.specs.PacketText.{hex_text, packet_text, read_text, description, spoken, words_of, reject_words};

use crate::text::{decode, is_printable};
use ilp_packet::{Fulfill, Packet, Prepare, Reject};
use ilp_refusals::Refusal;
use std::alloc::{AllocError, Allocator};
use std::str;

/// What a packet in hexadecimal says, as one line without its end.
///
/// The text is refused as `BadHex` where it is no even number of hexadecimal digits, and else by
/// the first fault of its octets where they are no packet (RFC 0027). `Memory` comes only where a
/// growth of memory was denied.
#[tactic(auto, unfolding(crate::specs::PacketText::description))]
pub fn describe_packet<A: Allocator + Copy>(alloc: A, text: &str) -> Result<String<A>, Refusal>
    ensures line { IfOk result (λ line. description text.now ≡ Ok (string_bytes line)) }
    ensures refused { IfErr result (λ refusal.
        (description text.now ≡ Err refusal) ⊎ (refusal ≡ Refusal.Memory)) }
{
    match decode(alloc, text.as_bytes()) {
        Ok(Some(octets)) => describe_octets(alloc, &octets),
        Ok(None) => Err(Refusal::BadHex),
        Err(AllocError) => Err(Refusal::Memory),
    }
}

// What the octets of a packet say.
fn describe_octets<A: Allocator + Copy>(alloc: A, octets: &[u8]) -> Result<String<A>, Refusal>
    ensures line { IfOk result (λ line.
        read_text (reading octets.now) ≡ Ok (string_bytes line)) }
    ensures refused { IfErr result (λ refusal.
        (read_text (reading octets.now) ≡ Err refusal) ⊎ (refusal ≡ Refusal.Memory)) }
{
    let packet = match Packet::read(octets) {
        Ok(packet) => packet,
        Err(fault) => return Err(Refusal::from(fault)),
    };
    match packet_line(alloc, &packet) {
        Ok(line) => Ok(line),
        Err(AllocError) => Err(Refusal::Memory),
    }
}

// The kind of a packet, and its fields in order.
fn packet_line<A: Allocator + Copy>(alloc: A, packet: &Packet<'_>) -> Result<String<A>, AllocError>
    requires { IsWithin (plain packet.now) }
    ensures { IfOk result (λ line. string_bytes line ≡ packet_text (plain packet.now)) }
{
    match packet {
        Packet::Prepare(prepare) => prepare_line(alloc, prepare),
        Packet::Fulfill(fulfill) => fulfill_line(alloc, fulfill),
        Packet::Reject(reject) => reject_line(alloc, reject),
    }
}

// The fields of a Prepare.
fn prepare_line<A: Allocator + Copy>(
    alloc: A,
    packet: &Prepare<'_>,
) -> Result<String<A>, AllocError>
    requires { IsPrepare (plain_prepare packet.now) }
    ensures { IfOk result (λ line.
        string_bytes line ≡ packet_text (prepare (plain_prepare packet.now))) }
{
    let amount = packet.amount;
    let expires = packet.expires;
    let condition = packet.condition;
    let condition = hex_or_dash(alloc, condition)?;
    let address = address_text(packet.destination);
    let data = hex_or_dash(alloc, packet.payload)?;
    format!(in alloc;
        "prepare amount {amount} expires {expires} condition {condition} to {address} data {data}"
    )
}

// An address as text.
fn address_text(address: &[u8]) -> &str
    requires { IsAddress address.now }
    ensures { result.now ≡ address.now }
{
    match str::from_utf8(address) {
        Ok(text) => text,
        Err(_) => unreachable!(),
    }
}

// The fields of a Fulfill.
fn fulfill_line<A: Allocator + Copy>(
    alloc: A,
    packet: &Fulfill<'_>,
) -> Result<String<A>, AllocError>
    ensures { IfOk result (λ line.
        string_bytes line ≡ packet_text (fulfill (plain_fulfill packet.now))) }
{
    let preimage = packet.preimage;
    let preimage = hex_or_dash(alloc, preimage)?;
    let data = hex_or_dash(alloc, packet.payload)?;
    format!(in alloc; "fulfill preimage {preimage} data {data}")
}

// The fields of a Reject.
fn reject_line<A: Allocator + Copy>(alloc: A, packet: &Reject<'_>) -> Result<String<A>, AllocError>
    ensures { IfOk result (λ line.
        string_bytes line ≡ packet_text (reject (plain_reject packet.now))) }
{
    let code = packet.code;
    let code = hex_or_dash(alloc, code)?;
    let by = hex_or_dash(alloc, packet.triggered_by)?;
    let message = hex_or_dash(alloc, packet.message)?;
    let data = hex_or_dash(alloc, packet.payload)?;
    format!(in alloc; "reject code {code} by {by} message {message} data {data}")
}

// Octets in hexadecimal, `-` where there are none.
fn hex_or_dash<A: Allocator + Copy>(alloc: A, octets: &[u8]) -> Result<String<A>, AllocError>
    ensures { IfOk result (λ text. string_bytes text ≡ hex_text octets.now) }
{
    if octets.is_empty() {
        return String::from_str(alloc, "-");
    }
    hex::encode(alloc, octets)
}

/// What the code and the message of a Reject in hexadecimal say (RFC 0027), as one line without its end,
/// where they are text. None of any other packet, and of what is none. `AllocError` tells that memory is
/// short.
#[tactic(auto, unfolding(crate::specs::PacketText::reject_words))]
pub fn reject_words<A: Allocator + Copy>(
    alloc: A,
    text: &str,
) -> Result<Option<String<A>>, AllocError>
    ensures { IfOk result (λ words. option_map string_bytes words ≡ reject_words text.now) }
{
    match decode(alloc, text.as_bytes())? {
        Some(octets) => words_of(alloc, &octets),
        None => Ok(None),
    }
}

// The same of a packet's octets.
fn words_of<A: Allocator + Copy>(alloc: A, octets: &[u8]) -> Result<Option<String<A>>, AllocError>
    ensures { IfOk result (λ words. option_map string_bytes words ≡ words_of (reading octets.now)) }
{
    let Ok(Packet::Reject(packet)) = Packet::read(octets) else {
        return Ok(None);
    };
    let code = packet.code;
    let message = packet.message;
    let code = spoken(alloc, code)?;
    let message = spoken(alloc, message)?;
    Ok(Some(format!(in alloc; "code {code}, message {message}")?))
}

// Octets in quotes where they are text.
fn spoken<A: Allocator + Copy>(alloc: A, octets: &[u8]) -> Result<String<A>, AllocError>
    ensures { IfOk result (λ text. string_bytes text ≡ spoken octets.now) }
{
    if !is_printable(octets) {
        return String::from_str(alloc, "no text");
    }
    match str::from_utf8(octets) {
        Ok(text) => format!(in alloc; "\"{text}\""),
        Err(_) => unreachable!(),
    }
}
