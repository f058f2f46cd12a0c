//! Packets as octets (RFC 0027): the type octet, and then the fields in order as one octet string.
ghost use Rattle.std.specs.Prelude.{◌≡◌, ℕ, ◌+◌, ◌<◌, ◌≤◌, List, [], ◌∷◌, ◌++◌, length, IsOk, OnOk, OnErr};
ghost use Rattle.ilp_oer.specs.OctetString as oer;
ghost use Rattle.ilp_packet.specs.Packet.{plain_prepare, plain_fulfill, plain_reject, prepare, fulfill, reject, content, IsPrepare, IsFulfill, IsReject};
ghost use Rattle.ilp_packet.specs.Writing.{size, Writes};

use crate::packet::{FULFILL, Fulfill, PREPARE, Prepare, REJECT, Reject};
use ilp_oer::{MAX_CONTENT, Octets, octets_len, put_octets, put_prefix};
use ilp_terms::expiry_write;
use std::alloc::{AllocError, Allocator};

// How many octets a Prepare's amount, expiry and condition have.
const PREPARE_FIXED: usize = 8 + 17 + 32;
// How many octets a Fulfill's fulfillment has.
const FULFILL_FIXED: usize = 32;
// How many octets a Reject's code has.
const REJECT_FIXED: usize = 3;

/// Appends the octets of a Prepare (RFC 0027), whose fields are within their limits: it expires in
/// the years 0 to 9999, its destination is an address (RFC 0015), and its data has at most 32,767
/// octets.
///
/// It is refused only where room is missing and memory for it is denied. Then the list is as
/// before.
pub fn write_prepare<A: Allocator>(
    out: &mut Octets<A>,
    packet: &Prepare<'_>,
) -> Result<(), AllocError>
    requires { IsPrepare (plain_prepare packet.now) }
    ensures { Writes (prepare (plain_prepare packet.now)) out.old out.new result }
{
    let expiry = expiry_write(packet.expires);
    begin(out, PREPARE, prepare_len(packet))?;
    put_prepare(out, packet, &expiry);
    Ok(())
}

// How many octets the content of a Prepare has.
fn prepare_len(packet: &Prepare<'_>) -> usize
    requires { IsPrepare (plain_prepare packet.now) }
    ensures within { result ≤ MAX_CONTENT }
    ensures len { (expiry : List ℕ) → length expiry ≡ 17
        → result ≡ length (content expiry (prepare (plain_prepare packet.now))) }
    ensures size { size (prepare (plain_prepare packet.now))
        ≡ 1 + (length (oer.prefix result) + result) }
{
    PREPARE_FIXED + octets_len(packet.destination.len()) + octets_len(packet.payload.len())
}

// Appends the content of a Prepare into room that is there.
fn put_prepare<A: Allocator>(out: &mut Octets<A>, packet: &Prepare<'_>, expiry: &[u8; 17])
    requires within { IsPrepare (plain_prepare packet.now) }
    requires room { length (content expiry.now (prepare (plain_prepare packet.now))) ≤ out.old.spare }
    ensures octets { out.new.octets
        ≡ out.old.octets ++ content expiry.now (prepare (plain_prepare packet.now)) }
    ensures used { out.new.spare + length (content expiry.now (prepare (plain_prepare packet.now)))
        ≡ out.old.spare }
{
    let condition = packet.condition;
    out.append_reserved(&packet.amount.to_be_bytes());
    out.append_reserved(expiry);
    out.append_reserved(condition);
    put_octets(out, packet.destination);
    put_octets(out, packet.payload);
}

/// Appends the octets of a Fulfill (RFC 0027), whose data has at most 32,767 octets.
///
/// It is refused only where room is missing and memory for it is denied. Then the list is as
/// before.
pub fn write_fulfill<A: Allocator>(
    out: &mut Octets<A>,
    packet: &Fulfill<'_>,
) -> Result<(), AllocError>
    requires { IsFulfill (plain_fulfill packet.now) }
    ensures { Writes (fulfill (plain_fulfill packet.now)) out.old out.new result }
{
    begin(out, FULFILL, fulfill_len(packet))?;
    put_fulfill(out, packet);
    Ok(())
}

// How many octets the content of a Fulfill has.
fn fulfill_len(packet: &Fulfill<'_>) -> usize
    requires { IsFulfill (plain_fulfill packet.now) }
    ensures within { result ≤ MAX_CONTENT }
    ensures len { result ≡ length (content [] (fulfill (plain_fulfill packet.now))) }
    ensures size { size (fulfill (plain_fulfill packet.now))
        ≡ 1 + (length (oer.prefix result) + result) }
{
    FULFILL_FIXED + octets_len(packet.payload.len())
}

// Appends the content of a Fulfill into room that is there.
fn put_fulfill<A: Allocator>(out: &mut Octets<A>, packet: &Fulfill<'_>)
    requires within { IsFulfill (plain_fulfill packet.now) }
    requires room { length (content [] (fulfill (plain_fulfill packet.now))) ≤ out.old.spare }
    ensures octets { out.new.octets
        ≡ out.old.octets ++ content [] (fulfill (plain_fulfill packet.now)) }
    ensures used { out.new.spare + length (content [] (fulfill (plain_fulfill packet.now)))
        ≡ out.old.spare }
{
    let preimage = packet.preimage;
    out.append_reserved(preimage);
    put_octets(out, packet.payload);
}

/// Appends the octets of a Reject (RFC 0027). The address that triggered it has at most 1,023
/// octets, its message 8,191 and its data 32,767. All of them, and the code, may be any octets.
///
/// It is refused only where room is missing and memory for it is denied. Then the list is as
/// before.
pub fn write_reject<A: Allocator>(
    out: &mut Octets<A>,
    packet: &Reject<'_>,
) -> Result<(), AllocError>
    requires { IsReject (plain_reject packet.now) }
    ensures { Writes (reject (plain_reject packet.now)) out.old out.new result }
{
    begin(out, REJECT, reject_len(packet))?;
    put_reject(out, packet);
    Ok(())
}

// How many octets the content of a Reject has.
fn reject_len(packet: &Reject<'_>) -> usize
    requires { IsReject (plain_reject packet.now) }
    ensures within { result ≤ MAX_CONTENT }
    ensures len { result ≡ length (content [] (reject (plain_reject packet.now))) }
    ensures size { size (reject (plain_reject packet.now))
        ≡ 1 + (length (oer.prefix result) + result) }
{
    let texts = octets_len(packet.triggered_by.len()) + octets_len(packet.message.len());
    REJECT_FIXED + texts + octets_len(packet.payload.len())
}

// Appends the content of a Reject into room that is there.
fn put_reject<A: Allocator>(out: &mut Octets<A>, packet: &Reject<'_>)
    requires within { IsReject (plain_reject packet.now) }
    requires room { length (content [] (reject (plain_reject packet.now))) ≤ out.old.spare }
    ensures octets { out.new.octets
        ≡ out.old.octets ++ content [] (reject (plain_reject packet.now)) }
    ensures used { out.new.spare + length (content [] (reject (plain_reject packet.now)))
        ≡ out.old.spare }
{
    let code = packet.code;
    out.append_reserved(code);
    put_octets(out, packet.triggered_by);
    put_octets(out, packet.message);
    put_octets(out, packet.payload);
}

// Makes room for a whole packet, and appends the type octet and the prefix of the content.
#[inline]
fn begin<A: Allocator>(out: &mut Octets<A>, number: u8, content: usize) -> Result<(), AllocError>
    requires { content ≤ MAX_CONTENT }
    ensures ok { OnOk result (out.new.octets ≡ out.old.octets ++ (number ∷ oer.prefix content)) }
    ensures room { OnOk result (content ≤ out.new.spare) }
    ensures enough { 1 + (length (oer.prefix content) + content) ≤ out.old.spare → IsOk result }
    ensures used { 1 + (length (oer.prefix content) + content) ≤ out.old.spare
        → out.new.spare + (1 + length (oer.prefix content)) ≡ out.old.spare }
    ensures refused { OnErr result (out.old.spare < 1 + (length (oer.prefix content) + content)) }
    ensures err { OnErr result (out.new ≡ out.old) }
{
    out.reserve(1 + octets_len(content))?;
    out.append_reserved(&[number]);
    put_prefix(out, content);
    Ok(())
}
