//! Octet strings (RFC 0030, variable-length octet strings): the length of the content, told by the
//! shortest prefix, and then the content.
ghost use Rattle.std.specs.Prelude.{◌≡◌, ℕ, ◌+◌, ◌^◌, ◌<◌, ◌≤◌, List, ◌++◌, length, Some, IsOk, OnOk, OnErr, IfOk, IfErr, IsOkAnd};
ghost use Rattle.ilp_oer.specs.OctetString.{prefix, spelling, Splits, fault_of};

use crate::fault::OerFault;
use crate::octets::Octets;
use std::alloc::{AllocError, Allocator};

/// The most octets of a content, which is a limit of this project: RFC 0030 has none. A longer
/// content has no spelling here.
pub const MAX_CONTENT: usize = 65_535;

/// Reads the octet string at the front of the input: its content, and the rest of the input.
///
/// Only the shortest prefix of a length is read, and no length above `MAX_CONTENT`. The first of
/// these faults is answered: no octet at all is `Truncated`; a first octet of `0x80` is
/// `BadPrefix`; one above `0x82` is `TooLong`; a missing octet of the length is `Truncated`; a
/// longer prefix than the length needs is `BadPrefix`; fewer octets than the length is `Truncated`.
#[inline(always)]
pub fn read_octets(input: &[u8]) -> Result<(&[u8], &[u8]), OerFault>
    ensures ok { IfOk result (λ parts. Splits input.now parts.0.now parts.1.now) }
    ensures every { (content rest : List ℕ) → Splits input.now content rest
        → IsOkAnd result (λ parts. (parts.0.now ≡ content) × (parts.1.now ≡ rest)) }
    ensures fault { IfErr result (λ fault. fault_of input.now ≡ Some fault) }
{
    let (len, rest) = read_len(input)?;
    if rest.len() < len {
        return Err(OerFault::Truncated);
    }
    Ok(rest.split_at(len))
}

// The length at the front of the input, and the rest of the input.
#[inline(always)]
fn read_len(input: &[u8]) -> Result<(usize, &[u8]), OerFault>
    ensures within { IfOk result (λ parts. parts.0 ≤ MAX_CONTENT) }
    ensures ok { IfOk result (λ parts. input.now ≡ prefix parts.0 ++ parts.1.now) }
    ensures fault { IfErr result (λ fault. fault_of input.now ≡ Some fault) }
{
    match input {
        [] => Err(OerFault::Truncated),
        [first, rest @ ..] if *first < 0x80 => Ok((usize::from(*first), rest)),
        [0x80, ..] => Err(OerFault::BadPrefix),
        [0x81, low, rest @ ..] => {
            if *low < 0x80 {
                return Err(OerFault::BadPrefix);
            }
            Ok((usize::from(*low), rest))
        }
        [0x82, high, low, rest @ ..] => {
            if *high == 0 {
                return Err(OerFault::BadPrefix);
            }
            Ok((usize::from(*high) * 0x100 + usize::from(*low), rest))
        }
        [0x81 | 0x82, ..] => Err(OerFault::Truncated),
        _ => Err(OerFault::TooLong),
    }
}

/// Appends the octet string of the content, which has at most `MAX_CONTENT` octets.
///
/// It is refused only where room for it is missing and memory for that is denied. Then the list is
/// as before.
#[inline]
pub fn write_octets<A: Allocator>(out: &mut Octets<A>, content: &[u8]) -> Result<(), AllocError>
    requires { length content.now ≤ MAX_CONTENT }
    ensures ok { OnOk result (out.new.octets ≡ out.old.octets ++ spelling content.now) }

    // Enough room is used up octet by octet; a refusal leaves all as it was.
    ensures enough { length (spelling content.now) ≤ out.old.spare → IsOk result }
    ensures used { length (spelling content.now) ≤ out.old.spare
        → out.new.spare + length (spelling content.now) ≡ out.old.spare }
    ensures refused { OnErr result (out.old.spare < length (spelling content.now)) }
    ensures err { OnErr result (out.new ≡ out.old) }
{
    out.reserve(octets_len(content.len()))?;
    put_octets(out, content);
    Ok(())
}

/// Appends the octet string of the content, which has at most `MAX_CONTENT` octets, into room that
/// is there: it takes no memory and can't fail.
#[inline]
pub fn put_octets<A: Allocator>(out: &mut Octets<A>, content: &[u8])
    requires within { length content.now ≤ MAX_CONTENT }
    requires room { length (spelling content.now) ≤ out.old.spare }
    ensures octets { out.new.octets ≡ out.old.octets ++ spelling content.now }
    ensures used { out.new.spare + length (spelling content.now) ≡ out.old.spare }
{
    put_prefix(out, content.len());
    out.append_reserved(content);
}

/// Appends the prefix of an octet string whose content, of at most `MAX_CONTENT` octets, is to
/// follow, into room that is there: it takes no memory and can't fail.
#[inline]
pub fn put_prefix<A: Allocator>(out: &mut Octets<A>, len: usize)
    requires within { len ≤ MAX_CONTENT }
    requires room { length (prefix len) ≤ out.old.spare }
    ensures octets { out.new.octets ≡ out.old.octets ++ prefix len }
    ensures used { out.new.spare + length (prefix len) ≡ out.old.spare }
{
    let low = (len % 0x100) as u8;
    if len < 0x80 {
        out.append_reserved(&[low]);
    } else if len < 0x100 {
        out.append_reserved(&[0x81, low]);
    } else {
        out.append_reserved(&[0x82, (len / 0x100) as u8, low]);
    }
}

/// How many octets an octet string has, with its prefix, whose content has `len`, at most
/// `MAX_CONTENT`.
#[inline]
pub fn octets_len(len: usize) -> usize
    requires { len ≤ MAX_CONTENT }
    ensures { result ≡ length (prefix len) + len }
{
    match len {
        0..=0x7f => 1 + len,
        0x80..=0xff => 2 + len,
        _ => 3 + len,
    }
}
