//! Packets in words, which rows have in the place of hexadecimal.
ghost use Rattle.std.specs.Prelude.{IfOk};
ghost use Rattle.ilp_terms.specs.Expiry.{IsMoment};

use crate::fault::RowFault;
use ilp_oer::Octets;
use ilp_packet::{
    Fulfill, Prepare, Reject, is_address, write_fulfill, write_prepare, write_reject,
};
use std::alloc::Global;

// The SHA-256 digest of 32 zero octets (by Python's hashlib).
const CONDITION: [u8; 32] = [
    0x66, 0x68, 0x7a, 0xad, 0xf8, 0x62, 0xbd, 0x77, 0x6c, 0x8f, 0xc1, 0x8b, 0x8e, 0x9f, 0x8e, 0x20,
    0x08, 0x97, 0x14, 0x85, 0x6e, 0xe2, 0x33, 0xb3, 0x90, 0x2a, 0x59, 0x1d, 0x0d, 0x5f, 0x29, 0x25,
];

// When a Prepare expires for which nothing else is said: 2025-01-01T00:00:30Z.
const EXPIRES: i64 = 1_735_689_630_000;

// 0000-01-01T00:00:00Z, and the last moment of the year 9999.
const FIRST_MOMENT: i64 = -62_167_219_200_000;

const LAST_MOMENT: i64 = 253_402_300_799_999;

/// The text with each packet in words, which stands in braces, as hexadecimal.
///
/// `{prepare AMOUNT ADDRESS}` and `{prepare AMOUNT ADDRESS until MILLISECONDS}` are Prepares without
/// data, whose condition is the digest of 32 zero octets. `{fulfill zeros}` and `{fulfill ones}`
/// are Fulfills of 32 octets `00` and `01`, and `{reject CODE}` is a Reject of which all else is
/// empty. A brace before other words stands for itself.
pub fn in_hexadecimal(alloc: Global, text: &str) -> Result<String, RowFault> {
    let mut written = String::new(alloc);
    for (place, part) in text.split("{").enumerate() {
        if place == 0 {
            written.push_str(part)?;
        } else {
            push_part(alloc, &mut written, part)?;
        }
    }
    Ok(written)
}

// Adds what stands behind a brace: the packet of the words up to the closing one, and what follows.
fn push_part(alloc: Global, written: &mut String, part: &str) -> Result<(), RowFault> {
    if !is_packet(part) {
        written.push_str("{")?;
        written.push_str(part)?;
        return Ok(());
    }
    let Some((words, after)) = part.split_once('}') else {
        return Err(RowFault::NotUnderstood);
    };
    push_packet(alloc, written, words)?;
    written.push_str(after)?;
    Ok(())
}

// Whether what stands behind a brace begins with the words of a packet.
fn is_packet(part: &str) -> bool {
    part.starts_with("prepare ") || part.starts_with("fulfill ") || part.starts_with("reject ")
}

fn push_packet(alloc: Global, written: &mut String, words: &str) -> Result<(), RowFault> {
    let mut octets = Octets::new(alloc);
    match words.split_once(' ') {
        Some(("prepare", words)) => put_prepare(&mut octets, words)?,
        Some(("fulfill", preimage)) => put_fulfill(&mut octets, preimage)?,
        Some(("reject", code)) => put_reject(&mut octets, code)?,
        _ => return Err(RowFault::NotUnderstood),
    }
    let digits = hex::encode(alloc, octets.as_slice())?;
    written.push_str(digits.as_str())?;
    Ok(())
}

fn put_prepare(octets: &mut Octets, words: &str) -> Result<(), RowFault> {
    let Some((amount, words)) = words.split_once(' ') else {
        return Err(RowFault::NotUnderstood);
    };
    let (destination, digits) = match words.split_once(" until ") {
        Some((destination, digits)) => (destination, Some(digits)),
        None => (words, None),
    };
    let Ok(amount) = amount.parse::<u64>() else {
        return Err(RowFault::NotUnderstood);
    };
    let expires = expiry(digits)?;
    if !is_address(destination.as_bytes()) {
        return Err(RowFault::NotUnderstood);
    }
    let prepare = Prepare {
        amount,
        expires,
        condition: &CONDITION,
        destination: destination.as_bytes(),
        payload: b"",
    };
    write_prepare(octets, &prepare)?;
    Ok(())
}

// The moment of these digits, in milliseconds since 1970, or the usual expiry.
fn expiry(digits: Option<&str>) -> Result<i64, RowFault>
    ensures { IfOk result IsMoment }
{
    let Some(digits) = digits else {
        return Ok(EXPIRES);
    };
    match digits.parse::<i64>() {
        Ok(moment) if (FIRST_MOMENT..=LAST_MOMENT).contains(&moment) => Ok(moment),
        _ => Err(RowFault::NotUnderstood),
    }
}

fn put_fulfill(octets: &mut Octets, preimage: &str) -> Result<(), RowFault> {
    let preimage = match preimage {
        "zeros" => [0; 32],
        "ones" => [1; 32],
        _ => return Err(RowFault::NotUnderstood),
    };
    let fulfill = Fulfill {
        preimage: &preimage,
        payload: b"",
    };
    write_fulfill(octets, &fulfill)?;
    Ok(())
}

fn put_reject(octets: &mut Octets, code: &str) -> Result<(), RowFault> {
    let &[first, second, third] = code.as_bytes() else {
        return Err(RowFault::NotUnderstood);
    };
    let reject = Reject {
        code: &[first, second, third],
        triggered_by: b"",
        message: b"",
        payload: b"",
    };
    write_reject(octets, &reject)?;
    Ok(())
}
