//! Packets in hexadecimal, told in words, and written again.

use ilp_described::{describe_packet, reject_words};
use ilp_oer::Octets;
use ilp_packet::{Packet, write_fulfill, write_prepare, write_reject};
use std::alloc::{AllocError, Global};
use std::rt::Runtime;
use std::{fs, io};
use test_row_texts::push_repeated;

// What stands before a packet that is written.
const BEFORE: &[u8] = b"before";

/// Prints what each row says, or why it is no packet, and then what Rejects say as text.
pub(crate) fn print_packets<R: Runtime + AllocGlobal>(rt: &R) -> io::Result<()> {
    print_rows(rt, "packets/packets.txt")?;
    print_rows(rt, "packets/vectors.txt")?;
    print_words(rt)
}

fn print_rows<R: Runtime + AllocGlobal>(rt: &R, path: &str) -> io::Result<()> {
    let rows = fs::read_to_string(rt, path)?;
    for row in rows.lines() {
        print_row(rt, row)?;
    }
    Ok(())
}

fn print_row<R: Runtime + AllocGlobal>(rt: &R, row: &str) -> io::Result<()> {
    let Some((before, rest)) = row.split_once('<') else {
        return print_packet(rt, row, None);
    };
    let (words, after) = rest.split_once('>').unwrap_or((rest, ""));
    let mut part = String::new(rt.alloc());
    match push_repeated(rt.alloc(), &mut part, words) {
        Ok(()) => {
            let digits = format!(in rt.alloc(); "{before}{part}{after}")?;
            print_packet(rt, digits.as_str(), Some((part.as_str(), words)))
        }
        Err(fault) => fault.print(rt, row),
    }
}

// Prints what the packet of these digits says, with words in the place of a long part.
fn print_packet<R: Runtime + AllocGlobal>(
    rt: &R,
    digits: &str,
    long: Option<(&str, &str)>,
) -> io::Result<()> {
    match describe_packet(rt.alloc(), digits) {
        Ok(told) => {
            print_told(rt, told.as_str(), long)?;
            print_written(rt, digits)
        }
        Err(refusal) => println!(rt; "refused {refusal}"),
    }
}

fn print_told(rt: &impl Print, told: &str, long: Option<(&str, &str)>) -> io::Result<()> {
    if let Some((part, words)) = long
        && let Some((before, after)) = told.split_once(part)
    {
        return println!(rt; "{before}<{words}>{after}");
    }
    println!(rt; "{told}")
}

// Prints what the packet of these digits is written as, unless that is these digits, in either case.
fn print_written<R: Runtime + AllocGlobal>(rt: &R, digits: &str) -> io::Result<()> {
    let Ok(octets) = hex::decode(rt.alloc(), digits) else {
        return Ok(());
    };
    let mut out = Octets::new(rt.alloc());
    out.append(BEFORE)?;
    write_again(&mut out, &octets)?;
    if out.as_slice().strip_prefix(BEFORE) == Some(octets.as_slice()) {
        return Ok(());
    }
    let written = hex::encode(rt.alloc(), out.as_slice())?;
    println!(rt; "written as {written}")
}

// Writes the packet that octets stand for.
fn write_again(out: &mut Octets, octets: &[u8]) -> Result<(), AllocError> {
    match Packet::read(octets) {
        Ok(Packet::Prepare(prepare)) => write_prepare(out, &prepare),
        Ok(Packet::Fulfill(fulfill)) => write_fulfill(out, &fulfill),
        Ok(Packet::Reject(reject)) => write_reject(out, &reject),
        Err(_) => Ok(()),
    }
}

// Prints what code and message of each packet say, if it is a Reject.
fn print_words<R: Runtime + AllocGlobal>(rt: &R) -> io::Result<()> {
    let rows = fs::read_to_string(rt, "packets/words.txt")?;
    for row in rows.lines() {
        match reject_words(rt.alloc(), row)? {
            Some(words) => println!(rt; "{words}")?,
            None => println!(rt; "no words")?,
        }
    }
    Ok(())
}
