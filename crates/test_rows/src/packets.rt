//! Packets in hexadecimal that end too soon, and texts that are addresses or not.

use ilp_packet::{Packet, PacketFault, is_address, is_scheme};
use std::rt::Runtime;
use std::{fs, io};

/// Prints of each packet how many of its prefixes end too soon, and then what each text is.
pub(crate) fn print_packets<R: Runtime + AllocGlobal>(rt: &R) -> io::Result<()> {
    print_cuts(rt)?;
    print_addresses(rt)
}

fn print_cuts<R: Runtime + AllocGlobal>(rt: &R) -> io::Result<()> {
    let rows = fs::read_to_string(rt, "packets/cuts.txt")?;
    for row in rows.lines() {
        match hex::decode(rt.alloc(), row) {
            Ok(octets) => print_fronts(rt, row, &octets)?,
            Err(_) => println!(rt; "row not understood: {row}")?,
        }
    }
    Ok(())
}

// Prints how many proper prefixes of a packet are refused as ones that end too soon.
fn print_fronts(rt: &impl Runtime, row: &str, octets: &[u8]) -> io::Result<()> {
    let mut truncated = 0usize;
    for length in 0..octets.len() {
        if matches!(Packet::read(&octets[..length]), Err(PacketFault::Truncated)) {
            truncated = truncated.saturating_add(1);
        }
    }
    let count = octets.len();
    println!(rt; "{row}: of {count} proper prefixes {truncated} are truncated")
}

fn print_addresses<R: Runtime + AllocGlobal>(rt: &R) -> io::Result<()> {
    let texts = fs::read_to_string(rt, "packets/addresses.txt")?;
    for text in texts.lines() {
        print_address(rt, text)?;
    }
    Ok(())
}

fn print_address(rt: &impl Print, text: &str) -> io::Result<()> {
    if is_address(text.as_bytes()) {
        println!(rt; "'{text}' is an address")
    } else if is_scheme(text.as_bytes()) {
        println!(rt; "'{text}' is a scheme")
    } else {
        println!(rt; "'{text}' is neither")
    }
}
