//! Packets that are cut short or go on, as lines of a script.

use crate::configurations::configured;
use crate::scripts::print_replayed;
use ilp_accounts::Config;
use ilp_oer::{MAX_CONTENT, Octets, write_octets};
use std::alloc::{AllocError, Global};
use std::io;
use std::rt::Runtime;
use test_row_texts::in_hexadecimal;

/// Prints what is said of a line with a Prepare of which digits or octets of its content are
/// missing, or with an octet more.
pub(crate) fn print_cuts<R: Runtime + AllocGlobal>(rt: &R) -> io::Result<()> {
    let config = configured(rt, "scripts/two_peers.toml")?;
    print_over(rt, &config)
}

fn print_over<R: Runtime + AllocGlobal>(rt: &R, config: &Config) -> io::Result<()> {
    match in_hexadecimal(rt.alloc(), "{prepare 100 test.bob}") {
        Ok(packet) => {
            print_fronts(rt, config, packet.as_str())?;
            print_continued(rt, config, packet.as_str())?;
            print_contents(rt, config, packet.as_str())
        }
        Err(fault) => fault.print(rt, "a Prepare"),
    }
}

// What a line says that holds this packet.
fn print_hold<R: Runtime + AllocGlobal>(rt: &R, config: &Config, packet: &str) -> io::Result<()> {
    let script = format!(in rt.alloc(); "hold 1735689600000 alice {packet}\n")?;
    print_replayed(rt, config, script.as_str())
}

fn print_fronts<R: Runtime + AllocGlobal>(rt: &R, config: &Config, packet: &str) -> io::Result<()> {
    for digits in 0..=packet.len() {
        print!(rt; "the first {digits} digits of a Prepare: ")?;
        print_hold(rt, config, packet.get(..digits).unwrap_or("none"))?;
    }
    Ok(())
}

fn print_continued<R: Runtime + AllocGlobal>(
    rt: &R,
    config: &Config,
    packet: &str,
) -> io::Result<()> {
    for octet in 0..=u8::MAX {
        let continued = format!(in rt.alloc(); "{packet}{octet:02x}")?;
        print!(rt; "a Prepare and {octet:02x} after it: ")?;
        print_hold(rt, config, continued.as_str())?;
    }
    Ok(())
}

// What is said of a Prepare whose content ends early, or goes on by an octet: its length is that of
// what is there.
fn print_contents<R: Runtime + AllocGlobal>(
    rt: &R,
    config: &Config,
    packet: &str,
) -> io::Result<()> {
    let digits = format!(in rt.alloc(); "{packet}00")?;
    let content = content_of(rt.alloc(), digits.as_str())?;
    for front in 0..=content.len() {
        print!(rt; "the first {front} octets of the content of a Prepare and 00: ")?;
        let octets = content.get(..front).unwrap_or(&[]);
        let packet = packet_of(rt.alloc(), octets)?;
        print_hold(rt, config, packet.as_str())?;
    }
    Ok(())
}

// What a packet has after its type and a length of one octet.
fn content_of(alloc: Global, packet: &str) -> Result<Vec<u8>, AllocError> {
    match hex::decode(alloc, packet.get(4..).unwrap_or("")) {
        Ok(content) => Ok(content),
        Err(_) => Err(AllocError),
    }
}

// A packet of the type of a Prepare that has this content, in hexadecimal.
fn packet_of(alloc: Global, content: &[u8]) -> Result<String, AllocError> {
    let mut packet = Octets::new(alloc);
    packet.append(&[12])?;
    if content.len() <= MAX_CONTENT {
        write_octets(&mut packet, content)?;
    }
    hex::encode(alloc, packet.as_slice())
}
