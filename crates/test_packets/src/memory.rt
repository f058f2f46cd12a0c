//! Packets told in words with growths that are denied.

use ilp_described::{describe_packet, reject_words};
use ilp_refusals::Refusal;
use std::alloc::Global;
use std::io;
use std::io::ErrorKind;
use std::rt::Runtime;
use test_allocator::DenyingAllocator;

// More growths than any of these calls makes.
const GROWTHS: u64 = 1_000;

// A Prepare of 100 to test.bob without data. It expires 30 seconds after 2025-01-01T00:00:00Z, and its
// condition is the SHA-256 digest of 32 zero octets (by Python's hashlib).
const PREPARE: &str =
    "0c430000000000000064323032353031303130303030333030303066687aadf862bd776c8fc18b8e9f8e20089714856ee233b3902a591d0d5f292508746573742e626f6200";

// A Fulfill of 32 zero octets with the data `0a`.
const FULFILL: &str = "0d220000000000000000000000000000000000000000000000000000000000000000010a";

// A Reject of the code T01 by test.hub, with the message `no` and the data `00ff`.
const REJECT: &str = "0e1254303108746573742e687562026e6f0200ff";

/// Tells packets with each growth denied in turn, and prints what was tried. What differs ends the program
/// as an error.
pub(crate) fn print_tried<R: Runtime + AllocGlobal>(rt: &R) -> io::Result<()> {
    for packet in [PREPARE, FULFILL, REJECT] {
        describe(rt.alloc(), packet)?;
    }
    words_of_a_reject(rt.alloc())?;
    println!(rt; "packets in words, each growth denied")
}

fn expect(is_so: bool) -> io::Result<()> {
    match is_so {
        true => Ok(()),
        false => Err(differs()),
    }
}

fn differs() -> io::Error {
    io::Error::from(ErrorKind::InvalidData)
}

// Describes a packet with each growth denied in turn.
fn describe(alloc: Global, packet: &str) -> io::Result<()> {
    for granted in 0..GROWTHS {
        let attempt = attempt_description(alloc, packet, granted);
        expect(attempt.refused == attempt.is_denied.then_some(Refusal::Memory))?;
        if !attempt.is_denied {
            return expect(granted > 1);
        }
    }
    Err(differs())
}

// A description of which one growth is denied: whether that was made, and why there is none.
#[derive(Clone, Copy)]
struct Described {
    is_denied: bool,
    refused: Option<Refusal>,
}

// Describes a packet. The growth behind as many as are granted is denied.
fn attempt_description(alloc: Global, packet: &str, granted: u64) -> Described {
    let heap = DenyingAllocator::after(alloc, granted);
    let refused = describe_packet(&heap, packet).err();
    Described {
        is_denied: heap.has_denied(),
        refused,
    }
}

// Tells what a Reject says as text with each growth denied in turn.
fn words_of_a_reject(alloc: Global) -> io::Result<()> {
    for granted in 0..GROWTHS {
        let spoken = attempt_words(alloc, granted);
        if !spoken.is_denied {
            expect(spoken.has_words == Some(true))?;
            return expect(granted > 1);
        }
        expect(spoken.has_words.is_none())?;
    }
    Err(differs())
}

// The words of a Reject of which one growth is denied: whether that was made, and whether there are words;
// `None` where memory was short.
#[derive(Clone, Copy)]
struct Spoken {
    is_denied: bool,
    has_words: Option<bool>,
}

// Tells them. The growth behind as many as are granted is denied.
fn attempt_words(alloc: Global, granted: u64) -> Spoken {
    let heap = DenyingAllocator::after(alloc, granted);
    let has_words = match reject_words(&heap, REJECT) {
        Ok(words) => Some(words.is_some()),
        Err(_) => None,
    };
    Spoken {
        is_denied: heap.has_denied(),
        has_words,
    }
}
