//! What is printed of desks, and of responses.

use crate::peers::{ALICE, BOB};
use crate::row::digits_of;
use ilp_book::Book;
use ilp_desk::{Naming, Record, Share};
use ilp_journal::{Entry, What};
use std::alloc::Global;
use std::{io, str};

/// Prints octets as hexadecimal digits behind what they are, as `digits_of` writes them.
pub(crate) fn print_octets(
    rt: &impl Print,
    alloc: Global,
    what: &str,
    octets: &[u8],
) -> io::Result<()> {
    let digits = digits_of(alloc, octets)?;
    println!(rt; "{what}: {digits}")
}

/// Prints what an actor booked, and what it kept of it.
pub(crate) fn print_actor<J: Naming>(
    rt: &impl Print,
    share: &Share<J>,
    records: &[Record],
) -> io::Result<()> {
    println!(rt; "actor {}: {} entries", share.actor(), share.entries())?;
    for record in records {
        println!(rt; "{record:?}")?;
    }
    Ok(())
}

/// Prints a book.
pub(crate) fn print_book(rt: &impl Print, book: &Book) -> io::Result<()> {
    for number in 0..book.len() {
        if let Some(entry) = book.entry(number) {
            println!(rt; "entry {number} of {} at {}", entry.actor, entry.moment)?;
            print_what(rt, entry)?;
        }
    }
    println!(rt; "balances {} {}", book.balance(ALICE), book.balance(BOB))
}

fn print_what(rt: &impl Print, entry: &Entry) -> io::Result<()> {
    match &entry.what {
        What::Hold(hold) => println!(rt; "{hold:?}"),
        What::Fulfilled { hold, preimage } => println!(rt; "fulfilled {hold} by {preimage:?}"),
        What::Released { hold, cause } => println!(rt; "released {hold}: {cause:?}"),
        What::Credited(credit) => println!(rt; "credited {} to {}", credit.credited, credit.peer),
        What::Asked(ask) => println!(rt; "{ask:?}"),
        What::Confirmed { ask } => println!(rt; "confirmed {ask}"),
        What::Undone { ask } => println!(rt; "undone {ask}"),
        What::Opened { peer, balance } => println!(rt; "opened {balance} of {peer}"),
        What::Known(credit) => println!(rt; "known {} of {}", credit.credited, credit.peer),
        What::Pending { peer, amount, .. } => println!(rt; "pending {amount} to {peer}"),
    }
}

/// Prints the lines of a response's head with their ends, and then the body: a report as lines too.
pub(crate) fn print_response(rt: &impl Print, alloc: Global, octets: &[u8]) -> io::Result<()> {
    let (head, body) = octets
        .split_at_checked(head_length(octets))
        .unwrap_or((octets, b""));
    print_lines(rt, head)?;
    if body.starts_with(b"balance ") {
        print_lines(rt, body)
    } else if body.starts_with(b"{") {
        println!(rt; "body: {}", str::from_utf8(body).unwrap_or("no text"))
    } else {
        print_octets(rt, alloc, "body", body)
    }
}

// Prints lines with their ends.
fn print_lines(rt: &impl Print, octets: &[u8]) -> io::Result<()> {
    let text = str::from_utf8(octets).unwrap_or("no text");
    for line in text.split_inclusive('\n') {
        println!(rt; "{line:?}")?;
    }
    Ok(())
}

// How many octets there are up to the first empty line, and with it.
fn head_length(octets: &[u8]) -> usize {
    for length in 0..octets.len() {
        if octets[..length].ends_with(b"\r\n\r\n") {
            return length;
        }
    }
    octets.len()
}
