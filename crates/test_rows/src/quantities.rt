//! Quantities of settlements: which texts are some, and what they come to at another scale.

use ilp_oer::Octets;
use ilp_settlement::{Quantity, credited, print};
use std::rt::Files;
use std::{fs, io, str};

/// Prints what quantity each text is, and then what quantities come to at other scales, as JSON.
pub(crate) fn print_quantities<R: Files + Print + AllocGlobal>(rt: &R) -> io::Result<()> {
    print_texts(rt)?;
    let rows = fs::read_to_string(rt, "quantities/scales.txt")?;
    for row in rows.lines() {
        print_brought(rt, row)?;
    }
    Ok(())
}

fn print_texts<R: Files + Print + AllocGlobal>(rt: &R) -> io::Result<()> {
    let texts = fs::read_to_string(rt, "quantities/texts.txt")?;
    for text in texts.lines() {
        print_text(rt, text)?;
    }
    Ok(())
}

fn print_text<R: Print + AllocGlobal>(rt: &R, text: &str) -> io::Result<()> {
    match Quantity::read(rt.alloc(), text.as_bytes()) {
        Ok(Quantity { amount, scale }) => println!(rt; "{text}: {amount} at scale {scale}"),
        Err(fault) => println!(rt; "{text}: {fault}"),
    }
}

fn print_brought<R: Print + AllocGlobal>(rt: &R, row: &str) -> io::Result<()> {
    let Some((quantity, scale)) = read_row(row) else {
        return println!(rt; "row not understood: {row}");
    };
    match credited(&quantity, scale) {
        Ok(amount) => print_json(rt, row, amount, scale),
        Err(fault) => println!(rt; "{row}: {fault}"),
    }
}

// What a row has: an amount, its scale, and the scale that it is brought to.
fn read_row(row: &str) -> Option<(Quantity, u8)> {
    let mut words = row.split(' ');
    let quantity = Quantity {
        amount: words.next()?.parse::<u128>().ok()?,
        scale: words.next()?.parse::<u8>().ok()?,
    };
    Some((quantity, words.next()?.parse::<u8>().ok()?))
}

fn print_json<R: Print + AllocGlobal>(rt: &R, row: &str, amount: u64, scale: u8) -> io::Result<()> {
    let mut octets = Octets::new(rt.alloc());
    print(amount, scale, &mut octets)?;
    let json = str::from_utf8(octets.as_slice()).unwrap_or("no text");
    println!(rt; "{row}: {json}")
}
