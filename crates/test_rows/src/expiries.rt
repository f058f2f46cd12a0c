//! Texts that are expiries, their moments, and what these are written as.

use ilp_terms::{expiry_read, expiry_write};
use std::rt::Files;
use std::{fs, io, str};

/// Prints the moment of each text, in milliseconds since 1970, and the expiry of that moment.
pub(crate) fn print_expiries<R: Files + Print + AllocGlobal>(rt: &R) -> io::Result<()> {
    let texts = fs::read_to_string(rt, "expiries/expiries.txt")?;
    for text in texts.lines() {
        print_expiry(rt, text)?;
    }
    Ok(())
}

fn print_expiry(rt: &impl Print, text: &str) -> io::Result<()> {
    let Ok(expiry) = <&[u8; 17]>::try_from(text.as_bytes()) else {
        return println!(rt; "row not understood: {text}");
    };
    match expiry_read(expiry) {
        Some(moment) => {
            let written = expiry_write(moment);
            let written = str::from_utf8(&written).unwrap_or("no text");
            println!(rt; "{text}: {moment}, written {written}")
        }
        None => println!(rt; "{text}: no expiry"),
    }
}
