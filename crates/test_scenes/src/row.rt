//! What the lines of a scene say.

use std::alloc::{AllocError, Global};
use std::io;

/// What stands behind this word, which begins a line.
pub(crate) fn said<'a>(lines: &'a str, word: &str) -> Option<&'a str> {
    for line in lines.lines() {
        if let Some(rest) = behind(line, word) {
            return Some(rest);
        }
    }
    None
}

// What stands behind this word, if it begins the line.
fn behind<'a>(line: &'a str, word: &str) -> Option<&'a str> {
    let (first, rest) = line.split_once(' ')?;
    if first == word { Some(rest) } else { None }
}

/// The text of the journal whose entries stand behind `journal`. `None` where there is no such line.
pub(crate) fn journal_text_of(alloc: Global, lines: &str) -> Result<Option<String>, AllocError> {
    let mut text = String::new(alloc);
    let mut count = 0u32;
    text.push_str("ilp-journal 1\n")?;
    for line in lines.lines() {
        if let Some(entry) = behind(line, "journal") {
            text.push_str(entry)?;
            text.push_str("\n")?;
            count = count.saturating_add(1);
        }
    }
    if count == 0 {
        return Ok(None);
    }
    let end = format!(in alloc; "end {count}\n")?;
    text.push_str(&end)?;
    Ok(Some(text))
}

/// The octets of hexadecimal digits, in which `<N DIGITS>` stands for N times the digits.
pub(crate) fn octets_of(alloc: Global, digits: &str) -> io::Result<Vec<u8>> {
    let written = written_out(alloc, digits)?;
    match hex::decode(alloc, written.as_str()) {
        Ok(octets) => Ok(octets),
        Err(_) => Err(io::Error::from(io::ErrorKind::InvalidData)),
    }
}

fn written_out(alloc: Global, digits: &str) -> Result<String, AllocError> {
    let mut written = String::new(alloc);
    for (place, part) in digits.split('<').enumerate() {
        if place == 0 {
            written.push_str(part)?;
        } else {
            push_repeated(&mut written, part)?;
        }
    }
    Ok(written)
}

// Adds what stands between `<` and `>`, and then the rest.
fn push_repeated(written: &mut String, part: &str) -> Result<(), AllocError> {
    let (repeat, rest) = part.split_once('>').unwrap_or((part, ""));
    let (count, digits) = repeat.split_once(' ').unwrap_or(("0", ""));
    for _time in 0..count.parse::<u32>().unwrap_or(0) {
        written.push_str(digits)?;
    }
    written.push_str(rest)?;
    Ok(())
}

/// Two moments, in milliseconds since 1970.
pub(crate) fn moments_of(text: &str) -> Option<(i64, i64)> {
    let (first, second) = text.split_once(' ')?;
    let first = first.parse::<i64>().ok()?;
    let second = second.parse::<i64>().ok()?;
    Some((first, second))
}

/// The hexadecimal digits of octets. Of more than 128, an octet that stands N times in a row, 9 or
/// more, is written `<N DIGITS>`.
pub(crate) fn digits_of(alloc: Global, octets: &[u8]) -> Result<String, AllocError> {
    if octets.len() <= 128 {
        return hex::encode(alloc, octets);
    }
    let mut digits = String::new(alloc);
    let mut count = 0u32;
    for (place, octet) in octets.iter().enumerate() {
        count = count.saturating_add(1);
        if octets.get(place.saturating_add(1)) != Some(octet) {
            push_run(alloc, &mut digits, *octet, count)?;
            count = 0;
        }
    }
    Ok(digits)
}

// Adds an octet that stands so often.
fn push_run(alloc: Global, digits: &mut String, octet: u8, count: u32) -> Result<(), AllocError> {
    let one = hex::encode(alloc, [octet].as_slice())?;
    if count >= 9 {
        let run = format!(in alloc; "<{count} {one}>")?;
        return digits.push_str(&run);
    }
    for _time in 0..count {
        digits.push_str(&one)?;
    }
    Ok(())
}
