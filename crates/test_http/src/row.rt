//! The octets of a row.

use percent_encoding::percent_decode;
use std::alloc::{AllocError, Global};

/// The octets that a row stands for: `%XX` is an octet, and `<N PART>` stands for N times the part.
pub(crate) fn octets_of(alloc: Global, row: &str) -> Result<Vec<u8>, AllocError> {
    let mut octets = Vec::new(alloc);
    for (place, text) in row.split('<').enumerate() {
        if place == 0 {
            percent_decode(text.as_bytes()).append_to(&mut octets)?;
        } else {
            push_repeated(&mut octets, text)?;
        }
    }
    Ok(octets)
}

// Adds what stands between `<` and `>`, and then the rest.
fn push_repeated(octets: &mut Vec<u8>, text: &str) -> Result<(), AllocError> {
    let (repeat, rest) = text.split_once('>').unwrap_or((text, ""));
    let (count, part) = repeat.split_once(' ').unwrap_or(("0", ""));
    for _time in 0..count.parse::<u32>().unwrap_or(0) {
        percent_decode(part.as_bytes()).append_to(octets)?;
    }
    percent_decode(rest.as_bytes()).append_to(octets)?;
    Ok(())
}

/// A size of pieces, from 4 to 100, that looks like any.
pub(crate) fn any_size(place: usize) -> usize {
    4 + place.wrapping_mul(2_654_435_761) % 97
}
