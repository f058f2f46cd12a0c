//! The key of a settlement, as lines show it.

use std::fmt;
use std::fmt::Display;

// The most octets of a key.
const LONGEST: usize = 128;

/// The key under which an engine told of a settlement, copied so that it can be shown when the book is
/// free again. It is shown in quotes where it is of visible ASCII without quotes, else in hexadecimal
/// behind `0x`. What is beyond 128 octets is left out; no key is longer.
#[derive(Clone, Copy)]
pub struct ShownKey {
    octets: [u8; LONGEST],
    len: usize,
}

impl ShownKey {
    /// This key.
    pub fn new(key: &[u8]) -> ShownKey {
        let mut octets = [0; LONGEST];
        for (place, octet) in octets.iter_mut().zip(key) {
            *place = *octet;
        }
        ShownKey {
            octets,
            len: key.len(),
        }
    }

    pub(crate) fn shown(&self) -> &[u8] {
        self.octets.get(..self.len).unwrap_or(&self.octets)
    }
}

impl Display for ShownKey {
    fn fmt<W: fmt::Write>(&self, f: &mut fmt::Formatter<W>) -> fmt::Result {
        let shown = self.shown();
        match str::from_utf8(shown) {
            Ok(text) if shown.iter().all(|octet| is_plain(*octet)) => write!(f, "\"{text}\""),
            _ => put_hex(f, shown),
        }
    }
}

/// Writes octets in hexadecimal behind `0x`.
pub(crate) fn put_hex<W: fmt::Write>(f: &mut fmt::Formatter<W>, octets: &[u8]) -> fmt::Result {
    f.write_str("0x")?;
    for octet in octets {
        write!(f, "{octet:02x}")?;
    }
    Ok(())
}

/// Whether an octet is visible ASCII, and no quote.
pub(crate) fn is_plain(octet: u8) -> bool {
    octet > b' ' && octet < 0x7f && octet != b'"'
}
