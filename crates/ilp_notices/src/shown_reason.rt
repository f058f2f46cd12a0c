//! Why a balance was corrected, as lines show it.

use crate::shown_key::{ShownKey, is_plain, put_hex};
use std::fmt;
use std::fmt::Display;

/// Why an operator corrected a balance, copied so that it can be shown when the book is free again. It is
/// shown in quotes where it is of blanks and visible ASCII without quotes, else in hexadecimal behind `0x`.
/// What is beyond 128 octets is left out; no reason is longer.
#[derive(Clone, Copy)]
pub struct ShownReason(ShownKey);

impl ShownReason {
    /// This reason.
    pub fn new(reason: &[u8]) -> ShownReason {
        ShownReason(ShownKey::new(reason))
    }
}

impl Display for ShownReason {
    fn fmt<W: fmt::Write>(&self, f: &mut fmt::Formatter<W>) -> fmt::Result {
        let shown = self.0.shown();
        match str::from_utf8(shown) {
            Ok(text) if shown.iter().all(|octet| *octet == b' ' || is_plain(*octet)) => {
                write!(f, "\"{text}\"")
            }
            _ => put_hex(f, shown),
        }
    }
}
