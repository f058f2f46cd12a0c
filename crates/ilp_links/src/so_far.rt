//! What has come so far of a response, as a source.

use ilp_http::{Buffer, read_response};
use std::io;
use std::io::Read;

/// Octets as a source, which tells whether it was asked for more.
#[derive(Drop)]
pub(crate) struct SoFar<'a> {
    rest: &'a [u8],
    wants_more: bool,
}

impl<'a> SoFar<'a> {
    /// These octets, which nobody has asked for yet.
    pub(crate) fn new(octets: &'a [u8]) -> SoFar<'a> {
        SoFar {
            rest: octets,
            wants_more: false,
        }
    }

    /// Whether it was asked for more than there is.
    pub(crate) fn wants_more(&self) -> bool {
        self.wants_more
    }
}

impl Read for SoFar<'_> {
    fn read(&mut self, buf: &mut [u8]) -> io::Result<usize> {
        if self.rest.is_empty() {
            self.wants_more = true;
            return Ok(0);
        }
        let count = self.rest.len().min(buf.len());
        let (now, later) = self.rest.split_at(count);
        buf[..count].copy_from_slice(now);
        self.rest = later;
        Ok(count)
    }
}

// How many octets of the same kind are given at once.
const FILLED: usize = 1_024;

// Octets as a source, and one octet behind them again and again.
#[derive(Drop)]
struct Filled<'a> {
    front: SoFar<'a>,
    filler: u8,
}

impl Read for Filled<'_> {
    fn read(&mut self, buf: &mut [u8]) -> io::Result<usize> {
        let count = self.front.read(buf)?;
        if count > 0 {
            return Ok(count);
        }
        let count = buf.len().min(FILLED);
        buf[..count].fill(self.filler);
        Ok(count)
    }
}

/// How many octets the body still lacks of a response that begins with these octets, where the head is
/// whole and says how long the body is.
///
/// It is read as it would be if nothing but one octet followed, other than the last that came: as many of
/// these as the body ends with then are lacking, whichever come in their place, since behind a whole head
/// nothing but the number of octets counts. That octet ends no line, so it makes no head whole that isn't.
pub(crate) fn lacking(came: &[u8], buffer: &mut Buffer) -> Option<usize> {
    let filler = match came.last() {
        Some(0) => 1,
        _ => 0,
    };
    let front = SoFar::new(came);
    let mut source = Filled { front, filler };
    let response = read_response(&mut source, buffer).ok()?;
    let own = response.body.iter().rposition(|octet| *octet != filler);
    let before = own.map_or(0, |place| place.saturating_add(1));
    Some(response.body.len().saturating_sub(before))
}

/// Whether a line among these octets is empty that ends with one of the last so many: so the head of a
/// response ends.
pub(crate) fn has_empty_line(came: &[u8], count: usize) -> bool {
    // An empty line begins behind a line feed, and is a line feed, or a carriage return before one.
    let before = came.len().saturating_sub(count.saturating_add(2));
    let (_, last) = came.split_at(before);
    last.windows(2).any(|octets| octets == b"\n\n".as_slice())
        || last.windows(3).any(|octets| octets == b"\n\r\n".as_slice())
}
