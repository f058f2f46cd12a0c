//! What is looked for in a statement.
ghost use Rattle.std.specs.Prelude.{◌≡◌, length, map, take, bytes_eq};
ghost use Rattle.std.specs.Char.{to_ascii_lowercase};
ghost use Rattle.ilp_statement_text.specs.Sought.{begins_with, condition_in, is_listed, is_sought, key_in};

use crate::row::{About, Row};
use ilp_book::Book;
use ilp_statement::Line;

/// Which rows are looked for: those of a packet whose condition begins with these hexadecimal digits, of either
/// case, and those of a settlement or a correction under a key of just these octets. All where neither is given.
#[derive(Clone, Copy, Debug)]
pub struct Sought<'w> {
    pub packet: Option<&'w [u8]>,
    pub key: Option<&'w [u8]>,
}

impl Sought<'_> {
    /// Whether a row is looked for.
    pub fn is(&self, row: &Row<'_>) -> bool
        ensures { result ≡ is_sought self.now (condition_in row.now.about) (key_in row.now.about) }
    {
        match (row.about, self.packet, self.key) {
            (_, None, None) => true,
            (About::Packet { condition, .. }, Some(digits), _) => begins_with(&condition, digits),
            (About::Settlement { key, .. } | About::Correction { key, .. }, _, Some(octets)) => {
                key.is(octets)
            }
            _ => false,
        }
    }

    /// Whether a line of a peer's statement is looked for. One whose entry isn't the peer's is not.
    pub(crate) fn lists(&self, book: &Book, peer: u32, line: Line) -> bool
        ensures { result ≡ is_listed book.now peer self.now line.number }
    {
        match Row::of(book, peer, line) {
            Some(row) => self.is(&row),
            None => false,
        }
    }
}

// Whether the hexadecimal digits of these octets begin with some.
fn begins_with(octets: &[u8; 32], digits: &[u8]) -> bool
    ensures { result ≡ begins_with octets.now digits.now }
{
    let mut spelled = [0; 64];
    match hex::encode_to_slice(octets.as_slice(), &mut spelled) {
        Ok(()) => is_front(digits, &spelled),
        Err(_) => unreachable!(),
    }
}

// Whether digits are the first of others, whatever their case.
fn is_front(digits: &[u8], of: &[u8]) -> bool
    ensures { result ≡ bytes_eq (map to_ascii_lowercase (take (length digits.now) of.now))
        (map to_ascii_lowercase digits.now) }
{
    let count = digits.len().min(of.len());
    of[..count].eq_ignore_ascii_case(digits)
}
