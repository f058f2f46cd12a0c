//! Whether a text is what would be written.
ghost use Rattle.std.specs.Prelude.{◌≡◌, ◌≤◌, [], ℕ, List, Some, length, take, true};

use crate::writing::Content;
use ilp_io::WriteFault;
use std::io;
use std::io::{ErrorKind, Write};
use std::marker::{Brand, PhantomData};

/// Whether this text is just what would be written of the content. It is not where a write of that fails.
pub fn has_text<C: Content>(content: &C, text: &[u8]) -> bool
    ensures { result ≡ true → C.text content.now ≡ text.now }
{
    is_text_of::<Brand, C>(content, text)
}

// The same of a text that has a name.
fn is_text_of<N: TextName, C: Content>(content: &C, text: &[u8]) -> bool
    requires { text.now ≡ N.text }
    ensures { result ≡ true → C.text content.now ≡ N.text }
{
    let mut compared = Compared::<N> {
        text,
        count: 0,
        of: PhantomData,
    };
    match content.put(&mut compared) {
        Ok(()) => compared.count == compared.text.len(),
        Err(WriteFault) => false,
    }
}

/// Whether what would be written of the content begins with this text.
pub fn begins_with<C: Content>(content: &C, text: &[u8]) -> bool {
    let mut compared = Beginning { left: text };
    content.put(&mut compared).is_ok() && compared.left.is_empty()
}

// What takes the octets that a text has, from its front on, and behind them all others.
#[derive(Drop)]
struct Beginning<'t> {
    left: &'t [u8],
}

impl Write for Beginning<'_> {
    fn write(&mut self, octets: &[u8]) -> io::Result<usize> {
        let count = octets.len().min(self.left.len());
        let (here, later) = self.left.split_at(count);
        if here != &octets[..count] {
            return Err(io::Error::from(ErrorKind::InvalidData));
        }
        self.left = later;
        Ok(octets.len())
    }

    fn flush(&mut self) -> io::Result<()> {
        Ok(())
    }
}

// The name of a text, for proofs alone.
trait TextName {
    ghost text: { List ℕ };
}

impl TextName for Brand {
    ghost text = { [] };
}

// What takes only the octets that a text has, from its front on.
#[derive(Drop)]
struct Compared<'t, N: TextName> {
    text: &'t [u8],
    // How many it has taken.
    count: usize,
    of: PhantomData<N>,
    ghost within: { count ≤ length text.now },
    ghost is: { text.now ≡ N.text },
}

impl<N: TextName> Write for Compared<'_, N> {
    ghost contents = { λ compared. Some (take compared.count N.text) };

    fn write(&mut self, octets: &[u8]) -> io::Result<usize> {
        if self.text[self.count..].starts_with(octets) {
            self.count += octets.len();
            Ok(octets.len())
        } else {
            Err(io::Error::from(ErrorKind::InvalidData))
        }
    }

    fn flush(&mut self) -> io::Result<()> {
        Ok(())
    }
}
