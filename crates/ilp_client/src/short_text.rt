//! A short text.
ghost use Rattle.std.specs.Prelude.{◌≡◌, ◌+◌, ◌≤◌, ◌++◌, length};
ghost use Rattle.ilp_client.specs.declared.short_text.TheConstants.{ROOM};

use std::marker::Model;

// The most octets.
const ROOM: usize = 64;

/// A text of at most 64 octets. It takes no memory of its own.
#[derive(Drop)]
pub struct ShortText {
    octets: [u8; ROOM],
    len: usize,
    ghost within: { len ≤ ROOM },
}

impl Model for ShortText {
    ghost use Rattle.std.specs.Prelude.{ℕ, List, take};

    ghost Value = { List ℕ };

    ghost view = { λ text. take text.len text.octets };
}

impl ShortText {
    /// The three texts, one after the other.
    pub(crate) fn joined(first: &[u8], second: &[u8], third: &[u8]) -> ShortText
        requires { length first.now + length second.now + length third.now ≤ ROOM }
        ensures { result ≡ first.now ++ (second.now ++ third.now) }
    {
        let mut text = ShortText {
            octets: [0; ROOM],
            len: 0,
        };
        text.add(first);
        text.add(second);
        text.add(third);
        text
    }

    // Adds a text for which there is room.
    fn add(&mut self, text: &[u8])
        requires { length self.old + length text.now ≤ ROOM }
        ensures { self.new ≡ self.old ++ text.now }
    {
        let end = self.len + text.len();
        self.octets[self.len..end].copy_from_slice(text);
        self.len = end;
    }

    /// The octets, in order.
    pub fn as_slice(&self) -> &[u8]
        ensures { result.now ≡ self.now }
    {
        &self.octets[..self.len]
    }
}
