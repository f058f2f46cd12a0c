//! One line of the text, field by field.
ghost use Rattle.std.specs.Prelude.{◌≡◌, ◌+◌, ◌*◌, ◌≤◌, ◌∷◌, ◌++◌, [], length};
ghost use Rattle.std.specs.Fmt.{decimal, signed_decimal};
ghost use Rattle.hex.specs.Hex.{IsBytes, encode_lower};
ghost use Rattle.ilp_journal_text.specs.Text.{after_space, first_line, end_line};

use arrayvec::ArrayVec;
use itoa::Buffer;
use std::marker::Model;

// No line is longer: key and reason of a correction have 256 digits each, and all else in a line fewer
// than 210 octets.
pub(crate) const LONGEST: usize = 768;

// The most octets of a number with the space before it.
const LONGEST_NUMBER: usize = 41;

// The most octets of a field that is written in hexadecimal digits.
const LONGEST_KEY: usize = 128;

/// A line, as far as its fields are written. It lies on the stack.
#[derive(Drop)]
pub struct Line {
    octets: ArrayVec<u8, LONGEST>,
}

impl Model for Line {
    ghost use Rattle.std.specs.Prelude.{ℕ, List};

    ghost Value = { List ℕ };

    ghost view = { λ line. line.octets.items };
}

impl Line {
    /// A line that begins with a moment.
    pub(crate) fn at(moment: i64) -> Line
        ensures octets { result ≡ signed_decimal moment }
        ensures short { length result ≤ 40 }
    {
        let mut line = Line {
            octets: ArrayVec::new(),
        };
        line.put(Buffer::new().format(moment).as_bytes());
        line
    }

    /// The first line of the text of a period.
    pub(crate) fn first(period: u32) -> Line
        ensures { result ≡ first_line period }
    {
        let mut line = Line {
            octets: ArrayVec::new(),
        };
        if period == 0 {
            line.put(b"ilp-journal 1\n");
        } else {
            line.put(b"ilp-journal");
            line.word("2");
            line.number(u64::from(period));
            line.end();
        }
        line
    }

    /// The last line of a text of so many entries.
    pub(crate) fn last(count: u64) -> Line
        ensures { result ≡ end_line count }
    {
        let mut line = Line {
            octets: ArrayVec::new(),
        };
        line.put(b"end");
        line.number(count);
        line.end();
        line
    }

    /// The octets.
    pub fn as_slice(&self) -> &[u8]
        ensures { result.now ≡ self.now }
    {
        self.octets.as_slice()
    }

    /// Adds a word.
    pub(crate) fn word(&mut self, word: &str)
        requires room { length self.old + length word.now + 1 ≤ LONGEST }
        ensures octets { self.new ≡ self.old ++ after_space word.now }
        ensures longer { length self.new ≡ length self.old + length word.now + 1 }
    {
        self.put(b" ");
        self.put(word.as_bytes());
    }

    /// Adds a number.
    pub(crate) fn number(&mut self, number: u64)
        requires room { length self.old + LONGEST_NUMBER ≤ LONGEST }
        ensures octets { self.new ≡ self.old ++ after_space (decimal number) }
        ensures longer { length self.new ≤ length self.old + LONGEST_NUMBER }
    {
        self.word(Buffer::new().format(number));
    }

    /// Adds the number of a quantity.
    pub(crate) fn wide_number(&mut self, number: u128)
        requires room { length self.old + LONGEST_NUMBER ≤ LONGEST }
        ensures octets { self.new ≡ self.old ++ after_space (decimal number) }
        ensures longer { length self.new ≤ length self.old + LONGEST_NUMBER }
    {
        self.word(Buffer::new().format(number));
    }

    /// Adds a moment, or another number that may lie below 0.
    pub(crate) fn signed_number(&mut self, number: i64)
        requires room { length self.old + LONGEST_NUMBER ≤ LONGEST }
        ensures octets { self.new ≡ self.old ++ after_space (signed_decimal number) }
        ensures longer { length self.new ≤ length self.old + LONGEST_NUMBER }
    {
        self.word(Buffer::new().format(number));
    }

    /// Adds octets as hexadecimal digits.
    pub(crate) fn hexadecimal(&mut self, octets: &[u8])
        requires few { length octets.now ≤ LONGEST_KEY }
        requires room { length self.old + 2 * length octets.now + 1 ≤ LONGEST }
        ensures octets { self.new ≡ self.old ++ after_space (encode_lower octets.now) }
        ensures longer { length self.new ≡ length self.old + 2 * length octets.now + 1 }
        ensures bytes { IsBytes octets.now }
    {
        let mut digits = [0; 2 * LONGEST_KEY];
        let digits = &mut digits[..2 * octets.len()];
        if hex::encode_to_slice(octets, digits).is_err() {
            unreachable!();
        }
        self.put(b" ");
        self.put(digits);
    }

    /// Ends the line.
    pub(crate) fn end(&mut self)
        requires room { length self.old + 1 ≤ LONGEST }
        ensures { self.new ≡ self.old ++ 10 ∷ [] }
    {
        self.put(b"\n");
    }

    // Adds octets.
    fn put(&mut self, octets: &[u8])
        requires room { length self.old + length octets.now ≤ LONGEST }
        ensures octets { self.new ≡ self.old ++ octets.now }
        ensures longer { length self.new ≡ length self.old + length octets.now }
    {
        if self.octets.try_extend_from_slice(octets).is_err() {
            unreachable!();
        }
    }
}
