//! The key of a settlement.
ghost use Rattle.std.specs.Prelude.{◌≡◌, ◌≢◌, ◌↔◌, ℕ, List, ◌++◌, codes, bytes_eq, IsTrue, MatchOption};
ghost use Rattle.std.specs.Fmt.{decimal};
ghost use Rattle.ilp_rules.specs.Heads.{period_mark};
ghost use Rattle.ilp_rules.specs.SettlementKeys.{settlement_key_at};
ghost use Rattle.ilp_statement_text.specs.Keys.{octets_of};

use ilp_book::Book;
use itoa::Buffer;
use std::fmt;
use std::fmt::Display;

/// The key under which a settlement is known to the peer's engine.
#[derive(Clone, Copy, Debug)]
pub enum SettlementKey<'b> {
    /// The engine's own, or the one that it had in an earlier period.
    Given(&'b [u8]),
    /// That of a settlement of this period: `RUN-N`, in a period above 0 `RUN.P-N`.
    Own {
        run: &'b str,
        period: u32,
        number: u32,
    },
}

impl<'b> SettlementKey<'b> {
    /// That of the settlement that was asked for under a number.
    pub(crate) fn asked(book: &'b Book, number: u32) -> SettlementKey<'b>
        ensures { octets_of result ≡ settlement_key_at book.now.config book.now.period book.now.entries number }
    {
        if let Some(entry) = book.entry(number)
            && let Some(key) = entry.what.earlier_key()
        {
            return SettlementKey::Given(key.as_slice());
        }
        SettlementKey::Own {
            run: book.config().run(),
            period: book.period(),
            number,
        }
    }
}

impl<'b> SettlementKey<'b> {
    /// Its text.
    pub(crate) fn text(self, spaces: Spaces) -> KeyText<'b> {
        KeyText { key: self, spaces }
    }
}

impl SettlementKey<'_> {
    /// Whether these octets are it.
    pub fn is(self, octets: &[u8]) -> bool
        ensures { result ≡ bytes_eq octets.now (octets_of self.entry) }
    {
        match self {
            SettlementKey::Given(key) => octets == key,
            SettlementKey::Own {
                run,
                period,
                number,
            } => is_own(octets, run, period, number),
        }
    }
}

// Whether octets are the key of a period's own settlement.
fn is_own(octets: &[u8], run: &str, period: u32, number: u32) -> bool
    ensures { IsTrue result ↔ (octets.now ≡ (run.now ++ period_mark period) ++ decimal number) }
{
    match behind(octets, run.as_bytes()) {
        Some(rest) => is_behind_run(rest, period, number),
        None => false,
    }
}

// Whether octets are what stands behind the run in such a key.
fn is_behind_run(octets: &[u8], period: u32, number: u32) -> bool
    ensures { IsTrue result ↔ (octets.now ≡ period_mark period ++ decimal number) }
{
    if period == 0 {
        is_numbered(octets, b"-", number)
    } else {
        is_of_later(octets, period, number)
    }
}

// That of a period above 0.
fn is_of_later(octets: &[u8], period: u32, number: u32) -> bool
    ensures { IsTrue result ↔ (octets.now
        ≡ (codes "." ++ (decimal period ++ codes "-")) ++ decimal number) }
{
    match behind(octets, b".") {
        Some(rest) => is_of_period(rest, period, number),
        None => false,
    }
}

// Whether octets are the digits of a period, a hyphen and those of a number.
fn is_of_period(octets: &[u8], period: u32, number: u32) -> bool
    ensures { IsTrue result ↔ (octets.now ≡ decimal period ++ (codes "-" ++ decimal number)) }
{
    let mut digits = Buffer::new();
    match behind(octets, digits.format(period).as_bytes()) {
        Some(rest) => is_numbered(rest, b"-", number),
        None => false,
    }
}

// Whether octets are a front and the digits of a number.
fn is_numbered(octets: &[u8], front: &[u8], number: u32) -> bool
    ensures { IsTrue result ↔ (octets.now ≡ front.now ++ decimal number) }
{
    let mut digits = Buffer::new();
    match behind(octets, front) {
        Some(rest) => rest == digits.format(number).as_bytes(),
        None => false,
    }
}

// What stands behind a front in octets that begin with it.
fn behind<'o>(octets: &'o [u8], front: &[u8]) -> Option<&'o [u8]>
    ensures { MatchOption result ((rest : List ℕ) → octets.now ≢ front.now ++ rest)
        (λ rest. octets.now ≡ front.now ++ rest.now) }
{
    octets.strip_prefix(front)
}

/// A key as it is printed: a backslash, an octet that is not printable ASCII, and a first `=`, `+`, `-` or `@`,
/// which a spreadsheet would take for the beginning of a formula, stand as `\x` and two hexadecimal digits.
#[derive(Clone, Copy)]
pub(crate) struct KeyText<'b> {
    key: SettlementKey<'b>,
    spaces: Spaces,
}

/// Octets that were given, as they are printed: as a key is.
#[derive(Clone, Copy)]
pub(crate) struct OctetsText<'o> {
    pub(crate) octets: &'o [u8],
    pub(crate) spaces: Spaces,
}

impl Display for OctetsText<'_> {
    fn fmt<W: fmt::Write>(&self, f: &mut fmt::Formatter<W>) -> fmt::Result {
        put_octets(self.octets, self.spaces, f)
    }
}

/// How a space in a key or a reason is printed.
#[derive(Clone, Copy, Debug, PartialEq, Eq)]
pub(crate) enum Spaces {
    /// As it is.
    Stand,
    /// As `\x20`, so that a line can be cut at its spaces.
    Escaped,
}

impl Display for KeyText<'_> {
    fn fmt<W: fmt::Write>(&self, f: &mut fmt::Formatter<W>) -> fmt::Result {
        match self.key {
            SettlementKey::Given(octets) => put_octets(octets, self.spaces, f),
            SettlementKey::Own {
                run,
                period,
                number,
            } => {
                put_octets(run.as_bytes(), self.spaces, f)?;
                put_mark(period, f)?;
                write!(f, "{number}")
            }
        }
    }
}

// What stands between the run and the number.
fn put_mark<W: fmt::Write>(period: u32, f: &mut fmt::Formatter<W>) -> fmt::Result {
    if period == 0 {
        return f.write_str("-");
    }
    write!(f, ".{period}-")
}

fn put_octets<W: fmt::Write>(
    octets: &[u8],
    spaces: Spaces,
    f: &mut fmt::Formatter<W>,
) -> fmt::Result {
    for (place, octet) in octets.iter().enumerate() {
        let is_escaped = match *octet {
            b' ' => spaces == Spaces::Escaped,
            b'=' | b'+' | b'-' | b'@' => place == 0,
            b'\\' => true,
            octet => !octet.is_ascii_graphic(),
        };
        put_octet(*octet, is_escaped, f)?;
    }
    Ok(())
}

fn put_octet<W: fmt::Write>(octet: u8, is_escaped: bool, f: &mut fmt::Formatter<W>) -> fmt::Result {
    if is_escaped {
        return write!(f, "\\x{octet:02x}");
    }
    f.write_char(char::from(octet))
}
