//! Reading the text of a journal, and lines of entries that stand behind others.
ghost use Rattle.std.specs.Prelude.{◌≡◌, ◌≢◌, ◌<◌, ◌^◌, ◌↔◌, ◌++◌, ℕ, List, IfOk, IfErr, OnErr, IfSome, IfNone, OnSome, MatchOption, IsNone, IsTrue, All, IsOkAnd, false, ◌∷◌};
ghost use Rattle.std.specs.Borrow.{Bor};
ghost use Rattle.std.specs.Fmt.{decimal};
ghost use Rattle.ilp_journal.specs.declared.entry.Entry.{Entry as PlainEntry};
ghost use Rattle.ilp_journal.specs.BroughtForward.{is_brought_forward};
ghost use Rattle.ilp_journal_text.specs.Text.{first_line, entry_line};
ghost use Rattle.ilp_journal_text.specs.Reading.{StandsIn, Begins, LacksFirstLine, LacksEntry, Takes, IsAtEnd, Explains, unread, IsAllRead, ExplainsNext};
ghost use Rattle.ilp_journal_text.specs.Fields.{is_line_end, Gives};

use crate::entry::entry_line;
use crate::fields::{LineFault, fields_of, number_in};
use crate::line::Line;
use crate::parsing::entry_in;
use ilp_accounts::Config;
use ilp_journal::Entry;
use std::marker::Model;
use thiserror::Error;

/// Why reading a text stopped before its end.
#[derive(Clone, Copy, Debug, PartialEq, Eq, Error)]
pub enum TextFault {
    /// The first line, counted from 1, that a text of a journal, or the lines of entries, do not have
    /// there.
    #[error("the line {line} is no line of a journal")]
    BadLine { line: u64 },
    /// Memory for the key of a credit was denied.
    #[error("memory is short")]
    Memory,
}

// What the first line of the text of a period above 0 begins with.
const LATER_FORM: &[u8] = b"ilp-journal 2 ";

/// The text of a journal, as far as it is not read yet. It is read entry by entry, once.
#[derive(Drop)]
pub struct JournalText<'a> {
    period: u32,
    rest: &'a [u8],
    count: u64,
}

impl<'a> Model for JournalText<'a> {
    ghost use Rattle.std.specs.Prelude.{◌+◌, ◌<◌, ◌^◌, length};
    ghost use Rattle.ilp_journal_text.specs.Reading.{Unread};

    ghost Value = { Unread };

    ghost view = { λ t. record { period = t.period; rest = t.rest.now; count = t.count } };

    // An entry has more than one octet.
    ghost invariant = { λ t. t.count + length t.rest.now < 2 ^ 63 };
}

impl<'a> JournalText<'a> {
    /// Begins to read a text, with its first line. Without that the fault is `BadLine` with 1.
    pub fn begin(text: &'a [u8]) -> Result<JournalText<'a>, TextFault>
        ensures ok { IfOk result (Begins text.now) }
        ensures err { OnErr result (LacksFirstLine text.now) }
        ensures fault { IfErr result (λ fault. fault ≡ TextFault.BadLine 1) }
    {
        match first_line_in(text) {
            Some((period, rest)) => Ok(JournalText {
                period,
                rest,
                count: 0,
            }),
            None => Err(TextFault::BadLine { line: 1 }),
        }
    }

    /// The number of the period that the text is of, from 0.
    pub fn period(&self) -> u32
        ensures { result ≡ self.now.period }
    {
        self.period
    }

    /// The next entry, by the names of peers in the configuration, and `None` where the text ends
    /// with its end line. The key of a credit lies on the heap of the configuration.
    ///
    /// `BadLine` names the first bad line: the next one, or that behind the end line. `Memory` may come
    /// in place of any answer, where memory for a key was denied. After `None` and after a refusal
    /// what is left is as before.
    pub fn next(&mut self, config: &Config) -> Result<Option<Entry>, TextFault>
        ensures entry { IfOk result (λ next.
            IfSome next (λ entry. Takes config.now entry self.old self.new)) }
        ensures end { IfOk result (λ next. IsNone next → IsAtEnd self.old) }
        ensures err { IfErr result (Explains config.now self.old) }
        ensures ended { IfOk result (λ next. IsNone next → self.new ≡ self.old) }
        ensures unchanged { OnErr result (self.new ≡ self.old) }
    {
        let end = Line::last(self.count);
        if let Some(after) = self.rest.strip_prefix(end.as_slice()) {
            if after.is_empty() {
                return Ok(None);
            }
            return Err(TextFault::BadLine {
                line: self.count + 3,
            });
        }
        match take_entry(config, self.period, self.rest) {
            Ok((entry, rest)) => {
                self.rest = rest;
                self.count += 1;
                Ok(Some(entry))
            }
            Err(LineFault::Bad) => Err(TextFault::BadLine {
                line: self.count + 2,
            }),
            Err(LineFault::Memory) => Err(TextFault::Memory),
        }
    }
}

/// Lines of entries that stand behind others, as those of entries that were booked since a journal
/// was saved: as in the text of a journal, without first line and end line, and without what a period
/// brings forward, which stands in front. They are read entry by entry, once.
#[derive(Drop)]
pub struct JournalLines<'a> {
    rest: &'a [u8],
    count: u64,
}

impl<'a> Model for JournalLines<'a> {
    ghost use Rattle.std.specs.Prelude.{◌+◌, ◌<◌, ◌^◌, length};
    ghost use Rattle.ilp_journal_text.specs.Reading.{Unread};

    ghost Value = { Unread };

    ghost view = { λ t. record { period = 0; rest = t.rest.now; count = t.count } };

    // An entry has more than one octet.
    ghost invariant = { λ t. t.count + length t.rest.now < 2 ^ 63 };
}

impl<'a> JournalLines<'a> {
    /// Begins to read lines, of which there may be none.
    pub fn begin(text: &'a [u8]) -> JournalLines<'a>
        ensures { result ≡ unread text.now }
    {
        JournalLines {
            rest: text,
            count: 0,
        }
    }

    /// The next entry, by the names of peers in the configuration, and `None` behind the last line.
    /// The key of a credit lies on the heap of the configuration.
    ///
    /// `BadLine` names the first bad line, counted from 1 within these lines: the next one. A last line
    /// without its end is bad. `Memory` may come in place of any answer but `None`, where memory for a
    /// key was denied. After `None` and after a refusal what is left is as before.
    pub fn next(&mut self, config: &Config) -> Result<Option<Entry>, TextFault>
        ensures entry { IfOk result (λ next.
            IfSome next (λ entry. Takes config.now entry self.old self.new)) }
        ensures end { IfOk result (λ next. IsNone next → IsAllRead self.old) }
        ensures err { IfErr result (ExplainsNext config.now self.old) }
        ensures ended { IfOk result (λ next. IsNone next → self.new ≡ self.old) }
        ensures unchanged { OnErr result (self.new ≡ self.old) }
    {
        if self.rest.is_empty() {
            return Ok(None);
        }
        match take_entry(config, 0, self.rest) {
            Ok((entry, rest)) => {
                self.rest = rest;
                self.count += 1;
                Ok(Some(entry))
            }
            Err(LineFault::Bad) => Err(TextFault::BadLine {
                line: self.count + 1,
            }),
            Err(LineFault::Memory) => Err(TextFault::Memory),
        }
    }
}

// The number of the period whose first line comes first, and what stands behind that line.
fn first_line_in(text: &[u8]) -> Option<(u32, &[u8])>
    ensures some { IfSome result (λ found. text.now ≡ first_line found.0 ++ found.1.now) }
    ensures none { IfNone result (LacksFirstLine text.now) }
{
    let period = period_in(text);
    match text.strip_prefix(Line::first(period).as_slice()) {
        Some(rest) => Some((period, rest)),
        None => None,
    }
}

// The number of the period whose first line comes first, if one does.
fn period_in(text: &[u8]) -> u32
    ensures { (period : ℕ) (after : List ℕ) → period < 2 ^ 32
        → text.now ≡ first_line period ++ after → result ≡ period }
{
    match later_field(text) {
        Some(field) => number_in(field).unwrap_or(0),
        None => 0,
    }
}

// The number in the first line of the text of a later period, if that has one.
fn later_field(text: &[u8]) -> Option<&[u8]>
    ensures { (period : ℕ) (after : List ℕ) → period < 2 ^ 32
        → text.now ≡ first_line period ++ after
        → MatchOption result (period ≡ 0) (λ field. field.now ≡ decimal period) }
{
    match line_of(text) {
        Ok(line) => line.strip_prefix(LATER_FORM),
        Err(_) => None,
    }
}

// The entry whose line comes first in the text of a period, and what stands behind that line.
fn take_entry<'a>(
    config: &Config,
    period: u32,
    text: &'a [u8],
) -> Result<(Entry, &'a [u8]), LineFault>
    ensures ok { IfOk result (λ taken. (text.now ≡ entry_line config.now taken.0 ++ taken.1.now)
        × StandsIn config.now period taken.0) }
    ensures err { IfErr result (λ fault. fault ≡ LineFault.Bad
        → LacksEntry config.now period text.now) }
{
    // Tells that the configuration is valid.
    let _ = config.peers();
    let line = line_of(text)?;
    let fields = fields_of(line)?;
    let entry = entry_in(config, fields.as_slice())?;
    if !stands_in(period, &entry) {
        return Err(LineFault::Bad);
    }

    // A line that is spelt in another way than it would be written is bad.
    match text.strip_prefix(entry_line(config, &entry).as_slice()) {
        Some(rest) => Ok((entry, rest)),
        None => Err(LineFault::Bad),
    }
}

// Whether an entry may stand in the text of a period: what is brought forward stands only in one
// above 0.
fn stands_in(period: u32, entry: &Entry) -> bool
    ensures { IsTrue result ↔ (IsTrue (is_brought_forward entry.now.what) → 0 < period) }
{
    period > 0 || !entry.what.is_brought_forward()
}

// What stands before the first line end.
fn line_of(text: &[u8]) -> Result<&[u8], LineFault>
    ensures { (line after : List ℕ) → All (λ octet. is_line_end octet ≡ false) line
        → text.now ≡ line ++ 10 ∷ after → IsOkAnd result (λ found. found.now ≡ line) }
{
    match memchr::memchr(b'\n', text) {
        Some(end) => Ok(&text[..end]),
        None => Err(LineFault::Bad),
    }
}
