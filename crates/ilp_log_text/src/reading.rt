//! Reading the file of a log.
ghost use Rattle.std.specs.Prelude.{◌≡◌, ◌↔◌, List, ℕ, IsTrue, IfOk, IfErr, IfSome, IfNone};
ghost use Rattle.sha2.specs.Sha256.{sha256};
ghost use Rattle.ilp_line_file.specs.Text.{recovered, text_of, AreLines, IsText};
ghost use Rattle.ilp_log_text.specs.Text.{IsLogText, IsBadHead, IsJournal, IsIn};

use crate::first_line::{Origin, origin_in};
use crate::lines::{behind_lines, next_line, whole_lines};
use ilp_journal_text::JournalText;
use sha2::{Digest, Sha256};
use std::marker::Model;
use thiserror::Error;

// What the line of a run begins with.
const RUN: &[u8] = b"run ";

/// Which line of a log's head is the first that is missing or bad.
#[derive(Clone, Copy, Debug, PartialEq, Eq, Error)]
pub enum BadHead {
    /// The first one: it doesn't name the form, a number of entries and a digest.
    #[error("the first line is not that of a log")]
    First,
    /// The second one: it names no run.
    #[error("the second line names no run")]
    Second,
}

/// The octets of a log's file, read. What a crash left behind the whole lines is not in it.
#[derive(Drop)]
pub struct LogText<'a> {
    origin: Origin,
    remembered: &'a [u8],
    lines: &'a [u8],
}

impl<'a> Model for LogText<'a> {
    ghost use Rattle.std.specs.Prelude.{◌≡◌};
    ghost use Rattle.ilp_line_file.specs.Text.{recovered, IsText};
    ghost use Rattle.ilp_log_text.specs.Text.{PlainLogText};

    ghost Value = { PlainLogText };

    ghost view = { λ t. record {
      count = t.origin.count;
      digest = t.origin.digest;
      remembered = t.remembered.now;
      lines = recovered t.lines.now;
    } };

    ghost invariant = { λ t. IsText t.lines.now };
}

impl<'a> LogText<'a> {
    /// Reads the octets of a log's file. `BadHead` names the first of its two first lines that is
    /// missing or bad.
    pub fn read(octets: &'a [u8]) -> Result<LogText<'a>, BadHead>
        ensures ok { IfOk result (IsLogText octets.now) }
        ensures err { IfErr result (IsBadHead octets.now) }
    {
        let Some((first, further)) = next_line(whole_lines(octets)) else {
            return Err(BadHead::First);
        };
        let Some(origin) = origin_in(first) else {
            return Err(BadHead::First);
        };
        let Some((remembered, lines)) = next_line(further) else {
            return Err(BadHead::Second);
        };
        if !remembered.starts_with(RUN) {
            return Err(BadHead::Second);
        }
        Ok(LogText {
            origin,
            remembered,
            lines,
        })
    }

    /// How many entries the journal's text has that the log goes on from. The log's first line of
    /// an entry is that of the entry of this number, from 0.
    pub fn count(&self) -> u32
        ensures { result ≡ self.now.count }
    {
        self.origin.count
    }

    /// The second line, without its end: what is remembered of the run (`remembered_in`).
    pub fn remembered(&self) -> &'a [u8]
        ensures { result.now ≡ self.now.remembered }
    {
        self.remembered
    }

    /// The lines of entries, each with its end.
    pub fn lines(&self) -> &'a [u8]
        ensures text { result.now ≡ text_of self.now.lines }
        ensures lines { AreLines self.now.lines }
    {
        self.lines
    }

    /// Whether the log goes on from this text of a journal: whether the text's SHA-256 digest is
    /// that which the log names. The number of entries isn't compared: a text of the same digest is
    /// taken for the same text, and so has as many.
    pub fn is_of(&self, saved: &[u8]) -> bool
        ensures { IsTrue result ↔ (self.now.digest ≡ sha256 saved.now) }
    {
        self.origin.digest.as_slice() == Sha256::digest(saved).as_slice()
    }

    /// Whether a later text of the journal has all that the log has: its lines behind the first,
    /// from the number `count` on, begin with the log's.
    pub fn is_in(&self, saved: &[u8]) -> bool
        ensures { IsTrue result ↔ IsIn self.now saved.now }
    {
        match behind_form(whole_lines(saved)) {
            Some(entries) => behind_lines(entries, self.origin.count).starts_with(self.lines),
            None => false,
        }
    }
}

// What stands behind the first line of a journal's text, if that is the one of a period.
fn behind_form(text: &[u8]) -> Option<&[u8]>
    requires { IsText text.now }
    ensures text { IfSome result (λ entries. IsText entries.now) }
    ensures some { IfSome result (λ entries. IsJournal (recovered text.now) (recovered entries.now)) }
    ensures none { IfNone result ((entries : List (List ℕ)) → ¬ IsJournal (recovered text.now) entries) }
{
    match JournalText::begin(text) {
        Ok(_) => match next_line(text) {
            Some((_, entries)) => Some(entries),
            None => None,
        },
        Err(_) => None,
    }
}
