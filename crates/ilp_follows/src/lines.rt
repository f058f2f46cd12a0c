//! The lines of a text.
ghost use Rattle.std.specs.Prelude.{◌≡◌, IfOk, option_map};
ghost use Rattle.std.specs.List.{slice_split};
ghost use Rattle.ilp_journal_text.specs.Fields.{octets_of};
ghost use Rattle.ilp_follows.specs.Follows as follows;
ghost use Rattle.ilp_follows.specs.Follows.{is_line_end};

use ilp_accounts::Config;
use ilp_journal::Entry;
use ilp_journal_text::entry_line;
use std::alloc::{AllocError, Global};

// The words of what is brought forward.
const OPENED: &[u8] = b"opened";

const KNOWN: &[u8] = b"known";

const PENDING: &[u8] = b"pending";

// The place of such a word among the fields of a line.
const WORD: usize = 2;

/// The lines of a text, without their ends.
pub(crate) fn lines_of(alloc: Global, text: &[u8]) -> Result<Vec<&[u8]>, AllocError>
    ensures { IfOk result (λ lines. octets_of lines.items ≡ slice_split is_line_end text.now) }
{
    let mut lines = Vec::new(alloc);
    for line in text.split(|octet| *octet == b'\n') {
        lines.push(line)?;
    }
    Ok(lines)
}

/// Whether a line is that of an entry.
pub(crate) fn is_line_of(config: &Config, entry: &Entry, line: &[u8]) -> bool
    ensures { result ≡ follows.is_line_of config.now entry.now line.now }
{
    let told = entry_line(config, entry);
    without_end(told.as_slice()) == line
}

// A line without its end.
fn without_end(line: &[u8]) -> &[u8]
    ensures { result.now ≡ follows.without_end line.now }
{
    &line[..line.len().saturating_sub(1)]
}

/// Whether a line is one of what is brought forward.
pub(crate) fn is_head_line(line: &[u8]) -> bool
    ensures { result ≡ follows.is_head_line line.now }
{
    match word_of(line) {
        Some(word) => is_head_word(word),
        None => false,
    }
}

// The third field of a line, which says what happened.
fn word_of(line: &[u8]) -> Option<&[u8]>
    ensures { option_map (λ word. word.now) result ≡ follows.word_of line.now }
{
    line.split(|octet| *octet == b' ').nth(WORD)
}

// Whether this is the word of what is brought forward.
fn is_head_word(word: &[u8]) -> bool
    ensures { result ≡ follows.is_head_word word.now }
{
    word == OPENED || word == KNOWN || word == PENDING
}
