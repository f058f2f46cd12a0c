//! Whether lines begin with those of a head.
ghost use Rattle.std.specs.Prelude.{◌≡◌, ℕ, List, take, IfNone, IfSome};
ghost use Rattle.std.specs.Borrow.{Bor};
ghost use Rattle.std.specs.List.{list_any};
ghost use Rattle.ilp_journal_text.specs.Fields.{octets_of};
ghost use Rattle.ilp_follows.specs.Follows as follows;
ghost use Rattle.ilp_follows.specs.Follows.{BeginWith};

use crate::lines::{is_head_line, is_line_of};
use ilp_accounts::Config;
use ilp_journal::{Entry, What};

/// The number of the first entry of this head that the lines tell otherwise, of a balance that they don't open, or of
/// something else that is brought forward behind it.
pub(crate) fn first_difference(config: &Config, head: &[Entry], lines: &[&[u8]]) -> Option<usize>
    ensures same { IfNone result (BeginWith config.now head.now (octets_of lines.now)) }
    ensures other { IfSome result (λ n. ¬ (BeginWith config.now head.now (octets_of lines.now))) }
{
    for number in 0..head.len() {
        if !stands_at(config, head, lines, number) {
            return Some(number);
        }
    }
    if is_head_line(line_at(lines, head.len())) {
        return Some(head.len());
    }
    None
}

// Whether the head's entry of this number stands where it is to stand among the lines.
fn stands_at(config: &Config, head: &[Entry], lines: &[&[u8]], number: usize) -> bool
    ensures { result ≡ follows.stands_at config.now head.now (octets_of lines.now) number }
{
    match head.get(number) {
        Some(entry) => is_brought(config, head, lines, number, entry),
        None => true,
    }
}

fn is_brought(
    config: &Config,
    head: &[Entry],
    lines: &[&[u8]],
    number: usize,
    entry: &Entry,
) -> bool
    ensures { result
        ≡ follows.is_brought config.now head.now (octets_of lines.now) number entry.now }
{
    stands_for(config, head, entry, line_at(lines, number))
        && (!is_opening(entry) || is_told(config, entry, first_lines(lines, head.len())))
}

// Whether a line stands for an entry of the head.
fn stands_for(config: &Config, head: &[Entry], entry: &Entry, line: &[u8]) -> bool
    ensures { result ≡ follows.stands_for config.now head.now entry.now line.now }
{
    if is_opening(entry) {
        is_opened(config, head, line)
    } else {
        is_line_of(config, entry, line)
    }
}

// Whether a line opens a balance of the head.
fn is_opened(config: &Config, head: &[Entry], line: &[u8]) -> bool
    ensures { result ≡ follows.is_opened config.now head.now line.now }
{
    head.iter().any(|entry| is_opening(entry) && is_line_of(config, entry, line))
}

// Whether one of these lines is that of an entry.
fn is_told(config: &Config, entry: &Entry, lines: &[&[u8]]) -> bool
    ensures { result ≡ follows.is_told config.now entry.now (octets_of lines.now) }
{
    is_among(config, entry, lines)
}

fn is_among(config: &Config, entry: &Entry, lines: &[&[u8]]) -> bool
    ensures { result
        ≡ list_any (λ (line : Bor (List ℕ)). follows.is_line_of config.now entry.now line.now) lines.now }
{
    lines.iter().any(|line| is_line_of(config, entry, line))
}

// Whether an entry opens a balance.
fn is_opening(entry: &Entry) -> bool
    ensures { result ≡ follows.is_opening entry.now }
{
    matches!(entry.what, What::Opened { .. })
}

// The first lines, so many of them, or all.
#[tactic(auto, using(crate::proofs::ToldLines::first_few))]
fn first_lines<'l, 't>(lines: &'l [&'t [u8]], count: usize) -> &'l [&'t [u8]]
    ensures { octets_of result.now ≡ take count (octets_of lines.now) }
{
    &lines[..count.min(lines.len())]
}

// The line of a number, and an empty one past the end.
fn line_at<'t>(lines: &[&'t [u8]], number: usize) -> &'t [u8]
    ensures { result.now ≡ follows.line_at (octets_of lines.now) number }
{
    match lines.get(number) {
        Some(line) => line,
        None => &[],
    }
}
