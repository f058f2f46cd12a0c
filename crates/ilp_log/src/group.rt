//! The lines of entries that are written together.
ghost use Rattle.std.specs.Prelude.{◌≤◌, ◌<◌, length, IfOk};
ghost use Rattle.ilp_log.specs.Lines.{AreLinesOf, IsGroup};

use ilp_book::Book;
use ilp_journal_text::entry_line;
use std::alloc::{AllocError, Global};

// How many entries are copied at once, while the desk's lock is taken.
const MOST_IN_GROUP: u32 = 256;

/// The lines of entries that follow one another, up to a number.
#[derive(Drop)]
pub(crate) struct Group {
    /// The lines, each with its line feed.
    pub(crate) text: Vec<u8>,
    /// The number of the first entry behind them.
    pub(crate) to: u32,
}

impl Group {
    /// The entries of the book from a number on, as many as go together. It is refused only where memory
    /// is denied.
    pub(crate) fn of(alloc: Global, book: &Book, from: u32) -> Result<Group, AllocError>
        requires { from ≤ length book.now.entries }
        ensures { IfOk result (λ group.
            IsGroup book.now.config book.now.entries from group.to group.text.items) }
    {
        let to = group_end(from, book.len());
        let text = lines_between(alloc, book, from, to)?;
        Ok(Group { text, to })
    }
}

// Where a group ends that begins at a number.
fn group_end(from: u32, len: u32) -> u32
    requires { from ≤ len }
    ensures later { from ≤ result }
    ensures within { result ≤ len }
    ensures some { from < len → from < result }
{
    if len - from < MOST_IN_GROUP {
        len
    } else {
        from + MOST_IN_GROUP
    }
}

// The lines of the entries from one number up to another.
fn lines_between(alloc: Global, book: &Book, from: u32, to: u32) -> Result<Vec<u8>, AllocError>
    requires order { from ≤ to }
    requires within { to ≤ length book.now.entries }
    ensures { IfOk result (λ text. AreLinesOf book.now.config book.now.entries from to text.items) }
{
    let mut text = Vec::new(alloc);
    for number in from..to {
        let Some(entry) = book.entry(number) else {
            unreachable!();
        };
        text.extend_from_slice(entry_line(book.config(), entry).as_slice())?;
    }
    Ok(text)
}
