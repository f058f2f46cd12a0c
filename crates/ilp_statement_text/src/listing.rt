//! Which lines of a statement are listed.
ghost use Rattle.std.specs.Prelude.{◌≡◌, ◌≤◌, IfOk, filter, length, take};
ghost use Rattle.ilp_journal.specs.Balance.{balance};
ghost use Rattle.ilp_statement.specs.Statement.{lines_of};
ghost use Rattle.ilp_statement_text.specs.Sought.{is_listed};

use crate::extent::Extent;
use crate::sought::Sought;
use ilp_book::Book;
use ilp_statement::Statement;
use std::alloc::{AllocError, Global};

/// The statement of a peer's account, with the lines that are looked for. It takes memory for each entry of the
/// peer's in the extent; `AllocError` tells that it is short.
pub(crate) fn listed(
    alloc: Global,
    book: &Book,
    peer: u32,
    extent: Extent,
    sought: Sought<'_>,
) -> Result<Statement, AllocError>
    requires order { extent.first ≤ extent.behind }
    requires within { extent.behind ≤ length book.now.entries }
    ensures opening { IfOk result (λ s. s.opening ≡ balance (take extent.first book.now.entries) peer) }
    ensures lines { IfOk result (λ s. s.lines.items ≡
        filter (λ line. is_listed book.now peer sought.entry line.number)
        (lines_of book.now.entries peer extent.first extent.behind)) }
    ensures closing { IfOk result (λ s. s.closing ≡ balance (take extent.behind book.now.entries) peer) }
{
    let mut statement = Statement::of(alloc, book, peer, extent.first, extent.behind)?;
    statement
        .lines
        .retain(|line| sought.lists(book, peer, *line));
    Ok(statement)
}
