//! The statement of a peer's account.
ghost use Rattle.std.specs.Prelude.{◌≡◌, ◌≤◌, IfOk, is_some, length, take};
ghost use Rattle.ilp_order.specs.Places.{passes_at};
ghost use Rattle.ilp_journal.specs.Balance.{balance};
ghost use Rattle.ilp_statement.specs.Statement.{kind_of, lines_of, IsOfAmounts};

use crate::kind::Kind;
use crate::line::{Line, line_behind};
use ilp_book::Book;
use std::alloc::{AllocError, Allocator, Global};

/// What some entries of a book did to a peer's balance, in units of its asset.
#[derive(Drop)]
pub struct Statement<A: Allocator = Global> {
    /// The balance of all entries before the first of them.
    pub opening: i128,
    /// What the peer's did, in their order.
    pub lines: Vec<Line, A>,
    /// The balance of all entries before those that stand behind the last.
    pub closing: i128,
}

impl<A: Allocator> Statement<A> {
    /// The statement of a peer of the entries from the first number on and before the other one. Both are at
    /// most as many as there are entries. It takes memory for each line; `AllocError` tells that it is short.
    pub fn of<B: Allocator>(
        alloc: A,
        book: &Book<B>,
        peer: u32,
        first: u32,
        behind: u32,
    ) -> Result<Statement<A>, AllocError>
        requires order { first ≤ behind }
        requires within { behind ≤ length book.now.entries }
        ensures opening { IfOk result (λ s. s.opening ≡ balance (take first book.now.entries) peer) }
        ensures lines { IfOk result (λ s. s.lines.items ≡ lines_of book.now.entries peer first behind) }
        ensures closing { IfOk result (λ s. s.closing ≡ balance (take behind book.now.entries) peer) }
    {
        let opening = balance_before(book, peer, first);
        let mut lines = Vec::new(alloc);
        let mut balance = opening;
        for number in first..behind {
            let line = line_behind(book, peer, number, balance);
            balance = line.balance;
            if is_of(book, peer, number) {
                lines.push(line)?;
            }
        }
        Ok(Statement {
            opening,
            lines,
            closing: balance,
        })
    }
}

// Whether the entry of a number is the peer's.
fn is_of<A: Allocator>(book: &Book<A>, peer: u32, number: u32) -> bool
    ensures { result ≡ passes_at (λ e. is_some (kind_of book.now.entries peer e.what)) book.now.entries number }
{
    Kind::at(book, peer, number).is_some()
}

// The balance of all entries before this number.
fn balance_before<A: Allocator>(book: &Book<A>, peer: u32, behind: u32) -> i128
    requires { behind ≤ length book.now.entries }
    ensures balance { result ≡ balance (take behind book.now.entries) peer }
    ensures within { IsOfAmounts behind result }
{
    let mut balance = 0i128;
    for number in 0..behind {
        balance = line_behind(book, peer, number, balance).balance;
    }
    balance
}
