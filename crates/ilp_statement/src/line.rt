//! One line of a statement.
ghost use Rattle.std.specs.Prelude.{◌≡◌, ◌+◌, ◌<◌, pos, ◌+ℤ◌, ◌-ℤ◌, length, take};
ghost use Rattle.ilp_journal.specs.Balance.{balance};
ghost use Rattle.ilp_statement.specs.Statement.{line_at, IsOfAmounts};

use crate::moves::{fall_at, rise_at};
use ilp_book::Book;
use std::alloc::Allocator;

/// What an entry did to a peer's balance, in units of its asset.
#[derive(Clone, Copy, Debug, PartialEq, Eq)]
pub struct Line {
    /// The entry's number.
    pub number: u32,
    /// By how much it raised the balance.
    pub rise: u64,
    /// By how much it lowered it.
    pub fall: u64,
    /// The balance of all entries up to this one.
    pub balance: i128,
}

/// The line of the entry of this number, before which the balance was this.
pub(crate) fn line_behind<A: Allocator>(
    book: &Book<A>,
    peer: u32,
    number: u32,
    before: i128,
) -> Line
    requires number { number < length book.now.entries }
    requires before { before ≡ balance (take number book.now.entries) peer }
    requires within { IsOfAmounts number before }
    ensures line { result ≡ line_at book.now.entries peer number }
    ensures within { IsOfAmounts (number + 1) result.balance }
{
    // Called for what its contract tells: that the journal is lawful, and so each answer is behind its hold.
    let _ = book.entry(number);
    let rise = rise_at(book, peer, number);
    let fall = fall_at(book, peer, number);
    Line {
        number,
        rise,
        fall,
        balance: moved(number, before, rise, fall),
    }
}

// A balance that the entry of a number raises and lowers by so much.
fn moved(number: u32, before: i128, rise: u64, fall: u64) -> i128
    requires within { IsOfAmounts number before }
    ensures sum { result ≡ before +ℤ pos rise -ℤ pos fall }
    ensures within { IsOfAmounts (number + 1) result }
{
    before + i128::from(rise) - i128::from(fall)
}
