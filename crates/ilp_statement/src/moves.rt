//! What entries do to a balance.
ghost use Rattle.std.specs.Prelude.{◌≡◌};
ghost use Rattle.ilp_journal.specs.Balance.{fall, fall_at, rise, rise_at};

use crate::standing::{ask_at, hold_at};
use ilp_book::Book;
use ilp_journal::{What, above, below};
use std::alloc::Allocator;

/// By how much the entry of a number raises the peer's balance.
pub(crate) fn rise_at<A: Allocator>(book: &Book<A>, peer: u32, number: u32) -> u64
    ensures { result ≡ rise_at book.now.entries peer number }
{
    match book.entry(number) {
        Some(entry) => rise(book, peer, &entry.what),
        None => 0,
    }
}

/// By how much the entry of a number lowers it.
pub(crate) fn fall_at<A: Allocator>(book: &Book<A>, peer: u32, number: u32) -> u64
    ensures { result ≡ fall_at book.now.entries peer number }
{
    match book.entry(number) {
        Some(entry) => fall(peer, &entry.what),
        None => 0,
    }
}

// By how much an entry raises the peer's balance.
fn rise<A: Allocator>(book: &Book<A>, peer: u32, what: &What) -> u64
    ensures { result ≡ rise book.now.entries peer what.now }
{
    match what {
        What::Fulfilled { hold, .. } => match hold_at(book, *hold) {
            Some(hold) if hold.to == peer => hold.out,
            _ => 0,
        },
        What::Released { hold, .. } => match hold_at(book, *hold) {
            Some(hold) if hold.from == peer => hold.amount,
            _ => 0,
        },
        What::Credited(credited) if credited.peer == peer => {
            credited.kind.raising(credited.credited)
        }
        What::Undone { ask } => match ask_at(book, *ask) {
            Some(ask) if ask.peer == peer => ask.amount,
            _ => 0,
        },
        What::Opened {
            peer: opened,
            balance,
        } if *opened == peer => above(*balance),
        _ => 0,
    }
}

// By how much an entry lowers the peer's balance.
fn fall(peer: u32, what: &What) -> u64
    ensures { result ≡ fall peer what.now }
{
    match what {
        What::Hold(hold) if hold.from == peer => hold.amount,
        What::Credited(credited) if credited.peer == peer => {
            credited.kind.lowering(credited.credited)
        }
        What::Asked(ask) if ask.peer == peer => ask.amount,
        What::Opened {
            peer: opened,
            balance,
        } if *opened == peer => below(*balance),
        _ => 0,
    }
}
