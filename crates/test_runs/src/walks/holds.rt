//! Holds.

use crate::walks::{Ends, what_at};
use ilp_book::Book;
use ilp_journal::{Hold, What};

/// The hold under a number.
pub(crate) fn hold_at(book: &Book, number: u32) -> Option<&Hold> {
    match what_at(book, number) {
        Some(What::Hold(hold)) => Some(hold),
        _ => None,
    }
}

/// The entry that fulfills or releases the hold under a number, where there is a hold.
pub(crate) fn answer_of(book: &Book, ends: &Ends, number: u32) -> Option<u32> {
    let _hold = hold_at(book, number)?;
    ends.closer_of(number)
}

/// The hold under a number, if it is open.
pub(crate) fn open_hold_at<'a>(book: &'a Book, ends: &Ends, number: u32) -> Option<&'a Hold> {
    if ends.closer_of(number).is_some() {
        return None;
    }
    hold_at(book, number)
}

/// How many of the open holds a peer sent.
pub(crate) fn open_holds(book: &Book, ends: &Ends, peer: u32) -> u32 {
    let mut open = 0u32;
    for number in 0..book.len() {
        if let Some(hold) = open_hold_at(book, ends, number) {
            if hold.from == peer {
                open = open.wrapping_add(1);
            }
        }
    }
    open
}

/// The open hold of least deadline, and of several the first, with its number.
pub(crate) fn earliest<'a>(book: &'a Book, ends: &Ends) -> Option<(u32, &'a Hold)> {
    let mut first: Option<(u32, &Hold)> = None;
    for number in 0..book.len() {
        if let Some(hold) = open_hold_at(book, ends, number) {
            if is_before(hold, first) {
                first = Some((number, hold));
            }
        }
    }
    first
}

// Whether a hold is due sooner than what was found so far.
fn is_before(hold: &Hold, first: Option<(u32, &Hold)>) -> bool {
    match first {
        Some((_, first)) => hold.deadline < first.deadline,
        None => true,
    }
}

/// How many entries fulfill a hold.
pub(crate) fn fulfilled(book: &Book) -> u32 {
    let mut count = 0u32;
    for number in 0..book.len() {
        if let Some(What::Fulfilled { .. }) = what_at(book, number) {
            count = count.wrapping_add(1);
        }
    }
    count
}
