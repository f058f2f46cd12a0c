//! What a book comes to, each by a walk over its entries.

mod assets;
mod ends;
mod holds;
mod peers;
mod settlements;

pub(crate) use assets::{sums, total_in, total_out};
pub(crate) use ends::{Ends, ended_by};
pub(crate) use holds::{answer_of, earliest, fulfilled, hold_at, open_hold_at, open_holds};
use ilp_book::Book;
use ilp_journal::What;
pub(crate) use peers::{balance, is_fall};
pub(crate) use settlements::{
    Kept, ask_at, closing_of, kept_under, open_ask_at, open_asks, open_settlement,
};

/// What happened at an entry.
pub(crate) fn what_at(book: &Book, number: u32) -> Option<&What> {
    match book.entry(number) {
        Some(entry) => Some(&entry.what),
        None => None,
    }
}

/// How many holds and settlements are open.
pub(crate) fn open_count(book: &Book, ends: &Ends) -> u32 {
    let mut open = 0u32;
    for number in 0..book.len() {
        if is_open(book, ends, number) {
            open = open.wrapping_add(1);
        }
    }
    open
}

// Whether a hold or a settlement is open under a number.
fn is_open(book: &Book, ends: &Ends, number: u32) -> bool {
    if ends.closer_of(number).is_some() {
        return false;
    }
    match what_at(book, number) {
        Some(What::Hold(_)) | Some(What::Asked(_)) => true,
        _ => false,
    }
}
