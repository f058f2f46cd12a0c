//! Settlements.

use crate::calls::{Change, key_octets};
use crate::walks::{Ends, what_at};
use ilp_book::{Asked, Book};
use ilp_journal::{Ask, CreditKind, Reason, What};

/// The asked settlement under a number.
pub(crate) fn ask_at(book: &Book, number: u32) -> Option<Ask> {
    match what_at(book, number) {
        Some(What::Asked(ask)) => Some(*ask),
        _ => None,
    }
}

/// The entry that confirms or undoes the settlement under a number, where there is one.
pub(crate) fn closing_of(book: &Book, ends: &Ends, number: u32) -> Option<u32> {
    let _ask = ask_at(book, number)?;
    ends.closer_of(number)
}

/// The settlement under a number, if it is open.
pub(crate) fn open_ask_at(book: &Book, ends: &Ends, number: u32) -> Option<Ask> {
    if ends.closer_of(number).is_some() {
        return None;
    }
    ask_at(book, number)
}

/// How many settlements to a peer are open.
pub(crate) fn open_asks(book: &Book, ends: &Ends, peer: u32) -> u32 {
    let mut open = 0u32;
    for number in 0..book.len() {
        if let Some(ask) = open_ask_at(book, ends, number) {
            if ask.peer == peer {
                open = open.wrapping_add(1);
            }
        }
    }
    open
}

/// The open settlement to a peer that comes next: the first whose number lies above that of the one
/// that was tried, else the first of all.
pub(crate) fn open_settlement(
    book: &Book,
    ends: &Ends,
    peer: u32,
    tried: Option<u32>,
) -> Option<Asked> {
    let above = tried.map_or(0, |tried| tried.saturating_add(1));
    match open_from(book, ends, peer, above) {
        Some(asked) => Some(asked),
        None => open_from(book, ends, peer, 0),
    }
}

// The first open settlement to a peer from this number on.
fn open_from(book: &Book, ends: &Ends, peer: u32, first: u32) -> Option<Asked> {
    for number in first..book.len() {
        if let Some(ask) = open_ask_at(book, ends, number) {
            if ask.peer == peer {
                let amount = ask.amount;
                return Some(Asked { number, amount });
            }
        }
    }
    None
}

/// What is kept under a key.
#[derive(Clone, Copy)]
pub(crate) struct Kept {
    pub(crate) number: u32,
    pub(crate) named: u128,
    pub(crate) scale: u8,
    pub(crate) credited: u64,
    pub(crate) change: Change,
}

/// The first credit of a peer under a key.
pub(crate) fn kept_under(book: &Book, peer: u32, key: u8) -> Option<Kept> {
    for number in 0..book.len() {
        if let Some(kept) = kept_at(book, number, peer, key) {
            return Some(kept);
        }
    }
    None
}

// What a credit is: a settlement, or a correction with the first octet of its reason.
fn change_of(kind: &CreditKind) -> Change {
    match kind {
        CreditKind::Settled => Change::Settled,
        CreditKind::Raised(reason) => Change::Raised(first_of(reason)),
        CreditKind::Lowered(reason) => Change::Lowered(first_of(reason)),
    }
}

fn first_of(reason: &Reason) -> u8 {
    match reason.as_slice().first() {
        Some(octet) => *octet,
        None => 0,
    }
}

// The entry of this number, where it is a credit of the peer under the key.
fn kept_at(book: &Book, number: u32, peer: u32, key: u8) -> Option<Kept> {
    match what_at(book, number) {
        Some(What::Credited(credit)) => {
            if credit.peer != peer || credit.key.as_slice() != key_octets(key).as_slice() {
                return None;
            }
            Some(Kept {
                number,
                named: credit.named,
                scale: credit.scale,
                credited: credit.credited,
                change: change_of(&credit.kind),
            })
        }
        _ => None,
    }
}
