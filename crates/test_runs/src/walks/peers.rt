//! Balances.

use crate::walks::{ask_at, hold_at, what_at};
use ilp_book::Book;
use ilp_journal::{CreditKind, What};

/// What the connector owes a peer.
pub(crate) fn balance(book: &Book, peer: u32) -> i128 {
    let mut owed = 0i128;
    for number in 0..book.len() {
        if let Some(what) = what_at(book, number) {
            let raised = i128::from(rise(book, peer, what));
            let lowered = i128::from(fall(peer, what));
            owed = owed.wrapping_add(raised).wrapping_sub(lowered);
        }
    }
    owed
}

// By how much an entry raises the balance of a peer.
fn rise(book: &Book, peer: u32, what: &What) -> u64 {
    match what {
        What::Fulfilled { hold, .. } => match hold_at(book, *hold) {
            Some(hold) if hold.to == peer => hold.out,
            _ => 0,
        },
        What::Released { hold, .. } => match hold_at(book, *hold) {
            Some(hold) if hold.from == peer => hold.amount,
            _ => 0,
        },
        What::Credited(credit) if credit.peer == peer && !is_fall(&credit.kind) => credit.credited,
        What::Undone { ask } => match ask_at(book, *ask) {
            Some(ask) if ask.peer == peer => ask.amount,
            _ => 0,
        },
        _ => 0,
    }
}

// Whether it is a correction downwards.
pub(crate) fn is_fall(kind: &CreditKind) -> bool {
    match kind {
        CreditKind::Lowered(_) => true,
        CreditKind::Settled | CreditKind::Raised(_) => false,
    }
}

// By how much an entry lowers the balance of a peer.
fn fall(peer: u32, what: &What) -> u64 {
    match what {
        What::Hold(hold) if hold.from == peer => hold.amount,
        What::Credited(credit) if credit.peer == peer && is_fall(&credit.kind) => credit.credited,
        What::Asked(ask) if ask.peer == peer => ask.amount,
        _ => 0,
    }
}
