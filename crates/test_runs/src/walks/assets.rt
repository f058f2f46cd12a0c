//! The books of an asset.

use crate::configured::asset_of;
use crate::walks::{Ends, ask_at, hold_at, is_fall, open_hold_at, what_at};
use ilp_book::{Book, Sums};
use ilp_journal::{Hold, What};

/// What the books of an asset come to.
pub(crate) fn sums(book: &Book, ends: &Ends, asset: u32) -> Sums {
    let mut sums = Sums {
        settled: 0,
        held: held(book, ends, asset),
        fees: 0,
        bought: 0,
        sold: 0,
    };
    for number in 0..book.len() {
        if let Some(what) = what_at(book, number) {
            sums.settled = sums.settled.wrapping_add(settled_by(book, asset, what));
            if let What::Fulfilled { hold, .. } = what {
                add_fulfilled(&mut sums, book, asset, *hold);
            }
        }
    }
    sums
}

// The amounts of the open holds whose senders pay in it.
fn held(book: &Book, ends: &Ends, asset: u32) -> i128 {
    let mut held = 0i128;
    for number in 0..book.len() {
        if let Some(hold) = open_hold_at(book, ends, number) {
            if asset_of(hold.from) == asset {
                held = held.wrapping_add(i128::from(hold.amount));
            }
        }
    }
    held
}

// Credited amounts, less those of corrections downwards and asked ones, plus undone ones.
fn settled_by(book: &Book, asset: u32, what: &What) -> i128 {
    match what {
        What::Credited(credit) if asset_of(credit.peer) == asset => {
            let amount = i128::from(credit.credited);
            if is_fall(&credit.kind) {
                0i128.wrapping_sub(amount)
            } else {
                amount
            }
        }
        What::Asked(ask) if asset_of(ask.peer) == asset => {
            0i128.wrapping_sub(i128::from(ask.amount))
        }
        What::Undone { ask } => match ask_at(book, *ask) {
            Some(ask) if asset_of(ask.peer) == asset => i128::from(ask.amount),
            _ => 0,
        },
        _ => 0,
    }
}

// Of a fulfilled hold, the fee and the rest of the amount are of the sender's asset, and the amount out
// of the receiver's.
fn add_fulfilled(sums: &mut Sums, book: &Book, asset: u32, number: u32) {
    let Some(hold) = hold_at(book, number) else {
        return;
    };
    if asset_of(hold.from) == asset {
        let net = i128::from(hold.amount).wrapping_sub(i128::from(hold.fee));
        sums.fees = sums.fees.wrapping_add(i128::from(hold.fee));
        sums.bought = sums.bought.wrapping_add(net);
    }
    if asset_of(hold.to) == asset {
        sums.sold = sums.sold.wrapping_add(i128::from(hold.out));
    }
}

/// The amounts of the open and the fulfilled holds since the base whose senders pay in the asset.
pub(crate) fn total_in(book: &Book, ends: &Ends, asset: u32) -> u128 {
    let mut total = 0u128;
    for number in book.base()..book.len() {
        if let Some(hold) = unreleased(book, ends, number) {
            if asset_of(hold.from) == asset {
                total = total.wrapping_add(u128::from(hold.amount));
            }
        }
    }
    total
}

/// The amounts out of the open and the fulfilled holds since the base whose receivers are paid in the
/// asset.
pub(crate) fn total_out(book: &Book, ends: &Ends, asset: u32) -> u128 {
    let mut total = 0u128;
    for number in book.base()..book.len() {
        if let Some(hold) = unreleased(book, ends, number) {
            if asset_of(hold.to) == asset {
                total = total.wrapping_add(u128::from(hold.out));
            }
        }
    }
    total
}

// The hold under a number, unless it was released.
fn unreleased<'a>(book: &'a Book, ends: &Ends, number: u32) -> Option<&'a Hold> {
    let hold = hold_at(book, number)?;
    let Some(answer) = ends.closer_of(number) else {
        return Some(hold);
    };
    match what_at(book, answer) {
        Some(What::Released { .. }) => None,
        _ => Some(hold),
    }
}
