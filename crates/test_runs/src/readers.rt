//! The readers of a book, compared with walks over its entries.

use crate::configured::{ASSETS, PEERS};
use crate::expected::MOST_OPEN;
use crate::walks::{self, Ends};
use ilp_book::Book;
use std::io;

/// Whether each reader agrees with its walk; the first that does not is printed.
pub(crate) fn readers_agree(rt: &impl Print, book: &Book, ends: &Ends) -> io::Result<bool> {
    let fulfilled = walks::fulfilled(book);
    if book.fulfilled() != fulfilled {
        println!(rt;
            "fulfilled is to be {fulfilled}, and is {}",
            book.fulfilled()
        )?;
        return Ok(false);
    }
    for peer in 0..PEERS {
        if !peer_agrees(rt, book, ends, peer)? {
            return Ok(false);
        }
    }
    for asset in 0..ASSETS {
        if !asset_agrees(rt, book, ends, asset)? {
            return Ok(false);
        }
    }
    Ok(true)
}

fn peer_agrees(rt: &impl Print, book: &Book, ends: &Ends, peer: u32) -> io::Result<bool> {
    let balance = walks::balance(book, peer);
    if book.balance(peer) != balance {
        println!(rt;
            "balance {peer} is to be {balance}, and is {}",
            book.balance(peer)
        )?;
        return Ok(false);
    }
    let open = walks::open_holds(book, ends, peer);
    if book.open_holds(peer) != open {
        println!(rt;
            "open_holds {peer} is to be {open}, and is {}",
            book.open_holds(peer)
        )?;
        return Ok(false);
    }
    settlements_agree(rt, book, ends, peer)
}

// Behind a late entry, the end and the greatest number, and then from one open settlement to the next.
fn settlements_agree(rt: &impl Print, book: &Book, ends: &Ends, peer: u32) -> io::Result<bool> {
    let late = book.len().saturating_sub(20);
    for after in [late, book.len(), u32::MAX] {
        if !settlement_agrees(rt, book, ends, peer, Some(after))? {
            return Ok(false);
        }
    }
    each_settlement_agrees(rt, book, ends, peer)
}

fn each_settlement_agrees(
    rt: &impl Print,
    book: &Book,
    ends: &Ends,
    peer: u32,
) -> io::Result<bool> {
    let mut tried = None;
    for _ in 0..=MOST_OPEN {
        if !settlement_agrees(rt, book, ends, peer, tried)? {
            return Ok(false);
        }
        match book.open_settlement(peer, tried) {
            Some(asked) => tried = Some(asked.number),
            None => return Ok(true),
        }
    }
    Ok(true)
}

fn settlement_agrees(
    rt: &impl Print,
    book: &Book,
    ends: &Ends,
    peer: u32,
    tried: Option<u32>,
) -> io::Result<bool> {
    let open = walks::open_settlement(book, ends, peer, tried);
    let told = book.open_settlement(peer, tried);
    if told != open {
        println!(rt;
            "the settlement to {peer} after {tried:?} is to be {open:?}, and is {told:?}"
        )?;
        return Ok(false);
    }
    Ok(true)
}

fn asset_agrees(rt: &impl Print, book: &Book, ends: &Ends, asset: u32) -> io::Result<bool> {
    let sums = walks::sums(book, ends, asset);
    let told = book.sums(asset);
    if told != sums {
        println!(rt; "sums {asset} are to be {sums:?}, and are {told:?}")?;
        return Ok(false);
    }
    Ok(true)
}
