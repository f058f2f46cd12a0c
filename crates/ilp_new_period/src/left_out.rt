//! What is left out with peers that the next configuration lacks.

use ilp_accounts::Config;
use ilp_book::Book;
use ilp_notices::keys_left_out;
use std::io::Eprint;
use std::time::Clock;

/// Tells of each peer that the next configuration lacks, and that has keys, how many are forgotten with it.
pub(crate) fn tell_left_out<R: Clock + Eprint>(rt: &R, ended: &Book, next: &Config) {
    let config = ended.config();
    for peer in 0..config.peers() {
        let name = config.name(peer);
        if next.peer_by_name(name.as_bytes()).is_none() {
            tell_keys(rt, name, keys_of(ended, peer));
        }
    }
}

fn tell_keys<R: Clock + Eprint>(rt: &R, name: &str, keys: u32) {
    if keys > 0 {
        keys_left_out(rt, name, keys);
    }
}

// How many keys of a peer a book keeps.
fn keys_of(book: &Book, peer: u32) -> u32 {
    let mut keys = 0u32;
    for number in 0..book.len() {
        let credit = book.entry(number).and_then(|entry| entry.what.credit());
        if credit.is_some_and(|credit| credit.peer == peer) {
            keys = keys.saturating_add(1);
        }
    }
    keys
}
