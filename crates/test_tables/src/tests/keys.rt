//! Tables of keys.

use super::GROWTHS;
use ilp_settlement::KeyTable;
use std::alloc::{AllocError, Allocator};
use std::process::Abort;
use std::test::Fail;
use test_allocator::DenyingAllocator;

// A peer, a key and an entry: one key of three peers, keys that begin with others, no octet, 128
// octets, the greatest numbers.
const ROWS: [(u32, &[u8], u32); 9] = [
    (7, b"k", 3),
    (8, b"k", 5),
    (7, b"k1", 2),
    (7, b"k11", 9),
    (7, b"", 4),
    (7, &[0], 0),
    (0, &[255; 128], 6),
    (0, &[255; 127], 8),
    (u32::MAX, b"k", u32::MAX),
];

#[test]
fn rows(rt: HostRuntime) -> Result<(), Fail> {
    let mut table = KeyTable::new(rt.alloc())?;
    for (peer, key, entry) in ROWS {
        assert_eq!(rt; table.find(peer, key), None);
        table.keep(peer, key, entry)?;
    }
    for (peer, key, entry) in ROWS {
        assert_eq!(rt; table.find(peer, key), Some(entry));
    }
    assert_eq!(rt; table.find(8, b"k1"), None);
    assert_eq!(rt; table.find(9, b"k"), None);
    assert_eq!(rt; table.find(0, &[255; 126]), None);
    Ok(())
}

#[test]
fn a_new_one_takes_no_memory(rt: HostRuntime) -> Result<(), Fail> {
    let heap = DenyingAllocator::after(rt.alloc(), 0);
    let table = KeyTable::new(&heap)?;
    assert_eq!(rt; table.find(7, b"k"), None);
    assert!(rt; !heap.has_denied());
    Ok(())
}

// The peer and the key of a row: 30 peers with one key, and 30 further keys of one peer.
fn peer_and_key(number: u8) -> (u32, [u8; 2]) {
    if number % 2 == 0 {
        (u32::from(number), [0, 0])
    } else {
        (30, [1, number])
    }
}

#[test]
fn each_growth_denied(rt: HostRuntime) {
    for granted in 0..GROWTHS {
        let heap = DenyingAllocator::after(rt.alloc(), granted);
        let outcome = keep_in_turn(&rt, &heap);
        if !heap.has_denied() {
            assert_eq!(rt; outcome, Ok(()));
            return;
        }
        assert_eq!(rt; outcome, Err(AllocError), "after {granted} growths");
    }
    assert!(rt; false, "some growth was always denied");
}

// Keeps 60 keys in turn; where one is denied, all stands as it was.
fn keep_in_turn<A: Allocator + Clone>(rt: &impl Abort, alloc: A) -> Result<(), AllocError> {
    let mut table = KeyTable::new(alloc)?;
    for number in 0..60 {
        let (peer, key) = peer_and_key(number);
        let outcome = table.keep(peer, &key, u32::from(number));
        if outcome.is_err() {
            assert_kept(rt, &table, number);
            return outcome;
        }
        assert_kept(rt, &table, number + 1);
    }
    Ok(())
}

// The first so many of the 60 are kept, and no others.
fn assert_kept<A: Allocator>(rt: &impl Abort, table: &KeyTable<A>, count: u8) {
    for number in 0..60 {
        let (peer, key) = peer_and_key(number);
        let expected = if number < count {
            Some(u32::from(number))
        } else {
            None
        };
        assert!(rt; table.find(peer, &key) == expected, "{number} of {count}");
    }
}

#[derive(Clone, Copy)]
struct Listed {
    peer: u32,
    key: [u8; 2],
    entry: u32,
}

// One of three peers and 256 keys.
fn drawn(number: u32) -> (u32, [u8; 2]) {
    let mixed = number.wrapping_mul(2_654_435_761) >> 8;
    (mixed % 3, [(mixed / 3 % 16) as u8, (mixed / 48 % 16) as u8])
}

// The entry under a key, by a search of the whole list.
fn searched(list: &[Listed], peer: u32, key: [u8; 2]) -> Option<u32> {
    for one in list {
        if one.peer == peer && one.key == key {
            return Some(one.entry);
        }
    }
    None
}

#[test]
fn finds_what_a_list_has(rt: HostRuntime) -> Result<(), Fail> {
    let mut table = KeyTable::new(rt.alloc())?;
    let mut list = Vec::new(rt.alloc());
    for number in 0..600 {
        let (peer, key) = drawn(number);
        let found = table.find(peer, &key);
        assert_eq!(rt; found, searched(&list, peer, key), "before {number}");
        if found.is_none() {
            table.keep(peer, &key, number)?;
            list.push(Listed {
                peer,
                key,
                entry: number,
            })?;
        }
    }
    assert!(rt; 400 < list.len() && list.len() < 600, "{} keys", list.len());
    for number in 0..600 {
        let (peer, key) = drawn(number);
        assert_eq!(rt;
            table.find(peer, &key),
            searched(&list, peer, key),
            "after {number}"
        );
    }
    Ok(())
}
