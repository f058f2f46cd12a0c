//! Open holds by their deadlines.

use super::GROWTHS;
use ilp_holds::HoldTable;
use std::alloc::{AllocError, Allocator};
use std::process::Abort;
use std::test::Fail;
use test_allocator::DenyingAllocator;

// Adds a hold that is not there, into room that is.
fn insert<A: Allocator>(rt: &impl Abort, table: &mut HoldTable<A>, number: u32, deadline: i64) {
    assert!(rt; table.spare() >= 1 && table.get(number).is_none());
    table.insert(number, deadline);
}

#[test]
fn the_next_one_due(rt: HostRuntime) -> Result<(), Fail> {
    let mut table = HoldTable::new(rt.alloc())?;
    assert!(rt; table.is_empty());
    assert_eq!(rt; table.earliest(), None);
    assert_eq!(rt; table.take(3), None);
    table.reserve(3)?;
    for (number, deadline) in [(5, 30), (3, 10), (7, 10)] {
        insert(&rt, &mut table, number, deadline);
    }
    assert_eq!(rt; table.earliest(), Some((10, 3)));
    assert_eq!(rt; table.take(3), Some(10));
    assert_eq!(rt; table.earliest(), Some((10, 7)));
    assert_eq!(rt; table.take(3), None);
    assert_eq!(rt; table.take(5), Some(30));
    assert_eq!(rt; table.len(), 1);
    assert_eq!(rt; table.take(7), Some(10));
    assert_eq!(rt; table.earliest(), None);
    Ok(())
}

#[test]
fn reserving(rt: HostRuntime) -> Result<(), Fail> {
    for granted in 0..GROWTHS {
        let heap = DenyingAllocator::after(rt.alloc(), granted);
        let mut table = HoldTable::new(&heap)?;
        let outcome = fill(&rt, &mut table);
        if !heap.has_denied() {
            assert_eq!(rt; outcome, Ok(()));
            assert_eq!(rt; granted, 4, "two growths for each call");
            return Ok(());
        }
        assert_eq!(rt; outcome, Err(AllocError), "after {granted} growths");
    }
    assert!(rt; false, "some growth was always denied");
    Ok(())
}

// Makes room in a table that has none, and again for many more.
fn fill<A: Allocator>(rt: &impl Abort, table: &mut HoldTable<A>) -> Result<(), AllocError> {
    reserve(rt, table, 2)?;
    insert(rt, table, 5, 30);
    insert(rt, table, 3, 10);
    reserve(rt, table, 100)
}

// Makes room; where that is denied, all stands as it was.
fn reserve<A: Allocator>(
    rt: &impl Abort,
    table: &mut HoldTable<A>,
    additional: usize,
) -> Result<(), AllocError> {
    let (len, spare, earliest) = (table.len(), table.spare(), table.earliest());
    let deadlines = [table.get(3), table.get(4), table.get(5)];
    let outcome = table.reserve(additional);
    let expected = if outcome.is_ok() { additional } else { spare };
    assert_eq!(rt; table.spare(), expected);
    assert_eq!(rt; table.len(), len);
    assert_eq!(rt; table.earliest(), earliest);
    assert_eq!(rt; [table.get(3), table.get(4), table.get(5)], deadlines);
    outcome
}

// Each of so many is the next one due in its turn.
#[test]
fn five_thousand(rt: HostRuntime) -> Result<(), Fail> {
    let mut table = HoldTable::new(rt.alloc())?;
    table.reserve(5_000)?;
    for number in 0..5_000 {
        insert(&rt, &mut table, number, i64::from(number));
    }
    assert_eq!(rt; table.len(), 5_000);
    for number in 0..5_000 {
        let deadline = i64::from(number);
        assert_eq!(rt; table.earliest(), Some((deadline, number)));
        assert_eq!(rt; table.take(number), Some(deadline));
    }
    assert!(rt; table.is_empty());
    Ok(())
}

// Numbers come again, and many have the same deadline.
#[test]
fn a_long_run(rt: HostRuntime) -> Result<(), Fail> {
    let mut table = HoldTable::new(rt.alloc())?;
    let mut plain = Vec::new(rt.alloc());
    let mut random: u64 = 1;
    for _step in 0..2_000 {
        random = random
            .wrapping_mul(6_364_136_223_846_793_005)
            .wrapping_add(1_442_695_040_888_963_407);
        let number = (random >> 33) as u32 % 256;
        let deadline = (random >> 50) as i64 % 32;
        take_or_insert(&rt, &mut table, &mut plain, number, deadline)?;
    }
    Ok(())
}

// Takes the hold of this number out of both, or adds it to both where there is none.
fn take_or_insert<A: Allocator>(
    rt: &impl Abort,
    table: &mut HoldTable<A>,
    plain: &mut Vec<(i64, u32), A>,
    number: u32,
    deadline: i64,
) -> Result<(), AllocError> {
    let place = plain.iter().position(|hold| hold.1 == number);
    let expected = match place {
        Some(place) => Some(plain.swap_remove(place).0),
        None => None,
    };
    assert_eq!(rt; table.take(number), expected);
    if place.is_none() {
        table.reserve(1)?;
        insert(rt, table, number, deadline);
        plain.push((deadline, number))?;
    }
    assert_eq!(rt; table.earliest(), plain.iter().min().copied());
    assert_eq!(rt; table.len(), plain.len());
    Ok(())
}
