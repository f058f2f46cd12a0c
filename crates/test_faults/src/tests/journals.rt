//! Journals.

use super::GROWTHS;
use ilp_journal::{Entry, Hold, Journal, Key, What};
use std::alloc::{AllocError, Allocator};
use std::process::Abort;
use std::test::Fail;
use test_allocator::DenyingAllocator;

const HOLD: Hold = Hold {
    from: 0,
    to: 1,
    amount: 1_000,
    fee: 13,
    out: 987,
    deadline: 1_735_689_629_000,
    condition: [7; 32],
};

fn book<A: Allocator>(rt: &impl Abort, journal: &mut Journal<A>, what: What) {
    assert!(rt; journal.spare() > 0);
    assert!(rt; journal.len() < journal.limit());
    let has_hold = match what.answered() {
        Some(hold) => journal.hold(hold).is_some(),
        None => true,
    };
    assert!(rt; has_hold && what.closed().is_none());
    journal.push_reserved(Entry {
        moment: 1_735_689_600_000,
        actor: 5,
        what,
    });
}

// A page of holds, of which the first was fulfilled.
fn assert_booked<A: Allocator>(rt: &impl Abort, journal: &Journal<A>) {
    assert_eq!(rt; [journal.len(), journal.limit()], [256, 1_000]);
    assert_eq!(rt; [journal.balance(0), journal.balance(1)], [-255_000, 987]);
    assert_eq!(rt; journal.answer_of(0), Some(1));
    let hold = match journal.get(0) {
        Some(
            Entry {
                moment: 1_735_689_600_000,
                actor: 5,
                what: What::Hold(hold),
            },
        ) => Some(*hold),
        _ => None,
    };
    assert_eq!(rt; hold, Some(HOLD));
}

#[test]
fn a_new_one_takes_its_list_of_pages_at_once(rt: HostRuntime) -> Result<(), Fail> {
    let heap = DenyingAllocator::after(rt.alloc(), 0);
    assert!(rt; Journal::new(&heap, 600).is_err());
    assert!(rt; heap.has_denied());
    let heap = DenyingAllocator::after(rt.alloc(), 1);
    let journal = Journal::new(&heap, 600)?;
    assert!(rt; !heap.has_denied());
    assert!(rt; journal.is_empty());
    assert_eq!(rt; journal.limit(), 600);
    assert_eq!(rt; journal.spare(), 0);
    Ok(())
}

#[test]
fn reserving(rt: HostRuntime) -> Result<(), Fail> {
    for granted in 1..GROWTHS {
        let heap = DenyingAllocator::after(rt.alloc(), granted);
        let mut journal = Journal::new(&heap, 1_000)?;
        let outcome = reserve_page_by_page(&rt, &mut journal);
        if !heap.has_denied() {
            assert_eq!(rt; outcome, Ok(()));
            assert_eq!(rt;
                granted,
                5,
                "one growth for the list, and one for each page"
            );
            return Ok(());
        }
        assert_eq!(rt; outcome, Err(AllocError), "after {granted} growths");
    }
    assert!(rt; false, "some growth was always denied");
    Ok(())
}

// Makes room in a journal that has none, at the edge of a page, and in its midst, where two pages
// are wanted.
fn reserve_page_by_page<A: Allocator + Clone>(
    rt: &impl Abort,
    journal: &mut Journal<A>,
) -> Result<(), AllocError> {
    reserve(rt, journal, 2)?;
    assert_eq!(rt; journal.spare(), 256);
    fill(rt, journal);
    assert_booked(rt, journal);
    reserve(rt, journal, 256)?;
    assert_eq!(rt; journal.spare(), 256);
    book(rt, journal, What::Hold(HOLD));
    reserve(rt, journal, 255)?;
    assert_eq!(rt; journal.spare(), 255);
    reserve(rt, journal, 600)?;
    assert_eq!(rt; journal.spare(), 767);
    Ok(())
}

// Makes room; where that is denied, all stands as it was.
fn reserve<A: Allocator + Clone>(
    rt: &impl Abort,
    journal: &mut Journal<A>,
    additional: usize,
) -> Result<(), AllocError> {
    let (len, spare) = (journal.len(), journal.spare());
    let balances = [journal.balance(0), journal.balance(1)];
    let outcome = journal.reserve(additional);
    if outcome.is_err() {
        assert_eq!(rt; journal.spare(), spare);
    }
    assert_eq!(rt; journal.len(), len);
    assert_eq!(rt; [journal.balance(0), journal.balance(1)], balances);
    outcome
}

// Books a hold and what fulfills it, and then holds up to the page's end.
fn fill<A: Allocator>(rt: &impl Abort, journal: &mut Journal<A>) {
    book(rt, journal, What::Hold(HOLD));
    let fulfilled = What::Fulfilled {
        hold: 0,
        preimage: [0; 32],
    };
    book(rt, journal, fulfilled);
    for _number in 2..256 {
        book(rt, journal, What::Hold(HOLD));
    }
    assert_eq!(rt; journal.spare(), 0);
}

#[test]
fn reserving_more_than_there_can_be(rt: HostRuntime) -> Result<(), Fail> {
    let mut journal = Journal::new(rt.alloc(), 9)?;
    journal.reserve(2)?;
    let spare = journal.spare();
    for additional in [usize::MAX, usize::MAX / 2] {
        assert_eq!(rt; journal.reserve(additional), Err(AllocError));
        assert!(rt; journal.is_empty());
        assert_eq!(rt; journal.spare(), spare);
    }
    Ok(())
}

// A journal of the greatest limit that a configuration allows has room for more than 4,096 pages, and
// takes entries behind the number 65,535.
#[test]
fn the_longest(rt: HostRuntime) -> Result<(), Fail> {
    let mut journal = Journal::new(rt.alloc(), 16_777_216)?;
    journal.reserve(1_048_577)?;
    assert_eq!(rt; journal.spare(), 1_048_832);
    for _number in 0..65_537 {
        book(&rt, &mut journal, What::Hold(HOLD));
    }
    assert_eq!(rt; (journal.len(), journal.spare()), (65_537, 983_295));
    assert_eq!(rt; journal.hold(65_536), Some(HOLD));
    Ok(())
}

#[test]
fn a_key(rt: HostRuntime) {
    let heap = DenyingAllocator::after(rt.alloc(), 0);
    assert!(rt; matches!(Key::new(&heap, b""), Ok(None)));
    assert!(rt; !heap.has_denied());
    assert!(rt; Key::new(&heap, b"k").is_err());
    assert!(rt; heap.has_denied());
}
