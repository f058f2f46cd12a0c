//! Books.

use super::{FIRST_OF_A_BOOK, GROWTHS, lending};
use ilp_accounts::Config;
use ilp_book::{Book, Held, HoldFault, Outcome, PeerReply};
use ilp_journal::Cause;
use ilp_packet::Prepare;
use std::alloc::Allocator;
use std::process::Abort;
use std::test::Fail;
use test_allocator::DenyingAllocator;

// 2025-01-01T00:00:00Z.
pub(super) const START: i64 = 1_735_689_600_000;

// The SHA-256 digest of 32 zero octets (by Python's hashlib).
pub(super) const CONDITION: [u8; 32] = [
    0x66, 0x68, 0x7a, 0xad, 0xf8, 0x62, 0xbd, 0x77, 0x6c, 0x8f, 0xc1, 0x8b, 0x8e, 0x9f, 0x8e, 0x20,
    0x08, 0x97, 0x14, 0x85, 0x6e, 0xe2, 0x33, 0xb3, 0x90, 0x2a, 0x59, 0x1d, 0x0d, 0x5f, 0x29, 0x25,
];

const PREPARE: Prepare<'static> = Prepare {
    amount: 100,
    expires: START + 30_000,
    condition: &CONDITION,
    destination: b"test.bob",
    payload: b"",
};

pub(super) const DEADLINE: i64 = START + 29_000;

// How many holds are made: with what ends them there are 3,000 entries, in twelve pages.
const HOLDS: u32 = 1_500;

// A hold of alice; where it is denied memory it changes nothing, and succeeds when asked again.
pub(super) fn hold<A: Allocator + Clone>(rt: &impl Abort, book: &mut Book<A>) {
    let number = book.len();
    let owed = book.balance(0);
    assert!(rt; book.config().peers() == 2);
    let mut outcome = book.hold(0, 0, &PREPARE, START);
    if outcome == Err(HoldFault::Memory) {
        assert_eq!(rt; (book.len(), book.balance(0)), (number, owed));
        assert!(rt; book.config().peers() == 2);
        outcome = book.hold(0, 0, &PREPARE, START);
    }
    let held = Held {
        number,
        to: 1,
        out: 100,
        deadline: DEADLINE,
    };
    assert_eq!(rt; outcome, Ok(held));
}

#[test]
fn a_new_book(rt: HostRuntime) -> Result<(), Fail> {
    let config = lending(rt.alloc())?;
    for granted in 0..FIRST_OF_A_BOOK {
        let heap = DenyingAllocator::after(rt.alloc(), granted);
        assert!(rt; Book::new(&heap, &config).is_err());
        assert!(rt; heap.has_denied());
    }
    let heap = DenyingAllocator::after(rt.alloc(), FIRST_OF_A_BOOK);
    assert!(rt; Book::new(&heap, &config).is_ok());
    assert!(rt; !heap.has_denied());
    Ok(())
}

#[test]
fn holding(rt: HostRuntime) -> Result<(), Fail> {
    let config = lending(rt.alloc())?;
    hold_over_each(&rt, &config)
}

fn hold_over_each(rt: &(impl Abort + AllocGlobal), config: &Config) -> Result<(), Fail> {
    for granted in FIRST_OF_A_BOOK..GROWTHS {
        let heap = DenyingAllocator::after(rt.alloc(), granted);
        hold_over(rt, config, &heap)?;
        if !heap.has_denied() {
            assert!(rt;
                granted > FIRST_OF_A_BOOK + 12,
                "pages, and the table of holds"
            );
            return Ok(());
        }
    }
    assert!(rt; false, "some growth was always denied");
    Ok(())
}

fn hold_over<A: Allocator + Clone>(rt: &impl Abort, config: &Config, heap: A) -> Result<(), Fail> {
    let mut book = Book::new(heap, config)?;
    hold_all(rt, &mut book);
    Ok(())
}

fn hold_all<A: Allocator + Clone>(rt: &impl Abort, book: &mut Book<A>) {
    for _ in 0..HOLDS {
        hold(rt, book);
    }
    assert_eq!(rt; book.len(), HOLDS);
    assert_eq!(rt; (book.balance(0), book.balance(1)), (-150_000, 0));
}

// What releases a hold, when it comes, and the cause that it is released for.
const ANSWERS: [(PeerReply, i64, Cause); 5] = [
    (PeerReply::Fulfill([1; 32]), START, Cause::WrongPreimage),
    (PeerReply::BadFulfill, START, Cause::WrongPreimage),
    (PeerReply::Reject(*b"F99"), START, Cause::Peer(*b"F99")),
    (PeerReply::NoReply, START, Cause::NoReply),
    (PeerReply::NoReply, DEADLINE, Cause::Late),
];

#[test]
fn ending_holds_takes_no_memory(rt: HostRuntime) -> Result<(), Fail> {
    let config = lending(rt.alloc())?;
    end_over_each(&rt, &config)
}

fn end_over_each(rt: &(impl Abort + AllocGlobal), config: &Config) -> Result<(), Fail> {
    for granted in FIRST_OF_A_BOOK..GROWTHS {
        let heap = DenyingAllocator::after(rt.alloc(), granted);
        end_over(rt, config, &heap, &heap)?;
        if !heap.has_denied() {
            return Ok(());
        }
    }
    assert!(rt; false, "some growth was always denied");
    Ok(())
}

// Once the holds are made, the next growth is denied, unless one was: so where the last of them
// was granted, no answer and no sweep makes one. The heap is that of the book, by which denials are
// seen.
fn end_over<A: Allocator + Clone, B: Allocator>(
    rt: &impl Abort,
    config: &Config,
    heap: A,
    denying: &DenyingAllocator<B>,
) -> Result<(), Fail> {
    let mut book = Book::new(heap, config)?;
    end_after(rt, &mut book, denying);
    Ok(())
}

fn end_after<A: Allocator + Clone, B: Allocator>(
    rt: &impl Abort,
    book: &mut Book<A>,
    denying: &DenyingAllocator<B>,
) {
    hold_all(rt, book);
    let had_denied = denying.has_denied();
    end_all(rt, book);
    assert_eq!(rt; denying.has_denied(), had_denied);
}

// The first holds are answered, and the others swept.
fn end_all<A: Allocator>(rt: &impl Abort, book: &mut Book<A>) {
    let outcome = book.answer(0, 0, PeerReply::Fulfill([0; 32]), START);
    assert_eq!(rt; outcome, Ok(Outcome::Fulfilled { entry: HOLDS }));
    let mut entry = HOLDS + 1;
    let mut number = 1;
    for (reply, now, cause) in ANSWERS {
        let outcome = book.answer(0, number, reply, now);
        assert_eq!(rt; outcome, Ok(Outcome::Released { entry, cause }));
        entry = entry.saturating_add(1);
        number = number.saturating_add(1);
    }
    for swept in number..HOLDS {
        assert_eq!(rt; book.expire_one(0, DEADLINE), Some(swept));
    }
    assert_eq!(rt; book.expire_one(0, DEADLINE), None);
    assert_eq!(rt; book.len(), 2 * HOLDS);
    assert_eq!(rt; (book.balance(0), book.balance(1)), (-100, 100));
}
