//! Settlements in books, and what ends holds and settlements after each kind of entry.

use super::books::{DEADLINE, START, hold};
use super::{FIRST_OF_A_BOOK, GROWTHS, lending};
use ilp_accounts::Config;
use ilp_book::{
    AskFault, Asked, Book, CreditFault, EngineVerdict, Kept, NotOpen, Outcome, PeerReply,
};
use ilp_journal::{CreditKind, Key};
use ilp_settlement::Quantity;
use std::alloc::Allocator;
use std::process::Abort;
use std::test::Fail;
use test_allocator::DenyingAllocator;

// The peers, both of which settle.
pub(super) const ALICE: u32 = 0;

pub(super) const BOB: u32 = 1;

// How often bob is credited and settled with, in three entries, which take more than a page of the
// journal.
const ROUNDS: u8 = 90;

// How many entries there are before those that matter: the one after eight of these is the first of
// a page.
pub(super) const FILLED: u32 = 3_064;

// 2,000 units of the peers' asset.
const QUANTITY: Quantity = Quantity {
    amount: 2_000,
    scale: 2,
};

// The key of a round.
fn key(rt: &(impl Abort + AllocGlobal), round: u8) -> Key {
    match Key::new(rt.alloc(), &[b'k', round]) {
        Ok(Some(key)) => key,
        _ => panic!(rt; "a key of two octets"),
    }
}

// A credit of a peer; where it is denied memory it changes nothing, and succeeds when asked again.
pub(super) fn credit<A: Allocator + Clone>(
    rt: &(impl Abort + AllocGlobal),
    book: &mut Book<A>,
    peer: u32,
    round: u8,
) {
    let number = book.len();
    let owed = book.balance(peer);
    assert!(rt; peer < book.config().peers());
    let mut outcome = book.credit(
        0,
        peer,
        key(rt, round),
        &QUANTITY,
        CreditKind::Settled,
        START,
    );
    if outcome == Err(CreditFault::Memory) {
        assert_eq!(rt; (book.len(), book.balance(peer)), (number, owed));
        assert!(rt; peer < book.config().peers());
        outcome = book.credit(
            0,
            peer,
            key(rt, round),
            &QUANTITY,
            CreditKind::Settled,
            START,
        );
    }
    let kept = Kept {
        number,
        amount: 2_000,
        fresh: true,
    };
    assert_eq!(rt; outcome, Ok(kept));
}

// The same key and quantity once more.
pub(super) fn credit_again<A: Allocator + Clone>(
    rt: &(impl Abort + AllocGlobal),
    book: &mut Book<A>,
    round: u8,
    number: u32,
) {
    assert!(rt; book.config().peers() == 2);
    let outcome = book.credit(
        0,
        BOB,
        key(rt, round),
        &QUANTITY,
        CreditKind::Settled,
        START,
    );
    let kept = Kept {
        number,
        amount: 2_000,
        fresh: false,
    };
    assert_eq!(rt; outcome, Ok(kept));
}

// An ask to a peer; where it is denied memory it changes nothing, and succeeds when asked again.
pub(super) fn ask<A: Allocator + Clone>(
    rt: &impl Abort,
    book: &mut Book<A>,
    peer: u32,
    amount: u64,
) {
    let number = book.len();
    let owed = book.balance(peer);
    assert!(rt; peer < book.config().peers());
    let mut outcome = book.ask(0, peer, START);
    if outcome == Err(AskFault::Memory) {
        assert_eq!(rt; (book.len(), book.balance(peer)), (number, owed));
        assert!(rt; peer < book.config().peers());
        outcome = book.ask(0, peer, START);
    }
    assert_eq!(rt; outcome, Ok(Asked { number, amount }));
}

#[test]
fn settling(rt: HostRuntime) -> Result<(), Fail> {
    let config = lending(rt.alloc())?;
    settle_over_each(&rt, &config)
}

fn settle_over_each(rt: &(impl Abort + AllocGlobal), config: &Config) -> Result<(), Fail> {
    for granted in FIRST_OF_A_BOOK..GROWTHS {
        let heap = DenyingAllocator::after(rt.alloc(), granted);
        settle_over(rt, config, &heap)?;
        if !heap.has_denied() {
            assert!(rt;
                granted > FIRST_OF_A_BOOK + 13 + u64::from(ROUNDS),
                "pages, and each key"
            );
            return Ok(());
        }
    }
    assert!(rt; false, "some growth was always denied");
    Ok(())
}

// In each round bob is credited, asked for what lies above 200 units, and paid.
fn settle_over<A: Allocator + Clone>(
    rt: &(impl Abort + AllocGlobal),
    config: &Config,
    heap: A,
) -> Result<(), Fail> {
    let mut book = Book::new(heap, config)?;
    fill(rt, &mut book);
    let mut amount = 1_800;
    for round in 0..ROUNDS {
        let number = book.len();
        credit(rt, &mut book, BOB, round);
        credit_again(rt, &mut book, round, number);
        ask(rt, &mut book, BOB, amount);
        close(
            rt,
            &mut book,
            number.saturating_add(1),
            EngineVerdict::Accepted,
        );
        assert_eq!(rt; book.balance(BOB), 200);
        amount = 2_000;
    }
    assert_eq!(rt; book.len(), FILLED + 3 * u32::from(ROUNDS));
    Ok(())
}

// Closes a settlement, and finds it closed when asked again.
fn close<A: Allocator>(rt: &impl Abort, book: &mut Book<A>, number: u32, verdict: EngineVerdict) {
    let entry = book.len();
    assert_eq!(rt; book.settle_close(0, number, verdict, START), Ok(entry));
    let closed = NotOpen {
        closer: Some(entry),
    };
    assert_eq!(rt; book.settle_close(0, number, verdict, START), Err(closed));
}

// The entry after which a hold or a settlement is ended.
#[derive(Clone, Copy)]
enum Last {
    Asked,
    Credited,
    Held,
    Fulfilled,
    Released,
    Confirmed,
    Undone,
}

const EACH_LAST: [Last; 7] = [
    Last::Asked,
    Last::Credited,
    Last::Held,
    Last::Fulfilled,
    Last::Released,
    Last::Confirmed,
    Last::Undone,
];

// What ends a hold or a settlement.
#[derive(Clone, Copy)]
enum Ending {
    Answer,
    Sweep,
    Close(EngineVerdict),
}

const EACH_ENDING: [Ending; 3] = [
    Ending::Answer,
    Ending::Sweep,
    Ending::Close(EngineVerdict::Accepted),
];

#[test]
fn ending_takes_no_memory_after_any_entry(rt: HostRuntime) -> Result<(), Fail> {
    let config = lending(rt.alloc())?;
    for last in EACH_LAST {
        for ending in EACH_ENDING {
            end_over_each(&rt, &config, last, ending)?;
        }
    }
    Ok(())
}

#[test]
fn undoing_takes_no_memory_after_any_entry(rt: HostRuntime) -> Result<(), Fail> {
    let config = lending(rt.alloc())?;
    for last in EACH_LAST {
        end_over_each(&rt, &config, last, Ending::Close(EngineVerdict::Refused))?;
    }
    Ok(())
}

fn end_over_each(
    rt: &(impl Abort + AllocGlobal),
    config: &Config,
    last: Last,
    ending: Ending,
) -> Result<(), Fail> {
    for granted in FIRST_OF_A_BOOK..GROWTHS {
        let heap = DenyingAllocator::after(rt.alloc(), granted);
        end_over(rt, config, &heap, &heap, last, ending)?;
        if !heap.has_denied() {
            return Ok(());
        }
    }
    assert!(rt; false, "some growth was always denied");
    Ok(())
}

// Once the entries are made, the next growth is denied, unless one was: so where the last of them
// was granted, what ends a hold or a settlement makes none. The heap is that of the book, by which
// denials are seen.
fn end_over<A: Allocator + Clone, B: Allocator>(
    rt: &(impl Abort + AllocGlobal),
    config: &Config,
    heap: A,
    denying: &DenyingAllocator<B>,
    last: Last,
    ending: Ending,
) -> Result<(), Fail> {
    let mut book = Book::new(heap, config)?;
    end_after(rt, &mut book, denying, last, ending);
    Ok(())
}

fn end_after<A: Allocator + Clone, B: Allocator>(
    rt: &(impl Abort + AllocGlobal),
    book: &mut Book<A>,
    denying: &DenyingAllocator<B>,
    last: Last,
    ending: Ending,
) {
    fill(rt, book);
    hold(rt, book);
    hold(rt, book);
    hold(rt, book);
    credit(rt, book, ALICE, 0);
    ask(rt, book, ALICE, 1_500);
    credit(rt, book, BOB, 0);
    ask(rt, book, BOB, 1_800);
    book_last(rt, book, last);
    let had_denied = denying.has_denied();
    end_by(rt, book, ending);
    assert_eq!(rt; denying.has_denied(), had_denied);
}

// Ends the second of the holds that matter, the one whose deadline comes first of those that are
// open, or the settlement to bob.
fn end_by<A: Allocator>(rt: &impl Abort, book: &mut Book<A>, ending: Ending) {
    match ending {
        Ending::Answer => {
            let entry = book.len();
            let outcome = book.answer(0, FILLED + 1, PeerReply::Fulfill([0; 32]), START);
            assert_eq!(rt; outcome, Ok(Outcome::Fulfilled { entry }));
        }
        Ending::Sweep => assert!(rt; book.expire_one(0, DEADLINE).is_some()),
        Ending::Close(verdict) => close(rt, book, FILLED + 6, verdict),
    }
}

// Books holds, each of which is released.
pub(super) fn fill<A: Allocator + Clone>(rt: &impl Abort, book: &mut Book<A>) {
    for _ in 0..FILLED / 2 {
        let number = book.len();
        hold(rt, book);
        assert!(rt; book.answer(0, number, PeerReply::NoReply, START).is_ok());
    }
    assert_eq!(rt; book.len(), FILLED);
}

// Makes the last entry. Of those that matter the first is the hold that is answered, the fifth the
// settlement to alice.
fn book_last<A: Allocator + Clone>(
    rt: &(impl Abort + AllocGlobal),
    book: &mut Book<A>,
    last: Last,
) {
    match last {
        Last::Asked => {}
        Last::Credited => credit(rt, book, ALICE, 1),
        Last::Held => hold(rt, book),
        Last::Fulfilled => {
            let outcome = book.answer(0, FILLED, PeerReply::Fulfill([0; 32]), START);
            assert!(rt; outcome.is_ok());
        }
        Last::Released => {
            let outcome = book.answer(0, FILLED, PeerReply::NoReply, START);
            assert!(rt; outcome.is_ok());
        }
        Last::Confirmed => close(rt, book, FILLED + 4, EngineVerdict::Accepted),
        Last::Undone => close(rt, book, FILLED + 4, EngineVerdict::Refused),
    }
}
