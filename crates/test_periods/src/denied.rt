//! Each growth denied in turn.

use crate::configured::PERIODS;
use ilp_accounts::Config;
use ilp_book::{Book, ForwardFault};
use ilp_journal::{CreditKind, Key, What};
use ilp_settlement::Quantity;
use std::alloc::Allocator;
use std::process::Abort;
use std::test::Fail;
use test_allocator::DenyingAllocator;

// 2025-01-01T00:00:00Z.
const START: i64 = 1_735_689_600_000;

// More growths than are made.
const GROWTHS: u64 = 1_000;

// How many growths a new book makes: one for each of its lists, which are the pages of the journal,
// the peers' assets, the sums of the peers, their open settlements, and the sums of the assets.
const FIRST_OF_A_BOOK: u64 = 5;

// How many keys are brought forward: more than a page, each with a growth of its own.
const KEYS: u16 = 260;

// Bob, in the first period and in the second.
const BOB: u32 = 1;

const BOB_LATER: u32 = 3;

#[test]
fn each_growth_denied(rt: HostRuntime) -> Result<(), Fail> {
    let [first, second, _] = PERIODS;
    let text = first.text(rt.alloc())?;
    let config = Config::read(rt.alloc(), text.as_bytes())?;
    let text = second.text(rt.alloc())?;
    let later = Config::read(rt.alloc(), text.as_bytes())?;
    bring_over_each(&rt, &config, &later)
}

// Each key takes a growth as it is credited, and one more as it is brought forward.
fn bring_over_each(
    rt: &(impl Abort + AllocGlobal),
    config: &Config,
    later: &Config,
) -> Result<(), Fail> {
    let filling = FIRST_OF_A_BOOK + u64::from(KEYS);
    for granted in filling..GROWTHS {
        let heap = DenyingAllocator::after(rt.alloc(), granted);
        bring_over(rt, config, later, &heap, &heap)?;
        if !heap.has_denied() {
            assert!(rt; granted > filling + filling, "pages and keys, twice");
            return Ok(());
        }
    }
    panic!(rt; "some growth was always denied");
}

// The heap is that of both books, by which denials are seen. Where one comes while the first is filled,
// that is all.
fn bring_over<A: Allocator + Clone, B: Allocator>(
    rt: &(impl Abort + AllocGlobal),
    config: &Config,
    later: &Config,
    heap: A,
    denying: &DenyingAllocator<B>,
) -> Result<(), Fail> {
    let mut book = Book::new(heap.clone()?, config)?;
    fill(rt, &mut book)?;
    if !denying.has_denied() {
        bring(rt, &book, later, heap, denying);
    }
    Ok(())
}

// Credits bob under each key, and asks for what is due to bob, as far as memory is granted.
fn fill<A: Allocator + Clone>(
    rt: &(impl Abort + AllocGlobal),
    book: &mut Book<A>,
) -> Result<(), Fail> {
    let quantity = Quantity {
        amount: 10,
        scale: 2,
    };
    for key in 0..KEYS {
        let Some(key) = Key::new(rt.alloc(), key.to_be_bytes().as_slice())? else {
            panic!(rt; "no key");
        };
        assert!(rt; BOB < book.config().peers());
        let _ = book.credit(0, BOB, key, &quantity, CreditKind::Settled, START);
    }
    assert!(rt; BOB < book.config().peers());
    let _ = book.ask(0, BOB, START);
    Ok(())
}

// Brings a book forward.
fn bring<A: Allocator + Clone, B: Allocator>(
    rt: &impl Abort,
    book: &Book<A>,
    config: &Config,
    heap: A,
    denying: &DenyingAllocator<B>,
) {
    match book.bring_forward(heap, config, START) {
        Ok(next) => {
            assert!(rt; !denying.has_denied());
            look_at(rt, &next);
        }
        Err(fault) => {
            assert!(rt; denying.has_denied());
            assert_eq!(rt; fault, ForwardFault::Memory);
        }
    }
}

// A balance, the keys and a settlement are there.
fn look_at<A: Allocator>(rt: &impl Abort, next: &Book<A>) {
    assert_eq!(rt; next.len(), u32::from(KEYS) + 2);
    assert_eq!(rt; next.balance(BOB_LATER), 2_600 - 700);
    let Some(entry) = next.entry(next.len().saturating_sub(1)) else {
        panic!(rt; "no entry");
    };
    let What::Pending { peer, amount, key } = &entry.what else {
        panic!(rt; "no settlement");
    };
    assert_eq!(rt; (*peer, *amount), (BOB_LATER, 700));
    assert_eq!(rt; key.as_slice(), b"r1-260".as_slice());
}
