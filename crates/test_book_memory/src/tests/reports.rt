//! Reports of books.

use super::books::{START, hold};
use super::{GROWTHS, LENDING, lending};
use ilp_accounts::Config;
use ilp_book::{Book, Outcome, PeerReply};
use ilp_io::Recording;
use ilp_report::{Snapshot, print};
use std::alloc::{AllocError, Allocator};
use std::process::Abort;
use std::test::Fail;
use test_allocator::DenyingAllocator;

// A payment of alice, and a hold of hers that is open.
const PAID_AND_HELD: &str = "balance   alice                                         -200\n\
    balance   bob                                            100\n\
    open      alice                                            1\n\
    open      bob                                              0\n\
    held      USD/2                                          100\n\
    fees      USD/2                                            0\n\
    bought    USD/2                                          100\n\
    sold      USD/2                                          100\n\
    settled   USD/2                                            0\n\
    entries                                                    3\n\
    fulfilled                                                  1\n";

// What is left of holds that were all released.
const RELEASED: &str = "balance   alice                                            0\n\
    balance   bob                                              0\n\
    open      alice                                            0\n\
    open      bob                                              0\n\
    held      USD/2                                            0\n\
    fees      USD/2                                            0\n\
    bought    USD/2                                            0\n\
    sold      USD/2                                            0\n\
    settled   USD/2                                            0\n\
    entries                                                70000\n\
    fulfilled                                                  0\n";

#[test]
fn a_payment_and_a_hold(rt: HostRuntime) -> Result<(), Fail> {
    let config = lending(rt.alloc())?;
    let mut book = Book::new(rt.alloc(), &config)?;
    pay_and_hold(&rt, &mut book);
    report_each(&rt, &book, PAID_AND_HELD);
    Ok(())
}

// In a book of the longest journal that may be configured.
#[test]
fn seventy_thousand_entries(rt: HostRuntime) -> Result<(), Fail> {
    let text = format!(in rt.alloc(); "journal = 16777216\n{LENDING}")?;
    let config = Config::read(rt.alloc(), text.as_bytes())?;
    let mut book = Book::new(rt.alloc(), &config)?;
    for _ in 0..35_000 {
        hold_and_release(&rt, &mut book);
    }
    let snapshot = Snapshot::of(rt.alloc(), &book)?;
    assert_prints(&rt, &snapshot, RELEASED);
    Ok(())
}

fn hold_and_release(rt: &impl Abort, book: &mut Book) {
    let number = book.len();
    hold(rt, book);
    let outcome = book.answer(0, number, PeerReply::NoReply, START);
    assert!(rt; matches!(outcome, Ok(Outcome::Released { .. })));
}

fn pay_and_hold(rt: &impl Abort, book: &mut Book) {
    hold(rt, book);
    let outcome = book.answer(0, 0, PeerReply::Fulfill([0; 32]), START);
    assert_eq!(rt; outcome, Ok(Outcome::Fulfilled { entry: 1 }));
    hold(rt, book);
}

/// Takes a snapshot of a book with each growth denied in turn, and prints the one of ample memory:
/// so the book is as it was after each denial, and its report is this text.
pub(super) fn report_each(rt: &(impl Abort + AllocGlobal), book: &Book, text: &str) {
    for granted in 0..GROWTHS {
        let heap = DenyingAllocator::after(rt.alloc(), granted);
        match Snapshot::of(&heap, book) {
            Ok(snapshot) => {
                assert!(rt; !heap.has_denied());
                assert!(rt; granted >= least_growths(book));
                assert_prints(rt, &snapshot, text);
                // The next growth would be denied, so the printing made none.
                assert!(rt; !heap.has_denied());
                return;
            }
            Err(AllocError) => assert!(rt; heap.has_denied(), "after {granted} growths"),
        }
    }
    assert!(rt; false, "some growth was always denied");
}

// A growth for each name, for the list of the peers and for that of the assets.
fn least_growths(book: &Book) -> u64 {
    let peers = u64::from(book.config().peers());
    let assets = u64::from(book.config().assets().asset_count());
    peers.saturating_add(assets).saturating_add(2)
}

fn assert_prints<A: Allocator>(
    rt: &(impl Abort + AllocGlobal),
    snapshot: &Snapshot<A>,
    text: &str,
) {
    let mut printed = Recording::new(rt.alloc());
    assert_eq!(rt; print(snapshot, &mut printed), Ok(()));
    assert_eq!(rt; printed.octets.as_slice(), text.as_bytes());
}
