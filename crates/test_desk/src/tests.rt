//! Desks with two peers, which pay each other through two threads at once.

ghost use Rattle.std.specs.Prelude.{◌≡◌};
ghost use Rattle.ilp_desk.specs.Desk.{actors_of, base_of};

use ilp_accounts::Config;
use ilp_book::{Book, Outcome, PeerReply};
use ilp_desk::{Desk, EntryList, Naming, Share, WhyNoDesk};
use ilp_io::Recording;
use ilp_packet::Prepare;
use ilp_report::{Snapshot, print};
use std::alloc::{AllocError, Allocator, Global};
use std::marker::Brand;
use std::process::Abort;
use std::sync::Wait;
use std::sync::ledger::Blank;
use std::test::*;
use std::thread::{Threads, map_vec};
use test_allocator::DenyingAllocator;

// 2025-01-01T00:00:00Z.
const START: i64 = 1_735_689_600_000;

// The SHA-256 digest of 32 zero octets (by Python's hashlib).
const CONDITION: [u8; 32] = [
    0x66, 0x68, 0x7a, 0xad, 0xf8, 0x62, 0xbd, 0x77, 0x6c, 0x8f, 0xc1, 0x8b, 0x8e, 0x9f, 0x8e, 0x20,
    0x08, 0x97, 0x14, 0x85, 0x6e, 0xe2, 0x33, 0xb3, 0x90, 0x2a, 0x59, 0x1d, 0x0d, 0x5f, 0x29, 0x25,
];

const TO_ALICE: Prepare<'static> = Prepare {
    amount: 100,
    expires: START + 30_000,
    condition: &CONDITION,
    destination: b"test.alice",
    payload: b"",
};

const TO_BOB: Prepare<'static> = Prepare {
    amount: 100,
    expires: START + 30_000,
    condition: &CONDITION,
    destination: b"test.bob",
    payload: b"",
};

// Two peers in one asset, each of which may owe 10,000 units.
const LENDING: &str = r#"address = "test.hub"
run = "r1"
[[asset]]
code = "USD"
scale = 2
[[peer]]
name = "alice"
asset = "USD/2"
token = "a-token"
out_token = "to-alice"
host = "127.0.0.1:7001"
least = -10000
[[peer]]
name = "bob"
asset = "USD/2"
token = "b-token"
out_token = "to-bob"
host = "127.0.0.1:7002"
least = -10000
[[route]]
prefix = "test.alice"
peer = "alice"
[[route]]
prefix = "test.bob"
peer = "bob"
"#;

// How many packets each actor passes on.
const PACKETS: u32 = 20;

// The report once eight actors have passed their packets on: half of the packets are of each peer, so
// that both paid 8,000 and got as much.
const REPORT: &str = "balance   alice                                            0
balance   bob                                              0
open      alice                                            0
open      bob                                              0
held      USD/2                                            0
fees      USD/2                                            0
bought    USD/2                                        16000
sold      USD/2                                        16000
settled   USD/2                                            0
entries                                                  320
fulfilled                                                160
";

// More growths than a snapshot makes.
const GROWTHS: u64 = 1_000;

fn lending(alloc: Global) -> Result<Config, Fail> {
    let config = Config::read(alloc, LENDING.as_bytes())?;
    Ok(config)
}

// What an actor did: its share, and how many of its packets were fulfilled.
#[derive(Drop)]
struct Passed<J: Naming> {
    share: Share<J>,
    fulfilled: u32,
}

// Passes packets on, of which each is fulfilled: of alice where the actor's number is even, else of
// bob.
fn pass_on<J: Naming>(rt: &impl Wait, desk: &Desk<J>, mut share: Share<J>) -> Passed<J> {
    let from = share.actor() % 2;
    let prepare = if from == 0 { TO_BOB } else { TO_ALICE };
    let mut fulfilled = 0u32;
    for _turn in 0..PACKETS {
        if from >= desk.config().peers() {
            break;
        }
        let Ok(held) = desk.hold(rt, &mut share, from, &prepare, START) else {
            break;
        };
        let reply = PeerReply::Fulfill([0; 32]);
        if let Ok(Outcome::Fulfilled { .. }) = desk.answer(
            rt,
            &mut share,
            held.number,
            reply,
            START,
        ) {
            fulfilled = fulfilled.saturating_add(1);
        }
    }
    Passed { share, fulfilled }
}

// How many entries of the book are the actor's.
fn entries_of(book: &Book, actor: u32) -> u32 {
    let mut entries = 0u32;
    for number in 0..book.len() {
        if let Some(entry) = book.entry(number) {
            if entry.actor == actor {
                entries = entries.saturating_add(1);
            }
        }
    }
    entries
}

// Compares the shares with the book.
fn compare<J: Naming>(rt: &impl Abort, book: &Book, passed: &Vec<Passed<J>>) {
    let mut sum = 0u64;
    for (place, one) in passed.iter().enumerate() {
        assert!(rt; one.share.actor() as usize == place);
        assert_eq!(rt; one.fulfilled, PACKETS);
        assert_eq!(rt; one.share.entries(), 2 * PACKETS);
        assert_eq!(rt; entries_of(book, one.share.actor()), 2 * PACKETS);
        sum = sum.saturating_add(u64::from(one.share.entries()));
    }
    assert_eq!(rt; sum, u64::from(book.len()));
}

// Takes snapshots with each growth denied in turn, and prints the one of ample memory.
fn report_each<J: Naming>(rt: &(impl Abort + Wait), desk: &Desk<J>) {
    let alloc = desk.config().allocator();
    for granted in 0..GROWTHS {
        let heap = DenyingAllocator::after(alloc, granted);
        match desk.snapshot(rt, &heap) {
            Ok(snapshot) => {
                assert!(rt; !heap.has_denied());
                assert!(rt; granted > 1);
                assert_prints(rt, alloc, &snapshot);
                return;
            }
            Err(AllocError) => assert!(rt; heap.has_denied(), "after {granted} growths"),
        }
    }
    assert!(rt; false, "some growth was always denied");
}

fn assert_prints<A: Allocator>(rt: &impl Abort, alloc: Global, snapshot: &Snapshot<A>) {
    let mut printed = Recording::new(alloc);
    assert_eq!(rt; print(snapshot, &mut printed), Ok(()));
    assert_eq!(rt; printed.octets.as_slice(), REPORT.as_bytes());
}

// All actors book at once; then the shares are compared with the book, which is reported.
fn book_all<J: Naming + Send + Sync, R: Threads + Wait + Abort + Sync>(
    rt: &R,
    desk: &Desk<J>,
    shares: Vec<Share<J>>,
) -> Result<usize, AllocError> {
    let passed = map_vec(rt, shares, &|share| pass_on(rt, desk, share))?;
    compare(rt, desk.lock(rt).book(), &passed);
    report_each(rt, desk);
    Ok(passed.len())
}

// How many actors booked at once, if the desk opens.
fn book_at_once<J: Naming + Send + Sync, R: Threads + Wait + Abort + Sync>(
    rt: &R,
    alloc: Global,
    config: &Config,
    book: Book,
    workers: u32,
    blanks: Blank,
    list: EntryList,
) -> Option<usize>
    requires config { (config.now ≡ J.desk.config) × (book.config ≡ J.desk.config) }
    requires workers { workers ≡ J.desk.workers }
    requires period { book.period ≡ J.desk.period }
    requires opening { (book.entries ≡ J.desk.opening) × (book.base ≡ base_of J.desk) }
    requires ledger { (blanks.name ≡ J.name) × (blanks.parts ≡ J.parts) }
    requires parts { J.parts ≡ actors_of J.desk }
    requires list { list ≡ J.list }
{
    match Desk::<J>::open(alloc, config, book, workers, blanks, list) {
        Ok((desk, shares)) => book_all(rt, &desk, shares).ok(),
        Err(_) => None,
    }
}

// The same over a book of no entries.
fn at_once<R: Threads + Wait + Abort + Sync>(
    rt: &R,
    config: &Config,
    workers: u32,
) -> Result<Option<usize>, AllocError> {
    let alloc = config.allocator();
    let book = Book::new(alloc, config)?;
    let blanks = Blank::new(u64::from(workers) + 2);
    let list = EntryList::new(alloc)?;
    Ok(book_at_once::<Brand, R>(rt, alloc, config, book, workers, blanks, list))
}

#[test]
fn all_actors_at_once(rt: HostRuntime) -> Result<(), Fail> {
    let config = lending(rt.alloc())?;
    assert_eq!(rt; at_once(&rt, &config, 6)?, Some(8));
    Ok(())
}

// Why no desk is opened.
fn refused<J: Naming, A: Allocator>(
    alloc: A,
    config: &Config,
    book: Book,
    workers: u32,
    blanks: Blank,
    list: EntryList,
) -> Option<WhyNoDesk>
    requires config { (config.now ≡ J.desk.config) × (book.config ≡ J.desk.config) }
    requires workers { workers ≡ J.desk.workers }
    requires period { book.period ≡ J.desk.period }
    requires opening { (book.entries ≡ J.desk.opening) × (book.base ≡ base_of J.desk) }
    requires ledger { (blanks.name ≡ J.name) × (blanks.parts ≡ J.parts) }
    requires parts { J.parts ≡ actors_of J.desk }
    requires list { list ≡ J.list }
{
    match Desk::<J>::open(alloc, config, book, workers, blanks, list) {
        Ok(_) => None,
        Err(refused) => Some(refused.why),
    }
}

// Why no desk of so many workers is opened over a book of no entries.
fn refusal<A: Allocator>(
    config: &Config,
    alloc: A,
    workers: u32,
) -> Result<Option<WhyNoDesk>, AllocError> {
    let book = Book::new(config.allocator(), config)?;
    let blanks = Blank::new(u64::from(workers) + 2);
    let list = EntryList::new(config.allocator())?;
    Ok(refused::<Brand, A>(alloc, config, book, workers, blanks, list))
}

// Desks of 1 and of 64 workers open, those of 0 and of 65 don't.
fn open_by_workers(rt: &impl Abort, config: &Config) -> Result<(), AllocError> {
    let heap = config.allocator();
    assert_eq!(rt; refusal(config, heap, 0)?, Some(WhyNoDesk::BadWorkers));
    assert_eq!(rt; refusal(config, heap, 1)?, None);
    assert_eq!(rt; refusal(config, heap, 64)?, None);
    assert_eq!(rt; refusal(config, heap, 65)?, Some(WhyNoDesk::BadWorkers));
    Ok(())
}

// The one growth for the shares is denied, and then granted.
fn open_by_growths(rt: &impl Abort, config: &Config) -> Result<(), AllocError> {
    let heap = config.allocator();
    let why = refusal(config, DenyingAllocator::after(heap, 0), 2)?;
    assert_eq!(rt; why, Some(WhyNoDesk::Memory));
    let why = refusal(config, DenyingAllocator::after(heap, 1), 2)?;
    assert_eq!(rt; why, None);
    Ok(())
}

#[test]
fn opening(rt: HostRuntime) -> Result<(), Fail> {
    let config = lending(rt.alloc())?;
    open_by_workers(&rt, &config)?;
    open_by_growths(&rt, &config)?;
    Ok(())
}
