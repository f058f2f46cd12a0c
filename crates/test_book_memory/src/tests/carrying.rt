//! Books that are saved and carried over.

use super::books::{CONDITION, DEADLINE, START, hold};
use super::settlements::{ALICE, BOB, FILLED, ask, credit, credit_again, fill};
use super::{FIRST_OF_A_BOOK, GROWTHS, LENDING, lending};
use ilp_accounts::Config;
use ilp_book::{AskFault, Asked, Book, BrokenRule, CarryFault};
use ilp_io::{Narrow, Recording, WhenFull, WriteFault};
use ilp_journal::{Cause, What};
use ilp_packet::Prepare;
use std::alloc::{AllocError, Allocator, Global};
use std::process::Abort;
use std::test::Fail;
use test_allocator::DenyingAllocator;

// When books are carried over: one millisecond before the deadline of a hold, and at that of another.
const CARRIED: i64 = DEADLINE - 1;

// It expires a second after the moment at which books are carried over.
const SHORT: Prepare<'static> = Prepare {
    amount: 100,
    expires: CARRIED + 1_000,
    condition: &CONDITION,
    destination: b"test.bob",
    payload: b"",
};

// What is saved of a book in which just what is open, and the credit, was booked.
const TEXT: &str = "\
ilp-journal 1
1735689600000 0 credited bob 6b00 2000 2 2000
1735689600000 0 asked bob 1800
1735689600000 0 hold alice bob 100 0 100 1735689628999 66687aadf862bd776c8fc18b8e9f8e20089714856ee233b3902a591d0d5f2925
1735689600000 0 hold alice bob 100 0 100 1735689629000 66687aadf862bd776c8fc18b8e9f8e20089714856ee233b3902a591d0d5f2925
end 4
";

// A credit of bob, a settlement to bob that stays open, and two holds that do.
fn book_open<A: Allocator + Clone>(rt: &(impl Abort + AllocGlobal), book: &mut Book<A>) {
    credit(rt, book, BOB, 0);
    ask(rt, book, BOB, 1_800);
    assert!(rt; book.config().peers() == 2);
    assert!(rt; book.hold(0, ALICE, &SHORT, START).is_ok());
    hold(rt, book);
}

#[test]
fn each_growth_denied(rt: HostRuntime) -> Result<(), Fail> {
    let config = lending(rt.alloc())?;
    let text = saved_text(&rt, &config)?;
    carry_over_each(&rt, &config, &text);
    Ok(())
}

// The text of a book with a long journal, at the end of which something is open.
fn saved_text(rt: &(impl Abort + AllocGlobal), config: &Config) -> Result<Vec<u8>, AllocError> {
    let mut book = Book::new(rt.alloc(), config)?;
    fill(rt, &mut book);
    book_open(rt, &mut book);
    let mut sink = Recording::new(rt.alloc());
    assert_eq!(rt; book.save(book.config(), &mut sink), Ok(()));
    Ok(sink.octets)
}

fn carry_over_each(rt: &(impl Abort + AllocGlobal), config: &Config, text: &[u8]) {
    for granted in 0..GROWTHS {
        let heap = DenyingAllocator::after(rt.alloc(), granted);
        carry_over(rt, config, text, &heap, &heap);
        if !heap.has_denied() {
            assert!(rt;
                granted > FIRST_OF_A_BOOK + 13 + 2,
                "pages, the table of holds, and a key"
            );
            return;
        }
    }
    assert!(rt; false, "some growth was always denied");
}

// The heap is that of the book, by which denials are seen.
fn carry_over<A: Allocator + Clone, B: Allocator>(
    rt: &(impl Abort + AllocGlobal),
    config: &Config,
    text: &[u8],
    heap: A,
    denying: &DenyingAllocator<B>,
) {
    match Book::carry_over(heap, config, text, CARRIED) {
        Ok(mut book) => {
            assert!(rt; !denying.has_denied());
            look_at(rt, &mut book);
        }
        Err(fault) => {
            assert!(rt; denying.has_denied());
            assert_eq!(rt; fault, CarryFault::Memory);
        }
    }
}

// The holds are ended, and all else is as it was.
fn look_at<A: Allocator + Clone>(rt: &(impl Abort + AllocGlobal), book: &mut Book<A>) {
    assert_eq!(rt; (book.len(), book.base()), (FILLED + 6, FILLED + 6));
    assert_eq!(rt; (book.balance(ALICE), book.balance(BOB)), (0, 200));
    assert!(rt; is_ended(book, FILLED + 4, FILLED + 2, Cause::Late));
    assert!(rt; is_ended(book, FILLED + 5, FILLED + 3, Cause::Restart));
    credit_again(rt, book, 0, FILLED);
    let asked = Asked {
        number: FILLED + 1,
        amount: 1_800,
    };
    assert_eq!(rt; book.open_settlement(BOB, None), Some(asked));
    assert!(rt; BOB < book.config().peers());
    let low = AskFault::NotDue { balance: 200 };
    assert_eq!(rt; book.ask(0, BOB, CARRIED), Err(low));
}

// Whether an entry releases a hold for this cause, at the moment at which the book was carried over.
fn is_ended<A: Allocator>(book: &Book<A>, number: u32, ended: u32, why: Cause) -> bool {
    let Some(entry) = book.entry(number) else {
        return false;
    };
    match &entry.what {
        What::Released { hold, cause } => {
            entry.moment == CARRIED && entry.actor == 0 && *hold == ended && *cause == why
        }
        _ => false,
    }
}

// The text was saved where no `settle_max` was configured. It goes on where one is, unless the
// settlement in it is of more.
#[test]
fn an_earlier_settlement_beside_a_settle_max(rt: HostRuntime) -> Result<(), Fail> {
    let alloc = rt.alloc();
    let too_much = CarryFault::Unlawful {
        entry: 1,
        rule: BrokenRule::NotDue,
    };
    assert_eq!(rt; fault_of(alloc, TEXT, "")?, None);
    assert_eq!(rt; fault_of(alloc, TEXT, "settle_max = 1800")?, None);
    assert_eq!(rt; fault_of(alloc, TEXT, "settle_max = 1799")?, Some(too_much));
    Ok(())
}

#[test]
fn four_open_settlements_and_a_fifth(rt: HostRuntime) -> Result<(), Fail> {
    let fifth = CarryFault::Unlawful {
        entry: 5,
        rule: BrokenRule::StillOpen,
    };
    assert_eq!(rt; fault_of_parts(rt.alloc(), 4)?, None);
    assert_eq!(rt; fault_of_parts(rt.alloc(), 5)?, Some(fifth));
    Ok(())
}

// Why so many open settlements are not carried over.
fn fault_of_parts(alloc: Global, parts: u32) -> Result<Option<CarryFault>, Fail> {
    let text = text_of_parts(alloc, parts)?;
    fault_of(alloc, &text, "settle_max = 300")
}

// The text of a journal in which bob is owed 3000, and so many settlements of 300 are open.
fn text_of_parts(alloc: Global, parts: u32) -> Result<String, AllocError> {
    let mut text = String::new(alloc);
    text.push_str("ilp-journal 1\n1735689600000 0 credited bob 6b00 3000 2 3000\n")?;
    for _ in 0..parts {
        text.push_str("1735689600000 0 asked bob 300\n")?;
    }
    let last = format!(in alloc; "end {}\n", parts.saturating_add(1))?;
    text.push_str(&last)?;
    Ok(text)
}

// Why a text is not carried over, where the configuration has this line more of bob.
fn fault_of(alloc: Global, text: &str, line: &str) -> Result<Option<CarryFault>, Fail> {
    let config = lending_with(alloc, line)?;
    Ok(fault_under(alloc, &config, text))
}

fn fault_under(alloc: Global, config: &Config, text: &str) -> Option<CarryFault> {
    match Book::carry_over(alloc, config, text.as_bytes(), CARRIED) {
        Ok(_book) => None,
        Err(fault) => Some(fault),
    }
}

// The peers that lend, with a line more of bob, whose table is the last of theirs.
fn lending_with(alloc: Global, line: &str) -> Result<Config, Fail> {
    let (peers, routes) = LENDING.split_once("[[route]]").ok_or("no route")?;
    let text = format!(in alloc; "{peers}{line}\n[[route]]{routes}")?;
    let config = Config::read(alloc, text.as_bytes())?;
    Ok(config)
}

#[test]
fn a_writer_that_stops_at_each_octet(rt: HostRuntime) -> Result<(), Fail> {
    let config = lending(rt.alloc())?;
    let mut book = Book::new(rt.alloc(), &config)?;
    book_open(&rt, &mut book);
    for room in 0..TEXT.len() {
        save_into(&rt, &book, room, WhenFull::TakesNone, Err(WriteFault));
        save_into(&rt, &book, room, WhenFull::Fails, Err(WriteFault));
    }
    save_into(&rt, &book, TEXT.len(), WhenFull::Fails, Ok(()));
    Ok(())
}

fn save_into(
    rt: &(impl Abort + AllocGlobal),
    book: &Book,
    room: usize,
    when_full: WhenFull,
    wanted: Result<(), WriteFault>,
) {
    let mut sink = Narrow::new(rt.alloc(), 7, room, when_full);
    let outcome = book.save(book.config(), &mut sink);
    assert_eq!(rt; outcome, wanted, "with room for {room}");
    assert_eq!(rt; sink.recording.failures, u64::from(wanted.is_err()));
    assert_eq!(rt;
        Some(sink.recording.octets.as_slice()),
        TEXT.as_bytes().get(..room)
    );
}
