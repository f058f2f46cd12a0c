//! A book that is brought forward by its own configuration, beside the book that it came from, which is
//! carried over. Both are asked the same, and give the same answers but for the numbers of entries.

mod calls;

use crate::configured::{PERIODS, Terms};
use crate::runs::Caller;
use calls::{Asker, Call, Reply};
use ilp_accounts::Config;
use ilp_book::Book;
use ilp_io::Recording;
use std::alloc::{AllocError, Global};
use std::process::Abort;
use std::test::Fail;

// 2025-01-01T00:00:00Z.
const START: i64 = 1_735_689_600_000;

// How many calls are made before the books are closed, and how many behind that.
const CALLS: u32 = 400;

// How much later the books are closed, when each hold is late; milliseconds.
const LATER: i64 = 60_000;

#[test]
fn answers_stay(rt: HostRuntime) -> Result<(), Fail> {
    for (seed, terms) in [(3, PERIODS[0]), (7, PERIODS[1]), (11, PERIODS[2])] {
        run(&rt, seed, &terms)?;
    }
    Ok(())
}

fn run(rt: &(impl Abort + AllocGlobal), seed: u64, terms: &Terms) -> Result<(), Fail> {
    let text = terms.text(rt.alloc())?;
    let config = Config::read(rt.alloc(), text.as_bytes())?;
    let mut book = Book::new(rt.alloc(), &config)?;
    let mut caller = Caller::new(seed, START);
    for _ in 0..CALLS {
        caller.call(rt.alloc(), &mut book, terms)?;
    }
    let now = caller.wait(LATER);
    for _ in 0..=CALLS {
        let _ = book.expire_one(0, now);
    }
    let mut next = brought_forward(rt, &book, &config, now);
    let mut before = carried(rt, &book, &config, now)?;
    ask_both(rt, &mut next, &mut before, Asker::new(seed, now))
}

fn brought_forward(
    rt: &(impl Abort + AllocGlobal),
    book: &Book,
    config: &Config,
    now: i64,
) -> Book {
    match book.bring_forward(rt.alloc(), config, now) {
        Ok(next) => next,
        Err(fault) => panic!(rt; "not brought forward: {fault}"),
    }
}

fn carried(
    rt: &(impl Abort + AllocGlobal),
    book: &Book,
    config: &Config,
    now: i64,
) -> Result<Book, Fail> {
    let mut sink = Recording::new(rt.alloc());
    if book.save(book.config(), &mut sink).is_err() {
        panic!(rt; "not saved");
    }
    Ok(Book::carry_over(rt.alloc(), config, sink.octets.as_slice(), now)?)
}

// Asks both the same.
fn ask_both(
    rt: &(impl Abort + AllocGlobal),
    next: &mut Book,
    before: &mut Book,
    mut asker: Asker,
) -> Result<(), Fail> {
    let numbers = Numbers::of(rt.alloc(), next, before)?;
    let mut booked = 0u32;
    for _ in 0..CALLS {
        let (call, now) = asker.next_call(next);
        let wanted = before_replies(rt.alloc(), before, &numbers, &call, now)?;
        let reply = call.make(rt.alloc(), next, now)?;
        assert_eq!(rt; reply, wanted, "to {call:?}");
        if reply.is_booked() {
            booked = booked.saturating_add(1);
        }
        check_peers(rt, next, before);
    }
    assert!(rt; booked > CALLS / 4, "calls that were mostly refused");
    Ok(())
}

fn before_replies(
    alloc: Global,
    before: &mut Book,
    numbers: &Numbers,
    call: &Call,
    now: i64,
) -> Result<Reply, AllocError> {
    numbers.call_before(call).make(alloc, before, now)
}

// What each peer has is the same.
fn check_peers(rt: &impl Abort, next: &Book, before: &Book) {
    for place in 0..next.config().peers() {
        assert_eq!(rt; next.balance(place), before.balance(place));
        assert_eq!(rt; next.open_holds(place), before.open_holds(place));
    }
}

// Which number in the book before has what has one in the next: of settlements that were open, and of what
// was booked since.
#[derive(Drop)]
struct Numbers {
    settlements: Vec<(u32, u32)>,
    next_len: u32,
    before_len: u32,
}

impl Numbers {
    fn of(alloc: Global, next: &Book, before: &Book) -> Result<Numbers, AllocError> {
        let mut settlements = Vec::new(alloc);
        for place in 0..next.config().peers() {
            add_settlements(next, before, place, &mut settlements)?;
        }
        Ok(Numbers {
            settlements,
            next_len: next.len(),
            before_len: before.len(),
        })
    }

    // A call as one of the book before.
    fn call_before(&self, call: &Call) -> Call {
        match *call {
            Call::Answer { number, reply } => Call::Answer {
                number: self.before(number),
                reply,
            },
            Call::Close { number, verdict } => Call::Close {
                number: self.before(number),
                verdict,
            },
            other => other,
        }
    }

    fn before(&self, number: u32) -> u32 {
        for (next, before) in &self.settlements {
            if *next == number {
                return *before;
            }
        }
        number
            .wrapping_sub(self.next_len)
            .wrapping_add(self.before_len)
    }
}

// Adds the open settlements to a peer, which stand in one order.
fn add_settlements(
    next: &Book,
    before: &Book,
    place: u32,
    to: &mut Vec<(u32, u32)>,
) -> Result<(), AllocError> {
    let mut tried = (None, None);
    for _ in 0..4 {
        let found = (
            next.open_settlement(place, tried.0),
            before.open_settlement(place, tried.1),
        );
        if let (Some(one), Some(other)) = found {
            let is_first = tried.0.is_some_and(|last| one.number <= last);
            if is_first {
                return Ok(());
            }
            to.push((one.number, other.number))?;
            tried = (Some(one.number), Some(other.number));
        }
    }
    Ok(())
}
