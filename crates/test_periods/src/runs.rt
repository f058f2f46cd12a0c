//! Random calls over three periods.

mod calls;
mod history;

use crate::configured::{PERIODS, Terms};
pub(crate) use calls::Caller;
use history::History;
use ilp_accounts::Config;
use ilp_book::Book;
use ilp_io::Recording;
use std::alloc::Global;
use std::process::Abort;
use std::test::Fail;

// 2025-01-01T00:00:00Z.
const START: i64 = 1_735_689_600_000;

// How many calls are made in a period.
const CALLS: u32 = 400;

// How much later the books are closed, when each hold is late; milliseconds.
const LATER: i64 = 60_000;

#[test]
fn first_run(rt: HostRuntime) -> Result<(), Fail> {
    run(&rt, 1)
}

#[test]
fn second_run(rt: HostRuntime) -> Result<(), Fail> {
    run(&rt, 2)
}

#[test]
fn third_run(rt: HostRuntime) -> Result<(), Fail> {
    run(&rt, 52)
}

// A run of this seed.
fn run(rt: &(impl Abort + AllocGlobal), seed: u64) -> Result<(), Fail> {
    let [first, second, third] = PERIODS;
    let config = config_of(rt, &first)?;
    let mut caller = Caller::new(seed, START);
    let mut history = History::new(rt.alloc());

    let mut book = Book::new(rt.alloc(), &config)?;
    make_calls(rt, &mut book, &first, &mut caller, &mut history)?;

    let mut book = next_period(rt, &book, &second, &mut caller, &mut history)?;
    make_calls(rt, &mut book, &second, &mut caller, &mut history)?;

    let mut book = next_period(rt, &book, &third, &mut caller, &mut history)?;
    make_calls(rt, &mut book, &third, &mut caller, &mut history)?;
    assert!(rt; history.has_enough(), "a run in which too little came up");
    Ok(())
}

fn config_of(rt: &(impl Abort + AllocGlobal), terms: &Terms) -> Result<Config, Fail> {
    let text = terms.text(rt.alloc())?;
    match Config::read(rt.alloc(), text.as_bytes()) {
        Ok(config) => Ok(config),
        Err(fault) => panic!(rt; "{fault}"),
    }
}

// Makes the calls of a period, ends its holds, and walks over its entries.
fn make_calls(
    rt: &(impl Abort + AllocGlobal),
    book: &mut Book,
    terms: &Terms,
    caller: &mut Caller,
    history: &mut History,
) -> Result<(), Fail> {
    for _ in 0..CALLS {
        caller.call(rt.alloc(), book, terms)?;
    }
    let now = caller.wait(LATER);
    for _ in 0..=CALLS {
        let _ = book.expire_one(0, now);
    }
    assert_eq!(rt; book.expire_one(0, now), None);
    history.walk_over(rt, book, terms)?;
    check_balances(rt, book, terms, history);
    Ok(())
}

// Each balance is what the entries of all periods come to.
fn check_balances(rt: &impl Abort, book: &Book, terms: &Terms, history: &History) {
    for name in terms.peers {
        if let Some(place) = terms.place_of(*name) {
            assert_eq!(rt; book.balance(place), history.balance(*name), "of {name}");
        }
    }
}

// Brings a book forward, and compares the next one with what the entries of all periods come to.
fn next_period(
    rt: &(impl Abort + AllocGlobal),
    book: &Book,
    terms: &Terms,
    caller: &mut Caller,
    history: &mut History,
) -> Result<Book, Fail> {
    let config = config_of(rt, terms)?;
    let now = caller.wait(LATER);
    history.leave_out(terms);
    let wanted = history.text(rt.alloc(), book.period().saturating_add(1), now, terms)?;
    match book.bring_forward(rt.alloc(), &config, now) {
        Ok(mut next) => {
            check_text(rt, &next, wanted.as_bytes());
            check_carried(rt, &config, wanted.as_bytes(), now);
            check_next(rt, &mut next, terms, history, now)?;
            Ok(next)
        }
        Err(fault) => panic!(rt; "not brought forward: {fault}"),
    }
}

// What the book saves is the text.
fn check_text(rt: &(impl Abort + AllocGlobal), book: &Book, wanted: &[u8]) {
    let mut sink = Recording::new(rt.alloc());
    assert_eq!(rt; book.save(book.config(), &mut sink), Ok(()));
    assert_eq!(rt; sink.octets.as_slice(), wanted);
}

// What begins with the text saves it too.
fn check_carried(rt: &(impl Abort + AllocGlobal), config: &Config, text: &[u8], now: i64) {
    match Book::carry_over(rt.alloc(), config, text, now) {
        Ok(carried) => check_text(rt, &carried, text),
        Err(fault) => panic!(rt; "not carried over: {fault}"),
    }
}

// All of the next book lies below its base. Its balances, keys, settlements and sums are those that are
// to be.
fn check_next(
    rt: &(impl Abort + AllocGlobal),
    next: &mut Book,
    terms: &Terms,
    history: &History,
    now: i64,
) -> Result<(), Fail> {
    assert_eq!(rt; next.base(), next.len());
    assert_eq!(rt; next.fulfilled(), 0);
    check_balances(rt, next, terms, history);
    for name in terms.peers {
        let asset = terms.asset_of(*name);
        let sums = next.sums(asset);
        assert_eq!(rt; sums.settled, history.settled(terms, asset));
        assert_eq!(rt;
            (sums.held, sums.fees, sums.bought, sums.sold),
            (0, 0, 0, 0)
        );
        history.check_settlements(rt, next, terms, *name);
    }
    let len = next.len();
    history.check_keys(rt, next, terms, now)?;
    assert_eq!(rt; next.len(), len);
    Ok(())
}
