//! Runs: a new book, and calls that are compared step by step; then the same over the book as which it
//! is carried over.

use crate::calls::{Call, Made};
use crate::carried::Texts;
use crate::choice::Caller;
use crate::configured;
use crate::entries::is_booked;
use crate::expected::expected;
use crate::kinds::Kinds;
use crate::made::make;
use crate::moments::moment_of;
use crate::readers::readers_agree;
use crate::walks::{Ends, what_at};
use ilp_accounts::Config;
use ilp_book::Book;
use ilp_journal::What;
use std::alloc::{AllocError, Global};
use std::io;

// 2025-01-01T00:00:00Z.
const START: i64 = 1_735_689_600_000;

// How many calls are made over a book that was carried over.
const STEPS_CARRIED: u32 = 100;

/// So many calls over a new book, and more that are compared.
#[derive(Clone, Copy)]
pub(crate) struct Run {
    name: u32,
    seed: u64,
    // How many calls come before them, whose replies nobody looks at. Credits are left out of these, so
    // that all keys are new.
    before: u32,
    steps: u32,
    journal: u32,
    // How long after the last call the book is carried over, if it is; milliseconds.
    pause: Option<i64>,
}

/// The runs. The second has a hold that fits only since totals count from where its book was carried over.
/// The fourth fills its journal, the clock of the sixth is set back before its book is carried over, and
/// the last begins with a long journal.
pub(crate) const RUNS: [Run; 7] = [
    Run {
        name: 1,
        seed: 1,
        before: 0,
        steps: 500,
        journal: 4096,
        pause: Some(0),
    },
    Run {
        name: 2,
        seed: 24,
        before: 0,
        steps: 500,
        journal: 4096,
        pause: Some(2_000),
    },
    Run {
        name: 3,
        seed: 3,
        before: 0,
        steps: 500,
        journal: 4096,
        pause: Some(8_000),
    },
    Run {
        name: 4,
        seed: 2,
        before: 0,
        steps: 500,
        journal: 200,
        pause: Some(16_000),
    },
    Run {
        name: 5,
        seed: 5,
        before: 0,
        steps: 500,
        journal: 4096,
        pause: Some(60_000),
    },
    Run {
        name: 6,
        seed: 6,
        before: 0,
        steps: 500,
        journal: 4096,
        pause: Some(-20_000),
    },
    Run {
        name: 7,
        seed: 7,
        before: 40_000,
        steps: 200,
        journal: 65_536,
        pause: None,
    },
];

/// Makes the calls of a run, as long as each agrees with the walks.
pub(crate) fn play<R: Print + AllocGlobal>(rt: &R, run: &Run, kinds: &mut Kinds) -> io::Result<()> {
    let text = configured::text(rt.alloc(), run.journal)?;
    match Config::read(rt.alloc(), text.as_bytes()) {
        Ok(config) => play_over(rt, run, &config, kinds),
        Err(fault) => println!(rt; "no configuration: {fault}"),
    }
}

fn play_over<R: Print + AllocGlobal>(
    rt: &R,
    run: &Run,
    config: &Config,
    kinds: &mut Kinds,
) -> io::Result<()> {
    let mut book = Book::new(rt.alloc(), config)?;
    let mut caller = Caller::new(run.seed, START);
    play_with(rt, run, &mut book, &mut caller, kinds)
}

fn play_with<R: Print + AllocGlobal>(
    rt: &R,
    run: &Run,
    book: &mut Book,
    caller: &mut Caller,
    kinds: &mut Kinds,
) -> io::Result<()> {
    make_first(rt.alloc(), run, book, caller)?;
    if !steps_agree(rt, run, run.steps, book, caller, kinds)? {
        return Ok(());
    }
    println!(rt; "run {}: {} steps agree with walks", run.name, run.steps)?;
    match run.pause {
        Some(pause) => go_on(rt, run, book, caller.wait(pause), caller, kinds),
        None => Ok(()),
    }
}

// Makes the calls whose replies nobody looks at.
fn make_first(
    alloc: Global,
    run: &Run,
    book: &mut Book,
    caller: &mut Caller,
) -> Result<(), AllocError> {
    let mut ends = Ends::of(alloc, book)?;
    for _ in 0..run.before {
        let made = caller.next_call(book, &ends);
        if !matches!(made.call, Call::Credit(_)) {
            let _ = make(alloc, book, &made)?;
            ends.walk_on(book)?;
        }
    }
    Ok(())
}

// Goes on over the book as which one is carried over at this time.
fn go_on<R: Print + AllocGlobal>(
    rt: &R,
    run: &Run,
    book: &Book,
    now: i64,
    caller: &mut Caller,
    kinds: &mut Kinds,
) -> io::Result<()> {
    let texts = Texts::of(rt.alloc(), book, moment_of(book, now))?;
    match texts.carry_over(rt, book.config(), now)? {
        Some(mut carried) => {
            note_ends(kinds, &carried, book.len());
            go_on_over(rt, run, &mut carried, caller, kinds)
        }
        None => println!(rt; "run {} is not carried over", run.name),
    }
}

// Notes why holds ended, from an entry on.
fn note_ends(kinds: &mut Kinds, book: &Book, first: u32) {
    for number in first..book.len() {
        if let Some(What::Released { cause, .. }) = what_at(book, number) {
            kinds.note_end(*cause);
        }
    }
}

fn go_on_over<R: Print + AllocGlobal>(
    rt: &R,
    run: &Run,
    book: &mut Book,
    caller: &mut Caller,
    kinds: &mut Kinds,
) -> io::Result<()> {
    if !steps_agree(rt, run, STEPS_CARRIED, book, caller, kinds)? {
        return Ok(());
    }
    println!(rt;
        "run {}: carried over, and {STEPS_CARRIED} steps agree with walks",
        run.name
    )
}

// Makes calls, as long as each agrees with the walks; the first that does not is printed.
fn steps_agree<R: Print + AllocGlobal>(
    rt: &R,
    run: &Run,
    steps: u32,
    book: &mut Book,
    caller: &mut Caller,
    kinds: &mut Kinds,
) -> io::Result<bool> {
    let mut ends = Ends::of(rt.alloc(), book)?;
    for step in 0..steps {
        let made = caller.next_call(book, &ends);
        let agrees = call_agrees(rt, book, &ends, &made, kinds)?;
        ends.walk_on(book)?;
        if !agrees || !readers_agree(rt, book, &ends)? {
            println!(rt; "run {}, step {step}: {made:?}", run.name)?;
            return Ok(false);
        }
    }
    Ok(true)
}

// Makes a call. Tells whether its reply and its entry are those that are to be, and else prints why.
fn call_agrees<R: Print + AllocGlobal>(
    rt: &R,
    book: &mut Book,
    ends: &Ends,
    made: &Made,
    kinds: &mut Kinds,
) -> io::Result<bool> {
    let before = book.len();
    let moment = moment_of(book, made.now);
    let wanted = expected(book, ends, moment, made);
    let came = make(rt.alloc(), book, made)?;
    kinds.note(&came);
    if came != wanted {
        println!(rt; "the reply is to be {wanted:?}, and is {came:?}")?;
        return Ok(false);
    }
    let added = u32::from(came.books());
    if book.len() != before.wrapping_add(added) {
        println!(rt;
            "{added} entries are to be added to {before}, and there are {}",
            book.len()
        )?;
        return Ok(false);
    }
    if came.books() && !is_booked(book, moment, made, &came) {
        println!(rt; "the entry {before} is not that of the call")?;
        return Ok(false);
    }
    Ok(true)
}
