//! Growths of memory that are denied, in turn.

use super::Given;
use super::answering::answer_each;
use super::playing::{bob, engine};
use super::turns::settle_each;
use crate::links::clocks::Still;
use crate::links::engine::Wanting;
use crate::peers::START;
use crate::told::print_book;
use ilp_desk::{Desk, Naming, Share};
use ilp_settler::{NoSettler, Settler};
use ilp_workers::{EngineLink, Forgetful, Worker};
use std::alloc::Allocator;
use std::io;
use std::sync::Wait;
use test_allocator::DenyingAllocator;

/// Has each worker of a desk take the steps: the first without its first growth, the second without
/// its second, and so on.
pub(crate) fn deny_workers<J: Naming, R: Print + Wait>(
    rt: &R,
    desk: &Desk<J>,
    shares: Vec<Share<J>>,
    given: &Given<'_>,
) -> io::Result<()> {
    let workers = desk.lock(rt).workers();
    for share in shares {
        if share.actor() < workers {
            work_denied(rt, desk, share, given)?;
        }
    }
    print_book(rt, desk.lock(rt).book())
}

// Denies a worker the growth of its own number, from 0.
fn work_denied<J: Naming, R: Print + Wait>(
    rt: &R,
    desk: &Desk<J>,
    share: Share<J>,
    given: &Given<'_>,
) -> io::Result<()> {
    let granted = u64::from(share.actor());
    let heap = DenyingAllocator::after(desk.config().allocator(), granted);
    work_over(rt, desk, share, &heap, given)?;
    println!(rt; "denied: {}", heap.has_denied())
}

fn work_over<J: Naming, R: Print + Wait, A: Allocator + Copy>(
    rt: &R,
    desk: &Desk<J>,
    share: Share<J>,
    heap: A,
    given: &Given<'_>,
) -> io::Result<()> {
    let uplink = bob(rt, desk, given);
    let link = engine(rt, desk, given);
    match Worker::new(
        heap,
        share,
        desk.receipt(rt),
        Still(START),
        uplink,
        link,
        Forgetful,
    ) {
        Ok(mut worker) => answer_each(rt, desk, &mut worker, given),
        Err(_) => println!(rt; "no worker"),
    }
}

/// Has the worker of a desk take its steps, and then the settler: first without its first growth,
/// which hands its share back, and then without its second, over a way to the engine that is denied
/// its first growth for an account, and its first for a settlement.
pub(crate) fn deny_settler<J: Naming, R: Print + Wait>(
    rt: &R,
    desk: &Desk<J>,
    shares: Vec<Share<J>>,
    given: &Given<'_>,
) -> io::Result<()> {
    let mut shares = shares.into_iter();
    let worker = shares.next();
    let _sweeper = shares.next();
    match (worker, shares.next()) {
        (Some(worker), Some(settler)) => {
            work_over(rt, desk, worker, desk.config().allocator(), given)?;
            deny_each(rt, desk, settler, given)?;
            print_book(rt, desk.lock(rt).book())
        }
        _ => println!(rt; "no shares"),
    }
}

fn deny_each<J: Naming, R: Print + Wait>(
    rt: &R,
    desk: &Desk<J>,
    share: Share<J>,
    given: &Given<'_>,
) -> io::Result<()> {
    match deny_making(rt, desk, share, given) {
        Some(share) => settle_denied(rt, desk, share, given),
        None => println!(rt; "a settler without its first growth"),
    }
}

// Denies a settler its first growth. What it hands back is its share.
fn deny_making<J: Naming, R: Print + Wait>(
    rt: &R,
    desk: &Desk<J>,
    share: Share<J>,
    given: &Given<'_>,
) -> Option<Share<J>> {
    let heap = DenyingAllocator::after(desk.config().allocator(), 0);
    let link = engine(rt, desk, given);
    match Settler::new(
        &heap,
        share,
        desk.receipt(rt),
        Still(START),
        link,
        Forgetful,
    ) {
        Ok(_) => None,
        Err(
            NoSettler {
                share,
                receipt: _,
                clock,
                engine: _,
                keeper: _,
            },
        ) => {
            let _ = println!(rt; "no settler; its clock as given: {}", clock.0 == START);
            Some(share)
        }
    }
}

// Denies a settler its second growth, and the way to the engine its first ones.
fn settle_denied<J: Naming, R: Print + Wait>(
    rt: &R,
    desk: &Desk<J>,
    share: Share<J>,
    given: &Given<'_>,
) -> io::Result<()> {
    let alloc = desk.config().allocator();
    let heap = DenyingAllocator::after(alloc, 1);
    let accounts = DenyingAllocator::after(alloc, 0);
    let settlements = DenyingAllocator::after(alloc, 0);
    let link = Wanting {
        engine: engine(rt, desk, given),
        accounts: &accounts,
        settlements: &settlements,
    };
    settle_over(rt, desk, share, &heap, link, given)?;
    println!(rt; "denied: {}", heap.has_denied())?;
    println!(rt; "denied of accounts: {}", accounts.has_denied())?;
    println!(rt; "denied of settlements: {}", settlements.has_denied())
}

fn settle_over<J: Naming, B: Allocator, E: EngineLink + Drop>(
    rt: &(impl Print + Wait),
    desk: &Desk<J>,
    share: Share<J>,
    heap: &DenyingAllocator<B>,
    link: E,
    given: &Given<'_>,
) -> io::Result<()> {
    match Settler::new(heap, share, desk.receipt(rt), Still(START), link, Forgetful) {
        Ok(mut settler) => settle_each(rt, desk, &mut settler, given),
        Err(_) => println!(rt; "no settler"),
    }
}
