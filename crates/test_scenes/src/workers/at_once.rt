//! Two workers that forward at once.

use super::Given;
use super::forwards::forward;
use super::gathering::{end_without, settler_end, sweeper_end};
use super::quiet::Quiet;
use super::reporting::print_report;
use super::totals::print_totals;
use crate::links::bob::put;
use crate::links::clocks::Still;
use crate::links::engine::NoEngine;
use crate::peers::{ALICE, START};
use crate::told::print_book;
use ilp_desk::{Desk, End, Naming, Record, Share};
use ilp_oer::Octets;
use ilp_workers::{Forgetful, LinkFault, Receipt, Uplink, Worker};
use std::alloc::Allocator;
use std::io;
use std::sync::Wait;
use std::sync::atomic::{AtomicBool, AtomicU64, Ordering};
use std::thread::{Threads, join, yield_now};

// How often a thread looks whether the other has come so far.
const TURNS: u32 = 1_000_000;

/// Waits for the other thread, and says whether it came so far.
pub(crate) fn comes(flag: &AtomicBool) -> bool {
    for _turn in 0..TURNS {
        if flag.load(Ordering::SeqCst) {
            return true;
        }
        yield_now();
    }
    false
}

/// A peer who tells that he is asked, and replies once the other worker's sender is answered.
#[derive(Drop)]
struct Patient<'a> {
    asked: &'a AtomicBool,
    answered: &'a AtomicBool,
    came: Option<&'a [u8]>,
}

impl Uplink for Patient<'_> {
    fn send<A: Allocator>(
        &mut self,
        _to: u32,
        _packet: &[u8],
        _deadline: i64,
        reply: &mut Octets<A>,
    ) -> Result<(), LinkFault> {
        self.asked.store(true, Ordering::SeqCst);
        if comes(self.answered) {
            put(self.came, reply)
        } else {
            Err(LinkFault)
        }
    }
}

/// What a worker came to.
#[derive(Clone, Copy, Debug)]
pub(crate) struct Forwarded {
    receipt: Option<Receipt>,
    // Whether alice was answered what bob replied.
    passed: bool,
    entries: u32,
    records: usize,
    record: Option<Record>,
}

/// Has two workers forward: once the first one's peer is asked, the second one forwards, and once
/// that has answered, the first one's peer replies. So no lock is held while a peer is asked. Then the
/// desk is reported, which is still open, and closed.
pub(crate) fn forward_two<J: Naming + Send + Sync, R: Print + Threads + Wait + Sync>(
    rt: &R,
    desk: Desk<J>,
    shares: Vec<Share<J>>,
    given: &Given<'_>,
) -> io::Result<()> {
    let ends = ends_of_all(rt, &desk, shares, given);
    let _ = print_desk(rt, &desk);
    print_totals(rt, desk, ends)
}

// The desk of two workers, which is open.
fn print_desk<J: Naming, R: Print + Wait>(rt: &R, desk: &Desk<J>) -> io::Result<()> {
    print_book(rt, desk.lock(rt).book())?;
    print_report(rt, desk)
}

// What the actors hand in once two of them have forwarded, as far as there is memory for it.
fn ends_of_all<J: Naming + Send + Sync, R: Print + Threads + Wait + Sync>(
    rt: &R,
    desk: &Desk<J>,
    shares: Vec<Share<J>>,
    given: &Given<'_>,
) -> Vec<End<J>> {
    let mut ends = Vec::new(desk.config().allocator());
    let mut shares = shares.into_iter();
    if let (Some(first), Some(second)) = (shares.next(), shares.next()) {
        let (first, second) = join_two(rt, desk, first, second, given);
        let _ = ends.push(first);
        let _ = ends.push(second);
    }
    if let (Some(sweeper), Some(settler)) = (shares.next(), shares.next()) {
        let _ = ends.push(sweeper_end(rt, desk, sweeper));
        let _ = ends.push(settler_end(rt, desk, settler));
    }
    ends
}

// Has two workers forward, prints what they came to, and gives what they hand in.
fn join_two<J: Naming + Send + Sync, R: Print + Threads + Wait + Sync>(
    rt: &R,
    desk: &Desk<J>,
    first: Share<J>,
    second: Share<J>,
    given: &Given<'_>,
) -> (End<J>, End<J>) {
    let asked = AtomicBool::new(false);
    let answered = AtomicBool::new(false);
    let ((first, first_end), (second, second_end)) = join(
        rt,
        || forward_patiently(rt, desk, first, given, &asked, &answered),
        || forward_promptly(rt, desk, second, given, &asked, &answered),
    );
    let _ = println!(rt; "first {first:?}");
    let _ = println!(rt; "second {second:?}");
    (first_end, second_end)
}

fn forward_patiently<J: Naming, R: Wait>(
    rt: &R,
    desk: &Desk<J>,
    share: Share<J>,
    given: &Given<'_>,
    asked: &AtomicBool,
    answered: &AtomicBool,
) -> (Option<Forwarded>, End<J>) {
    let uplink = Patient {
        asked,
        answered,
        came: given.came,
    };
    forward_by(rt, desk, share, uplink, given)
}

/// What a worker came to that forwarded once the other thread had begun.
#[derive(Clone, Copy, Debug)]
pub(crate) struct Beside {
    // Whether that had begun.
    begun: bool,
    // How often the peer was asked.
    asked: u64,
    forwarded: Option<Forwarded>,
}

/// Has a worker forward once the other thread has begun, and tells that thread when its sender is
/// answered. Gives what the worker came to, and what it hands in.
pub(crate) fn forward_promptly<J: Naming, R: Wait>(
    rt: &R,
    desk: &Desk<J>,
    share: Share<J>,
    given: &Given<'_>,
    begun: &AtomicBool,
    answered: &AtomicBool,
) -> (Beside, End<J>) {
    let begun = comes(begun);
    let asked = AtomicU64::new(0);
    let uplink = Quiet::new(given, &asked);
    let (forwarded, end) = forward_by(rt, desk, share, uplink, given);
    answered.store(true, Ordering::SeqCst);
    let beside = Beside {
        begun,
        asked: asked.load(Ordering::SeqCst),
        forwarded,
    };
    (beside, end)
}

fn forward_by<J: Naming, R: Wait, U: Uplink + Drop>(
    rt: &R,
    desk: &Desk<J>,
    share: Share<J>,
    uplink: U,
    given: &Given<'_>,
) -> (Option<Forwarded>, End<J>) {
    let alloc = desk.config().allocator();
    match Worker::new(
        alloc,
        share,
        desk.receipt(rt),
        Still(START),
        uplink,
        NoEngine,
        Forgetful,
    ) {
        Ok(mut worker) => {
            let receipt = forward(rt, &mut worker, desk, ALICE, given.packet);
            let forwarded = what_came(&worker, receipt, given);
            (Some(forwarded), worker.into_end())
        }
        Err(back) => (None, end_without(alloc, back)),
    }
}

fn what_came<J: Naming, U: Uplink + Drop>(
    worker: &Worker<J, Still, U, NoEngine, Forgetful>,
    receipt: Option<Receipt>,
    given: &Given<'_>,
) -> Forwarded {
    Forwarded {
        receipt,
        passed: Some(worker.reply()) == given.came,
        entries: worker.share().entries(),
        records: worker.records().len(),
        record: worker.records().first().copied(),
    }
}
