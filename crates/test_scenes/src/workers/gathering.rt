//! The end of a desk: what its actors hand back, and what is gathered of it.
ghost use Rattle.std.specs.Prelude.{◌≡◌};

use super::Given;
use super::forwards::forward;
use super::quiet::Quiet;
use crate::links::clocks::Still;
use crate::links::engine::NoEngine;
use crate::peers::{ALICE, START};
use crate::told::{print_actor, print_book};
use ilp_book::{Book, PeerReply};
use ilp_desk::{Closed, Desk, End, Naming, NotGathered, Share, WhyNotGathered, gather};
use ilp_packet::Packet;
use ilp_settler::{NoSettler, Settler, Sweeper};
use ilp_workers::{EngineLink, Forgetful, NoWorker, Uplink, Worker};
use std::alloc::Global;
use std::io;
use std::sync::Wait;
use std::sync::atomic::{AtomicU64, Ordering};

/// What is left out of the ends that are handed in first.
#[derive(Clone, Copy, PartialEq, Eq)]
pub(crate) enum Missing {
    /// Nothing.
    Nothing,
    /// The sweeper's end.
    Sweeper,
    /// The settler's end.
    Settler,
    /// The records of the worker.
    Records,
    /// The record of one of the worker's two packets.
    Record,
}

/// Has the worker of a desk forward the packet, and closes the desk.
pub(crate) fn close<J: Naming, R: Print + Wait>(
    rt: &R,
    desk: Desk<J>,
    shares: Vec<Share<J>>,
    given: &Given<'_>,
    missing: Missing,
) -> io::Result<()> {
    let ends = ends_of(rt, &desk, shares, given, missing);
    let _ = print_ends(rt, &ends);
    match missing {
        Missing::Sweeper => close_later(rt, desk, ends, 1),
        Missing::Settler => close_later(rt, desk, ends, 2),
        Missing::Nothing => print_gathered(rt, desk, ends),
        Missing::Records => print_gathered(rt, desk, ends),
        Missing::Record => print_gathered(rt, desk, ends),
    }
}

// What the actors hand in, as far as there is memory for it.
fn ends_of<J: Naming>(
    rt: &(impl Print + Wait),
    desk: &Desk<J>,
    shares: Vec<Share<J>>,
    given: &Given<'_>,
    missing: Missing,
) -> Vec<End<J>> {
    let mut ends = Vec::new(desk.config().allocator());
    for share in shares {
        let end = end_of(rt, desk, share, given, missing);
        let _ = ends.push(end);
    }
    ends
}

fn print_ends<J: Naming>(rt: &impl Print, ends: &Vec<End<J>>) -> io::Result<()> {
    for end in ends {
        print_actor(rt, end.share(), end.records())?;
    }
    Ok(())
}

// What an actor of a desk with one worker hands in: the worker forwards the packet, the sweeper finds
// nothing due, and the settler does nothing.
fn end_of<J: Naming>(
    rt: &(impl Print + Wait),
    desk: &Desk<J>,
    share: Share<J>,
    given: &Given<'_>,
    missing: Missing,
) -> End<J> {
    match share.actor() {
        0 if missing == Missing::Records => booked_end(rt, desk, share, given),
        0 if missing == Missing::Record => forward_beside(rt, desk, share, given),
        0 => worker_end(rt, desk, share, given),
        1 => sweeper_end(rt, desk, share),
        _ => settler_end(rt, desk, share),
    }
}

fn worker_end<J: Naming>(
    rt: &(impl Print + Wait),
    desk: &Desk<J>,
    share: Share<J>,
    given: &Given<'_>,
) -> End<J> {
    let asked = AtomicU64::new(0);
    let uplink = Quiet::new(given, &asked);
    let end = end_over(rt, desk, share, uplink, given.packet);
    let _ = println!(rt; "asked: {}", asked.load(Ordering::SeqCst));
    end
}

// The end of a worker that forwards a packet of alice over this link.
fn end_over<J: Naming, U: Uplink + Drop>(
    rt: &impl Wait,
    desk: &Desk<J>,
    share: Share<J>,
    uplink: U,
    packet: &[u8],
) -> End<J> {
    let alloc = desk.config().allocator();
    match Worker::new(
        alloc,
        share,
        desk.receipt(rt),
        Still(START),
        uplink,
        NoEngine,
        Forgetful,
    ) {
        Ok(worker) => end_after(rt, desk, worker, packet),
        Err(back) => end_without(alloc, back),
    }
}

/// What is handed in for a worker that there is no memory for.
pub(crate) fn end_without<J: Naming, U: Uplink + Drop, E: EngineLink + Drop>(
    alloc: Global,
    back: NoWorker<J, Still, U, E, Forgetful>,
) -> End<J> {
    let NoWorker {
        share,
        receipt: _,
        clock: _,
        uplink: _,
        engine: _,
        keeper: _,
    } = back;
    End::new(share, Vec::new(alloc))
}

fn end_after<J: Naming, U: Uplink + Drop>(
    rt: &impl Wait,
    desk: &Desk<J>,
    worker: Worker<J, Still, U, NoEngine, Forgetful>,
    packet: &[u8],
) -> End<J>
    requires idle { worker.pending ≡ 0 }
{
    let mut worker = worker;
    let _ = forward(rt, &mut worker, desk, ALICE, packet);
    worker.into_end()
}

/// The end of a sweeper that had a turn when the desk opened.
pub(crate) fn sweeper_end<J: Naming>(rt: &impl Wait, desk: &Desk<J>, share: Share<J>) -> End<J> {
    let mut sweeper = Sweeper::new(desk.config().allocator(), share, Still(START));
    let _ = sweeper.turn(rt, desk);
    sweeper.into_end()
}

/// The end of a settler that had no turn.
pub(crate) fn settler_end<J: Naming>(rt: &impl Wait, desk: &Desk<J>, share: Share<J>) -> End<J> {
    let alloc = desk.config().allocator();
    match Settler::new(
        alloc,
        share,
        desk.receipt(rt),
        Still(START),
        NoEngine,
        Forgetful,
    ) {
        Ok(settler) => settler.into_end(),
        Err(back) => end_without_settler(alloc, back),
    }
}

/// What is handed in for a settler that there is no memory for.
pub(crate) fn end_without_settler<J: Naming, E: EngineLink + Drop>(
    alloc: Global,
    back: NoSettler<J, Still, E, Forgetful>,
) -> End<J> {
    let NoSettler {
        share,
        receipt: _,
        clock: _,
        engine: _,
        keeper: _,
    } = back;
    End::new(share, Vec::new(alloc))
}

// The end of a share that books the packet, and of which no record is kept.
fn booked_end<J: Naming>(
    rt: &impl Wait,
    desk: &Desk<J>,
    share: Share<J>,
    given: &Given<'_>,
) -> End<J> {
    let mut share = share;
    book_once(rt, desk, &mut share, given);
    End::new(share, Vec::new(desk.config().allocator()))
}

// The end of a worker that forwards the packet, and with whose share it was booked once before.
fn forward_beside<J: Naming>(
    rt: &(impl Print + Wait),
    desk: &Desk<J>,
    share: Share<J>,
    given: &Given<'_>,
) -> End<J> {
    let mut share = share;
    book_once(rt, desk, &mut share, given);
    worker_end(rt, desk, share, given)
}

// Books the packet as fulfilled, without a worker.
fn book_once<J: Naming>(rt: &impl Wait, desk: &Desk<J>, share: &mut Share<J>, given: &Given<'_>) {
    if let Ok(Packet::Prepare(prepare)) = Packet::read(given.packet) {
        if ALICE < desk.config().peers() {
            if let Ok(held) = desk.hold(rt, share, ALICE, &prepare, START) {
                let reply = PeerReply::Fulfill([0; 32]);
                let _ = desk.answer(rt, share, held.number, reply, START);
            }
        }
    }
}

// The desk is not closed without the end at this place, goes on, and is closed with it.
fn close_later<J: Naming>(
    rt: &impl Print,
    desk: Desk<J>,
    ends: Vec<End<J>>,
    place: usize,
) -> io::Result<()> {
    let mut ends = ends;
    if ends.len() <= place {
        return println!(rt; "no such end");
    }
    let missing = ends.remove(place);
    match gather(desk, ends) {
        Ok(_) => println!(rt; "gathered without an end"),
        Err(left) => close_left(rt, left, missing),
    }
}

// The desk is closed with the end that was missing.
fn close_left<J: Naming>(rt: &impl Print, left: NotGathered<J>, missing: End<J>) -> io::Result<()> {
    let NotGathered { desk, ends, why } = left;
    let mut ends = ends;
    let _ = println!(rt; "not gathered: {why}, {} ends are left", ends.len());
    let _ = ends.push(missing);
    print_gathered(rt, desk.into_desk(), ends)
}

fn print_gathered<J: Naming>(rt: &impl Print, desk: Desk<J>, ends: Vec<End<J>>) -> io::Result<()> {
    match book_of(desk, ends) {
        Ok(book) => print_closed(rt, book),
        Err(why) => println!(rt; "not gathered: {why}"),
    }
}

fn print_closed(rt: &impl Print, book: Book) -> io::Result<()> {
    print_book(rt, &book)
}

/// The book of the desk once its ends are gathered, or why they are not.
pub(crate) fn book_of<J: Naming>(desk: Desk<J>, ends: Vec<End<J>>) -> Result<Book, WhyNotGathered> {
    match gather(desk, ends) {
        Ok(Closed { book }) => Ok(book.into_book()),
        Err(left) => Err(why_of(left)),
    }
}

fn why_of<J: Naming>(left: NotGathered<J>) -> WhyNotGathered {
    let NotGathered {
        desk: _,
        ends: _,
        why,
    } = left;
    why
}
