//! One packet of alice: what bob is handed, what alice is answered, and what is booked.
ghost use Rattle.std.specs.Prelude.{◌≡◌};

use super::Given;
use crate::links::bob::Bob;
use crate::links::clocks::TwoMoments;
use crate::links::engine::NoEngine;
use crate::links::noting::Noting;
use crate::peers::ALICE;
use crate::told::{print_actor, print_book, print_octets};
use ilp_desk::{Desk, Naming, Share};
use ilp_workers::{Clock, Forgetful, Receipt, Uplink, Worker};
use std::alloc::{Allocator, Global};
use std::io;
use std::sync::Wait;

/// Has the first worker of a desk forward the packet.
pub(crate) fn forward_one<J: Naming, R: Print + Wait>(
    rt: &R,
    desk: &Desk<J>,
    shares: Vec<Share<J>>,
    given: &Given<'_>,
) -> io::Result<()> {
    let Some(share) = shares.into_iter().next() else {
        return println!(rt; "no share");
    };
    let alloc = desk.config().allocator();
    let clock = TwoMoments::new(rt, alloc, given.moments);
    let uplink = Bob {
        rt,
        alloc,
        came: given.came,
    };
    let uplink = Noting::new(alloc, uplink);
    match Worker::new(
        alloc,
        share,
        desk.receipt(rt),
        clock,
        uplink,
        NoEngine,
        Forgetful,
    ) {
        Ok(mut worker) => print_forward(rt, desk, &mut worker, given),
        Err(_) => println!(rt; "no worker"),
    }
}

/// Prints what a worker answers alice for a packet, and what it and its desk book.
pub(crate) fn print_forward<J: Naming, C: Clock + Drop, U: Uplink + Drop>(
    rt: &(impl Print + Wait),
    desk: &Desk<J>,
    worker: &mut Worker<J, C, U, NoEngine, Forgetful>,
    given: &Given<'_>,
) -> io::Result<()> {
    print_answer(rt, desk, worker, given)?;
    print_book(rt, desk.lock(rt).book())
}

/// Prints what a worker answers alice for a packet, and what it books.
pub(crate) fn print_answer<J: Naming, C: Clock + Drop, U: Uplink + Drop, A: Allocator + Copy>(
    rt: &(impl Print + Wait),
    desk: &Desk<J>,
    worker: &mut Worker<J, C, U, NoEngine, Forgetful, A>,
    given: &Given<'_>,
) -> io::Result<()> {
    if ALICE >= desk.config().peers() {
        return println!(rt; "no peer");
    }
    match worker.forward(rt, desk, ALICE, given.packet) {
        Ok(receipt) => println!(rt; "{receipt:?}")?,
        Err(why) => println!(rt; "refused: {why}")?,
    }
    print_reply(rt, desk.config().allocator(), worker.reply(), given.came)?;
    print_actor(rt, worker.share(), worker.records())
}

// Of many octets it prints whether they are those that bob replied.
fn print_reply(
    rt: &impl Print,
    alloc: Global,
    reply: &[u8],
    came: Option<&[u8]>,
) -> io::Result<()> {
    if reply.len() <= 128 {
        return print_octets(rt, alloc, "answer", reply);
    }
    let is_passed = Some(reply) == came;
    println!(rt; "answer: {} octets, those of bob: {is_passed}", reply.len())
}

/// Has the worker forward what a peer sent, if that is a Prepare and there is such a peer.
pub(crate) fn forward<J: Naming, C: Clock + Drop, U: Uplink + Drop>(
    rt: &impl Wait,
    worker: &mut Worker<J, C, U, NoEngine, Forgetful>,
    desk: &Desk<J>,
    from: u32,
    packet: &[u8],
) -> Option<Receipt>
    ensures pending { worker.new.pending ≡ worker.old.pending }
{
    if from < desk.config().peers() {
        worker.forward(rt, desk, from, packet).ok()
    } else {
        None
    }
}
