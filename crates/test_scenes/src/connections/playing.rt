//! A worker and a settler that act in turn.

use super::Given;
use super::answering::answer;
use super::steps::Step;
use super::turns::settle;
use crate::links::bob::Bob;
use crate::links::clocks::TwoMoments;
use crate::links::engine::Engine;
use crate::links::keeper::Keeping;
use crate::told::{print_actor, print_book};
use ilp_desk::{Desk, Naming, Share};
use ilp_http::Buffer;
use ilp_settler::Settler;
use ilp_workers::{Clock, EngineLink, Uplink, Worker};
use std::io;
use std::sync::Wait;

/// Has the actors of a desk with one worker take the steps, and prints what they booked.
pub(crate) fn take_turns<J: Naming, R: Print + Wait>(
    rt: &R,
    desk: &Desk<J>,
    shares: Vec<Share<J>>,
    given: &Given<'_>,
) -> io::Result<()> {
    let mut shares = shares.into_iter();
    let worker = shares.next();
    let _sweeper = shares.next();
    match (worker, shares.next()) {
        (Some(worker), Some(settler)) => take_turns_by(rt, desk, worker, settler, given),
        _ => println!(rt; "no shares"),
    }
}

fn take_turns_by<J: Naming, R: Print + Wait>(
    rt: &R,
    desk: &Desk<J>,
    share: Share<J>,
    settler: Share<J>,
    given: &Given<'_>,
) -> io::Result<()> {
    let alloc = desk.config().allocator();
    let clock = TwoMoments::new(rt, alloc, given.moments);
    match Worker::new(
        alloc,
        share,
        desk.receipt(rt),
        clock,
        bob(rt, desk, given),
        engine(rt, desk, given),
        Keeping::new(given.kept),
    ) {
        Ok(mut worker) => take_turns_beside(rt, desk, &mut worker, settler, given),
        Err(_) => println!(rt; "no worker"),
    }
}

fn take_turns_beside<
    J: Naming,
    R: Print + Wait,
    C: Clock + Drop,
    U: Uplink + Drop,
    E: EngineLink + Drop,
>(
    rt: &R,
    desk: &Desk<J>,
    worker: &mut Worker<J, C, U, E, Keeping>,
    share: Share<J>,
    given: &Given<'_>,
) -> io::Result<()> {
    let alloc = desk.config().allocator();
    let clock = TwoMoments::new(rt, alloc, given.turns);
    let link = engine(rt, desk, given);
    let keeper = Keeping::new(given.kept);
    match Settler::new(alloc, share, desk.receipt(rt), clock, link, keeper) {
        Ok(mut settler) => {
            take_steps(rt, desk, worker, &mut settler, given)?;
            print_actor(rt, worker.share(), worker.records())?;
            print_actor(rt, settler.share(), settler.records())?;
            print_book(rt, desk.lock(rt).book())
        }
        Err(_) => println!(rt; "no settler"),
    }
}

fn take_steps<
    J: Naming,
    R: Print + Wait,
    C: Clock + Drop,
    U: Uplink + Drop,
    E: EngineLink + Drop,
    D: Clock + Drop,
    F: EngineLink + Drop,
>(
    rt: &R,
    desk: &Desk<J>,
    worker: &mut Worker<J, C, U, E, Keeping>,
    settler: &mut Settler<J, D, F, Keeping>,
    given: &Given<'_>,
) -> io::Result<()> {
    let mut buffer = Buffer::new(desk.config().allocator())?;
    for step in given.steps.split("-- ").skip(1) {
        match Step::of(step) {
            Some(Step::Connection(connection)) => {
                answer(rt, desk, worker, &mut buffer, &connection)?;
            }
            Some(Step::Turn { peer }) => settle(rt, desk, settler, peer)?,
            None => println!(rt; "no step")?,
        }
    }
    Ok(())
}

/// Bob, as he is given.
pub(crate) fn bob<'a, J: Naming, R: Print>(
    rt: &'a R,
    desk: &Desk<J>,
    given: &Given<'a>,
) -> Bob<'a, R> {
    Bob {
        rt,
        alloc: desk.config().allocator(),
        came: given.came,
    }
}

/// The peers' engine, as it is given.
pub(crate) fn engine<'a, J: Naming, R: Print>(
    rt: &'a R,
    desk: &Desk<J>,
    given: &Given<'a>,
) -> Engine<'a, R> {
    Engine {
        rt,
        alloc: desk.config().allocator(),
        accounts: given.says,
        settlements: given.says,
        answer: given.answer,
    }
}
