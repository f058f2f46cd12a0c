//! The end of a desk whose worker and settler have taken their steps.
ghost use Rattle.std.specs.Prelude.{◌≡◌};

use super::Given;
use super::answering::answer_each;
use super::playing::{bob, engine};
use super::turns::settle_each;
use crate::links::clocks::Still;
use crate::peers::START;
use crate::told::print_book;
use crate::workers::gathering::{end_without, end_without_settler, sweeper_end};
use crate::workers::totals::print_totals;
use ilp_desk::{Desk, End, Naming, Share};
use ilp_settler::Settler;
use ilp_workers::{Clock, EngineLink, Forgetful, Uplink, Worker};
use std::io;
use std::sync::Wait;

/// Has the worker of a desk take its steps, and then the settler, and closes the desk.
pub(crate) fn close<J: Naming, R: Print + Wait>(
    rt: &R,
    desk: Desk<J>,
    shares: Vec<Share<J>>,
    given: &Given<'_>,
) -> io::Result<()> {
    let ends = ends_of(rt, &desk, shares, given);
    let _ = print_book(rt, desk.lock(rt).book());
    print_totals(rt, desk, ends)
}

// What the actors hand in, as far as there is memory for it.
fn ends_of<J: Naming, R: Print + Wait>(
    rt: &R,
    desk: &Desk<J>,
    shares: Vec<Share<J>>,
    given: &Given<'_>,
) -> Vec<End<J>> {
    let mut ends = Vec::new(desk.config().allocator());
    for share in shares {
        let end = end_of(rt, desk, share, given);
        let _ = ends.push(end);
    }
    ends
}

// What an actor of a desk with one worker hands in.
fn end_of<J: Naming, R: Print + Wait>(
    rt: &R,
    desk: &Desk<J>,
    share: Share<J>,
    given: &Given<'_>,
) -> End<J> {
    match share.actor() {
        0 => worker_end(rt, desk, share, given),
        1 => sweeper_end(rt, desk, share),
        _ => settler_end(rt, desk, share, given),
    }
}

fn worker_end<J: Naming, R: Print + Wait>(
    rt: &R,
    desk: &Desk<J>,
    share: Share<J>,
    given: &Given<'_>,
) -> End<J> {
    let alloc = desk.config().allocator();
    let uplink = bob(rt, desk, given);
    let link = engine(rt, desk, given);
    match Worker::new(
        alloc,
        share,
        desk.receipt(rt),
        Still(START),
        uplink,
        link,
        Forgetful,
    ) {
        Ok(worker) => end_of_answers(rt, desk, worker, given),
        Err(back) => end_without(alloc, back),
    }
}

fn end_of_answers<J: Naming, C: Clock + Drop, U: Uplink + Drop, E: EngineLink + Drop>(
    rt: &(impl Print + Wait),
    desk: &Desk<J>,
    worker: Worker<J, C, U, E, Forgetful>,
    given: &Given<'_>,
) -> End<J>
    requires idle { worker.pending ≡ 0 }
{
    let mut worker = worker;
    let _ = answer_each(rt, desk, &mut worker, given);
    worker.into_end()
}

fn settler_end<J: Naming, R: Print + Wait>(
    rt: &R,
    desk: &Desk<J>,
    share: Share<J>,
    given: &Given<'_>,
) -> End<J> {
    let alloc = desk.config().allocator();
    let link = engine(rt, desk, given);
    match Settler::new(
        alloc,
        share,
        desk.receipt(rt),
        Still(START),
        link,
        Forgetful,
    ) {
        Ok(settler) => end_of_turns(rt, desk, settler, given),
        Err(back) => end_without_settler(alloc, back),
    }
}

fn end_of_turns<J: Naming, C: Clock + Drop, E: EngineLink + Drop>(
    rt: &(impl Print + Wait),
    desk: &Desk<J>,
    settler: Settler<J, C, E, Forgetful>,
    given: &Given<'_>,
) -> End<J>
    requires idle { settler.pending ≡ 0 }
{
    let mut settler = settler;
    let _ = settle_each(rt, desk, &mut settler, given);
    settler.into_end()
}
