//! Turns of a settler.
ghost use Rattle.std.specs.Prelude.{◌≡◌};

use super::Given;
use super::steps::Step;
use crate::told::print_actor;
use ilp_desk::{Desk, Naming};
use ilp_settler::Settler;
use ilp_workers::{Clock, EngineLink, Keeper};
use std::alloc::Allocator;
use std::io;
use std::sync::Wait;

/// Has a settler take a turn for a peer, and prints what it comes to.
pub(crate) fn settle<
    J: Naming,
    C: Clock + Drop,
    E: EngineLink + Drop,
    K: Keeper<J> + Drop,
    A: Allocator + Copy,
>(
    rt: &(impl Print + Wait),
    desk: &Desk<J>,
    settler: &mut Settler<J, C, E, K, A>,
    peer: u32,
) -> io::Result<()>
    ensures pending { settler.new.pending ≡ settler.old.pending }
{
    if peer >= desk.config().peers() {
        return println!(rt; "no peer");
    }
    match settler.turn(rt, desk, peer) {
        Ok(turn) => println!(rt; "{turn:?}"),
        Err(_) => println!(rt; "no memory"),
    }
}

/// Has a settler take each turn, and prints what it booked.
pub(crate) fn settle_each<
    J: Naming,
    C: Clock + Drop,
    E: EngineLink + Drop,
    K: Keeper<J> + Drop,
    A: Allocator + Copy,
>(
    rt: &(impl Print + Wait),
    desk: &Desk<J>,
    settler: &mut Settler<J, C, E, K, A>,
    given: &Given<'_>,
) -> io::Result<()>
    ensures pending { settler.new.pending ≡ settler.old.pending }
{
    for step in given.steps.split("-- ").skip(1) {
        if let Some(Step::Turn { peer }) = Step::of(step) {
            settle(rt, desk, settler, peer)?;
        }
    }
    print_actor(rt, settler.share(), settler.records())
}
