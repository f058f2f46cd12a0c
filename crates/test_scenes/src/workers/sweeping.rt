//! A hold that is swept while its peer is asked.

use super::Given;
use super::forwards::print_forward;
use crate::links::bob::put;
use crate::links::clocks::{Still, TwoMoments};
use crate::links::engine::NoEngine;
use crate::peers::START;
use crate::told::print_actor;
use ilp_desk::{Desk, Naming, Share};
use ilp_oer::Octets;
use ilp_settler::Sweeper;
use ilp_workers::{Clock, Forgetful, LinkFault, Uplink, Worker};
use std::alloc::Allocator;
use std::io;
use std::sync::Wait;

/// A peer who replies once the sweeper had three turns.
#[derive(Drop)]
struct Slow<'a, J: Naming, R: Print + Wait> {
    rt: &'a R,
    desk: &'a Desk<J>,
    sweeper: Sweeper<J, TwoMoments<'a, R>>,
    came: Option<&'a [u8]>,
}

impl<J: Naming, R: Print + Wait> Uplink for Slow<'_, J, R> {
    fn send<A: Allocator>(
        &mut self,
        _to: u32,
        _packet: &[u8],
        _deadline: i64,
        reply: &mut Octets<A>,
    ) -> Result<(), LinkFault> {
        let _ = print_turns(self.rt, self.desk, &mut self.sweeper);
        put(self.came, reply)
    }
}

// Prints what comes of three turns of the sweeper, and what it booked.
fn print_turns<J: Naming, C: Clock + Drop>(
    rt: &(impl Print + Wait),
    desk: &Desk<J>,
    sweeper: &mut Sweeper<J, C>,
) -> io::Result<()> {
    print_turn(rt, desk, sweeper)?;
    print_turn(rt, desk, sweeper)?;
    print_turn(rt, desk, sweeper)?;
    print_actor(rt, sweeper.share(), sweeper.records())
}

// Prints which hold a turn of the sweeper releases.
fn print_turn<J: Naming, C: Clock + Drop>(
    rt: &(impl Print + Wait),
    desk: &Desk<J>,
    sweeper: &mut Sweeper<J, C>,
) -> io::Result<()> {
    let swept = sweeper.turn(rt, desk);
    println!(rt; "swept: {swept:?}")
}

/// Has a worker forward the packet. The moments are those of the sweeper's turns.
pub(crate) fn forward_slowly<J: Naming, R: Print + Wait>(
    rt: &R,
    desk: &Desk<J>,
    shares: Vec<Share<J>>,
    given: &Given<'_>,
) -> io::Result<()> {
    let mut shares = shares.into_iter();
    match (shares.next(), shares.next()) {
        (Some(worker), Some(sweeper)) => forward_beside(rt, desk, worker, sweeper, given),
        _ => println!(rt; "no shares"),
    }
}

fn forward_beside<J: Naming, R: Print + Wait>(
    rt: &R,
    desk: &Desk<J>,
    share: Share<J>,
    sweeper: Share<J>,
    given: &Given<'_>,
) -> io::Result<()> {
    let alloc = desk.config().allocator();
    let clock = TwoMoments::new(rt, alloc, given.moments);
    let uplink = Slow {
        rt,
        desk,
        sweeper: Sweeper::new(alloc, sweeper, clock),
        came: given.came,
    };
    match Worker::new(
        alloc,
        share,
        desk.receipt(rt),
        Still(START),
        uplink,
        NoEngine,
        Forgetful,
    ) {
        Ok(mut worker) => print_forward(rt, desk, &mut worker, given),
        Err(_) => println!(rt; "no worker"),
    }
}
