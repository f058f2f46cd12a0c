//! Many workers that forward at once, and what their ends add up to.
ghost use Rattle.std.specs.Prelude.{◌≡◌};

use super::Given;
use super::forwards::forward;
use super::gathering::{end_without, settler_end, sweeper_end};
use super::totals::print_totals;
use crate::links::bob::put;
use crate::links::clocks::Still;
use crate::links::engine::NoEngine;
use crate::peers::{ALICE, BOB, START};
use ilp_desk::{Desk, End, Naming, Share};
use ilp_oer::Octets;
use ilp_workers::{Forgetful, LinkFault, Uplink, Worker};
use std::alloc::Allocator;
use std::sync::Wait;
use std::sync::atomic::{AtomicU64, Ordering};
use std::thread::{Threads, map_vec};
use std::{cmp, io};

// How many packets each worker forwards.
const PACKETS: u32 = 200;

/// Numbers that look random: the upper bits of a linear congruential generator.
#[derive(Clone, Copy)]
struct Dice(u64);

impl Dice {
    fn of_worker(actor: u32) -> Dice {
        Dice(u64::from(actor).wrapping_mul(0x9e37_79b9_7f4a_7c15))
    }

    /// A number below 1,024.
    fn roll(&mut self) -> u64 {
        let next = self.0.wrapping_mul(6_364_136_223_846_793_005);
        self.0 = next.wrapping_add(1_442_695_040_888_963_407);
        self.0 >> 54
    }
}

// A Fulfill of 32 octets of this value without data.
fn fulfill(octet: u8) -> [u8; 35] {
    let mut packet = [0; 35];
    packet[0] = 0x0d;
    packet[1] = 0x21;
    packet[2..34].fill(octet);
    packet
}

/// Peers who mostly fulfill; else they reject, give another preimage, or nothing that is an answer.
#[derive(Drop)]
struct Fickle(Dice);

impl Uplink for Fickle {
    fn send<A: Allocator>(
        &mut self,
        _to: u32,
        _packet: &[u8],
        _deadline: i64,
        reply: &mut Octets<A>,
    ) -> Result<(), LinkFault> {
        match self.0.roll() % 8 {
            0 => Err(LinkFault),
            1 => put(Some(b"\x0d\x21\0".as_slice()), reply),
            2 => put(Some(b"\x0e\x06F99\0\0\0".as_slice()), reply),
            3 => put(Some(fulfill(1).as_slice()), reply),
            _ => put(Some(fulfill(0).as_slice()), reply),
        }
    }
}

/// Has all workers of a desk forward at once, and then closes the desk. Prints what its ends add up
/// to, and what its book does.
pub(crate) fn forward_all<J: Naming + Send + Sync, R: Print + Threads + Wait + Sync>(
    rt: &R,
    desk: Desk<J>,
    shares: Vec<Share<J>>,
    given: &Given<'_>,
) -> io::Result<()> {
    let ends = ends_at_once(rt, &desk, shares, given);
    print_totals(rt, desk, ends)
}

// What the actors hand in, as far as there is memory for it.
fn ends_at_once<J: Naming + Send + Sync, R: Print + Threads + Wait + Sync>(
    rt: &R,
    desk: &Desk<J>,
    shares: Vec<Share<J>>,
    given: &Given<'_>,
) -> Vec<End<J>> {
    let workers = desk.lock(rt).workers();
    let fulfilled = AtomicU64::new(0);
    let worked = map_vec(
        rt,
        shares,
        &|share| work(rt, desk, share, workers, given, &fulfilled),
    );
    let fulfilled = fulfilled.load(Ordering::SeqCst);
    let _ = println!(rt; "senders answered with a Fulfill: {fulfilled}");
    match worked {
        Ok(ends) => ends,
        Err(_) => Vec::new(desk.config().allocator()),
    }
}

// What an actor hands in, once the workers among them have forwarded.
fn work<J: Naming>(
    rt: &impl Wait,
    desk: &Desk<J>,
    share: Share<J>,
    workers: u32,
    given: &Given<'_>,
    fulfilled: &AtomicU64,
) -> End<J> {
    match share.actor().cmp(&workers) {
        cmp::Ordering::Less => worker_end(rt, desk, share, given, fulfilled),
        cmp::Ordering::Equal => sweeper_end(rt, desk, share),
        cmp::Ordering::Greater => settler_end(rt, desk, share),
    }
}

fn worker_end<J: Naming>(
    rt: &impl Wait,
    desk: &Desk<J>,
    share: Share<J>,
    given: &Given<'_>,
    fulfilled: &AtomicU64,
) -> End<J> {
    let alloc = desk.config().allocator();
    let dice = Dice::of_worker(share.actor());
    let (receipt, uplink) = (desk.receipt(rt), Fickle(dice));
    match Worker::new(
        alloc,
        share,
        receipt,
        Still(START),
        uplink,
        NoEngine,
        Forgetful,
    ) {
        Ok(worker) => end_after(rt, desk, worker, given, fulfilled),
        Err(back) => end_without(alloc, back),
    }
}

fn end_after<J: Naming>(
    rt: &impl Wait,
    desk: &Desk<J>,
    worker: Worker<J, Still, Fickle, NoEngine, Forgetful>,
    given: &Given<'_>,
    fulfilled: &AtomicU64,
) -> End<J>
    requires idle { worker.pending ≡ 0 }
{
    let mut worker = worker;
    let dice = Dice::of_worker(worker.share().actor());
    let forwarded = forward_many(rt, desk, &mut worker, given, dice);
    fulfilled.fetch_add(forwarded, Ordering::SeqCst);
    worker.into_end()
}

// Has a worker forward packets of both peers. How many of them are fulfilled?
fn forward_many<J: Naming>(
    rt: &impl Wait,
    desk: &Desk<J>,
    worker: &mut Worker<J, Still, Fickle, NoEngine, Forgetful>,
    given: &Given<'_>,
    dice: Dice,
) -> u64
    ensures pending { worker.new.pending ≡ worker.old.pending }
{
    let mut dice = dice;
    let mut fulfilled = 0u64;
    for _packet in 0..PACKETS {
        let amount = dice.roll();
        if is_fulfilled(rt, desk, worker, given, amount) {
            fulfilled = fulfilled.wrapping_add(1);
        }
    }
    fulfilled
}

// Has a worker forward a Prepare of this amount. An even one is alice's, an odd one bob's.
fn is_fulfilled<J: Naming>(
    rt: &impl Wait,
    desk: &Desk<J>,
    worker: &mut Worker<J, Still, Fickle, NoEngine, Forgetful>,
    given: &Given<'_>,
    amount: u64,
) -> bool
    ensures pending { worker.new.pending ≡ worker.old.pending }
{
    let alloc = desk.config().allocator();
    let (from, packet) = if amount % 2 == 0 {
        (ALICE, given.packet)
    } else {
        (BOB, given.other)
    };
    let Ok(mut octets) = packet.to_vec(alloc) else {
        return false;
    };
    set_amount(octets.as_mut_slice(), amount);
    let _ = forward(rt, worker, desk, from, octets.as_slice());
    worker.reply().first().copied() == Some(0x0d)
}

// Gives the Prepare another amount, which stands behind its type and its length.
fn set_amount(packet: &mut [u8], amount: u64) {
    if packet.len() >= 10 {
        packet[2..10].copy_from_slice(&amount.to_be_bytes());
    }
}
