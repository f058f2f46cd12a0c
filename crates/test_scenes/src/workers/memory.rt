//! Each growth of a worker denied in turn.

use super::Given;
use super::forwards::print_answer;
use super::quiet::Quiet;
use crate::links::clocks::Still;
use crate::links::engine::NoEngine;
use crate::peers::START;
use crate::told::print_book;
use ilp_desk::{Desk, Naming, Share};
use ilp_workers::{Forgetful, NoWorker, Worker};
use std::alloc::Allocator;
use std::io;
use std::sync::Wait;
use std::sync::atomic::{AtomicU64, Ordering};
use test_allocator::DenyingAllocator;

/// Has each worker of a desk forward the packet: the first without its first growth, the second
/// without its second, and so on.
pub(crate) fn deny_each<J: Naming>(
    rt: &(impl Print + Wait),
    desk: &Desk<J>,
    shares: Vec<Share<J>>,
    given: &Given<'_>,
) -> io::Result<()> {
    let workers = desk.lock(rt).workers();
    for share in shares {
        if share.actor() < workers {
            forward_denied(rt, desk, share, given)?;
        }
    }
    print_book(rt, desk.lock(rt).book())
}

// Denies a worker the growth of its own number, from 0.
fn forward_denied<J: Naming>(
    rt: &(impl Print + Wait),
    desk: &Desk<J>,
    share: Share<J>,
    given: &Given<'_>,
) -> io::Result<()> {
    let granted = u64::from(share.actor());
    let heap = DenyingAllocator::after(desk.config().allocator(), granted);
    let asked = AtomicU64::new(0);
    let uplink = Quiet::new(given, &asked);
    forward_over(rt, desk, share, uplink, &heap, given)?;
    println!(rt; "asked: {}", asked.load(Ordering::SeqCst))?;
    println!(rt; "denied: {}", heap.has_denied())
}

fn forward_over<J: Naming, B: Allocator>(
    rt: &(impl Print + Wait),
    desk: &Desk<J>,
    share: Share<J>,
    uplink: Quiet<'_, '_>,
    heap: &DenyingAllocator<B>,
    given: &Given<'_>,
) -> io::Result<()> {
    let actor = share.actor();
    match Worker::new(
        heap,
        share,
        desk.receipt(rt),
        Still(START),
        uplink,
        NoEngine,
        Forgetful,
    ) {
        Ok(mut worker) => print_answer(rt, desk, &mut worker, given),
        Err(back) => print_back(rt, back, actor, given),
    }
}

// Prints whether what was given for a worker came back as it was.
fn print_back<J: Naming>(
    rt: &impl Print,
    back: NoWorker<J, Still, Quiet<'_, '_>, NoEngine, Forgetful>,
    actor: u32,
    given: &Given<'_>,
) -> io::Result<()> {
    let NoWorker {
        share,
        clock: Still(moment),
        uplink,
        ..
    } = back;
    let is_share = share.actor() == actor && share.entries() == 0;
    let is_uplink = uplink.is_for(given);
    println!(rt;
        "no worker, and all as given: {}",
        is_share && is_uplink && moment == START
    )
}
