//! Connections whose reads or writes fail, at each octet in turn.

use super::Given;
use super::answering::PIECE;
use super::steps::Step;
use crate::links::bob::Silent;
use crate::links::clocks::Still;
use crate::links::engine::NoEngine;
use crate::peers::START;
use ilp_desk::{Desk, Naming, Share};
use ilp_http::Buffer;
use ilp_io::{Narrow, Pieces, Recording, Sink, WhenFull};
use ilp_server::{ConnectionFault, Deed, Handled, Side, answer_connection};
use ilp_workers::{Forgetful, Worker};
use std::io;
use std::sync::Wait;

// A worker of whom nothing is printed.
type SilentWorker<'a, J> = Worker<J, Still, Silent<'a>, NoEngine, Forgetful>;

/// What comes in at a side.
#[derive(Clone, Copy)]
struct Request<'a> {
    side: Side,
    octets: &'a [u8],
}

/// How much was booked: by the worker's share, in its records, and in the book.
#[derive(Clone, Copy, Debug, PartialEq, Eq)]
struct Booked {
    share: u32,
    records: usize,
    entries: u32,
}

impl Booked {
    fn by<J: Naming>(rt: &impl Wait, desk: &Desk<J>, worker: &SilentWorker<'_, J>) -> Booked {
        Booked {
            share: worker.share().entries(),
            records: worker.records().len(),
            entries: desk.lock(rt).book().len(),
        }
    }

    // With a packet more: its hold, the answer, and the record of that.
    fn with_packet(self) -> Booked {
        Booked {
            share: self.share.saturating_add(2),
            records: self.records.saturating_add(1),
            entries: self.entries.saturating_add(2),
        }
    }
}

/// Has the worker of a desk answer each connection of the steps, which brings a packet that is passed
/// on: with a read that fails before each of its octets, then whole, then with a write that fails
/// before each octet of the response. Prints how often that ended as it is to.
pub(crate) fn cut_each<J: Naming, R: Print + Wait>(
    rt: &R,
    desk: &Desk<J>,
    shares: Vec<Share<J>>,
    given: &Given<'_>,
) -> io::Result<()> {
    let Some(share) = shares.into_iter().next() else {
        return println!(rt; "no share");
    };
    let alloc = desk.config().allocator();
    let (receipt, uplink) = (desk.receipt(rt), Silent(given.came));
    match Worker::new(
        alloc,
        share,
        receipt,
        Still(START),
        uplink,
        NoEngine,
        Forgetful,
    ) {
        Ok(mut worker) => cut_steps(rt, desk, &mut worker, given),
        Err(_) => println!(rt; "no worker"),
    }
}

fn cut_steps<J: Naming>(
    rt: &(impl Print + Wait),
    desk: &Desk<J>,
    worker: &mut SilentWorker<'_, J>,
    given: &Given<'_>,
) -> io::Result<()> {
    let alloc = desk.config().allocator();
    let mut buffer = Buffer::new(alloc)?;
    for step in given.steps.split("-- ").skip(1) {
        if let Some(Step::Connection(connection)) = Step::of(step) {
            let octets = connection.octets(alloc)?;
            let request = Request {
                side: connection.side,
                octets: &octets,
            };
            cut_reads(rt, desk, worker, request, &mut buffer)?;
            cut_writes(rt, desk, worker, request, &mut buffer)?;
        }
    }
    println!(rt; "{:?}", Booked::by(rt, desk, worker))
}

// Fails at each octet of a request.
fn cut_reads<J: Naming>(
    rt: &(impl Print + Wait),
    desk: &Desk<J>,
    worker: &mut SilentWorker<'_, J>,
    request: Request<'_>,
    buffer: &mut Buffer,
) -> io::Result<()> {
    let mut told = 0usize;
    for place in 0..request.octets.len() {
        if is_unread(rt, desk, worker, request, place, buffer) {
            told = told.saturating_add(1);
        }
    }
    println!(rt;
        "{told} of {} reads that fail are told, with nothing written and nothing booked",
        request.octets.len()
    )
}

// Whether a read that fails at this place is told, with nothing written and nothing booked.
fn is_unread<J: Naming>(
    rt: &impl Wait,
    desk: &Desk<J>,
    worker: &mut SilentWorker<'_, J>,
    request: Request<'_>,
    place: usize,
    buffer: &mut Buffer,
) -> bool {
    let before = Booked::by(rt, desk, worker);
    let mut source = Pieces::failing(request.octets, PIECE, place);
    let mut sink = Recording::new(desk.config().allocator());
    let handled = answer_over(
        rt,
        desk,
        worker,
        request.side,
        &mut source,
        &mut sink,
        buffer,
    );
    let is_silent = sink.octets.is_empty();
    let is_kept = Booked::by(rt, desk, worker) == before;
    is_fault(handled, ConnectionFault::Read) && is_silent && is_kept
}

// Answers a request whole, and then fails at each octet of the response.
fn cut_writes<J: Naming>(
    rt: &(impl Print + Wait),
    desk: &Desk<J>,
    worker: &mut SilentWorker<'_, J>,
    request: Request<'_>,
    buffer: &mut Buffer,
) -> io::Result<()> {
    let mut source = Pieces::new(request.octets, PIECE);
    let mut whole = Recording::new(desk.config().allocator());
    let handled = answer_over(
        rt,
        desk,
        worker,
        request.side,
        &mut source,
        &mut whole,
        buffer,
    );
    println!(rt; "{handled:?}")?;
    let response = whole.octets.as_slice();
    let mut told = 0usize;
    for room in 0..response.len() {
        if is_unwritten(rt, desk, worker, request, &response[..room], buffer) {
            told = told.saturating_add(1);
        }
    }
    println!(rt;
        "{told} of {} writes that fail are told, with the octets before written and the packet booked",
        response.len()
    )
}

// Whether a write that fails behind this front is told, with the front written and the packet booked.
fn is_unwritten<J: Naming>(
    rt: &impl Wait,
    desk: &Desk<J>,
    worker: &mut SilentWorker<'_, J>,
    request: Request<'_>,
    front: &[u8],
    buffer: &mut Buffer,
) -> bool {
    let after = Booked::by(rt, desk, worker).with_packet();
    let when_full = if front.len() % 2 == 0 {
        WhenFull::Fails
    } else {
        WhenFull::TakesNone
    };
    let mut source = Pieces::new(request.octets, PIECE);
    let mut sink = Narrow::new(desk.config().allocator(), PIECE, front.len(), when_full);
    let handled = answer_over(
        rt,
        desk,
        worker,
        request.side,
        &mut source,
        &mut sink,
        buffer,
    );
    let is_front = sink.recording.octets.as_slice() == front;
    let is_booked = Booked::by(rt, desk, worker) == after;
    is_fault(handled, ConnectionFault::Write) && is_front && is_booked
}

// Whether this is what is told, and no credit and no Reject besides.
fn is_fault(handled: Handled, fault: ConnectionFault) -> bool {
    let deed = Deed::Nothing;
    handled == Handled::Fault { fault, deed }
}

fn answer_over<J: Naming, W: Sink>(
    rt: &impl Wait,
    desk: &Desk<J>,
    worker: &mut SilentWorker<'_, J>,
    side: Side,
    source: &mut Pieces<'_>,
    sink: &mut W,
    buffer: &mut Buffer,
) -> Handled {
    let alloc = desk.config().allocator();
    answer_connection(rt, alloc, worker, desk, side, source, sink, buffer)
}
