//! A connection: what comes in, and what is answered.
ghost use Rattle.std.specs.Prelude.{◌≡◌};

use super::Given;
use super::steps::{Connection, Step};
use crate::told::{print_actor, print_response};
use ilp_desk::{Desk, Naming};
use ilp_http::Buffer;
use ilp_io::{Narrow, Pieces, WhenFull};
use ilp_server::answer_connection;
use ilp_workers::{Clock, EngineLink, Keeper, Uplink, Worker};
use std::alloc::Allocator;
use std::io;
use std::sync::Wait;

// How many octets one read gives, and one write takes.
pub(super) const PIECE: usize = 64;

/// Has a worker answer a connection, and prints what became of it and what was written.
pub(crate) fn answer<
    J: Naming,
    C: Clock + Drop,
    U: Uplink + Drop,
    E: EngineLink + Drop,
    K: Keeper<J> + Drop,
    A: Allocator + Copy,
>(
    rt: &(impl Print + Wait),
    desk: &Desk<J>,
    worker: &mut Worker<J, C, U, E, K, A>,
    buffer: &mut Buffer,
    connection: &Connection<'_>,
) -> io::Result<()>
    ensures pending { worker.new.pending ≡ worker.old.pending }
{
    let alloc = desk.config().allocator();
    let octets = connection.octets(alloc)?;
    let mut source = match connection.fails_after {
        Some(place) => Pieces::failing(&octets, PIECE, place),
        None => Pieces::new(&octets, PIECE),
    };
    let mut sink = Narrow::new(alloc, PIECE, connection.room, WhenFull::Fails);
    let side = connection.side;
    let handled = answer_connection(
        rt,
        alloc,
        worker,
        desk,
        side,
        &mut source,
        &mut sink,
        buffer,
    );
    println!(rt; "{handled:?}")?;
    print_response(rt, alloc, &sink.recording.octets)
}

/// Has a worker answer each connection, and prints what it booked.
pub(crate) fn answer_each<
    J: Naming,
    C: Clock + Drop,
    U: Uplink + Drop,
    E: EngineLink + Drop,
    K: Keeper<J> + Drop,
    A: Allocator + Copy,
>(
    rt: &(impl Print + Wait),
    desk: &Desk<J>,
    worker: &mut Worker<J, C, U, E, K, A>,
    given: &Given<'_>,
) -> io::Result<()>
    ensures pending { worker.new.pending ≡ worker.old.pending }
{
    let mut buffer = Buffer::new(desk.config().allocator())?;
    for step in given.steps.split("-- ").skip(1) {
        if let Some(Step::Connection(connection)) = Step::of(step) {
            answer(rt, desk, worker, &mut buffer, &connection)?;
        }
    }
    print_actor(rt, worker.share(), worker.records())
}
