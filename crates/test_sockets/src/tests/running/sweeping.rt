//! A connector whose peer bob answers a packet once the sweeper's thread has released its hold.

use super::messages::{
    ANSWERED, CLOSE, CLOSED, FROM_ALICE, LASTING, REPORT, SWEPT, TIMED_OUT, message,
};
use super::silence::{Scene, ask};
use crate::tests::sockets::{accept, answer, receive, send};
use crate::tests::{FULFILL, START};
use std::alloc::Global;
use std::io;
use std::net::{Net, TcpStream};
use std::sync::atomic::{AtomicI64, Ordering};
use std::time::Clock;

// When the hold of the lasting packet ends: an hour later but for the window of a second.
const DEADLINE: i64 = START + 3_599_000;

// How often the report is asked for at most.
const TURNS: u32 = 10_000;

/// A packet is swept while bob has it, as the report says, and the connector is closed. Says whether all
/// was as it should be.
pub(crate) fn sweep<R>(
    rt: &R,
    alloc: Global,
    scene: &Scene<'_>,
    moment: &AtomicI64,
) -> io::Result<bool>
where
    R: Net<Stream = TcpStream> + Clock,
{
    let swept = time_out(rt, alloc, scene, moment);
    let closed = ask(rt, alloc, scene.engines, CLOSE)?;
    Ok(swept? && closed.as_slice() == CLOSED)
}

// Bob fulfills a packet once it was swept. The worker that passed it on waits for him all the time: the
// clock that its link goes by says that there is an hour.
fn time_out<R>(rt: &R, alloc: Global, scene: &Scene<'_>, moment: &AtomicI64) -> io::Result<bool>
where
    R: Net<Stream = TcpStream> + Clock,
{
    let request = message(alloc, FROM_ALICE, LASTING)?;
    let response = message(alloc, ANSWERED, FULFILL)?;
    let mut alice = send(rt, scene.peers, request.as_slice())?;
    let mut bob = accept(rt, scene.bob)?;
    moment.store(DEADLINE, Ordering::SeqCst);
    let is_swept = reports_swept(rt, alloc, scene.engines)?;
    answer(&mut bob, response.as_slice())?;
    Ok(is_swept && receive(alloc, &mut alice)?.as_slice() == TIMED_OUT)
}

// Asks for the report until no hold is open.
fn reports_swept<R>(rt: &R, alloc: Global, engines: &str) -> io::Result<bool>
where
    R: Net<Stream = TcpStream> + Clock,
{
    for _ in 0..TURNS {
        if ask(rt, alloc, engines, REPORT)?.ends_with(SWEPT) {
            return Ok(true);
        }
    }
    Ok(false)
}
