//! A connector whose peer bob takes packets and never answers, and what is served beside them.

use super::messages::{
    CLOSE, CLOSED, CREDIT, CREDITED, FROM_ALICE, PREPARE, TOO_LONG, TOO_LONG_TOLD, UNREACHABLE,
    message,
};
use crate::tests::sockets::{accept, receive, send};
use std::alloc::Global;
use std::io;
use std::io::Write;
use std::net::{Net, TcpListener, TcpStream};
use std::time::Clock;

// How many pieces of a body are sent after a head that is refused for its length.
const PIECES: usize = 64;

/// Where the connector listens at both sides, and where bob does.
#[derive(Clone, Copy)]
pub(crate) struct Scene<'a> {
    pub(crate) peers: &'a str,
    pub(crate) engines: &'a str,
    pub(crate) bob: &'a TcpListener,
}

/// One packet has the only worker that may wait for a peer, and another waits for its turn. Beside them
/// all that waits for nobody is served. After the close both packets are answered when their time is
/// over. Says whether all was as it should be.
pub(crate) fn stay_silent<R>(rt: &R, alloc: Global, scene: &Scene<'_>) -> io::Result<bool>
where
    R: Net<Stream = TcpStream> + Clock,
{
    let request = message(alloc, FROM_ALICE, PREPARE)?;
    let mut first = send(rt, scene.peers, request.as_slice())?;
    let _taken = accept(rt, scene.bob)?;
    let mut second = send(rt, scene.peers, request.as_slice())?;
    let beside = serve_beside(rt, alloc, scene);
    let closed = ask(rt, alloc, scene.engines, CLOSE)?;
    let is_first = receive(alloc, &mut first)?.as_slice() == UNREACHABLE;
    let _taken_later = accept(rt, scene.bob)?;
    let is_second = receive(alloc, &mut second)?.as_slice() == UNREACHABLE;
    Ok(beside? && closed.as_slice() == CLOSED && is_first && is_second)
}

// A request that is refused while its client still sends, and a settlement.
fn serve_beside<R>(rt: &R, alloc: Global, scene: &Scene<'_>) -> io::Result<bool>
where
    R: Net<Stream = TcpStream> + Clock,
{
    let mut stream = send(rt, scene.peers, TOO_LONG)?;
    for _ in 0..PIECES {
        stream.write_all(&[b'x'; 4096])?;
    }
    let refused = receive(alloc, &mut stream)?;
    let credited = ask(rt, alloc, scene.engines, CREDIT)?;
    Ok(refused.as_slice() == TOO_LONG_TOLD && credited.as_slice() == CREDITED)
}

/// Asks for something at a place, and gives what is answered.
pub(crate) fn ask<R>(rt: &R, alloc: Global, place: &str, request: &[u8]) -> io::Result<Vec<u8>>
where
    R: Net<Stream = TcpStream> + Clock,
{
    let mut stream = send(rt, place, request)?;
    receive(alloc, &mut stream)
}
