//! Both ends of a connection, with bounded waits.

use std::alloc::Global;
use std::io::{ErrorKind, Read, Write};
use std::net::{Net, Shutdown, TcpListener, TcpStream};
use std::time::{Clock, Duration};
use std::{io, thread};

// How often is waited for a millisecond until somebody listens or connects.
const TURNS: u32 = 10_000;

/// Sends a request over a connection of its own.
pub(super) fn send<R: Net<Stream = TcpStream> + Clock>(
    rt: &R,
    place: &str,
    request: &[u8],
) -> io::Result<TcpStream> {
    let mut stream = connect(rt, place)?;
    stream.set_read_timeout(Some(Duration::from_secs(30)))?;
    stream.write_all(request)?;
    Ok(stream)
}

/// Reads all that is answered.
pub(super) fn receive(alloc: Global, stream: &mut TcpStream) -> io::Result<Vec<u8>> {
    let mut answer = Vec::new(alloc);
    stream.read_to_end(&mut answer)?;
    Ok(answer)
}

// A connection to a place at which somebody listens before long.
fn connect<R: Net<Stream = TcpStream> + Clock>(rt: &R, place: &str) -> io::Result<TcpStream> {
    for _ in 0..TURNS {
        match TcpStream::connect(rt, place) {
            Ok(stream) => return Ok(stream),
            Err(_) => thread::sleep(rt, Duration::from_millis(1)),
        }
    }
    Err(io::Error::from(ErrorKind::TimedOut))
}

/// A connection that somebody makes before long.
pub(super) fn accept(rt: &impl Clock, listener: &TcpListener) -> io::Result<TcpStream> {
    listener.set_nonblocking(true)?;
    for _ in 0..TURNS {
        match listener.accept() {
            Ok((stream, _)) => {
                stream.set_read_timeout(Some(Duration::from_secs(30)))?;
                return Ok(stream);
            }
            Err(error) if error.kind() == ErrorKind::WouldBlock => {
                thread::sleep(rt, Duration::from_millis(1));
            }
            Err(error) => return Err(error),
        }
    }
    Err(io::Error::from(ErrorKind::TimedOut))
}

/// Accepts a connection. Says whether it begins with this request.
pub(super) fn hear(
    rt: &impl Clock,
    alloc: Global,
    listener: &TcpListener,
    request: &[u8],
) -> io::Result<(TcpStream, bool)> {
    let mut stream = accept(rt, listener)?;
    let mut room = vec![in alloc; 0; request.len()]?;
    stream.read_exact(room.as_mut_slice())?;
    let is_heard = room.as_slice() == request;
    Ok((stream, is_heard))
}

/// Accepts a connection, and answers it so. Says whether it begins with this request.
pub(super) fn hear_and_answer(
    rt: &impl Clock,
    alloc: Global,
    listener: &TcpListener,
    request: &[u8],
    response: &[u8],
) -> io::Result<bool> {
    let (mut stream, is_heard) = hear(rt, alloc, listener, request)?;
    answer(&mut stream, response)?;
    Ok(is_heard)
}

/// Answers, and says that no more comes.
pub(super) fn answer(stream: &mut TcpStream, response: &[u8]) -> io::Result<()> {
    stream.write_all(response)?;
    stream.shutdown(Shutdown::Write)
}
