//! A stand-in of a peer or an engine, and the configuration that names where it is.

use crate::tests::sockets::{accept, answer};
use ilp_accounts::Config;
use std::alloc::Global;
use std::io::{Read, Write};
use std::net::{SocketAddr, TcpListener, TcpStream};
use std::time::{Clock, Duration};
use std::{io, thread};

/// What a stand-in does with the one connection that it takes.
#[derive(Clone, Copy)]
pub(super) enum Does<'a> {
    /// Reads so many octets, writes these, and says that no more come.
    Answers(usize, &'a [u8]),
    /// Closes it at once.
    Closes,
    /// Writes nothing, and waits for the other side to close.
    Waits,
    /// Writes the front of a response, and then one octet after the other, with rests.
    Drips,
}

/// Takes one connection, and gives all octets that came over it.
pub(super) fn stand_in<R: Clock>(
    rt: &R,
    alloc: Global,
    listener: &TcpListener,
    does: Does<'_>,
) -> io::Result<Vec<u8>> {
    let mut stream = accept(rt, listener)?;
    let mut heard = Vec::new(alloc);
    match does {
        Does::Answers(count, octets) => {
            hear(&mut stream, &mut heard, count)?;
            // It may be left before it has written all.
            let _ = answer(&mut stream, octets);
        }
        Does::Closes => return Ok(heard),
        Does::Waits => {}
        Does::Drips => drip(rt, &mut stream),
    }
    let _ = hear(&mut stream, &mut heard, usize::MAX);
    Ok(heard)
}

// Reads until so many octets came, or the other side closed.
fn hear(stream: &mut TcpStream, heard: &mut Vec<u8>, count: usize) -> io::Result<()> {
    let mut room = [0; 1024];
    for _ in 0..u64::MAX {
        if heard.len() >= count {
            break;
        }
        let came = stream.read(&mut room)?;
        if came == 0 {
            break;
        }
        heard.extend_from_slice(&room[..came])?;
    }
    Ok(())
}

// Writes a head that never ends, until the other side closes.
fn drip<R: Clock>(rt: &R, stream: &mut TcpStream) {
    let _ = stream.write_all(b"HTTP/1.1 200 OK\r\nname: ");
    for _ in 0..500 {
        let Ok(_) = stream.write(b"x") else {
            break;
        };
        thread::sleep(rt, Duration::from_millis(20));
    }
}

/// Alice is at this place and has no engine; bob's engine is there, and he listens nowhere; carol's
/// host is no place.
pub(super) fn config_at(alloc: Global, place: SocketAddr) -> io::Result<Config> {
    let text = format!(in alloc;
        r#"address = "test.hub"
run = "r1"
[[asset]]
code = "USD"
scale = 2
[[peer]]
name = "alice"
asset = "USD/2"
token = "a-token"
out_token = "to-alice"
host = "{place}"
least = -100
[[peer]]
name = "bob"
asset = "USD/2"
token = "b-token"
out_token = "to-bob"
host = "127.0.0.1:0"
least = -100
engine = "{place}"
[[peer]]
name = "carol"
asset = "USD/2"
token = "c-token"
out_token = "to-carol"
host = "localhost:7001"
least = -100
[[route]]
prefix = "test.alice"
peer = "alice"
"#
    )?;
    match Config::read(alloc, text.as_bytes()) {
        Ok(config) => Ok(config),
        Err(_) => Err(io::Error::from(io::ErrorKind::InvalidData)),
    }
}
