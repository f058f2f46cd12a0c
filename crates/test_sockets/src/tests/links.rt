//! What comes of calls of links, by what stand-ins do. The requests' octets are those of
//! `docs/PROTOCOL.md`, written out by hand.

mod calls;
mod driven;
mod events;
mod hearing;
mod lines;
mod stage;
mod stand_in;

use super::sockets::accept;
use super::{FULFILL, START, Still};
use calls::{Scene, answer_of, reply_of};
use driven::Driven;
use hearing::{At, Hearing, Stopping};
use ilp_link_traits::{Clock, EngineLink, EngineReply, ReplyKind, Uplink};
use ilp_links::{Outside, SystemClock};
use ilp_shared::Moments;
use stage::{Play, stage};
use stand_in::Does;
use std::alloc::Global;
use std::io;
use std::io::{Eprint, ErrorKind, Read, Write};
use std::net::{Net, TcpListener, TcpStream};
use std::process::Abort;
use std::sync::atomic::{AtomicBool, Ordering};
use std::test::*;
use std::thread::Threads;
use std::time::{Duration, Instant};

const CREATED: &[u8] = b"HTTP/1.1 201 Created\r\nContent-Length: 0\r\n\r\n";

const NOT_FOUND: &[u8] = b"HTTP/1.1 404 Not Found\r\nContent-Length: 0\r\n\r\n";

const CONFLICT: &[u8] = b"HTTP/1.1 409 Conflict\r\nContent-Length: 0\r\n\r\n";

// A 200 with that Fulfill.
fn fulfilled(alloc: Global) -> io::Result<Vec<u8>> {
    let mut octets = Vec::new(alloc);
    octets.extend_from_slice(b"HTTP/1.1 200 OK\r\nContent-Length: 35\r\n\r\n")?;
    octets.extend_from_slice(FULFILL)?;
    Ok(octets)
}

// A 200 with 100,000 octets, which are more than a body may have.
fn too_long(alloc: Global) -> io::Result<Vec<u8>> {
    let mut octets = Vec::new(alloc);
    octets.extend_from_slice(b"HTTP/1.1 200 OK\r\n\r\n")?;
    octets.resize(100_019, b'x')?;
    Ok(octets)
}

// Alice answers with the Fulfill.
fn fulfill<R: Threads + std::time::Clock + Abort + Sync, U: Uplink>(
    scene: Scene<'_, R>,
    link: &mut U,
    request: &[u8],
) -> io::Result<()> {
    let response = fulfilled(scene.alloc)?;
    scene.replies(link, request, &response, FULFILL)
}

// Alice answers with more than may come.
fn flood<R: Threads + std::time::Clock + Abort + Sync, U: Uplink>(
    scene: Scene<'_, R>,
    link: &mut U,
    count: usize,
) -> io::Result<()> {
    let response = too_long(scene.alloc)?;
    scene.fails(link, Does::Answers(count, &response))
}

// What else alice may do with a packet.
fn fail<R: Threads + std::time::Clock + Abort + Sync, U: Uplink>(
    scene: Scene<'_, R>,
    link: &mut U,
    count: usize,
) -> io::Result<()> {
    let rubbish = b"rubbish, and no response at all\r\n\r\n";
    let failed = b"HTTP/1.1 500 Internal Server Error\r\nContent-Length: 0\r\n\r\n";
    let going_on = b"HTTP/1.1 100 Continue\r\nContent-Length: 0\r\n\r\n";
    scene.fails(link, Does::Answers(count, rubbish))?;
    scene.fails(link, Does::Answers(count, failed))?;
    scene.fails(link, Does::Answers(count, going_on))?;
    scene.fails(link, Does::Closes)?;
    scene.runs_out(link, Does::Waits)?;
    scene.runs_out(link, Does::Drips)
}

// The request that a packet to alice is.
fn packet_request<R>(scene: Scene<'_, R>) -> io::Result<String> {
    let place = scene.place;
    let text = format!(in scene.alloc;
        "POST /ilp HTTP/1.1\r\nHost: {place}\r\nContent-Type: application/octet-stream\r\nContent-Length: 6\r\nAuthorization: Bearer to-alice\r\nConnection: close\r\n\r\npacket"
    )?;
    Ok(text)
}

// What alice may do with a packet, and what comes of it. What she replies is read by whoever has the
// link, and it learns what that is.
fn send_to_alice<R: Threads + std::time::Clock + Abort + Copy + Sync, U: Uplink>(
    scene: Scene<'_, R>,
    link: &mut U,
) -> io::Result<()> {
    let request = packet_request(scene)?;
    let rubbish = b"HTTP/1.1 200 OK\r\nContent-Length: 7\r\n\r\nrubbish";
    scene.replies(link, request.as_bytes(), rubbish, b"rubbish")?;
    link.note_reply(0, ReplyKind::NoAnswer);
    fulfill(scene, link, request.as_bytes())?;
    link.note_reply(0, ReplyKind::Answer);
    flood(scene, link, request.len())?;
    fail(scene, link, request.len())
}

fn play_packets<R>(scene: Scene<'_, R>) -> io::Result<()>
where
    R: Net<Stream = TcpStream, Listener = TcpListener>
        + Threads
        + std::time::Clock
        + Eprint
        + Abort
        + Copy
        + Send
        + Sync,
{
    let hearing = Hearing::new(*scene.rt, scene.alloc, 0);
    heard_of_alice(scene, &hearing)?;
    // What she answered first is handed on, but is no answer to a packet.
    assert!(scene.rt; hearing.wrote("1970-01-01T00:00:00.000Z error peer alice at 127.0.0.1:"));
    Ok(())
}

// Sends them, and has what is told of them heard.
fn heard_of_alice<R, H>(scene: Scene<'_, R>, hearing: &H) -> io::Result<()>
where
    R: Threads + std::time::Clock + Abort + Copy + Sync,
    H: Net<Stream = TcpStream> + std::time::Clock + Eprint + Sync,
{
    let outside = Outside {
        rt: hearing,
        config: scene.config,
        notices: scene.notices,
    };
    let mut link = Driven::new(outside, scene.alloc)?;
    send_to_alice(scene, &mut link)
}

#[test]
fn packets_to_alice(rt: HostRuntime) -> Result<(), Fail> {
    stage(&rt, rt.alloc(), Play::Packets)?;
    Ok(())
}

// Packets for which no connection is made.
fn send_to_nobody<U: Uplink>(rt: &impl Abort, alloc: Global, link: &mut U) {
    // Nothing is left, or less than nothing.
    assert!(rt; reply_of(link, alloc, 0, START).is_none());
    assert!(rt; reply_of(link, alloc, 0, i64::MIN).is_none());
    // Bob listens nowhere, carol's host is no place, and there is no other peer.
    assert!(rt; reply_of(link, alloc, 1, i64::MAX).is_none());
    assert!(rt; reply_of(link, alloc, 2, i64::MAX).is_none());
    assert!(rt; reply_of(link, alloc, 3, i64::MAX).is_none());
}

fn play_nobody<R>(scene: Scene<'_, R>) -> io::Result<()>
where
    R: Net<Stream = TcpStream, Listener = TcpListener>
        + Threads
        + std::time::Clock
        + Eprint
        + Abort
        + Copy
        + Send
        + Sync,
{
    let hearing = Hearing::new(*scene.rt, scene.alloc, 0);
    heard_of_nobody(scene, &hearing)?;
    assert!(scene.rt;
        hearing.wrote_only(
            "1970-01-01T00:00:00.000Z warn peer bob at 127.0.0.1:0: not reached: connection refused\n1970-01-01T00:00:00.000Z warn peer carol at localhost:7001: no IP:PORT in digits\n"
        )
    );
    // Nobody connected.
    scene.listener.set_nonblocking(true)?;
    assert!(scene.rt; scene.listener.accept().is_err());
    Ok(())
}

// Sends them, and has what is told of them heard.
fn heard_of_nobody<R, H>(scene: Scene<'_, R>, hearing: &H) -> io::Result<()>
where
    R: Abort,
    H: Net<Stream = TcpStream> + std::time::Clock + Eprint + Sync,
{
    let outside = Outside {
        rt: hearing,
        config: scene.config,
        notices: scene.notices,
    };
    let mut link = Driven::new(outside, scene.alloc)?;
    send_to_nobody(scene.rt, scene.alloc, &mut link);
    Ok(())
}

#[test]
fn packets_to_nobody(rt: HostRuntime) -> Result<(), Fail> {
    stage(&rt, rt.alloc(), Play::Nobody)?;
    Ok(())
}

// Whether bob's engine has his account.
fn ask_for_accounts<R: Threads + std::time::Clock + Abort + Sync, E: EngineLink>(
    scene: Scene<'_, R>,
    link: &mut E,
) -> io::Result<()> {
    let place = scene.place;
    let text = format!(in scene.alloc;
        "POST /accounts HTTP/1.1\r\nHost: {place}\r\nContent-Type: application/json\r\nContent-Length: 12\r\nConnection: close\r\n\r\n{{\"id\":\"bob\"}}"
    )?;
    assert!(scene.rt; scene.account(link, text.as_bytes(), CREATED)?);
    assert!(scene.rt; scene.account(link, text.as_bytes(), CONFLICT)?);
    assert!(scene.rt; !scene.account(link, text.as_bytes(), NOT_FOUND)?);
    Ok(())
}

// What it says of a settlement.
fn ask_for_settlements<R: Threads + std::time::Clock + Abort + Sync, E: EngineLink>(
    scene: Scene<'_, R>,
    link: &mut E,
) -> io::Result<()> {
    let place = scene.place;
    let text = format!(in scene.alloc;
        "POST /accounts/bob/settlements HTTP/1.1\r\nHost: {place}\r\nContent-Type: application/json\r\nContent-Length: 26\r\nIdempotency-Key: r1-7\r\nConnection: close\r\n\r\n{{\"amount\":\"250\",\"scale\":2}}"
    )?;
    let accepted = scene.settle(link, text.as_bytes(), CREATED)?;
    let refused = scene.settle(link, text.as_bytes(), NOT_FOUND)?;
    let unknown = scene.settle(link, text.as_bytes(), CONFLICT)?;
    assert_eq!(scene.rt; accepted, EngineReply::Accepted);
    assert_eq!(scene.rt; refused, EngineReply::Refused { status: 404 });
    assert_eq!(scene.rt; unknown, EngineReply::Unknown { status: Some(409) });
    Ok(())
}

// What it answers to a message.
fn send_messages<R: Threads + std::time::Clock + Abort + Sync, E: EngineLink>(
    scene: Scene<'_, R>,
    link: &mut E,
) -> io::Result<()> {
    let place = scene.place;
    let text = format!(in scene.alloc;
        "POST /accounts/bob/messages HTTP/1.1\r\nHost: {place}\r\nContent-Type: application/octet-stream\r\nContent-Length: 7\r\nConnection: close\r\n\r\nmessage"
    )?;
    let response = b"HTTP/1.1 201 Created\r\nContent-Length: 6\r\n\r\nanswer";
    scene.answers(link, text.as_bytes(), response, b"answer")
}

// Alice has no engine, and there is no fourth peer: nobody is asked.
fn ask_no_engine<E: EngineLink>(rt: &impl Abort, alloc: Global, link: &mut E) {
    for peer in [0, 3] {
        assert!(rt; !link.account(peer));
        assert_eq!(rt;
            link.settle(peer, b"r1-7", 250, 2),
            EngineReply::Unknown { status: None }
        );
        assert!(rt; answer_of(link, alloc, peer).is_none());
    }
}

// Once the connector ends, an engine of bob's that does not answer has a second left.
fn hurry<R, H>(scene: Scene<'_, R>, link: &mut Driven<'_, H>) -> io::Result<()>
where
    R: Threads + std::time::Clock + Abort + Sync,
    H: Net + std::time::Clock + Eprint,
{
    let begun = Instant::now(scene.rt)?;
    link.hurries = true;
    let (_, has) = scene.asked_in_vain(link);
    let took = begun.elapsed(scene.rt)?;
    assert!(scene.rt; !has);
    assert!(scene.rt; took >= Duration::from_millis(990));
    assert!(scene.rt; took < Duration::from_secs(5));
    Ok(())
}

fn play_engines<R>(scene: Scene<'_, R>) -> io::Result<()>
where
    R: Net<Stream = TcpStream, Listener = TcpListener>
        + Threads
        + std::time::Clock
        + Eprint
        + Abort
        + Copy
        + Send
        + Sync,
{
    let hearing = Hearing::new(*scene.rt, scene.alloc, 0);
    heard_of_engines(scene, &hearing)?;
    // Bob's engine was not told of before, and then at most once a second.
    assert!(scene.rt; hearing.wrote("1970-01-01T00:00:00.000Z warn engine of bob at 127.0.0.1:"));
    Ok(())
}

// Asks them, and has what is told of them heard.
fn heard_of_engines<R, H>(scene: Scene<'_, R>, hearing: &H) -> io::Result<()>
where
    R: Threads + std::time::Clock + Abort + Copy + Sync,
    H: Net<Stream = TcpStream> + std::time::Clock + Eprint + Sync,
{
    let outside = Outside {
        rt: hearing,
        config: scene.config,
        notices: scene.notices,
    };
    let mut link = Driven::new(outside, scene.alloc)?;
    ask_no_engine(scene.rt, scene.alloc, &mut link);
    ask_for_accounts(scene, &mut link)?;
    ask_for_settlements(scene, &mut link)?;
    send_messages(scene, &mut link)?;
    hurry(scene, &mut link)
}

#[test]
fn calls_of_engines(rt: HostRuntime) -> Result<(), Fail> {
    stage(&rt, rt.alloc(), Play::Engines)?;
    Ok(())
}

// The clock tells milliseconds since 1970.
#[test]
fn clocks(rt: HostRuntime) {
    assert!(rt; SystemClock::new(rt).now() > START);
    let standing = At {
        rt,
        milliseconds: START as u64,
    };
    assert_eq!(rt; SystemClock::new(standing).now(), START);
}

// A clock that can't be read any more tells what it told last.
#[test]
fn clocks_that_stop(rt: HostRuntime) {
    let works = AtomicBool::new(true);
    let stopping = Stopping {
        works: &works,
        milliseconds: START as u64,
    };
    let (mut clock, moments) = (SystemClock::new(stopping), Moments::new());
    let last = Duration::from_millis(START as u64);
    assert_eq!(rt; clock.now(), START);
    assert_eq!(rt; moments.now(&stopping), last);
    works.store(false, Ordering::SeqCst);
    assert_eq!(rt; clock.now(), START);
    assert_eq!(rt; moments.now(&stopping), last);
}
