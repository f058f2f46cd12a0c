//! A connector that settles with bob in parts, of which two are open at once.

use super::messages::{CLOSE, CLOSED, CREATED, CREDIT, CREDITED};
use super::silence::ask;
use crate::tests::sockets::hear_and_answer;
use std::alloc::Global;
use std::io;
use std::net::{Net, TcpListener, TcpStream};
use std::time::Clock;

/// Where the connector listens for engines, and where bob's engine does.
#[derive(Clone, Copy)]
pub(crate) struct Settling<'a> {
    pub(crate) engines: &'a str,
    pub(crate) engine: &'a TcpListener,
}

/// Bob's engine says nothing of the first settlement. It accepts the second, for which it is asked while
/// the first is open, and then the first, for which it is asked again. The connector is asked to close in
/// the end. Says whether all was as it should be.
pub(crate) fn settle_in_parts<R>(rt: &R, alloc: Global, settling: Settling<'_>) -> io::Result<bool>
where
    R: Net<Stream = TcpStream> + Clock,
{
    let credited = credit(rt, alloc, settling);
    let settled = settle(rt, alloc, settling.engine);
    let closed = ask(rt, alloc, settling.engines, CLOSE)?;
    Ok(credited? && settled? && closed.as_slice() == CLOSED)
}

// Bob's engine is told of the account, and tells of a settlement.
fn credit<R>(rt: &R, alloc: Global, settling: Settling<'_>) -> io::Result<bool>
where
    R: Net<Stream = TcpStream> + Clock,
{
    let is_told = hear_account(rt, alloc, settling.engine)?;
    let credited = ask(rt, alloc, settling.engines, CREDIT)?;
    Ok(is_told && credited.as_slice() == CREDITED)
}

fn settle(rt: &impl Clock, alloc: Global, engine: &TcpListener) -> io::Result<bool> {
    let is_first = hear_part(rt, alloc, engine, 1, b"")?;
    let is_second = hear_part(rt, alloc, engine, 2, CREATED)?;
    let is_again = hear_part(rt, alloc, engine, 1, CREATED)?;
    Ok(is_first && is_second && is_again)
}

// Bob's engine, for the account.
fn hear_account(rt: &impl Clock, alloc: Global, engine: &TcpListener) -> io::Result<bool> {
    let place = engine.local_addr()?;
    let request = format!(in alloc;
        "POST /accounts HTTP/1.1\r\nHost: {place}\r\nContent-Type: application/json\r\n\
         Content-Length: 12\r\nConnection: close\r\n\r\n{{\"id\":\"bob\"}}"
    )?;
    hear_and_answer(rt, alloc, engine, request.as_bytes(), CREATED)
}

// Bob's engine, for the settlement of this number, of 400, which it answers so.
fn hear_part(
    rt: &impl Clock,
    alloc: Global,
    engine: &TcpListener,
    number: u32,
    response: &[u8],
) -> io::Result<bool> {
    let place = engine.local_addr()?;
    let request = format!(in alloc;
        "POST /accounts/bob/settlements HTTP/1.1\r\nHost: {place}\r\n\
         Content-Type: application/json\r\nContent-Length: 26\r\nIdempotency-Key: r1-{number}\r\n\
         Connection: close\r\n\r\n{{\"amount\":\"400\",\"scale\":2}}"
    )?;
    hear_and_answer(rt, alloc, engine, request.as_bytes(), response)
}
