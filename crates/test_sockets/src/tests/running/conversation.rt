//! What the peers, the engine and the operator do, each step after the one before.

use super::messages::{
    ACCOUNT, ANSWERED, CLOSE, CLOSED, CREATED, CREDIT, CREDITED, FROM_ALICE, PASSED_ON, PREPARE,
    SETTLEMENT, TO_BOB, message,
};
use crate::tests::FULFILL;
use crate::tests::sockets::{answer, hear, hear_and_answer, receive, send};
use std::alloc::Global;
use std::io;
use std::net::{Net, TcpListener, TcpStream};
use std::time::Clock;

const PEERS: &str = "127.0.0.1:7768";

const ENGINES: &str = "127.0.0.1:7769";

/// The places at which bob's server and his engine listen.
#[derive(Drop)]
pub(crate) struct Others<'a> {
    pub(crate) bob: &'a TcpListener,
    pub(crate) engine: &'a TcpListener,
}

/// The whole conversation. Whatever came before, the connector is asked to close in the end. Says
/// whether all was as it should be.
pub(crate) fn converse<R>(rt: &R, alloc: Global, others: &Others<'_>) -> io::Result<bool>
where
    R: Net<Stream = TcpStream> + Clock,
{
    let forwarded = forward_two(rt, alloc, others.bob);
    let settled = settle(rt, alloc, others.engine);
    let closed = ask(rt, alloc, CLOSE)?;
    Ok(forwarded? && settled? && closed.as_slice() == CLOSED)
}

// Alice sends two packets at once, and bob's server answers neither until it has both.
fn forward_two<R>(rt: &R, alloc: Global, bob: &TcpListener) -> io::Result<bool>
where
    R: Net<Stream = TcpStream> + Clock,
{
    let request = message(alloc, FROM_ALICE, PREPARE)?;
    let response = message(alloc, ANSWERED, FULFILL)?;
    let mut first = send(rt, PEERS, request.as_slice())?;
    let mut second = send(rt, PEERS, request.as_slice())?;
    let is_heard = hear_two(rt, alloc, bob)?;
    let first = receive(alloc, &mut first)?.as_slice() == response.as_slice();
    let second = receive(alloc, &mut second)?.as_slice() == response.as_slice();
    Ok(is_heard && first && second)
}

// Bob's server, for two packets.
fn hear_two(rt: &impl Clock, alloc: Global, bob: &TcpListener) -> io::Result<bool> {
    let request = message(alloc, TO_BOB, PASSED_ON)?;
    let response = message(alloc, ANSWERED, FULFILL)?;
    let (mut first, is_first) = hear(rt, alloc, bob, request.as_slice())?;
    let (mut second, is_second) = hear(rt, alloc, bob, request.as_slice())?;
    answer(&mut first, response.as_slice())?;
    answer(&mut second, response.as_slice())?;
    Ok(is_first && is_second)
}

// Bob's engine is told of the account and tells of a settlement, after which it is asked for one.
fn settle<R>(rt: &R, alloc: Global, engine: &TcpListener) -> io::Result<bool>
where
    R: Net<Stream = TcpStream> + Clock,
{
    let is_told = hear_and_answer(rt, alloc, engine, ACCOUNT, CREATED)?;
    let credited = ask(rt, alloc, CREDIT)?;
    let is_asked = hear_and_answer(rt, alloc, engine, SETTLEMENT, CREATED)?;
    Ok(is_told && is_asked && credited.as_slice() == CREDITED)
}

// Asks for something at the side of the engines, and gives what is answered.
fn ask<R>(rt: &R, alloc: Global, request: &[u8]) -> io::Result<Vec<u8>>
where
    R: Net<Stream = TcpStream> + Clock,
{
    let mut stream = send(rt, ENGINES, request)?;
    receive(alloc, &mut stream)
}
