//! A connector whose operator corrects bob's balance.

use super::messages::{CLOSE, CLOSED};
use super::silence::ask;
use std::alloc::Global;
use std::io;
use std::net::{Net, TcpStream};
use std::time::Clock;

// The operator's correction by which bob's balance falls by 100.
const CORRECTION: &[u8] = b"POST /accounts/bob/corrections HTTP/1.1\r\nHost: hub\r\n\
Idempotency-Key: c1\r\nContent-Length: 51\r\n\r\n\
{\"amount\":\"-100\",\"scale\":2,\"reason\":\"charged back\"}";

// What it is answered, the first time and again.
const CORRECTED: &[u8] = b"HTTP/1.1 201 Created\r\nContent-Type: application/json\r\n\
Content-Length: 27\r\nConnection: close\r\n\r\n{\"amount\":\"-100\",\"scale\":2}";

// Another one under its key: the balance is to rise.
const OTHER_WAY: &[u8] = b"POST /accounts/bob/corrections HTTP/1.1\r\nHost: hub\r\n\
Idempotency-Key: c1\r\nContent-Length: 50\r\n\r\n\
{\"amount\":\"100\",\"scale\":2,\"reason\":\"charged back\"}";

// Another one under its key: its reason is another.
const OTHER_REASON: &[u8] = b"POST /accounts/bob/corrections HTTP/1.1\r\nHost: hub\r\n\
Idempotency-Key: c1\r\nContent-Length: 48\r\n\r\n\
{\"amount\":\"-100\",\"scale\":2,\"reason\":\"a mistake\"}";

// What these are answered.
const TAKEN: &[u8] = b"HTTP/1.1 409 Conflict\r\n\
Content-Length: 0\r\nConnection: close\r\n\r\n";

// A correction by which the balance would fall below its least.
const TOO_MUCH: &[u8] = b"POST /accounts/bob/corrections HTTP/1.1\r\nHost: hub\r\n\
Idempotency-Key: c2\r\nContent-Length: 49\r\n\r\n\
{\"amount\":\"-1\",\"scale\":2,\"reason\":\"charged back\"}";

// What it is answered.
const BELOW_LEAST: &[u8] = b"HTTP/1.1 403 Forbidden\r\nContent-Type: application/json\r\n\
Content-Length: 43\r\nConnection: close\r\n\r\n{\"balance\":\"-100\",\"least\":\"-100\",\"scale\":2}";

// A correction without a reason.
const NO_REASON: &[u8] = b"POST /accounts/bob/corrections HTTP/1.1\r\nHost: hub\r\n\
Idempotency-Key: c3\r\nContent-Length: 25\r\n\r\n\
{\"amount\":\"-1\",\"scale\":2}";

// A correction without a key.
const NO_KEY: &[u8] = b"POST /accounts/bob/corrections HTTP/1.1\r\nHost: hub\r\n\
Content-Length: 49\r\n\r\n\
{\"amount\":\"-1\",\"scale\":2,\"reason\":\"charged back\"}";

// What both are answered.
const BAD: &[u8] = b"HTTP/1.1 400 Bad Request\r\n\
Content-Length: 0\r\nConnection: close\r\n\r\n";

// A correction by which the balance rises by 10, at another scale.
const RISE: &[u8] = b"POST /accounts/bob/corrections HTTP/1.1\r\nHost: hub\r\n\
Idempotency-Key: c4\r\nContent-Length: 51\r\n\r\n\
{\"amount\":\"1\",\"scale\":1,\"reason\":\"told as alice's\"}";

// What it is answered.
const RISEN: &[u8] = b"HTTP/1.1 201 Created\r\nContent-Type: application/json\r\n\
Content-Length: 25\r\nConnection: close\r\n\r\n{\"amount\":\"10\",\"scale\":2}";

/// What is printed in the end.
pub(crate) const PRINTED_OF_CORRECTIONS: &[u8] =
    b"balance   alice                                            0\n\
balance   bob                                            -90\n\
open      alice                                            0\n\
open      bob                                              0\n\
held      USD/2                                            0\n\
fees      USD/2                                            0\n\
bought    USD/2                                            0\n\
sold      USD/2                                            0\n\
settled   USD/2                                          -90\n\
entries                                                    2\n\
fulfilled                                                  0\n";

/// The balance of bob is corrected, and the connector is closed. Says whether all was as it should be.
pub(crate) fn correct<R>(rt: &R, alloc: Global, engines: &str) -> io::Result<bool>
where
    R: Net<Stream = TcpStream> + Clock,
{
    let corrected = make_corrections(rt, alloc, engines);
    let closed = ask(rt, alloc, engines, CLOSE)?;
    Ok(corrected? && closed.as_slice() == CLOSED)
}

fn make_corrections<R>(rt: &R, alloc: Global, engines: &str) -> io::Result<bool>
where
    R: Net<Stream = TcpStream> + Clock,
{
    let exchanges = [
        (CORRECTION, CORRECTED),
        (CORRECTION, CORRECTED),
        (OTHER_WAY, TAKEN),
        (OTHER_REASON, TAKEN),
        (TOO_MUCH, BELOW_LEAST),
        (NO_REASON, BAD),
        (NO_KEY, BAD),
        (RISE, RISEN),
    ];
    for (request, response) in exchanges {
        let answered = ask(rt, alloc, engines, request)?;
        if answered.as_slice() != response {
            return Ok(false);
        }
    }
    Ok(true)
}
