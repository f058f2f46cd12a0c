//! The messages of the conversation, octet for octet, by the standards and the formats of the
//! documents.

use std::alloc::{AllocError, Global};

/// A Prepare of 50 for `test.bob` (RFC 0027), which expires 30 seconds after the clock of the test.
pub(crate) const PREPARE: &[u8] = b"\x0c\x43\0\0\0\0\0\0\0\x3220250101000030000\
\x66\x68\x7a\xad\xf8\x62\xbd\x77\x6c\x8f\xc1\x8b\x8e\x9f\x8e\x20\
\x08\x97\x14\x85\x6e\xe2\x33\xb3\x90\x2a\x59\x1d\x0d\x5f\x29\x25\x08test.bob\0";

/// A Prepare of 50 for `test.bob`, which expires an hour after the clock of the test.
pub(crate) const LASTING: &[u8] = b"\x0c\x43\0\0\0\0\0\0\0\x3220250101010000000\
\x66\x68\x7a\xad\xf8\x62\xbd\x77\x6c\x8f\xc1\x8b\x8e\x9f\x8e\x20\
\x08\x97\x14\x85\x6e\xe2\x33\xb3\x90\x2a\x59\x1d\x0d\x5f\x29\x25\x08test.bob\0";

/// The first as it is passed on: the window of a second is taken from its expiry.
pub(crate) const PASSED_ON: &[u8] = b"\x0c\x43\0\0\0\0\0\0\0\x3220250101000029000\
\x66\x68\x7a\xad\xf8\x62\xbd\x77\x6c\x8f\xc1\x8b\x8e\x9f\x8e\x20\
\x08\x97\x14\x85\x6e\xe2\x33\xb3\x90\x2a\x59\x1d\x0d\x5f\x29\x25\x08test.bob\0";

/// The head of alice's request.
pub(crate) const FROM_ALICE: &[u8] =
    b"POST /ilp HTTP/1.1\r\nHost: hub\r\nAuthorization: Bearer a-token\r\nContent-Length: 69\r\n\r\n";

/// The head of the request that bob's server gets.
pub(crate) const TO_BOB: &[u8] = b"POST /ilp HTTP/1.1\r\nHost: 127.0.0.1:7002\r\n\
Content-Type: application/octet-stream\r\nContent-Length: 69\r\nAuthorization: Bearer to-bob\r\n\
Connection: close\r\n\r\n";

/// The head of a response with a packet of 35 octets.
pub(crate) const ANSWERED: &[u8] = b"HTTP/1.1 200 OK\r\nContent-Type: application/octet-stream\r\n\
Content-Length: 35\r\nConnection: close\r\n\r\n";

/// What an engine is told of an account.
pub(crate) const ACCOUNT: &[u8] = b"POST /accounts HTTP/1.1\r\nHost: 127.0.0.1:7003\r\n\
Content-Type: application/json\r\nContent-Length: 12\r\nConnection: close\r\n\r\n{\"id\":\"bob\"}";

/// What an engine answers to all that it is asked.
pub(crate) const CREATED: &[u8] =
    b"HTTP/1.1 201 Created\r\nContent-Length: 0\r\nConnection: close\r\n\r\n";

/// A settlement that came in from bob, as his engine tells of it.
pub(crate) const CREDIT: &[u8] = b"POST /accounts/bob/settlements HTTP/1.1\r\nHost: hub\r\n\
Idempotency-Key: k\r\nContent-Length: 27\r\n\r\n{\"amount\":\"1000\",\"scale\":2}";

/// What it is answered.
pub(crate) const CREDITED: &[u8] = b"HTTP/1.1 201 Created\r\nContent-Type: application/json\r\n\
Content-Length: 27\r\nConnection: close\r\n\r\n{\"amount\":\"1000\",\"scale\":2}";

/// The settlement to bob that his engine is asked for.
pub(crate) const SETTLEMENT: &[u8] = b"POST /accounts/bob/settlements HTTP/1.1\r\n\
Host: 127.0.0.1:7003\r\nContent-Type: application/json\r\nContent-Length: 26\r\n\
Idempotency-Key: r1-5\r\nConnection: close\r\n\r\n{\"amount\":\"900\",\"scale\":2}";

/// The operator's request for the report.
pub(crate) const REPORT: &[u8] = b"POST /report HTTP/1.1\r\nHost: hub\r\nContent-Length: 0\r\n\r\n";

/// The operator's request to close.
pub(crate) const CLOSE: &[u8] = b"POST /close HTTP/1.1\r\nHost: hub\r\nContent-Length: 0\r\n\r\n";

/// What it is answered.
pub(crate) const CLOSED: &[u8] =
    b"HTTP/1.1 200 OK\r\nContent-Length: 0\r\nConnection: close\r\n\r\n";

/// The operator's request that no payout to bob be made.
pub(crate) const PAUSE: &[u8] =
    b"POST /accounts/bob/pause HTTP/1.1\r\nHost: hub\r\nContent-Length: 0\r\n\r\n";

/// The same of a peer that there is none of.
pub(crate) const PAUSE_OF_NOBODY: &[u8] =
    b"POST /accounts/carol/pause HTTP/1.1\r\nHost: hub\r\nContent-Length: 0\r\n\r\n";

/// What it is answered.
pub(crate) const UNKNOWN: &[u8] =
    b"HTTP/1.1 404 Not Found\r\nContent-Length: 0\r\nConnection: close\r\n\r\n";

/// The operator's request that payouts to bob go on.
pub(crate) const RESUME: &[u8] =
    b"POST /accounts/bob/resume HTTP/1.1\r\nHost: hub\r\nContent-Length: 0\r\n\r\n";

/// What both are answered.
pub(crate) const DONE: &[u8] = CLOSED;

/// The end of a report while payouts to bob are paused.
pub(crate) const PAUSED: &[u8] = b"fulfilled                                                  0\n\
paused    bob                                              1\n";

/// The report where nothing came.
pub(crate) const UNTOUCHED: &[u8] =
    b"balance   alice                                            0\n\
balance   bob                                              0\n\
open      alice                                            0\n\
open      bob                                              0\n\
held      USD/2                                            0\n\
fees      USD/2                                            0\n\
bought    USD/2                                            0\n\
sold      USD/2                                            0\n\
settled   USD/2                                            0\n\
entries                                                    0\n\
fulfilled                                                  0\n";

/// The head of a request whose body is longer than one may be.
pub(crate) const TOO_LONG: &[u8] = b"POST /ilp HTTP/1.1\r\nHost: hub\r\n\
Authorization: Bearer a-token\r\nContent-Length: 10000000\r\n\r\n";

/// What it is answered.
pub(crate) const TOO_LONG_TOLD: &[u8] =
    b"HTTP/1.1 413 Content Too Large\r\nContent-Length: 0\r\nConnection: close\r\n\r\n";

/// What a packet is answered whose peer gave no reply: a Reject T01 of `test.hub` (RFC 0027).
pub(crate) const UNREACHABLE: &[u8] = b"HTTP/1.1 200 OK\r\n\
Content-Type: application/octet-stream\r\nContent-Length: 32\r\nConnection: close\r\n\r\n\
\x0e\x1eT01\x08test.hub\x10peer unreachable\0";

/// What a packet is answered whose hold was swept: a Reject R00 of `test.hub` (RFC 0027).
pub(crate) const TIMED_OUT: &[u8] = b"HTTP/1.1 200 OK\r\n\
Content-Type: application/octet-stream\r\nContent-Length: 25\r\nConnection: close\r\n\r\n\
\x0e\x17R00\x08test.hub\x09timed out\0";

/// The report once a hold was swept, and in the end.
pub(crate) const SWEPT: &[u8] = b"balance   alice                                            0\n\
balance   bob                                              0\n\
open      alice                                            0\n\
open      bob                                              0\n\
held      USD/2                                            0\n\
fees      USD/2                                            0\n\
bought    USD/2                                            0\n\
sold      USD/2                                            0\n\
settled   USD/2                                            0\n\
entries                                                    2\n\
fulfilled                                                  0\n";

/// What is printed in the end of a connector with a silent peer.
pub(crate) const PRINTED_OF_SILENCE: &[u8] =
    b"balance   alice                                            0\n\
balance   bob                                           1000\n\
open      alice                                            0\n\
open      bob                                              0\n\
held      USD/2                                            0\n\
fees      USD/2                                            0\n\
bought    USD/2                                            0\n\
sold      USD/2                                            0\n\
settled   USD/2                                         1000\n\
entries                                                    5\n\
fulfilled                                                  0\n";

/// What is printed in the end of a connector that settled 1000 with bob down to 200 in two parts.
pub(crate) const PRINTED_OF_PARTS: &[u8] =
    b"balance   alice                                            0\n\
balance   bob                                            200\n\
open      alice                                            0\n\
open      bob                                              0\n\
held      USD/2                                            0\n\
fees      USD/2                                            0\n\
bought    USD/2                                            0\n\
sold      USD/2                                            0\n\
settled   USD/2                                          200\n\
entries                                                    5\n\
fulfilled                                                  0\n";

/// What is printed in the end.
pub(crate) const PRINTED: &[u8] = b"balance   alice                                         -100\n\
balance   bob                                            200\n\
open      alice                                            0\n\
open      bob                                              0\n\
held      USD/2                                            0\n\
fees      USD/2                                            0\n\
bought    USD/2                                          100\n\
sold      USD/2                                          100\n\
settled   USD/2                                          100\n\
entries                                                    7\n\
fulfilled                                                  2\n";

/// A head with its body.
pub(crate) fn message(alloc: Global, head: &[u8], body: &[u8]) -> Result<Vec<u8>, AllocError> {
    let mut octets = Vec::new(alloc);
    octets.extend_from_slice(head)?;
    octets.extend_from_slice(body)?;
    Ok(octets)
}
