//! Messages that are written.

use ilp_http::{Kind, Outgoing, OwnField, Status, write_request, write_response};
use ilp_io::{Narrow, Recording, Sink, WhenFull, WriteFault};
use std::alloc::{AllocError, Global};
use std::{io, str};

const STATUSES: [Status; 13] = [
    Status::Ok,
    Status::Created,
    Status::BadRequest,
    Status::Unauthorized,
    Status::Forbidden,
    Status::NotFound,
    Status::MethodNotAllowed,
    Status::Conflict,
    Status::LengthRequired,
    Status::ContentTooLarge,
    Status::FieldsTooLarge,
    Status::BadGateway,
    Status::Unavailable,
];

const KINDS: [Kind; 3] = [Kind::OctetStream, Kind::Json, Kind::Text];

/// A message to be written.
#[derive(Clone, Copy)]
enum Message<'a> {
    Response(Status, Kind),
    Request(Outgoing<'a>),
}

impl Message<'_> {
    fn write<W: Sink>(&self, sink: &mut W, body: &[u8]) -> Result<(), WriteFault> {
        match self {
            Message::Response(status, kind) => write_response(sink, *status, *kind, body),
            Message::Request(head) => write_request(sink, head, body),
        }
    }
}

/// Prints what is written of each message, with bodies of several lengths.
pub(crate) fn print_written<R: Print + AllocGlobal>(rt: &R) -> io::Result<()> {
    for status in STATUSES {
        for kind in KINDS {
            print_bodies(rt, Message::Response(status, kind))?;
        }
    }
    let fields = [
        OwnField::Absent,
        OwnField::Bearer(b"to-bob"),
        OwnField::IdempotencyKey(b"r1-5"),
    ];
    for own in fields {
        for kind in KINDS {
            print_bodies(rt, Message::Request(outgoing(kind, own)))?;
        }
    }
    print_long(rt)
}

// Bodies that don't go out in one write with their heads.
fn print_long<R: Print + AllocGlobal>(rt: &R) -> io::Result<()> {
    let long = [b'a'; 1024];
    let request = outgoing(Kind::OctetStream, OwnField::Absent);
    print_message(rt, Message::Response(Status::Ok, Kind::Text), &long)?;
    print_message(rt, Message::Request(request), &long)
}

fn outgoing(kind: Kind, own: OwnField<'_>) -> Outgoing<'_> {
    Outgoing {
        target: b"/ilp",
        host: b"127.0.0.1:7001",
        kind,
        own,
    }
}

fn print_bodies<R: Print + AllocGlobal>(rt: &R, message: Message<'_>) -> io::Result<()> {
    print_message(rt, message, b"")?;
    print_message(rt, message, b"{\"amount\":\"199\",\"scale\":2}")
}

// The line ends of a head are printed as `|`, and a long body as its length.
fn print_message<R: Print + AllocGlobal>(
    rt: &R,
    message: Message<'_>,
    body: &[u8],
) -> io::Result<()> {
    let alloc = rt.alloc();
    let mut sink = Recording::new(alloc);
    if message.write(&mut sink, body).is_err() {
        return println!(rt; "not written");
    }
    let stopped = stopped_at_each(alloc, message, body, sink.octets.as_slice())?;
    let head = sink.octets.len().saturating_sub(body.len());
    let lines = str::from_utf8(&sink.octets[..head]).unwrap_or("no text");
    let lines = lines.replace(alloc, "\r\n", "|")?;
    let text = body_text(alloc, &sink.octets[head..])?;
    println!(rt; "{lines}{text}: stopped at each of {stopped} octets")
}

fn body_text(alloc: Global, body: &[u8]) -> Result<String, AllocError> {
    if body.len() > 64 {
        return format!(in alloc; "<{} octets>", body.len());
    }
    str::from_utf8(body).unwrap_or("no text").to_string(alloc)
}

// At how many octets a writer may stop, so that the fault is told and just the octets before are
// taken.
fn stopped_at_each(
    alloc: Global,
    message: Message<'_>,
    body: &[u8],
    octets: &[u8],
) -> Result<usize, AllocError> {
    let mut stopped = 0usize;
    for room in 0..octets.len() {
        let when_full = if room % 2 == 0 {
            WhenFull::Fails
        } else {
            WhenFull::TakesNone
        };
        let mut sink = Narrow::new(alloc, 7, room, when_full);
        let outcome = message.write(&mut sink, body);
        if outcome == Err(WriteFault) && sink.recording.octets.as_slice() == &octets[..room] {
            stopped = stopped.saturating_add(1);
        }
    }
    Ok(stopped)
}
