//! Messages that are cut, reads that fail, and reads that are too many.

use crate::row::octets_of;
use ilp_http::{
    Buffer, Look, Refusal, RequestFault, Response, ResponseFault, look_at, read_request,
    read_response,
};
use ilp_io::Pieces;
use std::rt::Files;
use std::{fs, io, str};

/// Prints what comes of the first rows with a part of their octets, and of 4,096 reads and one more.
pub(crate) fn print_cuts<R: Files + Print + AllocGlobal>(rt: &R) -> io::Result<()> {
    let mut buffer = Buffer::new(rt.alloc())?;
    let rows = fs::read_to_string(rt, "requests.txt")?;
    let row = rows.lines().next().unwrap_or("");
    let octets = octets_of(rt.alloc(), row)?;
    print_cut_request(rt, octets.as_slice(), &mut buffer)?;
    print_cut_looks(rt, octets.as_slice())?;
    let rows = fs::read_to_string(rt, "responses.txt")?;
    for row in rows.lines().take(3) {
        let octets = octets_of(rt.alloc(), row)?;
        print_cut_response(rt, octets.as_slice(), &mut buffer)?;
    }
    print_drops(rt, "<4047 a>", 4096, &mut buffer)?;
    print_drops(rt, "<4048 a>", 4097, &mut buffer)?;
    print_head_drops(rt, &mut buffer)?;
    print_response_drops(rt, "<4050 a>", 4096, &mut buffer)?;
    print_response_drops(rt, "<4051 a>", 4097, &mut buffer)
}

fn print_cut_request<R: Print + AllocGlobal>(
    rt: &R,
    octets: &[u8],
    buffer: &mut Buffer,
) -> io::Result<()> {
    let (mut bad, mut failed) = (0usize, 0usize);
    for length in 0..octets.len() {
        let mut source = Pieces::new(&octets[..length], 5);
        let fault = read_request(rt.alloc(), &mut source, buffer).err();
        let refused = Some(RequestFault::Refused(Refusal::BadRequest));
        if fault == refused && looks_unfinished(look_at(&octets[..length])) {
            bad = bad.saturating_add(1);
        }
        let mut source = Pieces::failing(octets, 5, length);
        if read_request(rt.alloc(), &mut source, buffer).err() == Some(RequestFault::Failed) {
            failed = failed.saturating_add(1);
        }
    }
    let size = octets.len();
    println!(rt;
        "of a request of {size} octets {bad} proper prefixes are a bad request and look unfinished, and {failed} reads that fail are told"
    )
}

fn looks_unfinished(look: Look) -> bool {
    match look {
        Look::InHead | Look::InBody { .. } => true,
        Look::Whole | Look::Refused(_) => false,
    }
}

// Counts the prefixes that look to be in the head, and those after them that look to be in the body
// of just this request.
fn print_cut_looks<R: Print>(rt: &R, octets: &[u8]) -> io::Result<()> {
    let size = octets.len();
    let (mut in_head, mut in_body) = (0usize, 0usize);
    for length in 0..size {
        match look_at(&octets[..length]) {
            Look::InHead if in_body == 0 => in_head = in_head.saturating_add(1),
            Look::InBody { whole } if whole == size => in_body = in_body.saturating_add(1),
            _ => {}
        }
    }
    println!(rt;
        "of a request of {size} octets the first {in_head} prefixes look to be in the head, and the {in_body} after them in a body that is whole at {size} octets"
    )
}

fn print_cut_response<R: Print>(rt: &R, octets: &[u8], buffer: &mut Buffer) -> io::Result<()> {
    let (mut bad, mut empty, mut failed) = (0usize, 0usize, 0usize);
    for length in 0..octets.len() {
        let mut source = Pieces::new(&octets[..length], 5);
        match read_response(&mut source, buffer) {
            Ok(response) if response.body.is_empty() => empty = empty.saturating_add(1),
            Err(ResponseFault::Bad) => bad = bad.saturating_add(1),
            _ => {}
        }
        let mut source = Pieces::failing(octets, 5, length);
        if read_response(&mut source, buffer).err() == Some(ResponseFault::Failed) {
            failed = failed.saturating_add(1);
        }
    }
    let size = octets.len();
    println!(rt;
        "of a response of {size} octets {bad} proper prefixes are a bad response, {empty} one without a body, and {failed} reads that fail are told"
    )
}

// A request of so many octets that come one by one.
fn print_drops<R: Print + AllocGlobal>(
    rt: &R,
    value: &str,
    size: usize,
    buffer: &mut Buffer,
) -> io::Result<()> {
    let alloc = rt.alloc();
    let head = "POST /ilp HTTP/1.1%0D%0AContent-Length: 3%0D%0AX: ";
    let row = format!(in alloc; "{head}{value}%0D%0A%0D%0Aabc")?;
    let octets = octets_of(alloc, row.as_str())?;
    let mut source = Pieces::new(octets.as_slice(), 1);
    match read_request(alloc, &mut source, buffer) {
        Ok(request) => {
            let path = str::from_utf8(request.path).unwrap_or("no text");
            let (values, length) = (request.headers.len(), request.body.len());
            println!(rt; "{size} reads of one octet: {path}, {values} values, a body of {length}")
        }
        Err(fault) => println!(rt; "{size} reads of one octet: {fault}"),
    }
}

// 4,097 octets that come one by one, and end no head.
fn print_head_drops<R: Print + AllocGlobal>(rt: &R, buffer: &mut Buffer) -> io::Result<()> {
    let octets = octets_of(rt.alloc(), "POST /ilp HTTP/1.1%0D%0AX: <4074 a>")?;
    let size = octets.len();
    let mut source = Pieces::new(octets.as_slice(), 1);
    match read_request(rt.alloc(), &mut source, buffer) {
        Ok(_) => println!(rt; "a request whose head has no end"),
        Err(fault) => println!(rt; "{size} octets of a head, one by one: {fault}"),
    }
}

// A response of so many octets that come one by one.
fn print_response_drops<R: Print + AllocGlobal>(
    rt: &R,
    value: &str,
    size: usize,
    buffer: &mut Buffer,
) -> io::Result<()> {
    let alloc = rt.alloc();
    let head = "HTTP/1.1 200 OK%0D%0AContent-Length: 3%0D%0AX: ";
    let row = format!(in alloc; "{head}{value}%0D%0A%0D%0Aabc")?;
    let octets = octets_of(alloc, row.as_str())?;
    let mut source = Pieces::new(octets.as_slice(), 1);
    match read_response(&mut source, buffer) {
        Ok(Response { status, body }) => {
            let length = body.len();
            println!(rt; "{size} reads of one octet of a response: {status}, a body of {length}")
        }
        Err(fault) => println!(rt; "{size} reads of one octet of a response: {fault}"),
    }
}
