//! Requests, and what is told of each.

use crate::row::{any_size, octets_of};
use crate::shown::{ending, push_escaped, shown};
use ilp_http::{Buffer, Look, Refusal, RequestFault, look_at, read_request};
use ilp_io::Pieces;
use std::alloc::{AllocError, Global};
use std::rt::Files;
use std::{fs, io};

/// Prints what each row is read as, in one piece, whether that rests on octets that follow, and whether
/// smaller pieces or a look tell the same.
pub(crate) fn print_requests<R: Files + Print + AllocGlobal>(rt: &R) -> io::Result<()> {
    let mut buffer = Buffer::new(rt.alloc())?;
    let rows = fs::read_to_string(rt, "requests.txt")?;
    for (place, row) in rows.lines().enumerate() {
        let octets = octets_of(rt.alloc(), row)?;
        print_told(rt, row, octets.as_slice(), &mut buffer)?;
        for piece in [1usize, 2, 3, 64, 4096, any_size(place)] {
            print_pieces(rt, octets.as_slice(), piece, &mut buffer)?;
        }
        print_look(rt, octets.as_slice(), &mut buffer)?;
    }
    Ok(())
}

// What is told of a row, read in one piece, and whether it rests on what follows.
fn print_told<R: Print + AllocGlobal>(
    rt: &R,
    row: &str,
    octets: &[u8],
    buffer: &mut Buffer,
) -> io::Result<()> {
    let alloc = rt.alloc();
    let mut source = Pieces::new(octets, usize::MAX);
    let answer = answer_of(alloc, &mut source, buffer)?;
    let mut failing = Pieces::failing(octets, usize::MAX, octets.len());
    let with_failed_read = answer_of(alloc, &mut failing, buffer)?;
    let ending = ending(answer.as_str(), with_failed_read.as_str());
    println!(rt; "{row}: {answer}{ending}")
}

// The target, the fields and the body of the request that is read, or the fault.
fn answer_of(
    alloc: Global,
    source: &mut Pieces<'_>,
    buffer: &mut Buffer,
) -> Result<String, AllocError> {
    let request = match read_request(alloc, source, buffer) {
        Ok(request) => request,
        Err(fault) => return fault.to_string(alloc),
    };
    let mut text = shown(alloc, request.path)?;
    for (name, value) in request.headers.iter() {
        text.push(' ')?;
        push_escaped(&mut text, name.as_bytes())?;
        text.push_str(": ")?;
        text.push_str(shown(alloc, value.as_bytes())?.as_str())?;
    }
    text.push_str(" body ")?;
    text.push_str(shown(alloc, request.body)?.as_str())?;
    Ok(text)
}

// A line more where these pieces give another answer than one piece does, and are few enough.
fn print_pieces<R: Print + AllocGlobal>(
    rt: &R,
    octets: &[u8],
    piece: usize,
    buffer: &mut Buffer,
) -> io::Result<()> {
    if octets.len() / piece.max(1) >= 4096 {
        return Ok(());
    }
    let alloc = rt.alloc();
    let whole = answer_of(alloc, &mut Pieces::new(octets, usize::MAX), buffer)?;
    let answer = answer_of(alloc, &mut Pieces::new(octets, piece.max(1)), buffer)?;
    if answer.as_str() == whole.as_str() {
        return Ok(());
    }
    println!(rt; "in pieces of {piece} octets it is {answer}")
}

// A line more where a look tells something else of all the octets.
fn print_look<R: Print + AllocGlobal>(
    rt: &R,
    octets: &[u8],
    buffer: &mut Buffer,
) -> io::Result<()> {
    let mut source = Pieces::new(octets, usize::MAX);
    let agrees = match read_request(rt.alloc(), &mut source, buffer) {
        Ok(_) => look_at(octets) == Look::Whole,
        Err(RequestFault::Refused(refusal)) => agrees_on(look_at(octets), refusal),
        Err(_) => false,
    };
    if agrees {
        return Ok(());
    }
    println!(rt; "a look tells something else")
}

// An input that ends early is a bad request, and looks unfinished.
fn agrees_on(look: Look, refusal: Refusal) -> bool {
    match look {
        Look::Whole => false,
        Look::InHead | Look::InBody { .. } => refusal == Refusal::BadRequest,
        Look::Refused(seen) => seen == refusal,
    }
}
