//! Responses, and what is told of each.

use crate::row::{any_size, octets_of};
use crate::shown::{ending, shown};
use ilp_http::{Buffer, Response, read_response};
use ilp_io::Pieces;
use std::alloc::{AllocError, Global};
use std::rt::Files;
use std::{fs, io};

/// Prints what each row is read as, in one piece, whether that rests on octets that follow, and whether
/// smaller pieces tell the same.
pub(crate) fn print_responses<R: Files + Print + AllocGlobal>(rt: &R) -> io::Result<()> {
    let mut buffer = Buffer::new(rt.alloc())?;
    let rows = fs::read_to_string(rt, "responses.txt")?;
    for (place, row) in rows.lines().enumerate() {
        let octets = octets_of(rt.alloc(), row)?;
        print_told(rt, row, octets.as_slice(), &mut buffer)?;
        for piece in [1usize, 2, 3, 64, 4096, any_size(place)] {
            print_pieces(rt, octets.as_slice(), piece, &mut buffer)?;
        }
    }
    Ok(())
}

// What is told of a row, read in one piece, and whether it rests on what follows.
fn print_told<R: Print + AllocGlobal>(
    rt: &R,
    row: &str,
    octets: &[u8],
    buffer: &mut Buffer,
) -> io::Result<()> {
    let alloc = rt.alloc();
    let mut source = Pieces::new(octets, usize::MAX);
    let answer = answer_of(alloc, &mut source, buffer)?;
    let mut failing = Pieces::failing(octets, usize::MAX, octets.len());
    let with_failed_read = answer_of(alloc, &mut failing, buffer)?;
    let ending = ending(answer.as_str(), with_failed_read.as_str());
    println!(rt; "{row}: {answer}{ending}")
}

// The status and the body of the response that is read, or the fault.
fn answer_of(
    alloc: Global,
    source: &mut Pieces<'_>,
    buffer: &mut Buffer,
) -> Result<String, AllocError> {
    match read_response(source, buffer) {
        Ok(Response { status, body }) => {
            let body = shown(alloc, body)?;
            format!(in alloc; "{status} body {body}")
        }
        Err(fault) => fault.to_string(alloc),
    }
}

// A line more where these pieces give another answer than one piece does, and are few enough.
fn print_pieces<R: Print + AllocGlobal>(
    rt: &R,
    octets: &[u8],
    piece: usize,
    buffer: &mut Buffer,
) -> io::Result<()> {
    if octets.len() / piece.max(1) >= 4095 {
        return Ok(());
    }
    let alloc = rt.alloc();
    let whole = answer_of(alloc, &mut Pieces::new(octets, usize::MAX), buffer)?;
    let answer = answer_of(alloc, &mut Pieces::new(octets, piece.max(1)), buffer)?;
    if answer.as_str() == whole.as_str() {
        return Ok(());
    }
    println!(rt; "in pieces of {piece} octets it is {answer}")
}
