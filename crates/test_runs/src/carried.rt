//! A book that is carried over: saved, and begun again with what was saved.

use crate::readers::readers_agree;
use crate::walks::{Ends, open_hold_at};
use ilp_accounts::Config;
use ilp_book::Book;
use ilp_io::Recording;
use ilp_journal::Hold;
use std::alloc::{AllocError, Global};
use std::io;

// How much later what was carried over is carried over once more; milliseconds.
const LATER: i64 = 60_000;

/// What a book saves, and what the book is to save as which it is carried over.
#[derive(Drop)]
pub(crate) struct Texts {
    saved: Vec<u8>,
    ended: Vec<u8>,
}

impl Texts {
    /// The texts of a book, whose open holds end at this moment.
    pub(crate) fn of(alloc: Global, book: &Book, moment: i64) -> io::Result<Texts> {
        let saved = saved(alloc, book)?;
        match text_ended(alloc, book, &saved, moment) {
            Ok(ended) => Ok(Texts { saved, ended }),
            Err(fault) => Err(io::Error::from(fault)),
        }
    }

    /// The book that begins with what was saved, at this time. Where that isn't the one that is to be, or
    /// doesn't stay the same when it is carried over once more, why is printed, and there is none.
    pub(crate) fn carry_over<R: Print + AllocGlobal>(
        &self,
        rt: &R,
        config: &Config,
        now: i64,
    ) -> io::Result<Option<Book>> {
        if !stays(rt, config, &self.ended, now.wrapping_add(LATER))? {
            return Ok(None);
        }
        begun_with(rt, config, &self.saved, &self.ended, now)
    }
}

// Whether a book without open holds stays the same as it is carried over.
fn stays<R: Print + AllocGlobal>(
    rt: &R,
    config: &Config,
    text: &[u8],
    now: i64,
) -> io::Result<bool> {
    Ok(begun_with(rt, config, text, text, now)?.is_some())
}

// The text of a book.
fn saved(alloc: Global, book: &Book) -> io::Result<Vec<u8>> {
    let mut sink = Recording::new(alloc);
    match book.save(book.config(), &mut sink) {
        Ok(()) => Ok(sink.octets),
        Err(_) => Err(io::Error::from(AllocError)),
    }
}

// The text of a book, once each hold that is open in it has ended at a moment: that of the book without
// its last line, the ends, and the last line of a text of so many more entries.
fn text_ended(alloc: Global, book: &Book, text: &[u8], moment: i64) -> Result<Vec<u8>, AllocError> {
    let mut ended = Vec::new(alloc);
    add_front(alloc, text, book.len(), &mut ended)?;
    let len = add_ends(alloc, book, moment, &mut ended)?;
    add_last_line(alloc, len, &mut ended)?;
    Ok(ended)
}

// Adds a text but for its last line.
fn add_front(alloc: Global, text: &[u8], len: u32, to: &mut Vec<u8>) -> Result<(), AllocError> {
    let last = last_line(alloc, len)?;
    to.extend_from_slice(text.strip_suffix(last.as_bytes()).unwrap_or(text))
}

fn add_last_line(alloc: Global, len: u32, to: &mut Vec<u8>) -> Result<(), AllocError> {
    let last = last_line(alloc, len)?;
    to.extend_from_slice(last.as_bytes())
}

fn last_line(alloc: Global, len: u32) -> Result<String, AllocError> {
    format!(in alloc; "end {len}\n")
}

// Adds the ends of the open holds, and tells how many entries there are with them.
fn add_ends(alloc: Global, book: &Book, moment: i64, to: &mut Vec<u8>) -> Result<u32, AllocError> {
    let ends = Ends::of(alloc, book)?;
    let mut len = book.len();
    for number in 0..book.len() {
        if let Some(hold) = open_hold_at(book, &ends, number) {
            add_end(alloc, number, hold, moment, to)?;
            len = len.wrapping_add(1);
        }
    }
    Ok(len)
}

// Adds the line of a hold's end at a start.
fn add_end(
    alloc: Global,
    number: u32,
    hold: &Hold,
    moment: i64,
    to: &mut Vec<u8>,
) -> Result<(), AllocError> {
    let cause = if moment >= hold.deadline {
        "Late"
    } else {
        "Restart"
    };
    let line = format!(in alloc; "{moment} 0 released {number} {cause}\n")?;
    to.extend_from_slice(line.as_bytes())
}

// The book that begins with a text at this time, if it is the one of the wanted text.
fn begun_with<R: Print + AllocGlobal>(
    rt: &R,
    config: &Config,
    text: &[u8],
    wanted: &[u8],
    now: i64,
) -> io::Result<Option<Book>> {
    match Book::carry_over(rt.alloc(), config, text, now) {
        Ok(book) => wanted_alone(rt, book, wanted),
        Err(fault) => {
            println!(rt; "a text is not carried over: {fault}")?;
            Ok(None)
        }
    }
}

fn wanted_alone<R: Print + AllocGlobal>(
    rt: &R,
    book: Book,
    wanted: &[u8],
) -> io::Result<Option<Book>> {
    let begins = begins_right(rt, &book, wanted);
    match begins {
        Ok(true) => Ok(Some(book)),
        Ok(false) => Ok(None),
        Err(fault) => Err(fault),
    }
}

// Whether a book saves this text, begins behind all of it, and its readers agree with walks.
fn begins_right<R: Print + AllocGlobal>(rt: &R, book: &Book, wanted: &[u8]) -> io::Result<bool> {
    Ok(saves(rt, book, wanted)? && has_base_at_end(rt, book)? && agrees_with_walks(rt, book)?)
}

fn saves<R: Print + AllocGlobal>(rt: &R, book: &Book, wanted: &[u8]) -> io::Result<bool> {
    let text = saved(rt.alloc(), book)?;
    let is_wanted = text.as_slice() == wanted;
    if !is_wanted {
        let common = common_front(&text, wanted);
        println!(rt; "another text is to be saved, from the octet {common} on")?;
    }
    Ok(is_wanted)
}

fn has_base_at_end(rt: &impl Print, book: &Book) -> io::Result<bool> {
    let is_there = book.base() == book.len();
    if !is_there {
        println!(rt; "the base is to be {}, and is {}", book.len(), book.base())?;
    }
    Ok(is_there)
}

fn agrees_with_walks<R: Print + AllocGlobal>(rt: &R, book: &Book) -> io::Result<bool> {
    let ends = Ends::of(rt.alloc(), book)?;
    readers_agree(rt, book, &ends)
}

// In how many octets two texts begin alike.
fn common_front(text: &[u8], other: &[u8]) -> usize {
    text.iter()
        .zip(other.iter())
        .take_while(|(octet, wanted)| octet == wanted)
        .count()
}
