//! Statements, each asked for in a line.

use crate::books::book_of;
use crate::cuts::print_cuts;
use ilp_book::Book;
use ilp_io::{Recording, Sink};
use ilp_statement_text::{Extent, Sought, StatementFault, moment_of, put_records, put_rows};
use std::alloc::Global;
use std::rt::Runtime;
use std::{fs, io, str};

/// A statement of a peer's account that is asked for.
#[derive(Clone, Copy)]
pub(crate) struct Question<'q> {
    peer: u32,
    extent: Extent,
    sought: Sought<'q>,
}

/// In which form it is written.
#[derive(Clone, Copy)]
pub(crate) enum Form {
    Rows,
    Records,
}

impl Question<'_> {
    /// Writes the statement. One of entries that aren't there is not written.
    pub(crate) fn write<W: Sink>(
        self,
        alloc: Global,
        book: &Book,
        form: Form,
        sink: &mut W,
    ) -> Result<(), StatementFault> {
        let Question {
            peer,
            extent,
            sought,
        } = self;
        let is_within = extent.first <= extent.behind && extent.behind <= book.len();
        if peer >= book.config().peers() || !is_within {
            return Ok(());
        }
        match form {
            Form::Rows => put_rows(alloc, book, peer, extent, sought, sink),
            Form::Records => put_records(alloc, book, peer, extent, sought, sink),
        }
    }
}

/// Prints each statement that is asked for, in both forms.
pub(crate) fn print_statements<R: Runtime + AllocGlobal>(rt: &R) -> io::Result<()> {
    for name in ["hub", "later"] {
        let book = book_of(rt, name)?;
        let path = format!(in rt.alloc(); "{name}.rows")?;
        let rows = fs::read_to_string(rt, path.as_str())?;
        print_rows(rt, &book, rows.as_str())?;
    }
    Ok(())
}

fn print_rows<R: Runtime + AllocGlobal>(rt: &R, book: &Book, rows: &str) -> io::Result<()> {
    for row in rows.lines() {
        println!(rt; "== {row}")?;
        print_row(rt, book, row)?;
    }
    Ok(())
}

// Prints what a row asks for: `PEER FIRST BEHIND FROM TO PACKET KEY`, with the key in hexadecimal, and `-` for what is
// not given.
fn print_row<R: Runtime + AllocGlobal>(rt: &R, book: &Book, row: &str) -> io::Result<()> {
    let (row, digits) = row.rsplit_once(' ').unwrap_or((row, ""));
    let Ok(key) = hex::decode(rt.alloc(), field_of(digits)) else {
        return println!(rt; "row not understood");
    };
    match question_in(book, row, &key) {
        Some(question) => {
            print_form(rt, book, question, Form::Rows)?;
            print_form(rt, book, question, Form::Records)
        }
        None => println!(rt; "row not understood"),
    }
}

fn question_in<'q>(book: &Book, row: &'q str, key: &'q [u8]) -> Option<Question<'q>> {
    let mut fields = row.split(" ");
    let peer = book.config().peer_by_name(fields.next()?.as_bytes())?;
    let extent = Extent {
        first: fields.next()?.parse().ok()?,
        behind: fields.next()?.parse().ok()?,
        from: moment_of(fields.next()?),
        to: moment_of(fields.next()?),
    };
    let sought = Sought {
        packet: given(field_of(fields.next()?).as_bytes()),
        key: given(key),
    };
    Some(Question {
        peer,
        extent,
        sought,
    })
}

// What a field of a row says, with nothing for `-`. (A key may be that octet: it is decoded behind this.)
fn field_of(text: &str) -> &str {
    text.strip_prefix('-').unwrap_or(text)
}

fn given(octets: &[u8]) -> Option<&[u8]> {
    if octets.is_empty() {
        return None;
    }
    Some(octets)
}

// Prints a statement, with its CRs as words, and into how little room it was written.
fn print_form<R: Runtime + AllocGlobal>(
    rt: &R,
    book: &Book,
    question: Question<'_>,
    form: Form,
) -> io::Result<()> {
    let mut recording = Recording::new(rt.alloc());
    if let Err(fault) = question.write(rt.alloc(), book, form, &mut recording) {
        return println!(rt; "{fault}");
    }
    match str::from_utf8(&recording.octets) {
        Ok(text) => {
            let text = text.replace(rt.alloc(), "\r", "<CR>")?;
            print!(rt; "{text}")?;
        }
        Err(_) => println!(rt; "it is no text")?,
    }
    print_cuts(rt, book, question, form, &recording.octets)
}
