//! The command `check`.

use crate::{Exit, print_line};
use ilp_accounts::Config;
use ilp_book::Book;
use ilp_described::{check, check_book};
use ilp_starting::{
    JournalWarnings, Refused, Telling, book_at, config_octets, config_of, tell_warnings,
};
use std::fs::File;
use std::rt::{Files, Runtime};

/// Says how many peers, assets and routes a configuration has.
pub(crate) fn run_check<R: Runtime + AllocGlobal>(rt: &R, path: &str) -> Exit {
    let octets = match config_octets(rt, path) {
        Ok(octets) => octets,
        Err(refused) => return Exit::Refused(refused),
    };
    match check(rt.alloc(), &octets) {
        Ok(line) => print_checked(rt, path, &octets, line.as_str()),
        Err(fault) => Exit::Refused(Refused::of_config(rt.alloc(), &octets, fault)),
    }
}

/// Says too how many entries a connector of that configuration would begin with from this journal, or
/// why it would be refused. No file is made or changed.
pub(crate) fn run_check_journal<R>(rt: &R, path: &str, journal: &str) -> Exit
where
    R: Runtime + AllocGlobal + Files<File = File> + Copy,
{
    let octets = match config_octets(rt, path) {
        Ok(octets) => octets,
        Err(refused) => return Exit::Refused(refused),
    };
    match checked_journal(rt, &octets, journal) {
        Ok(checked) => {
            let exit = print_checked(rt, path, &octets, checked.line.as_str());
            checked.warnings.tell(rt, journal, Telling::Line);
            exit
        }
        Err(refused) => Exit::Refused(refused),
    }
}

// Prints the line of a configuration that is valid, and tells behind it what is to be looked at.
fn print_checked<R: Runtime + AllocGlobal>(rt: &R, path: &str, octets: &[u8], line: &str) -> Exit {
    let exit = print_line(rt, line);
    tell_warnings(rt, path, octets, Telling::Line);
    exit
}

// What there is to say of a configuration and a journal: the line, and what is in the way of a start.
#[derive(Drop)]
struct Checked {
    line: String,
    warnings: JournalWarnings,
}

// What there is to say of them.
fn checked_journal<R>(rt: &R, octets: &[u8], journal: &str) -> Result<Checked, Refused>
where
    R: Runtime + AllocGlobal + Files<File = File> + Copy,
{
    let config = config_of(rt.alloc(), octets)?;
    checked_by(rt, &config, journal)
}

// The same by a configuration that was read.
fn checked_by<R>(rt: &R, config: &Config, journal: &str) -> Result<Checked, Refused>
where
    R: Runtime + AllocGlobal + Files<File = File> + Copy,
{
    match book_at(rt, config, journal) {
        Ok(carried) => {
            carried.tell(rt, journal, Telling::Line);
            checked_book(rt, &carried.book)
        }
        Err(refused) => Err(refused),
    }
}

// The same of a book.
fn checked_book<R>(rt: &R, book: &Book) -> Result<Checked, Refused>
where
    R: Runtime + AllocGlobal + Copy,
{
    let line = check_book(rt.alloc(), book)?;
    Ok(Checked {
        line,
        warnings: JournalWarnings::of(rt, book),
    })
}
