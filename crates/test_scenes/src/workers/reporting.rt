//! The report of a desk.

use ilp_desk::{Desk, Naming};
use ilp_io::Recording;
use ilp_report::{Snapshot, print};
use std::alloc::Global;
use std::sync::Wait;
use std::{io, str};

/// Takes a snapshot of a desk, and prints its report.
pub(crate) fn print_report<J: Naming, R: Print + Wait>(rt: &R, desk: &Desk<J>) -> io::Result<()> {
    let alloc = desk.config().allocator();
    let snapshot = desk.snapshot(rt, alloc)?;
    print_lines(rt, alloc, &snapshot)
}

fn print_lines(rt: &impl Print, alloc: Global, snapshot: &Snapshot) -> io::Result<()> {
    let mut report = Recording::new(alloc);
    match print(snapshot, &mut report) {
        Ok(()) => print!(rt; "{}", str::from_utf8(&report.octets).unwrap_or("no text")),
        Err(_) => println!(rt; "no report"),
    }
}
