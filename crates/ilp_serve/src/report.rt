//! The report of a book that was closed.
ghost use Rattle.std.specs.Prelude.{◌≡◌, [], Some, IfOk, OnOk};
ghost use Rattle.std.specs.Io.KnownBytes.{Appends};
ghost use Rattle.ilp_report.specs.Report.{report_text};

use crate::ending::run_fault;
use ilp_book::Book;
use ilp_io::{Recording, WriteFault, put_all};
use ilp_notices::report_follows;
use ilp_running::write_report;
use ilp_starting::RunFault;
use std::alloc::{AllocError, Global};
use std::io::{Eprint, Print};
use std::time::Clock;
use std::{io, str};

// The most octets of a report: two lines for each of 256 peers, five for each of 64 assets and three
// more, of 61 octets each.
const LONGEST_REPORT: usize = 50_935;

/// Room for the longest report, to be made before anything is booked that it would tell of.
pub(crate) fn room_for_report(alloc: Global) -> Result<Recording, AllocError>
    ensures { IfOk result (λ report. report.octets.items ≡ []) }
{
    let mut report = Recording::new(alloc);
    report.octets.reserve(LONGEST_REPORT)?;
    Ok(report)
}

/// Prints the report of a book. It is written into memory first, so that what is printed is whole where
/// memory is short.
pub(crate) fn print_report<R>(rt: &R, book: &Book, report: &mut Recording) -> Result<(), RunFault>
where
    R: Clock + Print + Eprint,
    ensures { OnOk result (Appends (Some report.old.octets.items) (Some report.new.octets.items)
        (report_text book.now)) }
{
    match write_report(rt, book, report) {
        Ok(()) => deliver_report(rt, &report.octets),
        Err(fault) => Err(run_fault(fault)),
    }
}

// Prints a report. Where standard output fails it goes to standard error, so that it is not lost.
fn deliver_report<R: Clock + Print + Eprint>(rt: &R, report: &[u8]) -> Result<(), RunFault> {
    match put_all(&mut io::writer(rt), report) {
        Ok(()) => Ok(()),
        Err(WriteFault) => {
            report_follows(rt);
            if let Ok(text) = str::from_utf8(report) {
                let _ = rt.eprint(text);
            }
            Err(RunFault::OutputFailed)
        }
    }
}
