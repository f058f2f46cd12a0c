//! How a run ends that keeps its journal in a file.

use crate::report::print_report;
use ilp_book::Book;
use ilp_io::Recording;
use ilp_journal_file::{JournalFile, PlacesFiles};
use ilp_notices::nothing_to_save;
use ilp_running::{ServeFault, Unprinted};
use ilp_starting::{BookFile, Host, Refused, RunFault};
use std::fs::File;
use std::rt::Files;

/// Prints the report of a book that was closed, and saves its journal at this path, whatever became of the
/// report: also where there was no memory for it. `report` has nothing in it.
pub(crate) fn end<R>(
    rt: &R,
    taken: &JournalFile<File>,
    path: &str,
    book: &Book,
    report: &mut Recording,
) -> Result<(), RunFault>
where
    R: Host + Files<File = File> + PlacesFiles<File = File>,
{
    let reported = print_report(rt, book, report);
    let file = BookFile {
        rt,
        config: book.config(),
        file: taken,
        path,
    };
    match file.end(book) {
        Ok(()) => reported,
        Err(refused) => Err(RunFault::Refused(refused)),
    }
}

/// What becomes of the log where a connector gave no book back. One that could not listen has booked
/// nothing, so its log goes. Any other may have booked something, and the log stays.
pub(crate) fn leave_unsaved<R>(
    rt: &R,
    taken: &JournalFile<File>,
    path: &str,
    fault: ServeFault,
) -> RunFault
where
    R: Host + Files<File = File> + PlacesFiles<File = File>,
{
    match fault {
        ServeFault::Unprinted(Unprinted::Listen(_)) => taken.remove_log(rt),
        // What is kept of the books stays as it is.
        ServeFault::NextRefused(_) => {}
        _ => nothing_to_save(rt, path, taken.log_path()),
    }
    run_fault(fault)
}

/// A connector that printed no report, or not all of it, as what its program ends with.
pub(crate) fn run_fault(fault: ServeFault) -> RunFault {
    match fault {
        ServeFault::Write => RunFault::OutputFailed,
        fault => RunFault::Refused(Refused::from(fault.refusal())),
    }
}
