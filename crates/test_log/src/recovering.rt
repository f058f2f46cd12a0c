//! What is recovered of all that a crash may leave.

use crate::booking::RESTART;
use crate::running::{Course, HEAD, Stopped};
use crate::tearing::TearingDevice;
use ilp_accounts::Config;
use ilp_book::Book;
use ilp_journal::{Cause, Entry, What};
use ilp_journal_text::entry_line;
use ilp_line_file::{DeviceFault, MemoryDevice, recover};
use std::alloc::Global;
use std::process::Abort;
use std::test::*;

// The journal that was saved before the log began.
const SAVED: &[u8] = b"ilp-journal 1\nend 0\n";

// More than a crash may leave.
const MOST_IMAGES: usize = 1_000_000;

// Whether an entry ends a hold that was open when the machine stopped.
fn ends_open_hold(entry: &Entry) -> bool {
    match &entry.what {
        What::Released { cause, .. } => *cause == Cause::Late || *cause == Cause::Restart,
        _ => false,
    }
}

// The recovered journal begins with all entries that were told, and has no others than those that were
// booked but ends of holds.
fn compare(rt: &impl Abort, config: &Config, recovered: &Book, course: &Course) {
    let mut rest = Some(course.lines.as_slice());
    for number in 0..recovered.len() {
        if let Some(entry) = recovered.entry(number) {
            let line = entry_line(config, entry);
            rest = rest.and_then(|lines| lines.strip_prefix(line.as_slice()));
            assert!(rt; rest.is_some() || (number >= course.told && ends_open_hold(entry)));
        }
    }
    assert!(rt; recovered.len() >= course.told);
}

// The lines of a file of which a crash left this.
fn text_in(alloc: Global, image: Vec<u8>) -> Result<Vec<u8>, DeviceFault> {
    let mut device = MemoryDevice::new(alloc, image);
    recover(alloc, &mut device)
}

// The book that goes on with these lines.
fn book_of(config: &Config, text: &[u8]) -> Option<Book> {
    let logged = text.strip_prefix(HEAD)?;
    Book::recover(config.allocator(), config, SAVED, logged, RESTART).ok()
}

// Looks at one in so many of what a crash may leave. It is none where no book goes on with one of them.
fn recover_each(
    rt: &impl Abort,
    config: &Config,
    device: &TearingDevice,
    course: &Course,
    step: usize,
) -> Option<()> {
    let alloc = config.allocator();
    let mut last = Vec::new(alloc);
    for number in (0..MOST_IMAGES).step_by(step.max(1)) {
        let Some(image) = device.image(number).ok()? else {
            return Some(());
        };
        let text = text_in(alloc, image).ok()?;
        if number == 0 || text.as_slice() != last.as_slice() {
            compare(rt, config, &book_of(config, text.as_slice())?, course);
            last = text;
        }
    }
    None
}

/// Looks at one in so many of what the disk may have when its machine has stopped. It is none where no
/// book goes on.
pub(crate) fn recover_stopped(
    rt: &impl Abort,
    config: &Config,
    stopped: &Stopped,
    step: usize,
) -> Option<()> {
    recover_each(rt, config, &stopped.device, &stopped.course, step)
}
