//! What is told of the bad lines of a script.

use super::{GROWTHS, differs, expect};
use ilp_accounts::Config;
use ilp_offline::bad_lines;
use std::alloc::Global;
use std::io;
use test_allocator::DenyingAllocator;

// Two bad lines: a word that is none, and digits that are none of hexadecimal.
const SCRIPT: &[u8] = b"repor\nhold 1 alice 0g\nreport\n";

/// Tells the bad lines of a script with each growth denied in turn.
pub(super) fn tell_each_bad_line(alloc: Global, config: &Config) -> io::Result<()> {
    for granted in 0..GROWTHS {
        let told = attempt_telling(alloc, config, granted);
        if !told.is_denied {
            expect(told.found == Some(2))?;
            return expect(granted > 0);
        }
        expect(told.found.is_none())?;
    }
    Err(differs())
}

// A telling of which one growth is denied: whether that was made, and how many lines are bad; `None` where
// memory was short.
#[derive(Clone, Copy)]
struct Told {
    is_denied: bool,
    found: Option<usize>,
}

// Tells the bad lines. The growth behind as many as are granted is denied.
fn attempt_telling(alloc: Global, config: &Config, granted: u64) -> Told {
    let heap = DenyingAllocator::after(alloc, granted);
    let found = match bad_lines(&heap, config, SCRIPT) {
        Ok(lines) => Some(lines.len()),
        Err(_) => None,
    };
    Told {
        is_denied: heap.has_denied(),
        found,
    }
}
