//! How many octets a file of this process may have.

use crate::system_text::system_text;
use std::alloc::Global;
use std::io::Write;
use std::rt::Files;
use std::{io, str};

// Where Linux says what this process may have.
const LIMITS: &str = "/proc/self/limits";

// What its line on the size of files begins with; the number of octets follows, or that there is none.
const LABEL: &str = "Max file size";

// The system's number of the error that a file is too large (EFBIG).
const TOO_LARGE: i32 = 27;

/// The error of a file that would have more octets than one of this process may have.
pub(crate) fn too_large() -> io::Error {
    io::Error::from_raw_os_error(TOO_LARGE)
}

/// A writer of a file that takes no more octets than a file of this process may have. What is written
/// beyond them is an error of this writer: the system would end the process by a signal (SIGXFSZ).
#[derive(Drop)]
pub(crate) struct Limited<W> {
    /// What is written to.
    pub(crate) inner: W,
    left: u64,
}

impl<W> Limited<W> {
    /// A writer of a file that has nothing in it yet.
    pub(crate) fn new<R: Files>(rt: &R, alloc: Global, inner: W) -> Self {
        Limited {
            inner,
            left: most_octets(rt, alloc),
        }
    }
}

impl<W: Write> Write for Limited<W> {
    ghost contents = { λ limited. W.contents limited.inner };

    fn write(&mut self, octets: &[u8]) -> io::Result<usize> {
        if self.left == 0 {
            return Err(too_large());
        }
        let room = usize::try_from(self.left).unwrap_or(usize::MAX);
        let count = self.inner.write(&octets[..octets.len().min(room)])?;
        self.left = self.left.saturating_sub(count as u64);
        Ok(count)
    }

    fn flush(&mut self) -> io::Result<()> {
        self.inner.flush()
    }
}

/// The most octets that a file of this process may have, or that any can where the system sets no limit
/// or does not say.
pub(crate) fn most_octets<R: Files>(rt: &R, alloc: Global) -> u64 {
    match system_text(rt, alloc, LIMITS) {
        Ok(Some(text)) => limit_in(&text).unwrap_or(u64::MAX),
        _ => u64::MAX,
    }
}

// The limit that counts, by the system's text.
fn limit_in(text: &[u8]) -> Option<u64> {
    for line in str::from_utf8(text).ok()?.lines() {
        if let Some(rest) = line.strip_prefix(LABEL) {
            return rest.split_ascii_whitespace().next()?.parse().ok();
        }
    }
    None
}
