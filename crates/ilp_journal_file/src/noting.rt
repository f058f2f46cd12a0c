//! A reader or a writer that keeps its last error.

use std::io;
use std::io::{Read, Write};

/// A reader or a writer that keeps the error of its last call that failed.
#[derive(Drop)]
pub struct Noting<T> {
    /// What is read or written.
    pub inner: T,
    /// The last error, where there was one.
    pub error: Option<io::Error>,
}

impl<T> Noting<T> {
    /// No call has failed yet.
    pub fn new(inner: T) -> Self {
        Noting { inner, error: None }
    }
}

impl<R: Read> Read for Noting<R> {
    ghost remaining = { λ noting. R.remaining noting.inner };

    fn read(&mut self, room: &mut [u8]) -> io::Result<usize> {
        let outcome = self.inner.read(room);
        if let Err(error) = outcome {
            self.error = Some(error);
        }
        outcome
    }
}

impl<W: Write> Write for Noting<W> {
    ghost contents = { λ noting. W.contents noting.inner };

    fn write(&mut self, octets: &[u8]) -> io::Result<usize> {
        let outcome = self.inner.write(octets);
        if let Err(error) = outcome {
            self.error = Some(error);
        }
        outcome
    }

    fn flush(&mut self) -> io::Result<()> {
        self.inner.flush()
    }
}
