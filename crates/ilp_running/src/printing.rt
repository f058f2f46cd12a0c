//! The report on standard error, where it could not be printed.

use ilp_notices::report_follows;
use ilp_report::{Snapshot, print};
use std::io::{Eprint, Write};
use std::time::Clock;
use std::{io, str};

/// Tells the report on standard error, since it is all that is left of the book.
pub(crate) fn tell_report<R: Clock + Eprint>(rt: &R, snapshot: &Snapshot) {
    report_follows(rt);
    let _ = print(snapshot, &mut ErrorOutput { rt });
}

// Standard error as a writer of texts.
#[derive(Drop)]
struct ErrorOutput<'r, R> {
    rt: &'r R,
}

impl<R: Eprint> Write for ErrorOutput<'_, R> {
    fn write(&mut self, octets: &[u8]) -> io::Result<usize> {
        match str::from_utf8(octets) {
            Ok(text) => {
                self.rt.eprint(text)?;
                Ok(octets.len())
            }
            Err(_) => Err(io::Error::from(io::ErrorKind::InvalidData)),
        }
    }

    fn flush(&mut self) -> io::Result<()> {
        Ok(())
    }
}
