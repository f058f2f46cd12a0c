//! A reader whose reads are counted.
ghost use Rattle.std.specs.Prelude.{◌≡◌};
ghost use Rattle.std.specs.Io.KnownBytes.{Consumes};
ghost use Rattle.ilp_io.specs.Counts.{tally_told};

use crate::source::Source;
use std::io;
use std::io::Read;

/// A reader with counts of its reads and of those that failed.
///
/// A count stops at `u64::MAX`, which stands for so many or more: from there on the tally is not
/// known.
#[derive(Drop)]
pub struct Counting<R> {
    /// What is read.
    pub reader: R,
    /// How often it was read, failed reads among them.
    pub reads: u64,
    /// How often a read failed.
    pub failures: u64,
}

impl<R> Counting<R> {
    /// Counts from 0 on.
    pub fn new(reader: R) -> Self
        ensures { result ≡ record { reader = reader; reads = 0; failures = 0 } }
    {
        Counting {
            reader,
            reads: 0,
            failures: 0,
        }
    }
}

impl<R: Read> Source for Counting<R> {
    ghost remaining = { λ counting. R.remaining counting.reader };

    ghost tally = { λ counting. tally_told counting.reads counting.failures };

    ghost pulled = { λ old octets new.
        Consumes (R.remaining old.reader) (R.remaining new.reader) octets };

    fn pull(&mut self, room: &mut [u8]) -> io::Result<usize> {
        let outcome = self.reader.read(room);
        self.reads = self.reads.saturating_add(1);
        if outcome.is_err() {
            self.failures = self.failures.saturating_add(1);
        }
        outcome
    }
}
