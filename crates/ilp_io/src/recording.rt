//! A sink that keeps what it takes.
ghost use Rattle.std.specs.Prelude.{◌≡◌, ℕ, ◌+◌, ◌≤◌, ◌<◌, [], Some, length, IsOk, IfOk, vec_len, vec_capacity};
ghost use Rattle.std.specs.Io.{WritesAtMost};
ghost use Rattle.std.specs.Io.KnownBytes.{WriteAppends};
ghost use Rattle.ilp_io.specs.Counts.{CountsUp, count_told, failure_count};

use crate::sink::Sink;
use std::alloc::{Allocator, Global};
use std::io;

/// Takes all that is put, and keeps it. A write fails only where memory for it is denied.
///
/// The count stops at `u64::MAX`, which stands for so many or more: from there on the number of
/// failures is not known.
#[derive(Drop)]
pub struct Recording<A: Allocator = Global> {
    /// What was taken.
    pub octets: Vec<u8, A>,
    /// How many writes failed.
    pub failures: u64,
}

impl<A: Allocator> Recording<A> {
    /// A sink that has taken nothing.
    pub fn new(alloc: A) -> Self
        ensures octets { result.octets.items ≡ [] }
        ensures failures { result.failures ≡ 0 }
    {
        Recording {
            octets: Vec::new(alloc),
            failures: 0,
        }
    }
}

impl<A: Allocator> Sink for Recording<A> {
    ghost contents = { λ recording. Some recording.octets.items };

    ghost failures = { λ recording. count_told recording.failures };

    /// Takes all of the octets, or fails and takes none.
    fn put(&mut self, octets: &[u8]) -> io::Result<usize>
        requires { 0 < length octets.now }
        ensures bound { WritesAtMost result octets.now }
        ensures octets { WriteAppends (Some self.old.octets.items) (Some self.new.octets.items)
            result octets.now }
        ensures failed { CountsUp (count_told self.old.failures) (count_told self.new.failures)
            (failure_count result) }
        ensures whole { IfOk result (λ count. count ≡ length octets.now) }
        ensures enough { vec_len self.old.octets + length octets.now ≤ vec_capacity self.old.octets
            → IsOk result }
    {
        match self.octets.extend_from_slice(octets) {
            Ok(()) => Ok(octets.len()),
            Err(refusal) => {
                self.failures = self.failures.saturating_add(1);
                Err(io::Error::from(refusal))
            }
        }
    }
}
