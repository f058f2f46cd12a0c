//! Where octets go.
ghost use Rattle.std.specs.Prelude.{ℕ, ◌<◌, List, Option, None, length};
ghost use Rattle.std.specs.Io.{WritesAtMost};
ghost use Rattle.std.specs.Io.KnownBytes.{WriteAppends};
ghost use Rattle.ilp_io.specs.Counts.{CountsUp, failure_count};

use std::io;
use std::io::Write;

/// Where octets go. Any `Write` is one, which counts nothing.
pub trait Sink {
    // The octets that were taken, where they are known.
    ghost contents: { Self → Option (List ℕ) } = { λ _. None };

    // How many writes failed or took no octet, where that is known.
    ghost failures: { Self → Option ℕ } = { λ _. None };

    /// Writes once, and answers how many octets were taken, from the front.
    ///
    /// A call has an octet to write: one that takes none has failed, as one that answers an error.
    fn put(&mut self, octets: &[u8]) -> io::Result<usize>
        requires { 0 < length octets.now }
        ensures bound { WritesAtMost result octets.now }
        ensures octets { WriteAppends (contents self.old) (contents self.new) result octets.now }
        ensures failed { CountsUp (failures self.old) (failures self.new) (failure_count result) };
}

impl<W: Write> Sink for W {
    ghost contents = { W.contents };

    fn put(&mut self, octets: &[u8]) -> io::Result<usize> {
        self.write(octets)
    }
}
