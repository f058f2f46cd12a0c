//! Where octets come from.
ghost use Rattle.std.specs.Prelude.{ℕ, List, take, Option, None, ⊤, is_err, IfOk, if◌then◌else◌};
ghost use Rattle.std.specs.Io.{ReadsAtMost};
ghost use Rattle.std.specs.Io.KnownBytes.{Consumes, ReadConsumes};
ghost use Rattle.ilp_io.specs.Counts.{Tally, Tallies};

use std::io;
use std::io::Read;

/// Where octets come from. Any `Read` is one, which counts nothing.
pub trait Source {
    // The octets that reads will give from here on, where they are known.
    ghost remaining: { Self → Option (List ℕ) } = { λ _. None };

    // How often it was read, and how often a read failed, where that is known.
    ghost tally: { Self → Option Tally } = { λ _. None };

    // What a read that gives octets does: the source before it, the octets, the source after it.
    ghost pulled: { Self → List ℕ → Self → Type 0 } = { λ _ _ _. ⊤ };

    /// Reads once into the front of the room, and answers how many octets came.
    ///
    /// No octet where there is room for one is the end of the input. After an error the octets
    /// that are left are as before.
    fn pull(&mut self, room: &mut [u8]) -> io::Result<usize>
        ensures bound { ReadsAtMost result room.new }
        ensures octets { ReadConsumes (remaining self.old) (remaining self.new) result room.new }
        ensures counted { Tallies (tally self.old) (tally self.new)
            1 (if is_err result then 1 else 0) }
        ensures gave { IfOk result (λ count. pulled self.old (take count room.new) self.new) };
}

impl<R: Read> Source for R {
    ghost remaining = { R.remaining };

    ghost pulled = { λ old octets new. Consumes (R.remaining old) (R.remaining new) octets };

    fn pull(&mut self, room: &mut [u8]) -> io::Result<usize> {
        self.read(room)
    }
}
