//! A source in memory.
ghost use Rattle.std.specs.Prelude.{◌≡◌, ◌↔◌, ℕ, ◌<◌, ◌≤◌, ◌++◌, Some, None, min, length, take, unwrap_or, is_err, IsErr, IfOk, if◌then◌else◌};
ghost use Rattle.std.specs.Io.{ReadsAtMost};
ghost use Rattle.std.specs.Io.KnownBytes.{ReadConsumes};
ghost use Rattle.ilp_io.specs.Counts.{Tallies, tally_told};
ghost use Rattle.ilp_io.specs.Pieces.{left_before_failure};

use crate::source::Source;
use std::io;
use std::io::ErrorKind;

/// Gives octets in pieces, and may fail once on the way.
///
/// A count stops at `u64::MAX`, which stands for so many or more: from there on the tally is not
/// known.
#[derive(Drop)]
pub struct Pieces<'a> {
    /// The octets that are left to give.
    pub rest: &'a [u8],
    /// The most octets that one read gives, at least 1.
    pub piece: usize,
    /// How many octets come before the read that fails. After it reads go on where they were.
    pub fails_after: Option<usize>,
    /// How often it was read, failed reads among them.
    pub reads: u64,
    /// How often a read failed.
    pub failures: u64,
    ghost gives: { 0 < piece },
}

impl<'a> Pieces<'a> {
    /// Gives the octets in pieces of this size, at least 1, and fails at none.
    pub fn new(octets: &'a [u8], piece: usize) -> Self
        requires { 0 < piece }
        ensures rest { result.rest.now ≡ octets.now }
        ensures piece { result.piece ≡ piece }
        ensures fails_after { result.fails_after ≡ None }
        ensures reads { result.reads ≡ 0 }
        ensures failures { result.failures ≡ 0 }
    {
        Pieces {
            rest: octets,
            piece,
            fails_after: None,
            reads: 0,
            failures: 0,
        }
    }

    /// Gives the octets in pieces of this size, at least 1, and fails once: at the read that would
    /// begin after `fails_after` octets.
    pub fn failing(octets: &'a [u8], piece: usize, fails_after: usize) -> Self
        requires { 0 < piece }
        ensures rest { result.rest.now ≡ octets.now }
        ensures piece { result.piece ≡ piece }
        ensures fails_after { result.fails_after ≡ Some fails_after }
        ensures reads { result.reads ≡ 0 }
        ensures failures { result.failures ≡ 0 }
    {
        Pieces {
            rest: octets,
            piece,
            fails_after: Some(fails_after),
            reads: 0,
            failures: 0,
        }
    }
}

impl Source for Pieces<'_> {
    ghost remaining = { λ pieces. Some pieces.rest.now };

    ghost tally = { λ pieces. tally_told pieces.reads pieces.failures };

    ghost pulled = { λ old octets new. (old.rest.now ≡ octets ++ new.rest.now)
        × (length octets ≤ old.piece) × (new.piece ≡ old.piece) };

    /// Gives the next piece, up to the place where a read fails.
    fn pull(&mut self, room: &mut [u8]) -> io::Result<usize>
        ensures bound { ReadsAtMost result room.new }
        ensures octets { ReadConsumes (Some self.old.rest.now) (Some self.new.rest.now)
            result room.new }
        ensures counted { Tallies (tally_told self.old.reads self.old.failures)
            (tally_told self.new.reads self.new.failures) 1 (if is_err result then 1 else 0) }
        ensures gave { IfOk result (λ count.
            (self.old.rest.now ≡ take count room.new ++ self.new.rest.now)
            × (length (take count room.new) ≤ self.old.piece)
            × (self.new.piece ≡ self.old.piece)) }
        ensures fails { IsErr result ↔ (self.old.fails_after ≡ Some 0) }
        ensures gives { IfOk result (λ count. count ≡
            min (min (length room.old) self.old.piece)
            (min (length self.old.rest.now)
            (unwrap_or self.old.fails_after (length self.old.rest.now)))) }
        ensures piece { self.new.piece ≡ self.old.piece }
        ensures fails_after { self.new.fails_after
            ≡ left_before_failure self.old.fails_after result }
    {
        self.reads = self.reads.saturating_add(1);
        if self.fails_after == Some(0) {
            self.fails_after = None;
            self.failures = self.failures.saturating_add(1);
            return Err(io::Error::from(ErrorKind::Other));
        }
        let before_failure = self.fails_after.unwrap_or(self.rest.len());
        let count = room
            .len()
            .min(self.piece)
            .min(self.rest.len().min(before_failure));
        room[..count].copy_from_slice(&self.rest[..count]);
        self.rest = &self.rest[count..];
        if let Some(octets) = self.fails_after {
            self.fails_after = Some(octets - count);
        }
        Ok(count)
    }
}
