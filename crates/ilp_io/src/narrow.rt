//! A sink with little room.
ghost use Rattle.std.specs.Prelude.{◌≡◌, ◌↔◌, ◌+◌, ◌<◌, ◌≤◌, [], Some, min, length, IsOk, IfOk, OnErr, vec_len, vec_capacity};
ghost use Rattle.std.specs.Io.{WritesAtMost};
ghost use Rattle.std.specs.Io.KnownBytes.{WriteAppends};
ghost use Rattle.ilp_io.specs.Counts.{CountsUp, count_told, failure_count};

use crate::recording::Recording;
use crate::sink::Sink;
use std::alloc::{Allocator, Global};
use std::io;
use std::io::ErrorKind;

/// What a full sink answers a write.
#[derive(Clone, Copy, Debug, PartialEq, Eq)]
pub enum WhenFull {
    /// That it took no octet.
    TakesNone,
    /// An error.
    Fails,
}

/// Takes so many octets in all, in pieces, and no more.
#[derive(Drop)]
pub struct Narrow<A: Allocator = Global> {
    /// What was taken, and how many writes failed or took no octet.
    pub recording: Recording<A>,
    /// The most octets that one write takes, at least 1.
    pub piece: usize,
    /// How many more octets are taken in all.
    pub room: usize,
    /// What a write is answered where no room is left.
    pub when_full: WhenFull,
    ghost takes: { 0 < piece },
}

impl<A: Allocator> Narrow<A> {
    /// A sink that has taken nothing. A piece is at least 1.
    pub fn new(alloc: A, piece: usize, room: usize, when_full: WhenFull) -> Self
        requires { 0 < piece }
        ensures octets { result.recording.octets.items ≡ [] }
        ensures failures { result.recording.failures ≡ 0 }
        ensures piece { result.piece ≡ piece }
        ensures room { result.room ≡ room }
        ensures when_full { result.when_full ≡ when_full }
    {
        Narrow {
            recording: Recording::new(alloc),
            piece,
            room,
            when_full,
        }
    }
}

impl<A: Allocator> Sink for Narrow<A> {
    ghost contents = { λ narrow. Some narrow.recording.octets.items };

    ghost failures = { λ narrow. count_told narrow.recording.failures };

    /// Takes the next piece, as far as there is room.
    fn put(&mut self, octets: &[u8]) -> io::Result<usize>
        requires { 0 < length octets.now }
        ensures bound { WritesAtMost result octets.now }
        ensures octets { WriteAppends (Some self.old.recording.octets.items)
            (Some self.new.recording.octets.items) result octets.now }
        ensures failed { CountsUp (count_told self.old.recording.failures)
            (count_told self.new.recording.failures) (failure_count result) }
        ensures takes { IfOk result (λ count. count ≡
            min (min (length octets.now) self.old.piece) self.old.room) }
        ensures room { IfOk result (λ count. self.new.room + count ≡ self.old.room) }
        ensures room_kept { OnErr result (self.new.room ≡ self.old.room) }
        ensures piece { self.new.piece ≡ self.old.piece }
        ensures when_full { self.new.when_full ≡ self.old.when_full }

        // Where there is room, it fails only where memory for the piece is denied.
        ensures enough { 0 < self.old.room → vec_len self.old.recording.octets + length octets.now
            ≤ vec_capacity self.old.recording.octets → IsOk result }
        ensures full { self.old.room ≡ 0
            → (IsOk result ↔ (self.old.when_full ≡ WhenFull.TakesNone)) }
    {
        let count = octets.len().min(self.piece).min(self.room);
        if count == 0 {
            self.recording.failures = self.recording.failures.saturating_add(1);
            return match self.when_full {
                WhenFull::TakesNone => Ok(0),
                WhenFull::Fails => Err(io::Error::from(ErrorKind::Other)),
            };
        }
        let taken = self.recording.put(&octets[..count])?;
        self.room -= taken;
        Ok(taken)
    }
}
