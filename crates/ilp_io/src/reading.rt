//! Reading a source to its end, within a limit.
ghost use Rattle.std.specs.Prelude.{◌+◌, ◌<◌, ◌≤◌, length, vec_len, IfOk, OnOk, OnErr, IfSome, IsErrOf};
ghost use Rattle.ilp_io.specs.Counts.{TalliesUpTo};
ghost use Rattle.ilp_io.specs.Reading.{IsReadWhole, ConsumesFirst, ConsumesUpTo, failed_reads};

use crate::source::Source;
use std::alloc::Allocator;
use std::error::Error;
use std::fmt;

/// Why a source was not read to its end.
#[derive(Clone, Copy, Debug, PartialEq, Eq)]
pub enum ReadFault {
    /// A read failed.
    Failed,
    /// There are more octets than the limit.
    TooLong,
    /// Memory for the octets was refused.
    Memory,
}

impl fmt::Display for ReadFault {
    fn fmt<W: fmt::Write>(&self, f: &mut fmt::Formatter<W>) -> fmt::Result {
        match self {
            ReadFault::Failed => write!(f, "a read failed"),
            ReadFault::TooLong => write!(f, "the input is longer than its limit"),
            ReadFault::Memory => write!(f, "out of memory"),
        }
    }
}

impl Error for ReadFault {}

// The most octets that one read asks for.
const PIECE: usize = 4096;

/// Reads all that a source has, which is at most `limit` octets.
///
/// Each read but the last gives an octet, so there are at most `limit + 1` of them. No octet after
/// the first `limit + 1` is read.
///
/// Refusals: `Failed` where a read failed, an interrupted one too; `TooLong` where more than
/// `limit` octets came; `Memory` where the list that is answered was denied its growth. The octets
/// that were read by then are lost.
pub fn read_to_limit<S: Source, A: Allocator>(
    alloc: A,
    source: &mut S,
    limit: usize,
) -> Result<Vec<u8, A>, ReadFault>
    ensures whole { IfOk result (λ octets.
        IsReadWhole (S.remaining source.old) (S.remaining source.new) octets.items) }
    ensures within { IfOk result (λ octets. vec_len octets ≤ limit) }
    ensures part { OnErr result
        (ConsumesUpTo (S.remaining source.old) (S.remaining source.new) (limit + 1)) }
    ensures beyond { IsErrOf result ReadFault.TooLong
        → ConsumesFirst (S.remaining source.old) (S.remaining source.new) (limit + 1) }

    // Whether the octets are too many depends on nothing but their number.
    ensures short { OnOk result
        (IfSome (S.remaining source.old) (λ octets. length octets ≤ limit)) }
    ensures long { IsErrOf result ReadFault.TooLong
        → IfSome (S.remaining source.old) (λ octets. limit < length octets) }
    ensures counted { TalliesUpTo (S.tally source.old) (S.tally source.new)
        (limit + 1) (failed_reads result) }
{
    let mut taken = Vec::new(alloc);
    let mut piece = [0u8; PIECE];
    loop {
        let most = (limit - taken.len()).saturating_add(1).min(PIECE);
        let Ok(count) = source.pull(&mut piece[..most]) else {
            return Err(ReadFault::Failed);
        };
        if count == 0 {
            return Ok(taken);
        }
        if count > limit - taken.len() {
            return Err(ReadFault::TooLong);
        }
        let Ok(()) = taken.extend_from_slice(&piece[..count]) else {
            return Err(ReadFault::Memory);
        };
    }
}
