//! Writing octets whole.
ghost use Rattle.std.specs.Prelude.{is_err, OnOk, OnErr, if◌then◌else◌};
ghost use Rattle.std.specs.Io.KnownBytes.{Appends};
ghost use Rattle.ilp_io.specs.Counts.{CountsUp};
ghost use Rattle.ilp_io.specs.Writing.{AppendsProperPrefix};

use crate::sink::Sink;
use std::error::Error;
use std::fmt;

/// A write failed or took no octet.
#[derive(Clone, Copy, Debug, PartialEq, Eq)]
pub struct WriteFault;

impl fmt::Display for WriteFault {
    fn fmt<W: fmt::Write>(&self, f: &mut fmt::Formatter<W>) -> fmt::Result {
        write!(f, "a write failed or took no octet")
    }
}

impl Error for WriteFault {}

/// Writes all of the octets, in as many writes as the sink needs.
///
/// The first write that fails or takes no octet ends it, an interrupted one too. What was taken
/// before stays written. No octets are written without a call.
pub fn put_all<W: Sink>(sink: &mut W, octets: &[u8]) -> Result<(), WriteFault>
    ensures ok { OnOk result (Appends (W.contents sink.old) (W.contents sink.new) octets.now) }
    ensures err { OnErr result
        (AppendsProperPrefix (W.contents sink.old) (W.contents sink.new) octets.now) }
    ensures failed { CountsUp (W.failures sink.old) (W.failures sink.new)
        (if is_err result then 1 else 0) }
{
    let mut rest = octets;
    while !rest.is_empty() {
        match sink.put(rest) {
            Ok(0) => return Err(WriteFault),
            Ok(count) => rest = &rest[count..],
            Err(_) => return Err(WriteFault),
        }
    }
    Ok(())
}
