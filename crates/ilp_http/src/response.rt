//! Reading a response.
ghost use Rattle.std.specs.Prelude.{◌≡◌, ◌≢◌, ◌+◌, ◌≤◌, length, take, Err, IfOk, IfErr, IfSome, IsErrOf};
ghost use Rattle.ilp_io.specs.Counts.{Tallies, TalliesUpTo};
ghost use Rattle.ilp_io.specs.Pulls.{PullsWhile};
ghost use Rattle.ilp_http.specs.Limits.{most_reads};
ghost use Rattle.ilp_http.specs.Response.{IsUnsettled};
ghost use Rattle.ilp_http.specs.Placed.{IsWithin, IsPlacedAt, EndsAt};
ghost use Rattle.ilp_http.specs.ResponseAnswer.{IsResponseAnswer, AnswersInTime, IsResponseFault, failed_reads};

use crate::buffer::{Buffer, ROOM};
use crate::limits::MOST_READS;
use crate::response_octets::{ResponseFinding, ResponseLayout, examine_response};
use ilp_io::Source;
use thiserror::Error;

/// A response, in the octets of a buffer.
#[derive(Clone, Copy, Debug)]
pub struct Response<'b> {
    /// The status code, of three digits (RFC 9110, section 15).
    pub status: u16,
    /// The octets of the body.
    pub body: &'b [u8],
}

/// Why no response was read.
#[derive(Clone, Copy, Debug, PartialEq, Eq, Error)]
pub enum ResponseFault {
    /// The octets begin no head, however many fields come before what makes them none, or end within
    /// a response, or their Content-Length is no number.
    #[error("a bad response")]
    Bad,
    /// The head or the body is longer than its limit, or the head has too many fields.
    #[error("the response is too long")]
    TooLong,
    /// A read failed.
    #[error("a read failed")]
    Failed,
    /// There were as many reads as there may be, and the response was not whole.
    #[error("too many reads")]
    TooManyReads,
}

/// What the octets of an input that has ended are.
fn at_end(octets: &[u8]) -> Result<ResponseLayout, ResponseFault>
    ensures within { IfOk result (IsWithin octets.now) }
    ensures answer { EndsAt octets.now result }
{
    match examine_response(octets) {
        ResponseFinding::Whole(place) => Ok(place),
        ResponseFinding::ToEnd(place, _) => Ok(place),
        ResponseFinding::Unfinished(_) => Err(ResponseFault::Bad),
        ResponseFinding::Bad => Err(ResponseFault::Bad),
        ResponseFinding::TooLong => Err(ResponseFault::TooLong),
    }
}

/// Reads until a whole response stands at the front of `octets` or the input ends, and answers how
/// many octets came.
fn fill_response<S: Source>(
    source: &mut S,
    octets: &mut [u8],
) -> Result<(usize, ResponseLayout), ResponseFault>
    requires { length octets.old ≡ ROOM }
    ensures filled { IfOk result (λ found. found.0 ≤ ROOM) }
    ensures within { IfOk result (λ found. IsWithin (take found.0 octets.new) found.1) }
    ensures whole { IfOk result (λ found. IfSome (S.remaining source.old)
        (λ input. IsPlacedAt input (take found.0 octets.new) found.1)) }
    ensures refused { IfErr result
        (λ fault. IfSome (S.remaining source.old) (λ input. IsResponseFault input fault)) }
    ensures whole_in_time { IfOk result (λ found. PullsWhile S.pulled IsUnsettled source.old
        (take found.0 octets.new) source.new) }
    ensures placed { IfOk result
        (λ found. IsPlacedAt (take found.0 octets.new) (take found.0 octets.new) found.1) }
    ensures refused_in_time { IfErr result (λ fault. fault ≢ ResponseFault.Failed
        → AnswersInTime S.pulled source.old source.new (Err fault)) }
    ensures counted { TalliesUpTo (S.tally source.old) (S.tally source.new)
        most_reads (failed_reads result) }
    ensures patient { IsErrOf result ResponseFault.TooManyReads
        → Tallies (S.tally source.old) (S.tally source.new) most_reads 0 }
{
    let mut filled = 0;
    let mut needed = 0;
    let mut reads = 0;
    loop {
        if needed <= filled {
            match examine_response(&octets[..filled]) {
                ResponseFinding::Whole(place) => return Ok((filled, place)),
                ResponseFinding::Unfinished(least) => needed = least,
                ResponseFinding::ToEnd(_, least) => needed = least,
                ResponseFinding::Bad => return Err(ResponseFault::Bad),
                ResponseFinding::TooLong => return Err(ResponseFault::TooLong),
            }
        }
        if reads == MOST_READS {
            return Err(ResponseFault::TooManyReads);
        }
        reads += 1;
        match source.pull(&mut octets[filled..]) {
            Ok(0) => {
                let place = at_end(&octets[..filled])?;
                return Ok((filled, place));
            }
            Ok(count) => filled += count,
            Err(_) => return Err(ResponseFault::Failed),
        }
    }
}

/// Reads a response (RFC 9112, sections 2 to 6), in at most 4,096 reads. It takes no memory.
///
/// What is answered depends on all the octets of the source, and not on the pieces in which they
/// come. The body is empty where there is a Transfer-Encoding, as long as Content-Length says where
/// there is one, and else all octets up to the end of the input. A status of 100 to 199 is like any
/// other. Refusals: `Bad` before `TooLong`, as `ResponseFault` says; `Failed` where a read failed;
/// `TooManyReads` where 4,096 reads gave no whole response. After any of them the next reading
/// begins anew.
pub fn read_response<'b, S: Source>(
    source: &mut S,
    buffer: &'b mut Buffer,
) -> Result<Response<'b>, ResponseFault>
    ensures answer { IfSome (S.remaining source.old) (λ input. IsResponseAnswer input result) }
    // Of any source: it is not read once the answer rests on no octet that may follow.
    ensures timely { result ≢ Err ResponseFault.Failed
        → AnswersInTime S.pulled source.old source.new result }
    ensures counted { TalliesUpTo (S.tally source.old) (S.tally source.new)
        most_reads (failed_reads result) }
    ensures patient { IsErrOf result ResponseFault.TooManyReads
        → Tallies (S.tally source.old) (S.tally source.new) most_reads 0 }
{
    let (filled, place) = fill_response(source, &mut buffer.octets)?;
    let octets = &buffer.octets[..filled];
    Ok(Response {
        status: place.code,
        body: &octets[place.start..place.start + place.body],
    })
}
