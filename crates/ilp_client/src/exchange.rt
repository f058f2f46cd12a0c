//! A request that is sent, and what comes back for it.
ghost use Rattle.std.specs.Prelude.{◌≡◌, IfSome, IsErrOf};
ghost use Rattle.ilp_io.specs.Counts.{CountsUp, Tallies, TalliesUpTo};
ghost use Rattle.ilp_http.specs.Limits.{most_reads};
ghost use Rattle.ilp_http.specs.Writing.{request_text};
ghost use Rattle.ilp_client.specs.Exchange.{IsRequestWritten, IsResponseRead, IsReadInTime, failed_writes, failed_reads};

use ilp_http::{Buffer, Outgoing, Response, ResponseFault, read_response, write_request};
use ilp_io::{Sink, Source};
use thiserror::Error;

/// Why no response came.
#[derive(Clone, Copy, Debug, PartialEq, Eq, Error)]
pub enum PostFault {
    /// The request did not go out whole. Nothing was read.
    #[error("a write failed or took no octet")]
    Unsent,
    /// The request went out, and what came back is no response.
    #[error("{0}")]
    Unanswered(ResponseFault),
}

/// Sends a request and reads the response (RFC 9112), in at most 4,096 reads. It takes no memory.
///
/// Octets after the response are ignored. Refusals: `Unsent` where a write failed or took no octet,
/// after which a part of the request was taken; `Unanswered` with the fault of the reading.
pub fn post<'b, W: Sink, S: Source>(
    sink: &mut W,
    source: &mut S,
    head: &Outgoing<'_>,
    body: &[u8],
    buffer: &'b mut Buffer,
) -> Result<Response<'b>, PostFault>
    ensures sent { IsRequestWritten (W.contents sink.old) (W.contents sink.new)
        (request_text head.now body.now) result }
    ensures answered { IfSome (S.remaining source.old) (λ input. IsResponseRead input result) }
    // Of any source: it is not read once the answer rests on no octet that may follow.
    ensures timely { IsReadInTime S.pulled source.old source.new result }
    ensures unread { IsErrOf result PostFault.Unsent → source.new ≡ source.old }
    ensures writes { CountsUp (W.failures sink.old) (W.failures sink.new) (failed_writes result) }
    ensures reads { TalliesUpTo (S.tally source.old) (S.tally source.new)
        most_reads (failed_reads result) }
    ensures patient { IsErrOf result (PostFault.Unanswered ResponseFault.TooManyReads)
        → Tallies (S.tally source.old) (S.tally source.new) most_reads 0 }
{
    let Ok(()) = write_request(sink, head, body) else {
        return Err(PostFault::Unsent);
    };
    match read_response(source, buffer) {
        Ok(response) => Ok(response),
        Err(fault) => Err(PostFault::Unanswered(fault)),
    }
}
