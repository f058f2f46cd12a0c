//! Whether the octets that have come so far are a request.
ghost use Rattle.std.specs.Prelude.{◌≡◌, ◌<◌, ◌≤◌, length, take};
ghost use Rattle.httparse.specs.Grammar.{HasNoRequest};
ghost use Rattle.httparse.specs.Spans.{IsRequestWithin};
ghost use Rattle.ilp_http.specs.Limits.{head_limit};
ghost use Rattle.ilp_http.specs.Layout.{length_at, IsSeen, StayRefused, IsExamined};

use crate::framing::{Framing, framing_of};
use crate::limits::{BODY_LIMIT, FIELD_LIMIT, HEAD_LIMIT};
use crate::refusal::Refusal;
use httparse::spans::{EMPTY_HEADER_SPAN, HeaderSpan, RequestSpans, parse_request};
use httparse::{Error, Status};

/// What octets that have come so far are.
#[derive(Clone, Copy, Debug, PartialEq, Eq)]
pub enum Look {
    /// They begin with a whole request. Octets may stand after it.
    Whole,
    /// They begin a head. They are no whole request before a line feed comes. A stream that ended
    /// here would be a bad request.
    InHead,
    /// They have a head, and are a whole request once there are so many. A stream that ended before
    /// would be a bad request.
    InBody { whole: usize },
    /// They are refused, whatever follows.
    Refused(Refusal),
}

/// Where the parts of a request are.
#[derive(Clone, Copy, Debug)]
pub(crate) struct Layout {
    pub head: RequestSpans,
    /// The octets of the body.
    pub body: usize,
}

/// What an examination of octets finds.
#[derive(Clone, Copy, Debug)]
pub(crate) enum Finding {
    Whole(Layout),
    InHead,
    InBody { whole: usize },
    Refused(Refusal),
}

/// The length of the body that a head announces.
fn announced(octets: &[u8], spans: &[HeaderSpan], head: &RequestSpans) -> Result<usize, Refusal>
    requires { IsRequestWithin octets.now spans.now head.now }
    ensures { result ≡ length_at octets.now spans.now head.now }
{
    if head.method.of(octets) != b"POST".as_slice() {
        return Err(Refusal::MethodNotAllowed);
    }
    match framing_of(octets, &spans[..head.headers]) {
        Framing::Coded | Framing::Unannounced => Err(Refusal::LengthRequired),
        Framing::Octets(length) => Ok(length),
        Framing::Unreadable => Err(Refusal::BadRequest),
        Framing::TooLong => Err(Refusal::ContentTooLarge),
    }
}

/// Whether the octets so far are a whole request, the beginning of one, or neither.
pub(crate) fn examine(octets: &[u8], spans: &mut [HeaderSpan]) -> Finding
    requires { length spans.old ≡ FIELD_LIMIT }
    ensures { IsExamined octets.now spans.new result }
{
    let front = &octets[..octets.len().min(HEAD_LIMIT)];
    match parse_request(front, spans) {
        Ok(Status::Complete(head)) => match announced(front, spans, &head) {
            Ok(body) if octets.len() - head.len < body => Finding::InBody {
                whole: head.len + body,
            },
            Ok(body) => Finding::Whole(Layout { head, body }),
            Err(refusal) => Finding::Refused(refusal),
        },
        Ok(Status::Partial) if octets.len() < HEAD_LIMIT => Finding::InHead,
        Ok(Status::Partial) => Finding::Refused(long_refusal(octets, spans)),
        Err(error) => match error {
            Error::TooManyHeaders => Finding::Refused(Refusal::FieldsTooLarge),
            _ if octets.len() < HEAD_LIMIT => Finding::Refused(Refusal::BadRequest),
            _ => Finding::Refused(long_refusal(octets, spans)),
        },
    }
}

/// Why octets are refused of which so many as a head may have are none: that they are too many comes
/// first, unless fewer could become no head already.
fn long_refusal(octets: &[u8], spans: &mut [HeaderSpan]) -> Refusal
    requires spans { length spans.old ≡ FIELD_LIMIT }
    requires long { head_limit ≤ length octets.now }
    requires none { HasNoRequest (take head_limit octets.now) }
    ensures { StayRefused octets.now result }
{
    match parse_request(&octets[..HEAD_LIMIT - 1], spans) {
        Ok(Status::Complete(_)) => unreachable!(),
        Ok(Status::Partial) => Refusal::FieldsTooLarge,
        Err(error) => match error {
            Error::TooManyHeaders => Refusal::FieldsTooLarge,
            _ => Refusal::BadRequest,
        },
    }
}

/// What octets that have come so far are, by the definitions that `read_request` answers by. A
/// server asks it before it gives a connection to a worker. It tells what has to come until another
/// look can find a whole request, so that a server needs no look at each piece.
///
/// It reads nothing and takes no memory.
pub fn look_at(octets: &[u8]) -> Look
    ensures { IsSeen octets.now result }
{
    let mut spans = [EMPTY_HEADER_SPAN; FIELD_LIMIT];
    match examine(octets, &mut spans) {
        Finding::Whole(_) => Look::Whole,
        Finding::InHead => Look::InHead,
        Finding::InBody { whole } => Look::InBody { whole },
        Finding::Refused(refusal) => Look::Refused(refusal),
    }
}
