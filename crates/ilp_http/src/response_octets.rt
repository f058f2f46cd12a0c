//! Whether the octets that have come so far are a response.
ghost use Rattle.std.specs.Prelude.{take};
ghost use Rattle.httparse.specs.Spans.{ResponseOverflows};
ghost use Rattle.ilp_http.specs.Limits.{head_limit, field_limit};
ghost use Rattle.ilp_http.specs.Placed.{IsHeadOf, IsFinding};

use crate::framing::{Framing, framing_of};
use crate::limits::{BODY_LIMIT, FIELD_LIMIT, HEAD_LIMIT};
use httparse::spans::{EMPTY_HEADER_SPAN, ResponseSpans, parse_response};
use httparse::{Error, Status};

// As many fields as octets within the limit of a head can have, since each has three at least.
const MOST_FIELDS: usize = 5_461;

/// The status of a response, and where its body is.
#[derive(Clone, Copy, Debug)]
pub(crate) struct ResponseLayout {
    pub code: u16,
    pub start: usize,
    pub body: usize,
}

/// What an examination of octets finds.
#[derive(Clone, Copy, Debug)]
pub(crate) enum ResponseFinding {
    Whole(ResponseLayout),
    /// No response yet. It is no use to look again before there are so many octets.
    Unfinished(usize),
    /// A response if the input ends here; with so many octets its body is too long.
    ToEnd(ResponseLayout, usize),
    Bad,
    TooLong,
}

/// What octets that begin with this head are.
fn finding_by(octets: &[u8], head: &ResponseSpans, framing: Framing) -> ResponseFinding
    requires { IsHeadOf octets.now head.now framing }
    ensures { IsFinding octets.now result }
{
    let (code, start) = (head.code, head.len);
    let came = octets.len() - start;
    match framing {
        Framing::Coded => ResponseFinding::Whole(ResponseLayout {
            code,
            start,
            body: 0,
        }),
        Framing::Octets(body) if came < body => ResponseFinding::Unfinished(start + body),
        Framing::Octets(body) => ResponseFinding::Whole(ResponseLayout { code, start, body }),
        Framing::Unannounced if came > BODY_LIMIT => ResponseFinding::TooLong,
        Framing::Unannounced => {
            let body = came;
            ResponseFinding::ToEnd(ResponseLayout { code, start, body }, start + BODY_LIMIT + 1)
        }
        Framing::Unreadable => ResponseFinding::Bad,
        Framing::TooLong => ResponseFinding::TooLong,
    }
}

/// Whether the octets so far are a whole response, the beginning of one, or neither.
pub(crate) fn examine_response(octets: &[u8]) -> ResponseFinding
    ensures { IsFinding octets.now result }
{
    let mut spans = [EMPTY_HEADER_SPAN; FIELD_LIMIT];
    let front = &octets[..octets.len().min(HEAD_LIMIT)];
    match parse_response(front, &mut spans) {
        Ok(Status::Complete(head)) => {
            let framing = framing_of(front, &spans[..head.headers]);
            finding_by(octets, &head, framing)
        }
        Ok(Status::Partial) if octets.len() < HEAD_LIMIT => {
            ResponseFinding::Unfinished(octets.len() + 1)
        }
        Ok(Status::Partial) => ResponseFinding::TooLong,
        Err(error) => match error {
            Error::TooManyHeaders => examine_many(octets),
            _ => ResponseFinding::Bad,
        },
    }
}

/// What octets are that begin more fields than a head may have. They may yet turn out to be no head
/// at all, so this is known once the head is whole.
#[inline(never)]
fn examine_many(octets: &[u8]) -> ResponseFinding
    requires { ResponseOverflows field_limit (take head_limit octets.now) }
    ensures { IsFinding octets.now result }
{
    let mut spans = [EMPTY_HEADER_SPAN; MOST_FIELDS];
    let front = &octets[..octets.len().min(HEAD_LIMIT)];
    match parse_response(front, &mut spans) {
        Ok(Status::Complete(_)) => ResponseFinding::TooLong,
        Ok(Status::Partial) if octets.len() < HEAD_LIMIT => {
            ResponseFinding::Unfinished(octets.len() + 1)
        }
        Ok(Status::Partial) => ResponseFinding::TooLong,
        Err(_) => ResponseFinding::Bad,
    }
}
