//! A response that is to be written.
ghost use Rattle.std.specs.Prelude.{◌≡◌, is_err, OnOk, OnErr, if◌then◌else◌};
ghost use Rattle.std.specs.Option.{option_copied};
ghost use Rattle.std.specs.Io.KnownBytes.{Appends};
ghost use Rattle.ilp_io.specs.Counts.{CountsUp};
ghost use Rattle.ilp_io.specs.Writing.{AppendsProperPrefix};
ghost use Rattle.ilp_replies.specs.Messages.{peer_answer_of};
ghost use Rattle.ilp_workers.specs.Worker.{PlainWorker};
ghost use Rattle.ilp_server.specs.Connection.{response_octets};
ghost use Rattle.ilp_server.specs.Response.{octets_in, NeedsNoWorker, response_to, refusal, done, to_packet, IsToMessage};

use crate::handled::Deed;
use crate::served::{Served, deed_of};
use crate::unserved::NotServed;
use ilp_http::{Kind, Status, write_response};
use ilp_io::{Sink, WriteFault};
use ilp_oer::Octets;
use ilp_workers::{Answer, MessageFault, peer_answer_in};
use std::alloc::Global;
use std::marker::Model;

/// A response, and what its request brought about. It can be written more than once.
#[derive(Drop)]
pub struct Response {
    status: Status,
    kind: Kind,
    body: Body,
    deed: Deed,
    closes: bool,
}

// What a response has behind its head.
#[derive(Drop)]
pub(crate) enum Body {
    Nothing,
    Octets(Octets),
    Text(Vec<u8>),
}

impl Model for Response {
    ghost use Rattle.ilp_server.specs.Serving.{reply};
    ghost use Rattle.ilp_server.specs.Response.{PlainResponse, response, octets_in};

    ghost Value = { PlainResponse };

    ghost view = { λ r. response (reply r.status r.kind (octets_in r.body)) r.deed r.closes };
}

impl Response {
    /// Its status.
    pub fn status(&self) -> Status
        ensures { result ≡ self.now.reply.status }
    {
        self.status
    }

    /// What its request brought about.
    pub fn deed(&self) -> Deed
        ensures { result ≡ self.now.deed }
    {
        self.deed
    }

    /// Whether its request asks for the connector to close.
    pub fn closes(&self) -> bool
        ensures { result ≡ self.now.closes }
    {
        self.closes
    }

    /// Writes it. It is refused only where a write fails or takes no octet. Then a part of it was
    /// taken.
    #[tactic(auto, unfolding(crate::specs::Connection::response_octets))]
    pub fn write<W: Sink>(&self, sink: &mut W) -> Result<(), WriteFault>
        ensures ok { OnOk result
            (Appends (W.contents sink.old) (W.contents sink.new) (response_octets self.now.reply)) }
        ensures err { OnErr result (AppendsProperPrefix (W.contents sink.old) (W.contents sink.new)
            (response_octets self.now.reply)) }
        ensures failed { CountsUp (W.failures sink.old) (W.failures sink.new)
            (if is_err result then 1 else 0) }
    {
        write_response(sink, self.status, self.kind, self.body.as_slice())
    }

    /// The response to what is not served.
    pub fn refusal(why: NotServed) -> Response
        ensures { result ≡ refusal why }
    {
        Response {
            status: why.status(),
            kind: Kind::Text,
            body: Body::Nothing,
            deed: deed_of(&Err(why)),
            closes: false,
        }
    }

    /// The response to what is done, and of which there is nothing to tell: 200 and an empty body.
    pub fn done() -> Response
        ensures { result ≡ done }
    {
        Response {
            status: Status::Ok,
            kind: Kind::Text,
            body: Body::Nothing,
            deed: Deed::Nothing,
            closes: false,
        }
    }

    /// The response to what became of a request for neither a packet nor a message.
    pub(crate) fn to_outcome(outcome: Result<Served, NotServed>) -> Response
        requires { NeedsNoWorker outcome }
        ensures { (worker : PlainWorker) → result ≡ response_to worker outcome }
    {
        let deed = deed_of(&outcome);
        let (status, kind, body, closes) = match outcome {
            Ok(Served::Booked { text, .. }) => {
                (Status::Created, Kind::Json, Body::Octets(text), false)
            }
            Ok(Served::BelowLeast(text)) => {
                (Status::Forbidden, Kind::Json, Body::Octets(text), false)
            }
            Ok(Served::Report(text)) => (Status::Ok, Kind::Text, Body::Text(text), false),
            Ok(Served::Close) => (Status::Ok, Kind::Text, Body::Nothing, true),
            Ok(Served::Packet { .. }) => unreachable!(),
            Ok(Served::Message) => unreachable!(),
            Err(why) => (why.status(), Kind::Text, Body::Nothing, false),
        };
        Response {
            status,
            kind,
            body,
            deed,
            closes,
        }
    }

    /// What the sender of a packet is answered.
    pub fn to_packet(sender: u32, answer: Answer) -> Response
        ensures { result ≡ to_packet sender answer.receipt.rejected answer.octets.octets }
    {
        let Answer { receipt, octets } = answer;
        let deed = match receipt.rejected {
            Some(reject) => Deed::Rejected {
                peer: sender,
                reject,
            },
            None => Deed::Nothing,
        };
        Response {
            status: Status::Ok,
            kind: Kind::OctetStream,
            body: Body::Octets(octets),
            deed,
            closes: false,
        }
    }

    /// What an engine is answered whose message a peer was handed: what the peer's engine answered, by
    /// the octets that came, if any did. Where memory for that is denied it is answered 503.
    pub fn to_message(alloc: Global, came: Option<&[u8]>) -> Response
        ensures { IsToMessage (peer_answer_of (option_copied came.entry)) result }
    {
        let Some(answer) = answer_in(came) else {
            return Response::refusal(NotServed::Message(MessageFault::NoAnswer));
        };
        let mut body = Octets::new(alloc);
        match body.append(answer) {
            Ok(()) => Response {
                status: Status::Created,
                kind: Kind::OctetStream,
                body: Body::Octets(body),
                deed: Deed::Nothing,
                closes: false,
            },
            Err(_) => Response::refusal(NotServed::Memory),
        }
    }
}

// What a peer's engine answered, by the octets that came, if any did.
fn answer_in(came: Option<&[u8]>) -> Option<&[u8]>
    ensures { option_copied result ≡ peer_answer_of (option_copied came.entry) }
{
    peer_answer_in(came?)
}

impl Body {
    fn as_slice(&self) -> &[u8]
        ensures { result.now ≡ octets_in self.now }
    {
        match self {
            Body::Nothing => &[],
            Body::Octets(octets) => octets.as_slice(),
            Body::Text(text) => text.as_slice(),
        }
    }
}
