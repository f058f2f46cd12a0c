//! Answering a connection: one request, and its response.
ghost use Rattle.ilp_io.specs.Counts.{CountsUp};
ghost use Rattle.std.specs.Prelude.{◌≡◌};
ghost use Rattle.ilp_server.specs.Serving.{reply};
ghost use Rattle.ilp_server.specs.Connection.{Answers, IsWritten, IsSentWith, failed_writes_of, wire};

use crate::handled::{ConnectionFault, Deed, Handled};
use crate::served::{Served, deed_of};
use crate::serving::serve;
use crate::target::Side;
use crate::unserved::{NotServed, unread};
use ilp_desk::{Desk, Naming};
use ilp_http::{Buffer, Kind, Status, read_request, write_response};
use ilp_io::{Sink, Source};
use ilp_workers::{Clock, EngineLink, Keeper, Uplink, Worker};
use std::alloc::{Allocator, Global};
use std::sync::Wait;

/// Reads one request of a connection at a side, in at most 4,096 reads, has the worker serve it, and
/// writes one response (RFC 0035 at the side of the peers, RFC 0038 at that of the engines).
///
/// It answers `Done` with the status of the response that was written whole, `Close` in its place
/// after a close at the side of the engines, and `Fault` where no response was written whole: a
/// write failed, or nothing was written, since a read failed or memory for the fields was denied.
/// The deed is the credit or the correction that this request made, its settlement or correction that
/// was refused since its key is taken, or the Reject that the sender of its packet is answered, also
/// where the response was not written whole, or is 503 since the credit is not kept. What is refused,
/// as octets or later, is answered with a status and an empty body, but for a correction by which the
/// balance would fall below its least, and leaves the worker as it was unless a packet, a credit, a
/// correction or a message was tried. What was booked stays, whatever becomes of the response. `alloc`
/// is for the fields, for a report, for the JSON of a quantity or a correction and its answer, and for
/// key and reason; room for that answer is made before anything is booked.
pub fn answer_connection<
    J: Naming,
    C: Clock + Drop,
    U: Uplink + Drop,
    E: EngineLink + Drop,
    K: Keeper<J> + Drop,
    A: Allocator + Copy,
    S: Source,
    W: Sink,
>(
    rt: &impl Wait,
    alloc: Global,
    worker: &mut Worker<J, C, U, E, K, A>,
    desk: &Desk<J>,
    side: Side,
    source: &mut S,
    sink: &mut W,
    buffer: &mut Buffer,
) -> Handled
    ensures answers { Answers S.pulled source.old source.new J.desk side
        (wire (S.remaining source.old) (S.tally source.old) (W.contents sink.old) (W.failures sink.old))
        (wire (S.remaining source.new) (S.tally source.new) (W.contents sink.new) (W.failures sink.new))
        worker.old worker.new result }
    ensures pending { worker.new.pending ≡ worker.old.pending }
{
    match read_request(alloc, source, buffer) {
        Ok(request) => {
            let outcome = serve(rt, alloc, worker, desk, side, &request);
            respond(worker, sink, outcome)
        }
        Err(fault) => match unread(fault) {
            Ok(why) => respond(worker, sink, Err(why)),
            Err(fault) => Handled::Fault {
                fault,
                deed: Deed::Nothing,
            },
        },
    }
}

// Writes the response to what became of a request.
fn respond<
    J: Naming,
    C: Clock + Drop,
    U: Uplink + Drop,
    E: EngineLink + Drop,
    K: Keeper<J> + Drop,
    A: Allocator,
    W: Sink,
>(worker: &Worker<J, C, U, E, K, A>, sink: &mut W, outcome: Result<Served, NotServed>) -> Handled
    ensures written { IsWritten worker.now outcome (W.contents sink.old) (W.contents sink.new) result }
    ensures failed { CountsUp (W.failures sink.old) (W.failures sink.new) (failed_writes_of result) }
{
    let deed = deed_of(&outcome);
    match outcome {
        Ok(Served::Packet { .. }) => {
            send(sink, Status::Ok, Kind::OctetStream, worker.reply(), deed)
        }
        Ok(Served::Booked { text, .. }) => {
            send(sink, Status::Created, Kind::Json, text.as_slice(), deed)
        }
        Ok(Served::BelowLeast(text)) => {
            send(sink, Status::Forbidden, Kind::Json, text.as_slice(), deed)
        }
        Ok(Served::Message) => send(
            sink,
            Status::Created,
            Kind::OctetStream,
            worker.message_answer(),
            deed,
        ),
        Ok(Served::Report(text)) => send(sink, Status::Ok, Kind::Text, text.as_slice(), deed),
        Ok(Served::Close) => match send(sink, Status::Ok, Kind::Text, &[], deed) {
            Handled::Done { .. } => Handled::Close,
            other => other,
        },
        Err(why) => send(sink, why.status(), Kind::Text, &[], deed),
    }
}

// Writes one response, to a request by which this was done.
#[tactic(auto, unfolding(crate::specs::Connection::response_octets))]
fn send<W: Sink>(sink: &mut W, status: Status, kind: Kind, body: &[u8], deed: Deed) -> Handled
    ensures written { IsSentWith (reply status kind body.now) deed
        (W.contents sink.old) (W.contents sink.new) result }
    ensures failed { CountsUp (W.failures sink.old) (W.failures sink.new) (failed_writes_of result) }
{
    match write_response(sink, status, kind, body) {
        Ok(()) => Handled::Done { status, deed },
        Err(_) => {
            let fault = ConnectionFault::Write;
            Handled::Fault { fault, deed }
        }
    }
}
