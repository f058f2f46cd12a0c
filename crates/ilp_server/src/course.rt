//! The first half of serving a request: all of it, where nobody outside is asked.
ghost use Rattle.std.specs.Prelude.{◌≡◌};
ghost use Rattle.ilp_book.specs.Configured.{IsKnown};
ghost use Rattle.ilp_server.specs.Serving.{inquiry};
ghost use Rattle.ilp_server.specs.Response.{IsToPacket};
ghost use Rattle.ilp_accounts.specs.Configuration.{Configuration};
ghost use Rattle.ilp_workers.specs.Worker.{PlainWorker};
ghost use Rattle.ilp_server.specs.CreditHalves.{NeedsNone};
ghost use Rattle.ilp_server.specs.Course.{flight_of, course_of_credit, BeginsPacket, BeginsMessage, BeginsInquiry, BeginsRequest, IsOfKnownPeer};

use crate::correcting::begin_correction;
use crate::fields::sender_of;
use crate::handled::ConnectionFault;
use crate::pending_credit::{CreditCourse, PendingCredit};
use crate::response::Response;
use crate::served::Served;
use crate::serving::{begin_settlement, serve_report_with};
use crate::target::{Side, Target, target_of};
use crate::unserved::{NotServed, unread};
use ilp_desk::{Desk, Naming};
use ilp_flight::{Flight, NoStart, Started};
use ilp_http::{Buffer, Request, read_request};
use ilp_oer::Octets;
use ilp_workers::{Answer, Clock, EngineLink, EngineMessage, Keeper, PeerMessage, Receipt, Uplink};
use std::alloc::Global;
use std::sync::Wait;

/// How a request goes on.
#[derive(Drop)]
pub enum Course<J: Naming> {
    /// It is answered so.
    Answered(Response),
    /// The next peer is to be handed the packet of this sender that waits under the key.
    Packet { sender: u32, key: usize },
    /// A settlement or a correction is booked, and is to be answered behind its entry.
    Credit(PendingCredit<J>),
    /// The settlement engine here is to be handed a message.
    ToEngine(EngineMessage),
    /// A peer is to be handed a message of the engine here.
    ToPeer(PeerMessage),
    /// The configuration is to be read again. Who asks for that is answered once it is known what becomes
    /// of it.
    Reload,
    /// The peer's settlement engine is to be asked for no new settlement.
    Pause { peer: u32 },
    /// It is to be asked for new ones again.
    Resume { peer: u32 },
    /// Nothing is written.
    Unanswered(ConnectionFault),
}

/// Begins to serve the request that the octets of a connection at a side begin with (RFC 0035 at the
/// side of the peers, RFC 0038 at that of the engines). A packet is held, and waits with the worker
/// until it is finished; a settlement or a correction is booked, and waits until its entry is kept; a message is ready
/// for whom it is handed to; all else is done, but for what is asked of the connector as a whole. Nobody outside is waited for. A report has `behind` at its end.
///
/// What is refused is answered with a status and an empty body, but for a correction by which the balance
/// would fall below its least, and leaves the flight as it was unless a packet, a credit, a correction or
/// a message was tried. The copy of a Reject that a packet is answered at once
/// takes memory: where that is denied the packet is answered 503.
pub fn begin_request<
    J: Naming,
    C: Clock + Drop,
    U: Uplink + Drop,
    E: EngineLink + Drop,
    K: Keeper<J> + Drop,
>(
    rt: &impl Wait,
    flight: &mut Flight<J, C, U, E, K>,
    desk: &Desk<J>,
    side: Side,
    octets: &[u8],
    behind: &[u8],
    buffer: &mut Buffer,
) -> Course<J>
    ensures begun { BeginsRequest J.desk side octets.now behind.now
        (flight_of flight.old.worker flight.old.waiting)
        (flight_of flight.new.worker flight.new.waiting) result }
    ensures peer { IsOfKnownPeer J.desk.config result }
{
    let alloc = desk.config().allocator();
    let mut source = octets;
    match read_request(alloc, &mut source, buffer) {
        Ok(request) => begin(rt, alloc, flight, desk, side, &request, behind),
        Err(fault) => match unread(fault) {
            Ok(why) => Course::Answered(Response::refusal(why)),
            Err(fault) => Course::Unanswered(fault),
        },
    }
}

// Begins to serve a request that was read.
fn begin<J: Naming, C: Clock + Drop, U: Uplink + Drop, E: EngineLink + Drop, K: Keeper<J> + Drop>(
    rt: &impl Wait,
    alloc: Global,
    flight: &mut Flight<J, C, U, E, K>,
    desk: &Desk<J>,
    side: Side,
    request: &Request<'_>,
    behind: &[u8],
) -> Course<J>
    ensures begun { BeginsInquiry J.desk behind.now
        (inquiry side request.now.path.now request.now.headers request.now.body.now)
        (flight_of flight.old.worker flight.old.waiting)
        (flight_of flight.new.worker flight.new.waiting) result }
    ensures peer { IsOfKnownPeer J.desk.config result }
{
    match target_of(desk.config(), side, request.path) {
        None => Course::Answered(Response::refusal(NotServed::UnknownTarget)),
        Some(Target::Packet) => begin_packet(rt, alloc, flight, desk, request),
        Some(Target::Settlement { peer }) => {
            let worker = &mut flight.worker;
            course_for(begin_settlement(rt, alloc, worker, desk, peer, request))
        }
        Some(Target::Correction { peer }) => {
            let worker = &mut flight.worker;
            course_for(begin_correction(rt, alloc, worker, desk, peer, request))
        }
        Some(Target::Message { peer }) => begin_message(flight, desk, peer, request.body),
        Some(Target::Report) => {
            let report = serve_report_with(rt, alloc, desk, behind);
            Course::Answered(Response::to_outcome(report))
        }
        Some(Target::Close) => Course::Answered(Response::to_outcome(Ok(Served::Close))),
        Some(Target::Reload) => Course::Reload,
        Some(Target::Pause { peer }) => Course::Pause { peer },
        Some(Target::Resume { peer }) => Course::Resume { peer },
    }
}

// How a settlement or a correction goes on.
fn course_for<J: Naming>(credit: CreditCourse<J>) -> Course<J>
    requires { NeedsNone credit }
    ensures course { (worker : PlainWorker) → result ≡ course_of_credit worker credit }
    ensures peer { (config : Configuration) → IsOfKnownPeer config result }
{
    match credit {
        CreditCourse::Waits(pending) => Course::Credit(pending),
        CreditCourse::Over(outcome) => Course::Answered(Response::to_outcome(outcome)),
    }
}

// Begins the body as a packet of the peer whose token the request shows.
fn begin_packet<
    J: Naming,
    C: Clock + Drop,
    U: Uplink + Drop,
    E: EngineLink + Drop,
    K: Keeper<J> + Drop,
>(
    rt: &impl Wait,
    alloc: Global,
    flight: &mut Flight<J, C, U, E, K>,
    desk: &Desk<J>,
    request: &Request<'_>,
) -> Course<J>
    ensures begun { BeginsPacket J.desk request.now.headers request.now.body.now
        (flight_of flight.old.worker flight.old.waiting)
        (flight_of flight.new.worker flight.new.waiting) result }
{
    let Some(sender) = sender_of(desk.config(), &request.headers) else {
        return Course::Answered(Response::refusal(NotServed::UnknownSender));
    };
    match flight.begin(rt, desk, sender, request.body) {
        Ok(Started::Waits(key)) => Course::Packet { sender, key },
        Ok(Started::Asks(message)) => Course::ToEngine(message),
        Ok(Started::Answered(receipt)) => {
            Course::Answered(refused(alloc, sender, receipt, flight.worker.reply()))
        }
        Err(NoStart::Bad(fault)) => Course::Answered(Response::refusal(NotServed::Packet(fault))),
        Err(NoStart::Memory) => Course::Answered(Response::refusal(NotServed::Memory)),
    }
}

// The sender of a packet is answered at once, with these octets.
fn refused(alloc: Global, sender: u32, receipt: Receipt, reply: &[u8]) -> Response
    ensures { IsToPacket sender receipt.rejected reply.now result }
{
    let mut octets = Octets::new(alloc);
    match octets.append(reply) {
        Ok(()) => Response::to_packet(sender, Answer { receipt, octets }),
        Err(_) => Response::refusal(NotServed::Memory),
    }
}

// Begins to send the body as a message to the peer's engine.
fn begin_message<
    J: Naming,
    C: Clock + Drop,
    U: Uplink + Drop,
    E: EngineLink + Drop,
    K: Keeper<J> + Drop,
>(flight: &mut Flight<J, C, U, E, K>, desk: &Desk<J>, peer: u32, body: &[u8]) -> Course<J>
    ensures begun { BeginsMessage J.desk peer body.now
        (flight_of flight.old.worker flight.old.waiting)
        (flight_of flight.new.worker flight.new.waiting) result }
{
    match flight.worker.begin_message(desk, peer, body) {
        Ok(message) => Course::ToPeer(message),
        Err(fault) => Course::Answered(Response::refusal(NotServed::Message(fault))),
    }
}
