//! Serving a request that was read, by what its target asks for.
ghost use Rattle.std.specs.Prelude.{◌≡◌, ◌+◌, ◌≤◌, length};
ghost use Rattle.ilp_journal.specs.Keys.{IsKey};
ghost use Rattle.ilp_book.specs.Configured.{IsKnown};
ghost use Rattle.ilp_server.specs.Serving.{IsCreditOutcome, inquiry, Serves, ServesPacket, ServesSettlement, ServesMessage, TellsReport, ServesReport};
ghost use Rattle.ilp_server.specs.CreditHalves.{BeginsSettlement, BeginsPayment, IsCourseFor, IsEndedAs, IsBehindSeen, NeedsNone};

use crate::correcting::serve_correction;
use crate::fields::{key_of, sender_of};
use crate::handled::ToldChange;
use crate::pending_credit::{CreditCourse, PendingCredit};
use crate::served::Served;
use crate::target::{Side, Target, target_of};
use crate::unserved::NotServed;
use ilp_book::CreditFault;
use ilp_desk::{Desk, Naming};
use ilp_http::Request;
use ilp_journal::{CreditKind, Key};
use ilp_oer::Octets;
use ilp_report::print;
use ilp_settlement::{LONGEST_QUANTITY, Quantity, put_quantity};
use ilp_workers::{BookedCredit, Clock, EngineLink, Keeper, NotCredited, Uplink, Worker};
use std::alloc::{Allocator, Global};
use std::sync::Wait;

/// Serves a request that came in at a side.
pub(crate) fn serve<
    J: Naming,
    C: Clock + Drop,
    U: Uplink + Drop,
    E: EngineLink + Drop,
    K: Keeper<J> + Drop,
    A: Allocator + Copy,
>(
    rt: &impl Wait,
    alloc: Global,
    worker: &mut Worker<J, C, U, E, K, A>,
    desk: &Desk<J>,
    side: Side,
    request: &Request<'_>,
) -> Result<Served, NotServed>
    ensures served { Serves J.desk (inquiry side request.now.path.now request.now.headers request.now.body.now)
        worker.old worker.new result }
    ensures pending { worker.new.pending ≡ worker.old.pending }
{
    match target_of(desk.config(), side, request.path) {
        None => Err(NotServed::UnknownTarget),
        Some(Target::Packet) => serve_packet(rt, worker, desk, request),
        Some(Target::Settlement { peer }) => {
            serve_settlement(rt, alloc, worker, desk, peer, request)
        }
        Some(Target::Correction { peer }) => {
            serve_correction(rt, alloc, worker, desk, peer, request)
        }
        Some(Target::Message { peer }) => serve_message(worker, desk, peer, request.body),
        Some(Target::Report) => serve_report(rt, alloc, desk),
        Some(Target::Close) => Ok(Served::Close),
        Some(Target::Reload | Target::Pause { .. } | Target::Resume { .. }) => {
            Err(NotServed::NewPeriod)
        }
    }
}

// Forwards the body as a packet of the peer whose token the request shows.
fn serve_packet<
    J: Naming,
    C: Clock + Drop,
    U: Uplink + Drop,
    E: EngineLink + Drop,
    K: Keeper<J> + Drop,
    A: Allocator + Copy,
>(
    rt: &impl Wait,
    worker: &mut Worker<J, C, U, E, K, A>,
    desk: &Desk<J>,
    request: &Request<'_>,
) -> Result<Served, NotServed>
    ensures served { ServesPacket J.desk request.now.headers request.now.body.now
        worker.old worker.new result }
    ensures pending { worker.new.pending ≡ worker.old.pending }
{
    let Some(peer) = sender_of(desk.config(), &request.headers) else {
        return Err(NotServed::UnknownSender);
    };
    match worker.forward(rt, desk, peer, request.body) {
        Ok(receipt) => Ok(Served::Packet {
            peer,
            rejected: receipt.rejected,
        }),
        Err(fault) => Err(NotServed::Packet(fault)),
    }
}

// Credits the body as a settlement of the peer, under the key that the request gives.
fn serve_settlement<
    J: Naming,
    C: Clock + Drop,
    U: Uplink + Drop,
    E: EngineLink + Drop,
    K: Keeper<J> + Drop,
    A: Allocator + Copy,
>(
    rt: &impl Wait,
    alloc: Global,
    worker: &mut Worker<J, C, U, E, K, A>,
    desk: &Desk<J>,
    peer: u32,
    request: &Request<'_>,
) -> Result<Served, NotServed>
    requires known { IsKnown J.desk.config peer }
    ensures served { ServesSettlement J.desk peer request.now.headers request.now.body.now
        worker.old worker.new result }
    ensures pending { worker.new.pending ≡ worker.old.pending }
    ensures actor { worker.new.share.actor ≡ worker.old.share.actor }
{
    let course = begin_settlement(rt, alloc, worker, desk, peer, request);
    end_credit(worker, course)
}

/// The first half of that: it is credited, and nobody is told.
pub(crate) fn begin_settlement<
    J: Naming,
    C: Clock + Drop,
    U: Uplink + Drop,
    E: EngineLink + Drop,
    K: Keeper<J> + Drop,
    A: Allocator + Copy,
>(
    rt: &impl Wait,
    alloc: Global,
    worker: &mut Worker<J, C, U, E, K, A>,
    desk: &Desk<J>,
    peer: u32,
    request: &Request<'_>,
) -> CreditCourse<J>
    requires known { IsKnown J.desk.config peer }
    ensures begun { BeginsSettlement J.desk peer request.now.headers request.now.body.now
        worker.old worker.new result }
    ensures behind { IsBehindSeen worker.new result }
    ensures whole { NeedsNone result }
    ensures pending { worker.new.pending ≡ worker.old.pending }
    ensures actor { worker.new.share.actor ≡ worker.old.share.actor }
{
    match key_of(&request.headers) {
        Some(key) => begin_payment(rt, alloc, worker, desk, peer, key, request.body),
        None => CreditCourse::Over(Err(NotServed::NoKey)),
    }
}

// Credits the quantity that the body is. Room for the answer and the key is made before anything is
// booked.
fn begin_payment<
    J: Naming,
    C: Clock + Drop,
    U: Uplink + Drop,
    E: EngineLink + Drop,
    K: Keeper<J> + Drop,
    A: Allocator + Copy,
>(
    rt: &impl Wait,
    alloc: Global,
    worker: &mut Worker<J, C, U, E, K, A>,
    desk: &Desk<J>,
    peer: u32,
    key: &[u8],
    body: &[u8],
) -> CreditCourse<J>
    requires known { IsKnown J.desk.config peer }
    requires key { IsKey key.now }
    ensures begun { BeginsPayment J.desk peer key.now body.now worker.old worker.new result }
    ensures behind { IsBehindSeen worker.new result }
    ensures whole { NeedsNone result }
    ensures pending { worker.new.pending ≡ worker.old.pending }
    ensures actor { worker.new.share.actor ≡ worker.old.share.actor }
{
    let quantity = match Quantity::read(alloc, body) {
        Ok(quantity) => quantity,
        Err(fault) => return CreditCourse::Over(Err(NotServed::Quantity(fault))),
    };
    let mut text = Octets::new(alloc);
    let Ok(()) = text.reserve(LONGEST_QUANTITY) else {
        return CreditCourse::Over(Err(NotServed::Memory));
    };
    let Ok(Some(key)) = Key::new(alloc, key) else {
        return CreditCourse::Over(Err(NotServed::Memory));
    };
    let half = worker.begin_credit(rt, desk, peer, key, &quantity, CreditKind::Settled);
    course_of_payment(desk, peer, quantity, half, text)
}

// How a settlement goes on, by what the worker booked. Its text is written into the room that there is.
fn course_of_payment<J: Naming>(
    desk: &Desk<J>,
    peer: u32,
    quantity: Quantity,
    half: Result<BookedCredit<J>, CreditFault>,
    room: Octets,
) -> CreditCourse<J>
    requires known { IsKnown J.desk.config peer }
    requires room { LONGEST_QUANTITY ≤ length room.octets + room.spare }
    ensures course { IsCourseFor (IsCreditOutcome J.desk peer quantity) half result }
    ensures whole { NeedsNone result }
{
    let told = ToldChange::Settlement(quantity);
    let mut text = room;
    match half {
        Ok(booked) => {
            put_quantity(&mut text, booked.credit().amount, desk.config().scale(peer));
            CreditCourse::Waits(PendingCredit::new(booked, peer, told, text))
        }
        Err(fault) => CreditCourse::Over(Err(NotServed::Credit {
            peer,
            told,
            fault: NotCredited::Refused(fault),
        })),
    }
}

/// The second half of a settlement or a correction: the keeper is handed the journal that has it, if it is booked.
pub(crate) fn end_credit<
    J: Naming,
    C: Clock + Drop,
    U: Uplink + Drop,
    E: EngineLink + Drop,
    K: Keeper<J> + Drop,
    A: Allocator + Copy,
>(worker: &mut Worker<J, C, U, E, K, A>, course: CreditCourse<J>) -> Result<Served, NotServed>
    requires behind { IsBehindSeen worker.old course }
    ensures ended { IsEndedAs course worker.old worker.new result }
    ensures pending { worker.new.pending ≡ worker.old.pending }
    ensures actor { worker.new.share.actor ≡ worker.old.share.actor }
{
    match course {
        CreditCourse::Waits(pending) => {
            let handed = worker.keep();
            pending.outcome(&handed)
        }
        CreditCourse::Over(outcome) => outcome,
    }
}

// Sends the body as a message to the peer's engine.
fn serve_message<
    J: Naming,
    C: Clock + Drop,
    U: Uplink + Drop,
    E: EngineLink + Drop,
    K: Keeper<J> + Drop,
    A: Allocator + Copy,
>(
    worker: &mut Worker<J, C, U, E, K, A>,
    desk: &Desk<J>,
    peer: u32,
    body: &[u8],
) -> Result<Served, NotServed>
    ensures served { ServesMessage J.desk peer body.now worker.old worker.new result }
    ensures pending { worker.new.pending ≡ worker.old.pending }
{
    match worker.message(desk, peer, body) {
        Ok(()) => Ok(Served::Message),
        Err(fault) => Err(NotServed::Message(fault)),
    }
}

// Tells the balances. The copy of the book is made under its lock, and written without it.
pub(crate) fn serve_report<J: Naming>(
    rt: &impl Wait,
    alloc: Global,
    desk: &Desk<J>,
) -> Result<Served, NotServed>
    ensures { ServesReport J.desk result }
{
    let Ok(snapshot) = desk.snapshot(rt, alloc) else {
        return Err(NotServed::Memory);
    };
    let mut text = Vec::new(alloc);
    match print(&snapshot, &mut text) {
        Ok(()) => Ok(Served::Report(text)),
        Err(_) => Err(NotServed::Memory),
    }
}

// Tells the balances, with this behind them.
pub(crate) fn serve_report_with<J: Naming>(
    rt: &impl Wait,
    alloc: Global,
    desk: &Desk<J>,
    behind: &[u8],
) -> Result<Served, NotServed>
    ensures { TellsReport J.desk behind.now result }
{
    match serve_report(rt, alloc, desk) {
        Ok(Served::Report(report)) => {
            let mut text = report;
            let Ok(()) = text.extend_from_slice(behind) else {
                return Err(NotServed::Memory);
            };
            Ok(Served::Report(text))
        }
        other => other,
    }
}
