//! Serving a correction of a balance, which an operator asks for.
ghost use Rattle.std.specs.Prelude.{◌≡◌, ◌≤◌, []};
ghost use Rattle.ilp_journal.specs.Keys.{IsKey};
ghost use Rattle.ilp_book.specs.Configured.{IsKnown, scale_at};
ghost use Rattle.ilp_server.specs.Corrections.{kind_of, change_of, change_text, moved_by};
ghost use Rattle.ilp_server.specs.Serving.{ServesCorrection, IsCorrectionOutcome};
ghost use Rattle.ilp_server.specs.CreditHalves.{BeginsCorrection, BeginsCorrectionBody, BeginsChange, IsCourseFor, IsBehindSeen, NeedsNone};

use crate::correction_text::{ANSWER_ROOM, put_change, put_least};
use crate::fields::key_of;
use crate::handled::ToldChange;
use crate::pending_credit::{CreditCourse, PendingCredit};
use crate::served::Served;
use crate::serving::end_credit;
use crate::unserved::NotServed;
use ilp_book::{CreditFault, Kept};
use ilp_desk::{Desk, Naming};
use ilp_http::Request;
use ilp_journal::{CreditKind, Key, Reason};
use ilp_oer::Octets;
use ilp_settlement::Correction;
use ilp_workers::{BookedCredit, Clock, EngineLink, Keeper, NotCredited, Uplink, Worker};
use std::alloc::{Allocator, Global};
use std::sync::Wait;

/// Books the body as a correction of the peer's balance, under the key that the request gives.
pub(crate) fn serve_correction<
    J: Naming,
    C: Clock + Drop,
    U: Uplink + Drop,
    E: EngineLink + Drop,
    K: Keeper<J> + Drop,
    A: Allocator + Copy,
>(
    rt: &impl Wait,
    alloc: Global,
    worker: &mut Worker<J, C, U, E, K, A>,
    desk: &Desk<J>,
    peer: u32,
    request: &Request<'_>,
) -> Result<Served, NotServed>
    requires known { IsKnown J.desk.config peer }
    ensures served { ServesCorrection J.desk peer request.now.headers request.now.body.now
        worker.old worker.new result }
    ensures pending { worker.new.pending ≡ worker.old.pending }
    ensures actor { worker.new.share.actor ≡ worker.old.share.actor }
{
    let course = begin_correction(rt, alloc, worker, desk, peer, request);
    end_credit(worker, course)
}

/// The first half of that: it is booked, and nobody is told.
pub(crate) fn begin_correction<
    J: Naming,
    C: Clock + Drop,
    U: Uplink + Drop,
    E: EngineLink + Drop,
    K: Keeper<J> + Drop,
    A: Allocator + Copy,
>(
    rt: &impl Wait,
    alloc: Global,
    worker: &mut Worker<J, C, U, E, K, A>,
    desk: &Desk<J>,
    peer: u32,
    request: &Request<'_>,
) -> CreditCourse<J>
    requires known { IsKnown J.desk.config peer }
    ensures begun { BeginsCorrection J.desk peer request.now.headers request.now.body.now
        worker.old worker.new result }
    ensures behind { IsBehindSeen worker.new result }
    ensures whole { NeedsNone result }
    ensures pending { worker.new.pending ≡ worker.old.pending }
    ensures actor { worker.new.share.actor ≡ worker.old.share.actor }
{
    match key_of(&request.headers) {
        Some(key) => begin_correction_body(rt, alloc, worker, desk, peer, key, request.body),
        None => CreditCourse::Over(Err(NotServed::NoKey)),
    }
}

// Books a body as a correction under a key.
fn begin_correction_body<
    J: Naming,
    C: Clock + Drop,
    U: Uplink + Drop,
    E: EngineLink + Drop,
    K: Keeper<J> + Drop,
    A: Allocator + Copy,
>(
    rt: &impl Wait,
    alloc: Global,
    worker: &mut Worker<J, C, U, E, K, A>,
    desk: &Desk<J>,
    peer: u32,
    key: &[u8],
    body: &[u8],
) -> CreditCourse<J>
    requires known { IsKnown J.desk.config peer }
    requires key { IsKey key.now }
    ensures begun { BeginsCorrectionBody J.desk peer key.now body.now worker.old worker.new result }
    ensures behind { IsBehindSeen worker.new result }
    ensures whole { NeedsNone result }
    ensures pending { worker.new.pending ≡ worker.old.pending }
    ensures actor { worker.new.share.actor ≡ worker.old.share.actor }
{
    match Correction::read(alloc, body) {
        Ok(correction) => begin_change(rt, alloc, worker, desk, peer, key, &correction),
        Err(fault) => CreditCourse::Over(Err(NotServed::Correction(fault))),
    }
}

// Books a correction. Room for the answer, the key and the reason is made before anything is booked.
fn begin_change<
    J: Naming,
    C: Clock + Drop,
    U: Uplink + Drop,
    E: EngineLink + Drop,
    K: Keeper<J> + Drop,
    A: Allocator + Copy,
>(
    rt: &impl Wait,
    alloc: Global,
    worker: &mut Worker<J, C, U, E, K, A>,
    desk: &Desk<J>,
    peer: u32,
    key: &[u8],
    correction: &Correction,
) -> CreditCourse<J>
    requires known { IsKnown J.desk.config peer }
    requires key { IsKey key.now }
    ensures begun { BeginsChange J.desk peer key.now correction.now worker.old worker.new result }
    ensures behind { IsBehindSeen worker.new result }
    ensures whole { NeedsNone result }
    ensures pending { worker.new.pending ≡ worker.old.pending }
    ensures actor { worker.new.share.actor ≡ worker.old.share.actor }
{
    let mut text = Octets::new(alloc);
    let Ok(()) = text.reserve(ANSWER_ROOM) else {
        return CreditCourse::Over(Err(NotServed::Memory));
    };
    let Ok(Some(key)) = Key::new(alloc, key) else {
        return CreditCourse::Over(Err(NotServed::Memory));
    };
    let Ok(Some(reason)) = Reason::new(alloc, correction.reason.as_bytes()) else {
        return CreditCourse::Over(Err(NotServed::Memory));
    };
    let kind = kind_of(correction, reason);
    let half = worker.begin_credit(rt, desk, peer, key, &correction.quantity, kind);
    course_of_change(desk, peer, correction, half, text)
}

// Which way a balance is corrected, for this reason.
fn kind_of(correction: &Correction, reason: Reason) -> CreditKind
    requires { reason ≡ correction.now.reason }
    ensures { result ≡ kind_of correction.now }
{
    if correction.lowers {
        CreditKind::Lowered(reason)
    } else {
        CreditKind::Raised(reason)
    }
}

// How a correction goes on, by what the worker booked. Its text is written into the room that there is.
fn course_of_change<J: Naming>(
    desk: &Desk<J>,
    peer: u32,
    correction: &Correction,
    half: Result<BookedCredit<J>, CreditFault>,
    room: Octets,
) -> CreditCourse<J>
    requires known { IsKnown J.desk.config peer }
    requires empty { room.octets ≡ [] }
    requires room { ANSWER_ROOM ≤ room.spare }
    ensures course { IsCourseFor (IsCorrectionOutcome J.desk peer correction.now) half result }
    ensures whole { NeedsNone result }
{
    let told = change_of(correction);
    match half {
        Ok(booked) => {
            let text = change_answer(desk, peer, correction, booked.credit(), room);
            CreditCourse::Waits(PendingCredit::new(booked, peer, told, text))
        }
        Err(CreditFault::BelowLeast { balance, least }) => {
            let mut text = room;
            put_least(&mut text, balance, least, desk.config().scale(peer));
            CreditCourse::Over(Ok(Served::BelowLeast(text)))
        }
        Err(fault) => CreditCourse::Over(Err(NotServed::Credit {
            peer,
            told,
            fault: NotCredited::Refused(fault),
        })),
    }
}

// What is answered to a correction, by what is kept under its key.
fn change_answer<J: Naming>(
    desk: &Desk<J>,
    peer: u32,
    correction: &Correction,
    kept: Kept,
    room: Octets,
) -> Octets
    requires known { IsKnown J.desk.config peer }
    requires empty { room.octets ≡ [] }
    requires room { ANSWER_ROOM ≤ room.spare }
    ensures { result.octets ≡ change_text (moved_by correction.now.lowers kept.amount) (scale_at J.desk.config peer) }
{
    let mut text = room;
    let change = moved_by(correction.lowers, kept.amount);
    put_change(&mut text, change, desk.config().scale(peer));
    text
}

// What a balance is moved by.
fn moved_by(lowers: bool, amount: u64) -> i128
    ensures { result ≡ moved_by lowers amount }
{
    let amount = i128::from(amount);
    if lowers { 0 - amount } else { amount }
}

// What is told of a peer by a correction.
fn change_of(correction: &Correction) -> ToldChange
    ensures { result ≡ change_of correction.now }
{
    if correction.lowers {
        ToldChange::Fall(correction.quantity)
    } else {
        ToldChange::Rise(correction.quantity)
    }
}
