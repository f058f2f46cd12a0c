//! Running one line of a script.
ghost use Rattle.std.specs.Prelude.{◌≡◌, IfOk, OnErr, Ok, Err};
ghost use Rattle.hex.specs.Hex.{decode_of};
ghost use Rattle.ilp_packet.specs.Reading.{reading};
ghost use Rattle.ilp_journal.specs.Keys.{IsKey};
ghost use Rattle.ilp_settlement.specs.Quantity.{quantity_in};
ghost use Rattle.ilp_book.specs.declared.fault.HoldFault.TheVariants as hold_fault;
ghost use Rattle.ilp_book.specs.declared.fault.CreditFault.TheVariants as credit_fault;
ghost use Rattle.ilp_book.specs.declared.fault.AskFault.TheVariants as ask_fault;
ghost use Rattle.ilp_book.specs.Book.{granted, Does};
ghost use Rattle.ilp_book.specs.Configured.{IsKnown};
ghost use Rattle.ilp_book.specs.HoldStep.{growth_of};
ghost use Rattle.ilp_book.specs.SettleStep.{credit_growth, ask_growth};
ghost use Rattle.ilp_offline.specs.Replay as replays;
ghost use Rattle.ilp_offline.specs.Replay.{line_step};

use crate::form::{Form, parse};
use crate::reply::LineReply;
use ilp_book::{
    AskFault, Asked, Book, CreditFault, Held, HoldFault, Kept, NotOpen, Outcome, PeerReply,
};
use ilp_described::decode;
use ilp_journal::{Cause, CreditKind, Key};
use ilp_packet::Packet;
use ilp_refusals::Refusal;
use ilp_settlement::{EngineVerdict, Quantity, QuantityFault};
use std::alloc::{AllocError, Allocator};

// The actor that a script's entries are booked by.
const ACTOR: u32 = 0;

/// Runs one line. Where memory is denied, nothing was booked.
#[tactic(auto, unfolding(crate::specs::Replay::line_step))]
pub(crate) fn run_line<A: Allocator + Copy>(
    alloc: A,
    book: &mut Book<A>,
    line: &[u8],
) -> Result<LineReply, AllocError>
    ensures step { IfOk result (λ reply. Does book.old book.new reply (line_step book.old line.now)) }
    ensures err { OnErr result (book.new ≡ book.old) }
{
    match parse(book.config(), line) {
        Form::Hold { now, peer, packet } => run_hold(alloc, book, now, peer, packet),
        Form::Answer {
            now,
            number,
            packet: Some(packet),
        } => run_answer(alloc, book, now, number, packet),
        Form::Answer {
            now,
            number,
            packet: None,
        } => Ok(answer(book, now, number, PeerReply::NoReply)),
        Form::Expire { now } => Ok(expire(book, now)),
        Form::Credit {
            now,
            peer,
            key,
            json,
        } => run_credit(book, now, peer, key, json),
        Form::Ask { now, peer } => run_ask(book, now, peer),
        Form::Close {
            now,
            number,
            verdict,
        } => Ok(close(book, now, number, verdict)),
        Form::Report => Ok(LineReply::Report),
        Form::Silent => Ok(LineReply::Silent),
        Form::Bad => Ok(LineReply::BadLine),
    }
}

// A packet of a peer, as hexadecimal text: only a Prepare can be held.
fn run_hold<A: Allocator + Copy>(
    alloc: A,
    book: &mut Book<A>,
    now: i64,
    peer: u32,
    packet: &[u8],
) -> Result<LineReply, AllocError>
    requires known { IsKnown book.old.config peer }
    ensures step { IfOk result (λ reply. Does book.old book.new reply
        (replays.hold_text book.old now peer (decode_of packet.now))) }
    ensures err { OnErr result (book.new ≡ book.old) }
{
    let Some(octets) = decode(alloc, packet)? else {
        return Ok(LineReply::BadLine);
    };
    match Packet::read(&octets) {
        Ok(Packet::Prepare(prepare)) => hold_reply(book.hold(ACTOR, peer, &prepare, now)),
        Ok(Packet::Fulfill(_)) => Ok(LineReply::BadPacket(Refusal::NotPrepare)),
        Ok(Packet::Reject(_)) => Ok(LineReply::BadPacket(Refusal::NotPrepare)),
        Err(fault) => Ok(LineReply::BadPacket(Refusal::from(fault))),
    }
}

// What is replied to a Prepare. Want of memory is no reply.
fn hold_reply(outcome: Result<Held, HoldFault>) -> Result<LineReply, AllocError>
    ensures reply { IfOk result (λ reply. reply ≡ replays.hold_reply outcome) }
    ensures granted { IfOk result (λ _. growth_of outcome ≡ granted) }
    ensures denied { OnErr result (outcome ≡ Err hold_fault.Memory) }
{
    match outcome {
        Ok(held) => Ok(LineReply::Held(held)),
        Err(HoldFault::Memory) => Err(AllocError),
        Err(fault) => Ok(LineReply::Rejected(fault)),
    }
}

// What came back for a hold, as hexadecimal text.
fn run_answer<A: Allocator + Copy>(
    alloc: A,
    book: &mut Book<A>,
    now: i64,
    number: u32,
    packet: &[u8],
) -> Result<LineReply, AllocError>
    ensures step { IfOk result (λ reply. Does book.old book.new reply
        (replays.answer_text book.old now number (decode_of packet.now))) }
    ensures err { OnErr result (book.new ≡ book.old) }
{
    let Some(octets) = decode(alloc, packet)? else {
        return Ok(LineReply::BadLine);
    };
    let reply = came_back(&octets);
    Ok(answer(book, now, number, reply))
}

// What came back for a hold.
fn answer<A: Allocator>(book: &mut Book<A>, now: i64, number: u32, reply: PeerReply) -> LineReply
    ensures step { Does book.old book.new result (replays.answer_with book.old now number reply) }
{
    match book.answer(ACTOR, number, reply, now) {
        Ok(outcome) => LineReply::Answered {
            hold: number,
            outcome,
        },
        Err(NotOpen { closer }) => LineReply::NotOpen { number, closer },
    }
}

// The release of a hold whose deadline has come, if there is one.
fn expire<A: Allocator>(book: &mut Book<A>, now: i64) -> LineReply
    ensures step { Does book.old book.new result (replays.expire_due book.old now) }
{
    let entry = book.len();
    match book.expire_one(ACTOR, now) {
        Some(hold) => LineReply::Answered {
            hold,
            outcome: Outcome::Released {
                entry,
                cause: Cause::Late,
            },
        },
        None => LineReply::NoneDue,
    }
}

// A settlement from a peer, as JSON, which is read on the heap of the book's configuration.
fn run_credit<A: Allocator + Clone>(
    book: &mut Book<A>,
    now: i64,
    peer: u32,
    key: &[u8],
    json: &[u8],
) -> Result<LineReply, AllocError>
    requires known { IsKnown book.old.config peer }
    requires key { IsKey key.now }
    ensures step { IfOk result (λ reply. Does book.old book.new reply
        (replays.credit_json book.old now peer key.now (quantity_in json.now))) }
    ensures err { OnErr result (book.new ≡ book.old) }
{
    match Quantity::read(book.config().allocator(), json) {
        Ok(quantity) => credit(book, now, peer, key, &quantity),
        Err(QuantityFault::Memory) => Err(AllocError),
        Err(fault) => Ok(LineReply::Refused(Refusal::from(fault))),
    }
}

// A settlement from a peer, whose key is kept on the same heap.
fn credit<A: Allocator + Clone>(
    book: &mut Book<A>,
    now: i64,
    peer: u32,
    key: &[u8],
    quantity: &Quantity,
) -> Result<LineReply, AllocError>
    requires known { IsKnown book.old.config peer }
    requires key { IsKey key.now }
    ensures step { IfOk result (λ reply. Does book.old book.new reply
        (replays.credit_json book.old now peer key.now (Ok quantity.now))) }
    ensures err { OnErr result (book.new ≡ book.old) }
{
    match Key::new(book.config().allocator(), key)? {
        Some(key) => credit_reply(book.credit(
            ACTOR,
            peer,
            key,
            quantity,
            CreditKind::Settled,
            now,
        )),
        None => unreachable!(),
    }
}

// What is replied to a settlement from a peer. Want of memory is no reply.
fn credit_reply(outcome: Result<Kept, CreditFault>) -> Result<LineReply, AllocError>
    ensures reply { IfOk result (λ reply. reply ≡ replays.credit_reply outcome) }
    ensures granted { IfOk result (λ _. credit_growth outcome ≡ granted) }
    ensures denied { OnErr result (outcome ≡ Err credit_fault.Memory) }
{
    match outcome {
        Ok(kept) => Ok(LineReply::Credited(kept)),
        Err(CreditFault::Memory) => Err(AllocError),
        Err(fault) => Ok(LineReply::Refused(Refusal::from(fault))),
    }
}

// A settlement to a peer.
fn run_ask<A: Allocator + Clone>(
    book: &mut Book<A>,
    now: i64,
    peer: u32,
) -> Result<LineReply, AllocError>
    requires known { IsKnown book.old.config peer }
    ensures step { IfOk result (λ reply. Does book.old book.new reply
        (replays.ask_due book.old now peer)) }
    ensures err { OnErr result (book.new ≡ book.old) }
{
    ask_reply(book.ask(ACTOR, peer, now))
}

// What is replied to a settlement to a peer. Want of memory is no reply.
fn ask_reply(outcome: Result<Asked, AskFault>) -> Result<LineReply, AllocError>
    ensures reply { IfOk result (λ reply. reply ≡ replays.ask_reply outcome) }
    ensures granted { IfOk result (λ _. ask_growth outcome ≡ granted) }
    ensures denied { OnErr result (outcome ≡ Err ask_fault.Memory) }
{
    match outcome {
        Ok(asked) => Ok(LineReply::Asked(asked)),
        Err(AskFault::Memory) => Err(AllocError),
        Err(fault) => Ok(LineReply::Refused(Refusal::from(fault))),
    }
}

// What became of a settlement to a peer.
fn close<A: Allocator>(
    book: &mut Book<A>,
    now: i64,
    number: u32,
    verdict: EngineVerdict,
) -> LineReply
    ensures step { Does book.old book.new result
        (replays.close_with book.old now number verdict) }
{
    match (book.settle_close(ACTOR, number, verdict, now), verdict) {
        (Ok(entry), EngineVerdict::Accepted) => LineReply::Confirmed { number, entry },
        (Ok(entry), EngineVerdict::Refused) => LineReply::Undone { number, entry },
        (Err(NotOpen { closer }), _) => LineReply::NotOpen { number, closer },
    }
}

// What octets from the receiver say: those that are no packet, and a Prepare, count as no reply.
fn came_back(octets: &[u8]) -> PeerReply
    ensures { result ≡ replays.came_back (reading octets.now) }
{
    match Packet::read(octets) {
        Ok(Packet::Fulfill(fulfill)) => PeerReply::Fulfill(*fulfill.preimage),
        Ok(Packet::Reject(reject)) => PeerReply::Reject(*reject.code),
        Ok(Packet::Prepare(_)) => PeerReply::NoReply,
        Err(_) => PeerReply::NoReply,
    }
}
