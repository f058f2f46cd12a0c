//! Of what a worker consists, and the steps by which it passes a Prepare on.
ghost use Rattle.std.specs.Prelude.{◌≡◌, ◌+◌, ◌<◌, ◌≤◌, [], length, Option, Some, Ok, Result, IfOk, IfErr, OnOk, OnErr, MatchBool, ◌≢◌, vec_len, vec_capacity};
ghost use Rattle.ilp_packet.specs.Packet.{plain_prepare, prepare, reject, IsPrepare, Spells};
ghost use Rattle.ilp_packet.specs.Writing.{size};
ghost use Rattle.ilp_book.specs.Configured.{IsKnown};
ghost use Rattle.ilp_replies.specs.Rejects.{local_reject, longest_local_reject};
ghost use Rattle.ilp_desk.specs.Desk.{PlainDesk};
ghost use Rattle.ilp_desk.specs.Portion.{holding};
ghost use Rattle.ilp_workers.specs.Worker.{seat, reply_of, IsKept};
ghost use Rattle.ilp_workers.specs.Pending.{told_order};
ghost use Rattle.ilp_workers.specs.Booked.{handed_journal};
ghost use Rattle.ilp_workers.specs.Forwarding.{order, onward, IsHoldRefusal, IsHolding, IsEnded, late, end_of, record_of_end};

use crate::booked::HandedJournal;
use crate::in_flight::HeldPrepare;
use crate::reply_effect::{ReplyEffect, Told};
use ilp_accounts::Config;
use ilp_book::{Held, Outcome};
use ilp_desk::{AnsweredHold, Desk, End, HoldEnd, JournalReceipt, Naming, Record, Recorded, Share};
use ilp_keeping::{Keeper, NotKept};
use ilp_link_traits::{Clock, EngineLink, LinkFault, ReplyKind, Uplink};
use ilp_oer::Octets;
use ilp_packet::{Prepare, write_prepare};
use ilp_replies::{LONGEST_LOCAL_REJECT, LocalReject, ToldReject, put_local_reject};
use std::alloc::{AllocError, Allocator, Global};
use std::sync::Wait;

// What a worker has: its share and its records, what it has seen of the journal, its links, and room
// for octets.
#[derive(Drop)]
pub(crate) struct Parts<
    J: Naming,
    C: Clock + Drop,
    U: Uplink + Drop,
    E: EngineLink + Drop,
    K: Keeper<J> + Drop,
    A: Allocator,
> {
    pub(crate) share: Share<J>,
    pub(crate) records: Vec<Record, A>,
    // Has seen the journal as the worker's last session left it, or more.
    pub(crate) receipt: JournalReceipt<J>,
    pub(crate) clock: C,
    pub(crate) uplink: U,
    pub(crate) engine: E,
    pub(crate) keeper: K,
    // The Prepare of a message for a peer.
    pub(crate) outgoing: Octets<A>,
    // What came back for it, or what the sender of the last packet that was forwarded is answered.
    pub(crate) incoming: Octets<A>,
    // The connector's own Reject, for which there is room.
    pub(crate) rejected: Octets<A>,
    // Which of the two the sender of the last packet is answered with.
    pub(crate) reply_in: Buffer,
    // How many packets that it began wait. Room for a record of each is kept.
    pub(crate) pending: usize,
    ghost kept: { vec_len records + pending ≤ vec_capacity records },
    ghost room: { longest_local_reject ≤ length rejected.octets + rejected.spare },
}

impl<
    J: Naming,
    C: Clock + Drop,
    U: Uplink + Drop,
    E: EngineLink + Drop,
    K: Keeper<J> + Drop,
    A: Allocator,
> Parts<J, C, U, E, K, A> {
    // Makes room for all that may come of the Prepare, in the worker and in `out`, and then has the desk
    // hold it at the clock's moment. From then on it waits. Where entries aren't kept none is taken on.
    pub(crate) fn hold(
        &mut self,
        rt: &impl Wait,
        desk: &Desk<J>,
        from: u32,
        packet: &Prepare<'_>,
        len: usize,
        out: &mut Octets<A>,
    ) -> Result<Held, LocalReject>
        requires known { IsKnown J.desk.config from }
        requires cleared { out.old.octets ≡ [] }
        ensures links { (self.new.uplink ≡ self.old.uplink) × (self.new.engine ≡ self.old.engine) }
        ensures reply_in { self.new.reply_in ≡ self.old.reply_in }
        ensures buffers { (self.new.incoming ≡ self.old.incoming)
            × (self.new.outgoing ≡ self.old.outgoing) × (self.new.rejected ≡ self.old.rejected) }
        ensures held { IfOk result (λ held. IsHolding (order J.desk from (plain_prepare packet.now))
            (seat self.old.share self.old.records.items (C.told self.old.clock) self.old.receipt
            (K.told self.old.keeper))
            (seat self.new.share self.new.records.items (C.told self.new.clock) self.new.receipt
            (K.told self.new.keeper)) held) }
        ensures waits { OnOk result (self.new.pending ≡ self.old.pending + 1) }
        ensures cleared { out.new.octets ≡ [] }
        ensures room { OnOk result (len ≤ out.new.spare) }
        ensures reject { OnOk result (longest_local_reject ≤ out.new.spare) }
        ensures refused { IfErr result (λ why. IsHoldRefusal (order J.desk from (plain_prepare packet.now))
            (seat self.old.share self.old.records.items (C.told self.old.clock) self.old.receipt
            (K.told self.old.keeper))
            (seat self.new.share self.new.records.items (C.told self.new.clock) self.new.receipt
            (K.told self.new.keeper)) why) }
        ensures share { IfErr result (λ why. self.new.share ≡ self.old.share) }
        ensures records { IfErr result (λ why. self.new.records.items ≡ self.old.records.items) }
        ensures pending { OnErr result (self.new.pending ≡ self.old.pending) }
    {
        if !self.keeper.keeps() {
            return Err(LocalReject::InternalError);
        }
        let Ok(()) = self.make_room(len, out) else {
            return Err(LocalReject::InternalError);
        };
        let now = self.clock.now();
        match desk.hold_shown(rt, &mut self.share, &mut self.receipt, from, packet, now) {
            Ok(held) => {
                self.pending += 1;
                Ok(held)
            }
            Err(fault) => Err(LocalReject::of_fault(fault, packet.amount)),
        }
    }

    // Room for the record of one packet more that waits, and for its octets: a packet of so many, and
    // any Reject of the connector's own.
    fn make_room(&mut self, len: usize, out: &mut Octets<A>) -> Result<(), AllocError>
        ensures share { self.new.share ≡ self.old.share }
        ensures records { self.new.records.items ≡ self.old.records.items }
        ensures clock { self.new.clock ≡ self.old.clock }
        ensures links { (self.new.uplink ≡ self.old.uplink) × (self.new.engine ≡ self.old.engine) }
        ensures kept { (self.new.receipt ≡ self.old.receipt) × (self.new.keeper ≡ self.old.keeper) }
        ensures reply_in { self.new.reply_in ≡ self.old.reply_in }
        ensures buffers { (self.new.incoming ≡ self.old.incoming)
            × (self.new.outgoing ≡ self.old.outgoing) × (self.new.rejected ≡ self.old.rejected) }
        ensures pending { self.new.pending ≡ self.old.pending }
        ensures record { OnOk result
            (vec_len self.new.records + self.new.pending < vec_capacity self.new.records) }
        ensures octets { out.new.octets ≡ out.old.octets }
        ensures room { OnOk result (len ≤ out.new.spare) }
        ensures reject { OnOk result (longest_local_reject ≤ out.new.spare) }
    {
        reserve_beside(&mut self.records, self.pending)?;
        out.reserve(len.max(LONGEST_LOCAL_REJECT))
    }

    // Has the desk book what came back for the hold of a packet that waits, and keeps the record of how
    // the hold ended by that.
    pub(crate) fn end(
        &mut self,
        rt: &impl Wait,
        desk: &Desk<J>,
        prepare: &HeldPrepare,
        effect: &ReplyEffect,
    ) -> Answered
        requires waits { 0 < self.old.pending }
        ensures links { (self.new.uplink ≡ self.old.uplink) × (self.new.engine ≡ self.old.engine) }
        ensures reply_in { self.new.reply_in ≡ self.old.reply_in }
        ensures buffers { (self.new.incoming ≡ self.old.incoming)
            × (self.new.outgoing ≡ self.old.outgoing) × (self.new.rejected ≡ self.old.rejected) }
        ensures ended { IsEnded (told_order J.desk prepare.now) prepare.now.held effect.now
            (seat self.old.share self.old.records.items (C.told self.old.clock) self.old.receipt
            (K.told self.old.keeper))
            (seat self.new.share self.new.records.items (C.told self.new.clock) self.new.receipt
            (K.told self.new.keeper)) result.told result.entry }
        ensures pending { self.new.pending + 1 ≡ self.old.pending }
    {
        self.pending -= 1;
        let later = self.clock.now();
        let answer = effect.answer;
        let hold = prepare.held.number;
        let reply = desk.answer_shown(rt, &mut self.share, &mut self.receipt, hold, answer, later);
        let Ok(outcome) = reply else {
            return Answered::late(None);
        };
        let (entry, ended) = end_of(outcome);
        if !same(ended, effect.ended) {
            return Answered::late(Some(entry));
        }
        self.records.push_reserved(record_of(prepare, ended, entry));
        Answered {
            told: effect.told,
            entry: Some(entry),
        }
    }

    // Has the journal kept that the worker has seen. Tells how many entries that has, and what the keeper
    // said.
    pub(crate) fn hand_journal(&mut self) -> HandedJournal<J>
        ensures entries { result ≡ handed_journal (length self.old.receipt) result.said }
        ensures kept { IsKept result.said
            (seat self.old.share self.old.records.items (C.told self.old.clock) self.old.receipt
            (K.told self.old.keeper))
            (seat self.new.share self.new.records.items (C.told self.new.clock) self.new.receipt
            (K.told self.new.keeper)) }
        ensures links { (self.new.uplink ≡ self.old.uplink) × (self.new.engine ≡ self.old.engine) }
        ensures reply_in { self.new.reply_in ≡ self.old.reply_in }
        ensures buffers { (self.new.incoming ≡ self.old.incoming)
            × (self.new.outgoing ≡ self.old.outgoing) × (self.new.rejected ≡ self.old.rejected) }
        ensures pending { self.new.pending ≡ self.old.pending }
    {
        let entries = self.receipt.len();
        HandedJournal::new(entries, self.keep())
    }

    // Has the journal kept that the worker has seen.
    pub(crate) fn keep(&mut self) -> Result<(), NotKept>
        ensures kept { IsKept result
            (seat self.old.share self.old.records.items (C.told self.old.clock) self.old.receipt
            (K.told self.old.keeper))
            (seat self.new.share self.new.records.items (C.told self.new.clock) self.new.receipt
            (K.told self.new.keeper)) }
        ensures links { (self.new.uplink ≡ self.old.uplink) × (self.new.engine ≡ self.old.engine) }
        ensures reply_in { self.new.reply_in ≡ self.old.reply_in }
        ensures buffers { (self.new.incoming ≡ self.old.incoming)
            × (self.new.outgoing ≡ self.old.outgoing) × (self.new.rejected ≡ self.old.rejected) }
        ensures pending { self.new.pending ≡ self.old.pending }
    {
        self.keeper.keep(&mut self.receipt)
    }

    // Has the sender answered with this Reject of the connector's own.
    pub(crate) fn reject(&mut self, config: &Config, why: LocalReject)
        ensures told { Spells (reply_of self.new.reply_in self.new.incoming.octets
            self.new.rejected.octets) (reject (local_reject config.now why)) }
        ensures share { self.new.share ≡ self.old.share }
        ensures records { self.new.records ≡ self.old.records }
        ensures clock { self.new.clock ≡ self.old.clock }
        ensures links { (self.new.uplink ≡ self.old.uplink) × (self.new.engine ≡ self.old.engine) }
        ensures kept { (self.new.receipt ≡ self.old.receipt) × (self.new.keeper ≡ self.old.keeper) }
        ensures pending { self.new.pending ≡ self.old.pending }
    {
        put_local_reject(&mut self.rejected, config, why);
        self.reply_in = Buffer::Rejected;
    }

    // Has the sender of a packet answered with these octets.
    pub(crate) fn reply_with(&mut self, octets: Octets<A>)
        ensures told { reply_of self.new.reply_in self.new.incoming.octets
            self.new.rejected.octets ≡ octets.octets }
        ensures share { self.new.share ≡ self.old.share }
        ensures records { self.new.records ≡ self.old.records }
        ensures clock { self.new.clock ≡ self.old.clock }
        ensures links { (self.new.uplink ≡ self.old.uplink) × (self.new.engine ≡ self.old.engine) }
        ensures kept { (self.new.receipt ≡ self.old.receipt) × (self.new.keeper ≡ self.old.keeper) }
        ensures pending { self.new.pending ≡ self.old.pending }
    {
        self.incoming = octets;
        self.reply_in = Buffer::Incoming;
    }

    // The octets that the sender of the last packet is answered with.
    pub(crate) fn reply(&self) -> &[u8]
        ensures { result.now ≡ reply_of self.now.reply_in self.now.incoming.octets
            self.now.rejected.octets }
    {
        match self.reply_in {
            Buffer::Incoming => self.incoming.as_slice(),
            Buffer::Rejected => self.rejected.as_slice(),
        }
    }
}

impl<J: Naming, C: Clock + Drop, U: Uplink + Drop, E: EngineLink + Drop, K: Keeper<J> + Drop> Parts<
    J,
    C,
    U,
    E,
    K,
    Global,
> {
    // The share and the records; the rest ends here.
    pub(crate) fn into_end(self) -> End<J>
        ensures { result ≡ holding self.share self.records.items }
    {
        let Parts {
            share,
            records,
            receipt: _,
            clock: _,
            uplink: _,
            engine: _,
            keeper: _,
            outgoing: _,
            incoming: _,
            rejected: _,
            reply_in: _,
            pending: _,
        } = self;
        End::new(share, records)
    }
}

// Where the octets stand by which the sender of the last packet is answered.
#[derive(Clone, Copy)]
pub(crate) enum Buffer {
    // Where what a peer replied is put, and what the sender of a packet that was forwarded is answered.
    Incoming,
    // Where Rejects are written of what is refused at once.
    Rejected,
}

// What the sender is told of a hold that ended, and the entry that says so, if it is this one.
#[derive(Clone, Copy)]
pub(crate) struct Answered {
    pub(crate) told: Told,
    pub(crate) entry: Option<u32>,
}

impl Answered {
    // Time ran out before what came back was booked.
    fn late(entry: Option<u32>) -> Answered
        ensures { result ≡ record { told = late; entry = entry } }
    {
        Answered {
            told: Told::Reject(ToldReject::Own(LocalReject::TransferTimedOut)),
            entry,
        }
    }
}

// Has the link learn what the reply is that it brought, if it brought one.
pub(crate) fn note_reply<U: Uplink>(
    uplink: &mut U,
    from: u32,
    came: Result<(), LinkFault>,
    kind: ReplyKind,
)
    ensures { U.told uplink.new ≡ U.told uplink.old }
{
    if came.is_ok() {
        uplink.note_reply(from, kind);
    }
}

// How a hold ended, and the number of the entry that says so.
fn end_of(outcome: Outcome) -> (u32, HoldEnd)
    ensures { result ≡ end_of outcome }
{
    match outcome {
        Outcome::Fulfilled { entry } => (entry, HoldEnd::Fulfilled),
        Outcome::Released { entry, cause } => (entry, HoldEnd::Released(cause)),
    }
}

fn same(one: HoldEnd, other: HoldEnd) -> bool
    ensures { MatchBool result (one ≡ other) (one ≢ other) }
{
    one == other
}

// The record of a hold that ended so, by this entry.
fn record_of(prepare: &HeldPrepare, ended: HoldEnd, entry: u32) -> Record
    ensures { (desk : PlainDesk) → result
        ≡ record_of_end (told_order desk prepare.now) prepare.now.held ended entry }
{
    let ended = AnsweredHold {
        hold: prepare.held.number,
        from: prepare.from,
        to: prepare.held.to,
        amount: prepare.amount,
        out: prepare.held.out,
        condition: prepare.condition,
        ended,
    };
    Record {
        number: entry,
        what: Recorded::Answered(ended),
    }
}

// Room for a record more, beside that of so many packets that wait.
pub(crate) fn reserve_beside<A: Allocator>(
    records: &mut Vec<Record, A>,
    pending: usize,
) -> Result<(), AllocError>
    ensures items { records.new.items ≡ records.old.items }
    ensures len { vec_len records.new ≡ vec_len records.old }
    ensures capacity { vec_capacity records.old ≤ vec_capacity records.new }
    ensures ok { OnOk result (vec_len records.new + pending < vec_capacity records.new) }
{
    let Some(more) = pending.checked_add(1) else {
        return Err(AllocError);
    };
    records.reserve(more)
}

// Writes the Prepare that the next peer is handed for one that was held, into room that is there.
pub(crate) fn put_onward<A: Allocator>(out: &mut Octets<A>, packet: &Prepare<'_>, held: &Held)
    requires packet { IsPrepare (onward (plain_prepare packet.now) held.now) }
    requires cleared { out.old.octets ≡ [] }
    requires room { size (prepare (onward (plain_prepare packet.now) held.now)) ≤ out.old.spare }
    ensures packet { Spells out.new.octets (prepare (onward (plain_prepare packet.now) held.now)) }
    ensures room { length out.new.octets + out.new.spare ≡ out.old.spare }
{
    let onward = Prepare {
        amount: held.out,
        expires: held.deadline,
        condition: packet.condition,
        destination: packet.destination,
        payload: packet.payload,
    };
    let Ok(()) = write_prepare(out, &onward) else {
        unreachable!();
    };
}
