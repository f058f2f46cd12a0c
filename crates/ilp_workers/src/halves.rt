//! The two halves of a forward, and what stands between them.
ghost use Rattle.std.specs.Prelude.{◌≡◌, ℕ, ◌+◌, ◌<◌, ◌≤◌, length, List, Option, Some, Result, Ok};
ghost use Rattle.ilp_packet.specs.Packet.{plain_prepare, prepare, IsPrepare};
ghost use Rattle.ilp_packet.specs.Writing.{size};
ghost use Rattle.ilp_book.specs.Configured.{IsKnown};
ghost use Rattle.ilp_link_traits.specs.Links.{came_of};
ghost use Rattle.ilp_replies.specs.Rejects.{longest_local_reject};
ghost use Rattle.ilp_workers.specs.Worker.{worker, reply_of};
ghost use Rattle.ilp_workers.specs.Forwarding.{order, IsTold};
ghost use Rattle.ilp_replies.specs.Replies.{octets_of};
ghost use Rattle.ilp_workers.specs.Pending.{waiting};
ghost use Rattle.ilp_workers.specs.Booked.{behind_of};
ghost use Rattle.ilp_workers.specs.Halves.{IsBegunBy, waiting_more, IsHanded, IsBooked};

use crate::booked::Booked;
use crate::in_flight::{Begun, HeldPrepare, Pending};
use crate::parts::{Parts, note_reply, put_onward};
use crate::reply_effect::{Told, effect_by};
use ilp_accounts::Config;
use ilp_desk::{Desk, Naming};
use ilp_keeping::Keeper;
use ilp_link_traits::{Clock, EngineLink, LinkFault, Uplink};
use ilp_oer::Octets;
use ilp_packet::Prepare;
use ilp_replies::{Receipt, ToldReject, put_local_reject};
use std::alloc::Allocator;
use std::mem;
use std::sync::Wait;

impl<
    J: Naming,
    C: Clock + Drop,
    U: Uplink + Drop,
    E: EngineLink + Drop,
    K: Keeper<J> + Drop,
    A: Allocator,
> Parts<J, C, U, E, K, A> {
    // Holds a Prepare of so many octets, and writes what the next peer is to be handed, or has the
    // sender answered with the refusal.
    pub(crate) fn begin(
        &mut self,
        rt: &impl Wait,
        desk: &Desk<J>,
        from: u32,
        packet: &Prepare<'_>,
        len: usize,
    ) -> Begun<J, A>
    where
        A: Copy,
        requires known { IsKnown J.desk.config from }
        requires packet { IsPrepare (plain_prepare packet.now) }
        requires len { len ≡ size (prepare (plain_prepare packet.now)) }
        ensures begun { IsBegunBy (order J.desk from (plain_prepare packet.now))
            (worker self.old.share self.old.records.items (C.told self.old.clock) (U.told self.old.uplink)
            (E.told self.old.engine) self.old.receipt (K.told self.old.keeper)
            (reply_of self.old.reply_in self.old.incoming.octets
            self.old.rejected.octets) self.old.pending)
            (worker self.new.share self.new.records.items (C.told self.new.clock) (U.told self.new.uplink)
            (E.told self.new.engine) self.new.receipt (K.told self.new.keeper)
            (reply_of self.new.reply_in self.new.incoming.octets
            self.new.rejected.octets) self.new.pending) result }
        ensures pending { self.new.pending ≡ self.old.pending + waiting_more (Ok result) }
        ensures actor { self.new.share.actor ≡ self.old.share.actor }
    {
        let actor = self.share.actor();
        let mut out = Octets::new(*self.records.allocator());
        match self.hold(rt, desk, from, packet, len, &mut out) {
            Ok(held) => {
                put_onward(&mut out, packet, &held);
                let prepare = HeldPrepare {
                    from,
                    amount: packet.amount,
                    condition: *packet.condition,
                    held,
                };
                Begun::Waits(Pending::new(actor, prepare, out))
            }
            Err(why) => {
                self.reject(desk.config(), why);
                Begun::Answered(Receipt::unbooked(Some(ToldReject::Own(why))))
            }
        }
    }

    // Hands the octets of a packet that waits to the next peer, and waits for what comes back. The link
    // learns of which hold it is.
    pub(crate) fn hand(&mut self, pending: &Pending<J, A>) -> Option<Octets<A>>
    where
        A: Copy,
        ensures handed { IsHanded pending.now (octets_of result)
            (worker self.old.share self.old.records.items (C.told self.old.clock) (U.told self.old.uplink)
            (E.told self.old.engine) self.old.receipt (K.told self.old.keeper)
            (reply_of self.old.reply_in self.old.incoming.octets
            self.old.rejected.octets) self.old.pending)
            (worker self.new.share self.new.records.items (C.told self.new.clock) (U.told self.new.uplink)
            (E.told self.new.engine) self.new.receipt (K.told self.new.keeper)
            (reply_of self.new.reply_in self.new.incoming.octets
            self.new.rejected.octets) self.new.pending) }
        ensures pending { self.new.pending ≡ self.old.pending }
        ensures actor { self.new.share.actor ≡ self.old.share.actor }
    {
        let room = Octets::new(*self.records.allocator());
        let mut reply = mem::replace(&mut self.incoming, room);
        reply.clear();
        let prepare = pending.prepare();
        self.uplink
            .note_hold(prepare.held.number, prepare.held.out, &prepare.condition);
        let came = self.uplink.send(
            pending.to(),
            pending.octets(),
            pending.deadline(),
            &mut reply,
        );
        match came {
            Ok(()) => Some(reply),
            Err(LinkFault) => {
                self.incoming = reply;
                None
            }
        }
    }

    // Has the desk book what came for a packet that waits, or that nothing did, and writes what its
    // sender is answered, a Reject into the room. The link learns what came.
    pub(crate) fn book(
        &mut self,
        rt: &impl Wait,
        desk: &Desk<J>,
        prepare: &HeldPrepare,
        room: Octets<A>,
        came: Option<Octets<A>>,
    ) -> Booked<J, A>
    where
        A: Copy,
        requires waits { 0 < self.old.pending }
        requires room { longest_local_reject ≤ length room.octets + room.spare }
        ensures booked { (actor : ℕ) (octets : List ℕ)
            → IsBooked J.desk (waiting actor prepare.now octets) (octets_of came)
            (worker self.old.share self.old.records.items (C.told self.old.clock) (U.told self.old.uplink)
            (E.told self.old.engine) self.old.receipt (K.told self.old.keeper)
            (reply_of self.old.reply_in self.old.incoming.octets
            self.old.rejected.octets) self.old.pending)
            (worker self.new.share self.new.records.items (C.told self.new.clock) (U.told self.new.uplink)
            (E.told self.new.engine) self.new.receipt (K.told self.new.keeper)
            (reply_of self.new.reply_in self.new.incoming.octets
            self.new.rejected.octets) self.new.pending) result }
        ensures pending { self.new.pending + 1 ≡ self.old.pending }
        ensures actor { self.new.share.actor ≡ self.old.share.actor }
    {
        let (brought, reply) = reply_in(*self.records.allocator(), came);
        let effect = effect_by(&prepare.condition, brought, reply.as_slice());
        note_reply(&mut self.uplink, prepare.held.to, brought, effect.kind());
        let ended = self.end(rt, desk, prepare, &effect);
        let receipt = Receipt {
            hold: Some(prepare.held.number),
            answer: ended.entry,
            rejected: ended.told.rejected(),
        };
        let behind = behind_of(receipt.rejected, self.receipt.len());
        let octets = answer_octets(desk.config(), ended.told, reply, room);
        Booked::new(receipt, octets, behind)
    }
}

// What a link brought, and the octets, of which there are none where it brought nothing.
fn reply_in<A: Allocator>(alloc: A, came: Option<Octets<A>>) -> (Result<(), LinkFault>, Octets<A>)
    ensures { came_of result.0 result.1.octets ≡ octets_of came }
{
    match came {
        Some(reply) => (Ok(()), reply),
        None => (Err(LinkFault), Octets::new(alloc)),
    }
}

// How many entries of a journal of so many the keeper is to be handed before the sender is told.
fn behind_of(rejected: Option<ToldReject>, entries: u32) -> u32
    ensures { result ≡ behind_of rejected entries }
{
    match rejected {
        None => entries,
        Some(_) => 0,
    }
}

// The octets that the sender is answered: those of the reply, or the connector's own Reject, which is
// written into the room.
fn answer_octets<A: Allocator>(
    config: &Config,
    told: Told,
    reply: Octets<A>,
    room: Octets<A>,
) -> Octets<A>
    requires room { longest_local_reject ≤ length room.octets + room.spare }
    ensures { IsTold config.now (Some reply.octets) told result.octets }
{
    match told {
        Told::Fulfill => reply,
        Told::Reject(ToldReject::Peer { .. }) => reply,
        Told::Reject(ToldReject::Own(why)) => {
            let mut out = room;
            put_local_reject(&mut out, config, why);
            out
        }
    }
}
