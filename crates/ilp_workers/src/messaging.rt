//! Messages between settlement engines (RFC 0038): Prepares of amount 0 to `peer.settle`.
ghost use Rattle.std.specs.Prelude.{◌≡◌, ◌+◌, Some, None, Ok};
ghost use Rattle.ilp_packet.specs.Packet.{plain_prepare, IsPrepare};
ghost use Rattle.ilp_book.specs.Configured.{IsKnown};
ghost use Rattle.ilp_workers.specs.Worker.{worker, reply_of};
ghost use Rattle.ilp_replies.specs.Messages.{message_expiry};
ghost use Rattle.ilp_workers.specs.Messaging.{Messages};
ghost use Rattle.ilp_replies.specs.Replies.{octets_of};
ghost use Rattle.ilp_workers.specs.MessageHalves.{IsEngineHanded, Addresses};
ghost use Rattle.ilp_workers.specs.Halves.{IsAskedBy, waiting_more};

use crate::in_flight::Begun;
use crate::parts::{Buffer, Parts, note_reply};
use ilp_accounts::Config;
use ilp_desk::Naming;
use ilp_keeping::Keeper;
use ilp_link_traits::{Clock, EngineLink, LinkFault, Uplink};
use ilp_oer::Octets;
use ilp_packet::Prepare;
use ilp_replies::{
    EngineMessage, MAX_MESSAGE, MessageFault, PeerMessage, Receipt, ToldReject, message_expiry,
    message_octets, message_reply, put_message,
};
use std::alloc::Allocator;
use std::mem;

impl<
    J: Naming,
    C: Clock + Drop,
    U: Uplink + Drop,
    E: EngineLink + Drop,
    K: Keeper<J> + Drop,
    A: Allocator,
> Parts<J, C, U, E, K, A> {
    // Makes room for the longest Fulfill, and takes the data of a Prepare for the engine here, or has the
    // sender answered with the first refusal.
    pub(crate) fn begin_message(
        &mut self,
        config: &Config,
        from: u32,
        packet: &Prepare<'_>,
    ) -> Begun<J, A>
    where
        A: Copy,
        requires known { IsKnown config.now from }
        requires packet { IsPrepare (plain_prepare packet.now) }
        ensures begun { IsAskedBy config.now from (plain_prepare packet.now)
            (worker self.old.share self.old.records.items (C.told self.old.clock) (U.told self.old.uplink)
            (E.told self.old.engine) self.old.receipt (K.told self.old.keeper)
            (reply_of self.old.reply_in self.old.incoming.octets
            self.old.rejected.octets) self.old.pending)
            (worker self.new.share self.new.records.items (C.told self.new.clock) (U.told self.new.uplink)
            (E.told self.new.engine) self.new.receipt (K.told self.new.keeper)
            (reply_of self.new.reply_in self.new.incoming.octets
            self.new.rejected.octets) self.new.pending) result }
        ensures pending { self.new.pending ≡ self.old.pending + waiting_more (Ok result) }
        ensures actor { self.new.share.actor ≡ self.old.share.actor }
    {
        let now = self.clock.now();
        let alloc = *self.records.allocator();
        match message_octets(alloc, config, from, packet, now) {
            Ok(octets) => Begun::Asks(EngineMessage::new(from, octets)),
            Err(why) => {
                self.reject(config, why);
                Begun::Answered(Receipt::unbooked(Some(ToldReject::Own(why))))
            }
        }
    }

    // Hands a message of a peer's engine to the engine here, and waits for what that answers.
    pub(crate) fn ask(&mut self, message: &EngineMessage<A>) -> Option<Octets<A>>
    where
        A: Copy,
        ensures handed { IsEngineHanded message.now (octets_of result)
            (worker self.old.share self.old.records.items (C.told self.old.clock) (U.told self.old.uplink)
            (E.told self.old.engine) self.old.receipt (K.told self.old.keeper)
            (reply_of self.old.reply_in self.old.incoming.octets
            self.old.rejected.octets) self.old.pending)
            (worker self.new.share self.new.records.items (C.told self.new.clock) (U.told self.new.uplink)
            (E.told self.new.engine) self.new.receipt (K.told self.new.keeper)
            (reply_of self.new.reply_in self.new.incoming.octets
            self.new.rejected.octets) self.new.pending) }
        ensures pending { self.new.pending ≡ self.old.pending }
        ensures actor { self.new.share.actor ≡ self.old.share.actor }
    {
        let room = Octets::new(*self.records.allocator());
        let mut reply = mem::replace(&mut self.incoming, room);
        reply.clear();
        let came = self
            .engine
            .message(message.from(), message.octets(), &mut reply);
        match came {
            Ok(()) => Some(reply),
            Err(LinkFault) => {
                self.incoming = reply;
                None
            }
        }
    }

    // Writes the packet of a message to a peer, which expires after the longest hold.
    pub(crate) fn begin_send(
        &mut self,
        config: &Config,
        peer: u32,
        octets: &[u8],
    ) -> Result<PeerMessage<A>, MessageFault>
    where
        A: Copy,
        ensures addresses { Addresses config.now peer octets.now
            (worker self.old.share self.old.records.items (C.told self.old.clock) (U.told self.old.uplink)
            (E.told self.old.engine) self.old.receipt (K.told self.old.keeper)
            (reply_of self.old.reply_in self.old.incoming.octets
            self.old.rejected.octets) self.old.pending)
            (worker self.new.share self.new.records.items (C.told self.new.clock) (U.told self.new.uplink)
            (E.told self.new.engine) self.new.receipt (K.told self.new.keeper)
            (reply_of self.new.reply_in self.new.incoming.octets
            self.new.rejected.octets) self.new.pending) result }
    {
        if octets.len() > MAX_MESSAGE {
            return Err(MessageFault::TooLong);
        }
        let expires = message_expiry(config, self.clock.now());
        let mut packet = Octets::new(*self.records.allocator());
        let Ok(()) = put_message(&mut packet, octets, expires) else {
            return Err(MessageFault::Memory);
        };
        Ok(PeerMessage::new(peer, packet, expires))
    }

    // Sends a message to the peer. What comes is the worker's reply where it is an answer, else
    // there is none.
    pub(crate) fn send_message(
        &mut self,
        config: &Config,
        peer: u32,
        octets: &[u8],
    ) -> Result<(), MessageFault>
        ensures messages { Messages config.now peer octets.now
            (worker self.old.share self.old.records.items (C.told self.old.clock) (U.told self.old.uplink)
            (E.told self.old.engine) self.old.receipt (K.told self.old.keeper)
            (reply_of self.old.reply_in self.old.incoming.octets
            self.old.rejected.octets) self.old.pending)
            (worker self.new.share self.new.records.items (C.told self.new.clock) (U.told self.new.uplink)
            (E.told self.new.engine) self.new.receipt (K.told self.new.keeper)
            (reply_of self.new.reply_in self.new.incoming.octets
            self.new.rejected.octets) self.new.pending) result }
        ensures pending { self.new.pending ≡ self.old.pending }
        ensures actor { self.new.share.actor ≡ self.old.share.actor }
    {
        if octets.len() > MAX_MESSAGE {
            return Err(MessageFault::TooLong);
        }
        let expires = message_expiry(config, self.clock.now());
        self.incoming.clear();
        self.reply_in = Buffer::Incoming;
        let Ok(()) = put_message(&mut self.outgoing, octets, expires) else {
            return Err(MessageFault::Memory);
        };
        let packet = self.outgoing.as_slice();
        let came = self.uplink.send(peer, packet, expires, &mut self.incoming);
        let reply = message_reply(came, self.incoming.as_slice());
        note_reply(&mut self.uplink, peer, came, reply.kind);
        if reply.is_answer {
            return Ok(());
        }
        self.incoming.clear();
        Err(MessageFault::NoAnswer)
    }
}
