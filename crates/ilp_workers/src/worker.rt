//! A worker: it forwards packets, each in two halves.
ghost use Rattle.std.specs.Prelude.{◌≡◌, ◌+◌, ◌<◌, length, [], Some, unwrap_or, IfOk, IfErr};
ghost use Rattle.ilp_book.specs.Configured.{IsKnown};
ghost use Rattle.ilp_book.specs.SettleStep.{payment};
ghost use Rattle.ilp_packet.specs.Packet.{prepare};
ghost use Rattle.ilp_desk.specs.Portion.{holding};
ghost use Rattle.ilp_workers.specs.Worker.{worker, replied};
ghost use Rattle.ilp_workers.specs.Crediting.{BooksCredit, Credits};
ghost use Rattle.ilp_replies.specs.Messages.{peer_answer_of};
ghost use Rattle.ilp_workers.specs.Messaging.{Messages};
ghost use Rattle.ilp_replies.specs.Replies.{octets_of};
ghost use Rattle.ilp_workers.specs.Booked.{behind_of, handed_journal};
ghost use Rattle.ilp_workers.specs.MessageHalves.{IsEngineHanded, Addresses};
ghost use Rattle.ilp_workers.specs.Halves.{Begins, waiting_more, IsHanded, IsBooked, IsHandedOn, IsKeptFor, IsFinished};
ghost use Rattle.ilp_workers.specs.Arrivals.{arrival, Forwards};

use crate::arrivals::{BadPacket, prepare_in};
use crate::booked::{Booked, HandedJournal};
use crate::booked_credit::BookedCredit;
use crate::crediting::NotCredited;
use crate::in_flight::{Begun, Pending};
use crate::parts::{Buffer, Parts};
use ilp_book::{CreditFault, Kept};
use ilp_desk::{Desk, End, JournalReceipt, Naming, Record, Share};
use ilp_journal::{CreditKind, Key};
use ilp_keeping::Keeper;
use ilp_link_traits::{Clock, EngineLink, Uplink};
use ilp_oer::Octets;
use ilp_replies::{
    Answer, EngineMessage, LONGEST_LOCAL_REJECT, MessageFault, PeerMessage, Receipt, ToldReject,
    is_for_engine, peer_answer_in,
};
use ilp_settlement::Quantity;
use std::alloc::{Allocator, Global};
use std::marker::Model;
use std::sync::Wait;

/// A worker of a desk: its share, the records of what it booked, what it has seen of the journal, its
/// clock, its links and its keeper.
#[derive(Drop)]
pub struct Worker<
    J: Naming,
    C: Clock + Drop,
    U: Uplink + Drop,
    E: EngineLink + Drop,
    K: Keeper<J> + Drop,
    A: Allocator = Global,
> {
    parts: Parts<J, C, U, E, K, A>,
}

impl<
    J: Naming,
    C: Clock + Drop,
    U: Uplink + Drop,
    E: EngineLink + Drop,
    K: Keeper<J> + Drop,
    A: Allocator,
> Model for Worker<J, C, U, E, K, A> {
    ghost use Rattle.ilp_workers.specs.Worker.{PlainWorker, worker, reply_of};

    ghost Value = { PlainWorker };

    ghost view = { λ w. worker w.parts.share w.parts.records.items (C.told w.parts.clock) (U.told w.parts.uplink) (E.told w.parts.engine) w.parts.receipt (K.told w.parts.keeper) (reply_of w.parts.reply_in w.parts.incoming.octets w.parts.rejected.octets) w.parts.pending };
}

/// What was given for a worker that there is no memory for, as it was given.
#[derive(Drop)]
pub struct NoWorker<
    J: Naming,
    C: Clock + Drop,
    U: Uplink + Drop,
    E: EngineLink + Drop,
    K: Keeper<J> + Drop,
> {
    /// The share of the desk, with which nothing was booked meanwhile.
    pub share: Share<J>,
    /// The receipt, which was shown nothing.
    pub receipt: JournalReceipt<J>,
    /// The clock, which was not asked.
    pub clock: C,
    /// The way to the peers, of whom none was handed anything.
    pub uplink: U,
    /// The way to the engines, of which none was handed anything.
    pub engine: E,
    /// The keeper, which was not asked.
    pub keeper: K,
}

impl<
    J: Naming,
    C: Clock + Drop,
    U: Uplink + Drop,
    E: EngineLink + Drop,
    K: Keeper<J> + Drop,
    A: Allocator,
> Worker<J, C, U, E, K, A> {
    /// A worker with this share, these links and this keeper, which keeps no record yet and has seen
    /// of the journal what the receipt has. Room is made for any Reject of the connector's own; where
    /// memory for that is denied, all is handed back.
    pub fn new(
        alloc: A,
        share: Share<J>,
        receipt: JournalReceipt<J>,
        clock: C,
        uplink: U,
        engine: E,
        keeper: K,
    ) -> Result<Worker<J, C, U, E, K, A>, NoWorker<J, C, U, E, K>>
    where
        A: Copy,
        ensures worker { IfOk result (λ w. w ≡ worker share [] (C.told clock) (U.told uplink) (E.told engine)
            receipt (K.told keeper) [] 0) }
        ensures share { IfErr result (λ e. e.share ≡ share) }
        ensures links { IfErr result (λ e. (e.clock ≡ clock) × (e.uplink ≡ uplink) × (e.engine ≡ engine)) }
        ensures kept { IfErr result (λ e. (e.receipt ≡ receipt) × (e.keeper ≡ keeper)) }
    {
        let mut rejected = Octets::new(alloc);
        let Ok(()) = rejected.reserve(LONGEST_LOCAL_REJECT) else {
            return Err(NoWorker {
                share,
                receipt,
                clock,
                uplink,
                engine,
                keeper,
            });
        };
        let parts = Parts {
            share,
            records: Vec::new(alloc),
            receipt,
            clock,
            uplink,
            engine,
            keeper,
            outgoing: Octets::new(alloc),
            incoming: Octets::new(alloc),
            rejected,
            reply_in: Buffer::Incoming,
            pending: 0,
        };
        Ok(Worker { parts })
    }

    /// The worker's share of the desk.
    pub fn share(&self) -> &Share<J>
        ensures { result.now ≡ self.now.share }
    {
        &self.parts.share
    }

    /// The records of what it booked, in order.
    pub fn records(&self) -> &[Record]
        ensures { result.now ≡ self.now.records }
    {
        self.parts.records.as_slice()
    }

    /// The octets of the Fulfill or the Reject that the sender of the last packet is answered with that
    /// was forwarded or refused at once, or of the Fulfill that answered the last message. There are
    /// none before the first, and none after a message that no answer came for, or no memory was there
    /// for. What is finished or booked leaves them.
    pub fn reply(&self) -> &[u8]
        ensures { result.now ≡ self.now.reply }
    {
        self.parts.reply()
    }

    /// How many packets it began that wait.
    pub fn pending(&self) -> usize
        ensures { result ≡ self.now.pending }
    {
        self.parts.pending
    }

    /// Forwards the octets that a peer sent (RFC 0027): `reply` has the answer then, and the receipt
    /// names the Reject, where it is one. The amount of a Prepare is held against the peer's balance, a
    /// Prepare of what is left goes to the peer of the destination's route, and what that peer replies
    /// is booked and passed on in its own octets. Whatever keeps the Prepare from that is a Reject of
    /// the connector's own. No lock is held while the peer is asked. Octets that are no Prepare are
    /// refused, and leave all as it was.
    ///
    /// Where the keeper says that entries are not kept, no Prepare is held. Once one is fulfilled, the
    /// keeper is handed the journal that says so before `forward` returns. Whatever it says of it, the
    /// sender is answered the Fulfill, which the next peer is owed.
    ///
    /// A Prepare to `peer.settle` carries a message of the peer's settlement engine (RFC 0038), and
    /// books nothing. The engine here is handed its data, and the answer is a Fulfill of 32 zero
    /// octets with what the engine answers, or the Reject of its first refusal.
    pub fn forward(
        &mut self,
        rt: &impl Wait,
        desk: &Desk<J>,
        from: u32,
        octets: &[u8],
    ) -> Result<Receipt, BadPacket>
    where
        A: Copy,
        requires known { IsKnown J.desk.config from }
        ensures forwarded { Forwards (arrival J.desk from octets.now) self.old self.new result }
        ensures pending { self.new.pending ≡ self.old.pending }
        ensures actor { self.new.share.actor ≡ self.old.share.actor }
    {
        match self.begin(rt, desk, from, octets) {
            Ok(Begun::Waits(pending)) => {
                let came = self.hand(&pending);
                let answer = self.finish(rt, desk, pending, came);
                Ok(self.reply_with(answer))
            }
            Ok(Begun::Asks(message)) => {
                let came = self.ask(&message);
                let answer = message.answer(desk.config(), came);
                Ok(self.reply_with(answer))
            }
            Ok(Begun::Answered(receipt)) => Ok(receipt),
            Err(fault) => Err(fault),
        }
    }

    /// The first half of a forward: the Prepare that a peer sent is held, and waits with what the next
    /// peer is to be handed. Where it is refused the sender is answered at once, and `reply` has the
    /// answer. Any number may wait, for as long as memory lasts; room for the record of each is kept,
    /// and for the Reject of each. Octets that are no Prepare leave all as it was.
    ///
    /// Of a Prepare to `peer.settle` nothing waits in the worker: what the engine here is to be handed
    /// is the message, which is answered without a worker.
    pub fn begin(
        &mut self,
        rt: &impl Wait,
        desk: &Desk<J>,
        from: u32,
        octets: &[u8],
    ) -> Result<Begun<J, A>, BadPacket>
    where
        A: Copy,
        requires known { IsKnown J.desk.config from }
        ensures begun { Begins (arrival J.desk from octets.now) self.old self.new result }
        ensures pending { self.new.pending ≡ self.old.pending + waiting_more result }
        ensures actor { self.new.share.actor ≡ self.old.share.actor }
    {
        let prepare = match prepare_in(octets) {
            Ok(prepare) => prepare,
            Err(fault) => return Err(fault),
        };
        if is_for_engine(&prepare) {
            return Ok(self.parts.begin_message(desk.config(), from, &prepare));
        }
        Ok(self.parts.begin(rt, desk, from, &prepare, octets.len()))
    }

    // Hands what waits to the next peer, and waits for what that replies.
    fn hand(&mut self, pending: &Pending<J, A>) -> Option<Octets<A>>
    where
        A: Copy,
        ensures handed { IsHanded pending.now (octets_of result) self.old self.new }
        ensures pending { self.new.pending ≡ self.old.pending }
        ensures actor { self.new.share.actor ≡ self.old.share.actor }
    {
        self.parts.hand(pending)
    }

    // Hands a message to the engine here, and waits for what that answers.
    fn ask(&mut self, message: &EngineMessage<A>) -> Option<Octets<A>>
    where
        A: Copy,
        ensures handed { IsEngineHanded message.now (octets_of result) self.old self.new }
        ensures pending { self.new.pending ≡ self.old.pending }
        ensures actor { self.new.share.actor ≡ self.old.share.actor }
    {
        self.parts.ask(message)
    }

    // Has the sender of a packet answered so.
    fn reply_with(&mut self, answer: Answer<A>) -> Receipt
        ensures replied { self.new ≡ replied self.old answer.octets.octets }
        ensures receipt { result ≡ answer.receipt }
    {
        let Answer { receipt, octets } = answer;
        self.parts.reply_with(octets);
        receipt
    }

    /// The second half of a forward: what came for a packet of this worker that waits, or that nothing
    /// did, is booked, a Fulfill is kept, and the sender's answer is handed back. It takes no memory.
    /// What waits may be finished in any order.
    pub fn finish(
        &mut self,
        rt: &impl Wait,
        desk: &Desk<J>,
        pending: Pending<J, A>,
        came: Option<Octets<A>>,
    ) -> Answer<A>
    where
        A: Copy,
        requires mine { pending.actor ≡ self.old.share.actor }
        requires waits { 0 < self.old.pending }
        ensures finished { IsFinished J.desk pending (octets_of came) self.old self.new
            result.receipt result.octets.octets }
        ensures pending { self.new.pending + 1 ≡ self.old.pending }
        ensures actor { self.new.share.actor ≡ self.old.share.actor }
    {
        let booked = self.book(rt, desk, pending, came);
        let handed = self.keep_for(booked.receipt().rejected);
        booked.tell(&handed)
    }

    // Has the keeper keep what is booked, unless the sender is told a Reject.
    fn keep_for(&mut self, rejected: Option<ToldReject>) -> HandedJournal<J>
        ensures kept { IsKeptFor rejected self.old self.new }
        ensures entries { result.entries ≡ behind_of rejected (length self.old.seen) }
        ensures pending { self.new.pending ≡ self.old.pending }
        ensures actor { self.new.share.actor ≡ self.old.share.actor }
    {
        match rejected {
            None => self.keep(),
            Some(_) => HandedJournal::none(),
        }
    }

    /// The first part of `finish`: what came for a packet of this worker that waits, or that nothing
    /// did, is booked. The sender is to be told what is booked, a Fulfill once `keep` was called: one
    /// call serves all that is booked by then. It takes no memory.
    pub fn book(
        &mut self,
        rt: &impl Wait,
        desk: &Desk<J>,
        pending: Pending<J, A>,
        came: Option<Octets<A>>,
    ) -> Booked<J, A>
    where
        A: Copy,
        requires mine { pending.actor ≡ self.old.share.actor }
        requires waits { 0 < self.old.pending }
        ensures booked { IsBooked J.desk pending (octets_of came) self.old self.new result }
        ensures pending { self.new.pending + 1 ≡ self.old.pending }
        ensures actor { self.new.share.actor ≡ self.old.share.actor }
    {
        let prepare = pending.prepare();
        let room = pending.into_room();
        self.parts.book(rt, desk, &prepare, room, came)
    }

    /// Has the keeper keep all that the worker has booked, and waits for that. What it says changes
    /// nothing that is booked.
    pub fn keep(&mut self) -> HandedJournal<J>
        ensures kept { IsHandedOn result.said self.old self.new }
        ensures entries { result ≡ handed_journal (length self.old.seen) result.said }
        ensures pending { self.new.pending ≡ self.old.pending }
        ensures actor { self.new.share.actor ≡ self.old.share.actor }
    {
        self.parts.hand_journal()
    }

    /// Credits a settlement that a peer's engine tells of (RFC 0038), or corrects the peer's balance, by the
    /// kind, once for each of the peer's keys, by `Book::credit`; room for its record is made first. What is `Refused` books nothing and
    /// leaves share and records as they were: `TooLarge` comes before anything else, and `Memory` may
    /// come in place of any later one. Of a credit, now or under its key from before, the keeper is
    /// then handed the journal that has it. Where it is `NotKept`, entry and record stay.
    pub fn credit(
        &mut self,
        rt: &impl Wait,
        desk: &Desk<J>,
        peer: u32,
        key: Key,
        quantity: &Quantity,
        kind: CreditKind,
    ) -> Result<Kept, NotCredited>
        requires known { IsKnown J.desk.config peer }
        ensures credited { Credits J.desk (payment peer key quantity.now kind) self.old self.new result }
        ensures pending { self.new.pending ≡ self.old.pending }
        ensures actor { self.new.share.actor ≡ self.old.share.actor }
    {
        match self.begin_credit(rt, desk, peer, key, quantity, kind) {
            Ok(booked) => {
                let kept = self.keep();
                booked.tell(&kept)
            }
            Err(fault) => Err(NotCredited::Refused(fault)),
        }
    }

    /// The first half of `credit`: the settlement is credited, or the balance corrected, and nobody is told. The keeper
    /// is asked nothing: who asked for it is to be answered behind the credit's entry, by `BookedCredit::tell`.
    pub fn begin_credit(
        &mut self,
        rt: &impl Wait,
        desk: &Desk<J>,
        peer: u32,
        key: Key,
        quantity: &Quantity,
        kind: CreditKind,
    ) -> Result<BookedCredit<J>, CreditFault>
        requires known { IsKnown J.desk.config peer }
        ensures booked { BooksCredit J.desk (payment peer key quantity.now kind) self.old self.new result }
        ensures pending { self.new.pending ≡ self.old.pending }
        ensures actor { self.new.share.actor ≡ self.old.share.actor }
    {
        let parts = &mut self.parts;
        match parts.book_credit(rt, desk, peer, key, quantity, kind) {
            Ok(credit) => Ok(BookedCredit::new(credit, parts.receipt.len())),
            Err(fault) => Err(fault),
        }
    }

    /// Sends a message of the settlement engine here to that of a peer (RFC 0038): a Prepare of
    /// amount 0 to `peer.settle`, which expires after the longest hold and books nothing. After an
    /// `Ok`, `message_answer` has what the peer's engine answered. A message of more than 32,767 octets
    /// is refused, and leaves all as it was. After another fault `reply` and `message_answer` are empty.
    pub fn message(&mut self, desk: &Desk<J>, peer: u32, octets: &[u8]) -> Result<(), MessageFault>
        ensures messages { Messages J.desk.config peer octets.now self.old self.new result }
        ensures pending { self.new.pending ≡ self.old.pending }
        ensures actor { self.new.share.actor ≡ self.old.share.actor }
    {
        self.parts.send_message(desk.config(), peer, octets)
    }

    /// The first half of a message to the engine of a peer: what the peer is to be handed, and until
    /// when its reply counts. `peer_answer_in` reads the reply. A message of more than 32,767 octets is
    /// refused, and leaves all as it was; `Memory` tells that memory for its packet was denied.
    pub fn begin_message(
        &mut self,
        desk: &Desk<J>,
        peer: u32,
        octets: &[u8],
    ) -> Result<PeerMessage<A>, MessageFault>
    where
        A: Copy,
        ensures addresses { Addresses J.desk.config peer octets.now self.old self.new result }
    {
        self.parts.begin_send(desk.config(), peer, octets)
    }

    /// The data of the Fulfill of 32 zero octets that `reply` has; none where it has no such Fulfill.
    /// Right after an `Ok` of `message` it is what the peer's engine answered.
    pub fn message_answer(&self) -> &[u8]
        ensures { result.now ≡ unwrap_or (peer_answer_of (Some self.now.reply)) [] }
    {
        peer_answer_in(self.parts.reply()).unwrap_or(&[])
    }
}

impl<
    J: Naming,
    C: Clock + Drop,
    U: Uplink + Drop,
    E: EngineLink + Drop,
    K: Keeper<J> + Drop,
> Worker<J, C, U, E, K> {
    /// What the worker hands back in the end, when none of its packets waits: its share and its
    /// records.
    pub fn into_end(self) -> End<J>
        requires none { self.pending ≡ 0 }
        ensures { result ≡ holding self.share self.records }
    {
        let Worker { parts } = self;
        parts.into_end()
    }
}
