//! A worker and what it began: any number of packets that wait, which end in any order.
ghost use Rattle.std.specs.Prelude.{◌≡◌, ℕ, length, Some, IfOk, IfErr, IfSome, IfNone};
ghost use Rattle.slab.specs.Slab.{get, slab_len};
ghost use Rattle.ilp_book.specs.Configured.{IsKnown};
ghost use Rattle.ilp_desk.specs.Portion.{holding};
ghost use Rattle.ilp_flight.specs.Flight.{Starts};
ghost use Rattle.ilp_workers.specs.Arrivals.{arrival};
ghost use Rattle.ilp_replies.specs.Replies.{octets_of};
ghost use Rattle.ilp_workers.specs.Pending.{PlainPending};
ghost use Rattle.ilp_workers.specs.Booked.{handed_journal};
ghost use Rattle.ilp_workers.specs.Halves.{IsBooked, IsHandedOn, IsFinished};

use ilp_desk::{Desk, End, Naming};
use ilp_oer::Octets;
use ilp_workers::{
    Answer, BadPacket, Begun, Booked, Clock, EngineLink, EngineMessage, HandedJournal, Keeper,
    Pending, Receipt, Uplink, Worker,
};
use slab::Slab;
use std::alloc::Global;
use std::sync::Wait;

/// A worker, and the packets that it began, each under a key until it is finished.
#[derive(Drop)]
pub struct Flight<
    J: Naming,
    C: Clock + Drop,
    U: Uplink + Drop,
    E: EngineLink + Drop,
    K: Keeper<J> + Drop,
> {
    pub worker: Worker<J, C, U, E, K, Global>,
    pub waiting: Slab<Pending<J, Global>>,
    pub ghost counted: { slab_len waiting ≡ worker.pending },
    pub ghost mine: { (key : ℕ) (p : PlainPending) → get waiting key ≡ Some p
        → p.actor ≡ worker.share.actor },
}

/// What is begun.
#[derive(Drop)]
pub enum Started {
    /// The sender is answered.
    Answered(Receipt),
    /// The next peer is to be handed what waits under the key.
    Waits(usize),
    /// The settlement engine here is to be handed a message.
    Asks(EngineMessage),
}

/// Why nothing is begun.
#[derive(Clone, Copy, Debug, PartialEq, Eq)]
pub enum NoStart {
    /// The octets are no Prepare.
    Bad(BadPacket),
    /// There is no memory for another that waits.
    Memory,
}

impl<
    J: Naming,
    C: Clock + Drop,
    U: Uplink + Drop,
    E: EngineLink + Drop,
    K: Keeper<J> + Drop,
> Flight<J, C, U, E, K> {
    /// With a worker none of whose packets waits.
    pub fn new(alloc: Global, worker: Worker<J, C, U, E, K, Global>) -> Flight<J, C, U, E, K>
        requires none { worker.pending ≡ 0 }
        ensures { result.worker ≡ worker }
    {
        Flight {
            worker,
            waiting: Slab::new(alloc),
        }
    }

    /// Begins what a peer sent. What waited still waits; where memory for one more is denied, nothing is
    /// begun.
    pub fn begin(
        &mut self,
        rt: &impl Wait,
        desk: &Desk<J>,
        from: u32,
        octets: &[u8],
    ) -> Result<Started, NoStart>
        requires known { IsKnown J.desk.config from }
        ensures { Starts (arrival J.desk from octets.now) self.old.waiting self.new.waiting
            self.old.worker self.new.worker result }
    {
        let Ok(()) = self.waiting.reserve(1) else {
            return Err(NoStart::Memory);
        };
        match self.worker.begin(rt, desk, from, octets) {
            Ok(Begun::Waits(pending)) => {
                let key = self.waiting.insert_reserved(pending);
                Ok(Started::Waits(key))
            }
            Ok(Begun::Asks(message)) => Ok(Started::Asks(message)),
            Ok(Begun::Answered(receipt)) => Ok(Started::Answered(receipt)),
            Err(fault) => Err(NoStart::Bad(fault)),
        }
    }

    /// Finishes what waits under the key with what came, and with nothing else: the sender of that packet
    /// is to be answered so. Where nothing waits under the key, all is as it was.
    pub fn finish(
        &mut self,
        rt: &impl Wait,
        desk: &Desk<J>,
        key: usize,
        came: Option<Octets>,
    ) -> Option<Answer>
        ensures some { IfSome result (λ answer. (p : PlainPending) × (get self.old.waiting key ≡ Some p)
            × IsFinished J.desk p (octets_of came) self.old.worker self.new.worker
            answer.receipt answer.octets.octets) }
        ensures none { IfNone result (self.new.worker ≡ self.old.worker) }
    {
        let pending = self.waiting.try_remove(key)?;
        Some(self.worker.finish(rt, desk, pending, came))
    }

    /// Books what waits under the key with what came, and with nothing else. The sender of that packet is
    /// to be told it, a Fulfill behind `keep`. Where nothing waits under the key, all is as it was.
    pub fn book(
        &mut self,
        rt: &impl Wait,
        desk: &Desk<J>,
        key: usize,
        came: Option<Octets>,
    ) -> Option<Booked<J>>
        ensures some { IfSome result (λ booked. (p : PlainPending) × (get self.old.waiting key ≡ Some p)
            × IsBooked J.desk p (octets_of came) self.old.worker self.new.worker booked) }
        ensures none { IfNone result (self.new.worker ≡ self.old.worker) }
    {
        let pending = self.waiting.try_remove(key)?;
        Some(self.worker.book(rt, desk, pending, came))
    }

    /// Has the keeper keep all that is booked. What waits stays.
    pub fn keep(&mut self) -> HandedJournal<J>
        ensures kept { IsHandedOn result.said self.old.worker self.new.worker }
        ensures entries { result ≡ handed_journal (length self.old.worker.seen) result.said }
        ensures waiting { self.new.waiting ≡ self.old.waiting }
    {
        self.worker.keep()
    }

    /// What the worker hands back in the end, or all as it was where a packet waits.
    pub fn into_end(self) -> Result<End<J>, Flight<J, C, U, E, K>>
        ensures ok { IfOk result (λ end. end ≡ holding self.worker.share self.worker.records) }
        ensures err { IfErr result (λ flight. flight ≡ self) }
    {
        if self.worker.pending() != 0 {
            return Err(self);
        }
        let Flight { worker, waiting: _ } = self;
        Ok(worker.into_end())
    }
}
