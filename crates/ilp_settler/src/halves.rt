//! The two halves of a turn: what a settler does before a peer's engine is asked, and what after.
ghost use Rattle.std.specs.Prelude.{◌≡◌, ◌+◌, ◌<◌, ◌≤◌, length, IfOk, OnOk, vec_len, vec_capacity};
ghost use Rattle.ilp_book.specs.Configured.{IsKnown};
ghost use Rattle.ilp_desk.specs.Portion.{holding};
ghost use Rattle.ilp_settler.specs.Settler.{settler, longest_key, last_tried, IsAsking, IsChoosing, verdict_by, IsClosing, record_of_close};
ghost use Rattle.ilp_settler.specs.Halves.{IsSeeking, GivesOut, BeginsTurn, TakesUpOpen, pending_more, FinishesTurn};

use crate::asking::{Asking, BegunTurn};
use crate::keys::{LONGEST_KEY, put_key};
use crate::settling::{SettlerParts, place_of, reserve_beside};
use crate::turn::Turn;
use ilp_book::{AskFault, Asked, EngineVerdict};
use ilp_desk::{Desk, Naming, Record, Recorded};
use ilp_keeping::Keeper;
use ilp_link_traits::{Clock, EngineLink, EngineReply};
use ilp_oer::Octets;
use std::alloc::{AllocError, Allocator};
use std::sync::Wait;

impl<
    J: Naming,
    C: Clock + Drop,
    E: EngineLink + Drop,
    K: Keeper<J> + Drop,
    A: Allocator,
> SettlerParts<J, C, E, K, A> {
    // What is to be settled is found, kept and given out. Room for all that comes of it is made before a
    // book is asked.
    pub(crate) fn begin(
        &mut self,
        rt: &impl Wait,
        desk: &Desk<J>,
        peer: u32,
    ) -> Result<BegunTurn<A>, AllocError>
    where
        A: Copy,
        requires known { IsKnown J.desk.config peer }
        ensures begun { BeginsTurn J.desk peer
            (settler self.old.share self.old.records.items (C.told self.old.clock)
            (E.told self.old.engine) self.old.accounts self.old.tried self.old.receipt
            (K.told self.old.keeper) self.old.pending)
            (settler self.new.share self.new.records.items (C.told self.new.clock)
            (E.told self.new.engine) self.new.accounts self.new.tried self.new.receipt
            (K.told self.new.keeper) self.new.pending)
            result }
        ensures pending { self.new.pending ≡ self.old.pending + pending_more result }
    {
        if !self.knows_account(desk.config(), peer) {
            return Ok(BegunTurn::NeedsAccount);
        }
        let Ok(key) = self.make_room() else {
            return Err(AllocError);
        };
        match self.seek(rt, desk, peer) {
            Ok(asked) => Ok(self.give_out(rt, desk, peer, asked, key)),
            Err(AskFault::Memory) => Err(AllocError),
            Err(fault) => Ok(BegunTurn::Over(Turn::Idle(fault))),
        }
    }

    // What is open is found, kept and given out. No book is asked for a settlement.
    pub(crate) fn take_up(
        &mut self,
        rt: &impl Wait,
        desk: &Desk<J>,
        peer: u32,
    ) -> Result<BegunTurn<A>, AllocError>
    where
        A: Copy,
        requires known { IsKnown J.desk.config peer }
        ensures taken { TakesUpOpen J.desk peer
            (settler self.old.share self.old.records.items (C.told self.old.clock)
            (E.told self.old.engine) self.old.accounts self.old.tried self.old.receipt
            (K.told self.old.keeper) self.old.pending)
            (settler self.new.share self.new.records.items (C.told self.new.clock)
            (E.told self.new.engine) self.new.accounts self.new.tried self.new.receipt
            (K.told self.new.keeper) self.new.pending)
            result }
        ensures pending { self.new.pending ≡ self.old.pending + pending_more result }
    {
        if !self.knows_account(desk.config(), peer) {
            return Ok(BegunTurn::NeedsAccount);
        }
        let Ok(key) = self.make_room() else {
            return Err(AllocError);
        };
        match self.choose(rt, desk, peer) {
            Some(open) => Ok(self.give_out(rt, desk, peer, open, key)),
            None => Ok(BegunTurn::Over(Turn::Withheld)),
        }
    }

    // Room for the record of one settlement more, beside those that are not finished, and for its key.
    fn make_room(&mut self) -> Result<Octets<A>, AllocError>
    where
        A: Copy,
        ensures key { IfOk result (λ key. longest_key ≤ length key.octets + key.spare) }
        ensures record { OnOk result
            (vec_len self.new.records + self.new.pending < vec_capacity self.new.records) }
        ensures others { settler self.new.share self.new.records.items (C.told self.new.clock)
            (E.told self.new.engine) self.new.accounts self.new.tried self.new.receipt
            (K.told self.new.keeper) self.new.pending
            ≡ settler self.old.share self.old.records.items (C.told self.old.clock)
            (E.told self.old.engine) self.old.accounts self.old.tried self.old.receipt
            (K.told self.old.keeper) self.old.pending }
    {
        reserve_beside(&mut self.records, self.pending)?;
        let mut key = Octets::new(*self.records.allocator());
        key.reserve(LONGEST_KEY)?;
        Ok(key)
    }

    // What is to be settled: what a book books now, else what is open. Or why a book refused one.
    fn seek(&mut self, rt: &impl Wait, desk: &Desk<J>, peer: u32) -> Result<Asked, AskFault>
        requires known { IsKnown J.desk.config peer }
        ensures sought { IsSeeking J.desk peer
            (settler self.old.share self.old.records.items (C.told self.old.clock)
            (E.told self.old.engine) self.old.accounts self.old.tried self.old.receipt
            (K.told self.old.keeper) self.old.pending)
            (settler self.new.share self.new.records.items (C.told self.new.clock)
            (E.told self.new.engine) self.new.accounts self.new.tried self.new.receipt
            (K.told self.new.keeper) self.new.pending)
            result }
        ensures records { self.new.records ≡ self.old.records }
        ensures pending { self.new.pending ≡ self.old.pending }
    {
        match self.ask(rt, desk, peer) {
            Ok(asked) => Ok(asked),
            Err(AskFault::Memory) => Err(AskFault::Memory),
            Err(fault) => self.choose(rt, desk, peer).ok_or(fault),
        }
    }

    // Asks the desk for a settlement to the peer, at the clock's moment.
    fn ask(&mut self, rt: &impl Wait, desk: &Desk<J>, peer: u32) -> Result<Asked, AskFault>
        requires known { IsKnown J.desk.config peer }
        ensures asked { IsAsking J.desk peer (C.told self.old.clock) (C.told self.new.clock)
            self.old.receipt self.new.receipt self.old.share self.new.share result }
        ensures books { (self.new.records ≡ self.old.records)
            × (self.new.accounts ≡ self.old.accounts) × (self.new.pending ≡ self.old.pending) }
        ensures others { (self.new.engine ≡ self.old.engine) × (self.new.keeper ≡ self.old.keeper)
            × (self.new.tried ≡ self.old.tried) }
    {
        let now = self.clock.now();
        desk.ask_shown(rt, &mut self.share, &mut self.receipt, peer, now)
    }

    // The open settlement behind the one that was tried last, else the first of all.
    fn choose(&mut self, rt: &impl Wait, desk: &Desk<J>, peer: u32) -> Option<Asked>
        requires known { IsKnown J.desk.config peer }
        ensures chosen { IsChoosing J.desk peer (last_tried self.old.tried peer) self.old.receipt
            self.new.receipt result }
        ensures books { (self.new.share ≡ self.old.share) × (self.new.records ≡ self.old.records)
            × (self.new.clock ≡ self.old.clock) × (self.new.accounts ≡ self.old.accounts)
            × (self.new.pending ≡ self.old.pending) }
        ensures others { (self.new.engine ≡ self.old.engine) × (self.new.keeper ≡ self.old.keeper)
            × (self.new.tried ≡ self.old.tried) }
    {
        let tried = self.tried[place_of(desk.config(), peer)];
        desk.open_settlement_shown(rt, &mut self.receipt, peer, tried)
    }

    // Has the settlement's entry kept, and gives it out under its key.
    fn give_out(
        &mut self,
        rt: &impl Wait,
        desk: &Desk<J>,
        peer: u32,
        asked: Asked,
        key: Octets<A>,
    ) -> BegunTurn<A>
        requires known { IsKnown J.desk.config peer }
        requires key { longest_key ≤ length key.octets + key.spare }
        requires record { vec_len self.old.records + self.old.pending
            < vec_capacity self.old.records }
        ensures { GivesOut J.desk peer
            (settler self.old.share self.old.records.items (C.told self.old.clock)
            (E.told self.old.engine) self.old.accounts self.old.tried self.old.receipt
            (K.told self.old.keeper) self.old.pending)
            (settler self.new.share self.new.records.items (C.told self.new.clock)
            (E.told self.new.engine) self.new.accounts self.new.tried self.new.receipt
            (K.told self.new.keeper) self.new.pending)
            asked result }
    {
        let Ok(()) = self.keeper.keep(&mut self.receipt) else {
            return BegunTurn::Over(Turn::Unwritten {
                number: asked.number,
                amount: asked.amount,
            });
        };
        let config = desk.config();
        let mut key = key;
        put_key(rt, desk, asked.number, &mut key);
        self.tried[place_of(config, peer)] = Some(asked.number);
        self.pending += 1;
        BegunTurn::Asks(Asking::new(peer, asked, config.scale(peer), key))
    }

    // Has the desk book what the engine said, if that is a verdict.
    pub(crate) fn finish(
        &mut self,
        rt: &impl Wait,
        desk: &Desk<J>,
        asking: Asking<A>,
        said: EngineReply,
    ) -> Turn
        requires waits { 0 < self.old.pending }
        ensures finished { FinishesTurn J.desk asking said
            (settler self.old.share self.old.records.items (C.told self.old.clock)
            (E.told self.old.engine) self.old.accounts self.old.tried self.old.receipt
            (K.told self.old.keeper) self.old.pending)
            (settler self.new.share self.new.records.items (C.told self.new.clock)
            (E.told self.new.engine) self.new.accounts self.new.tried self.new.receipt
            (K.told self.new.keeper) self.new.pending)
            result }
        ensures pending { self.new.pending + 1 ≡ self.old.pending }
    {
        self.pending -= 1;
        let asked = asking.asked();
        match verdict_by(said) {
            Some(verdict) => self.close(rt, desk, asking.peer(), asked, said, verdict),
            None => Turn::Kept {
                number: asked.number,
                amount: asked.amount,
                said,
            },
        }
    }

    // Tells the desk what the engine said, and keeps the record.
    fn close(
        &mut self,
        rt: &impl Wait,
        desk: &Desk<J>,
        peer: u32,
        asked: Asked,
        said: EngineReply,
        verdict: EngineVerdict,
    ) -> Turn
        requires room { vec_len self.old.records + self.old.pending
            < vec_capacity self.old.records }
        ensures closed { IsClosing J.desk peer asked said verdict (C.told self.old.clock)
            (C.told self.new.clock) (holding self.old.share self.old.records.items)
            (holding self.new.share self.new.records.items) result }
        ensures others { (self.new.engine ≡ self.old.engine) × (self.new.keeper ≡ self.old.keeper)
            × (self.new.tried ≡ self.old.tried) × (self.new.receipt ≡ self.old.receipt)
            × (self.new.accounts ≡ self.old.accounts) }
        ensures pending { self.new.pending ≡ self.old.pending }
    {
        let Asked { number, amount } = asked;
        let later = self.clock.now();
        let Ok(entry) = desk.settle_close(rt, &mut self.share, number, verdict, later) else {
            return Turn::Kept {
                number,
                amount,
                said,
            };
        };
        self.records
            .push_reserved(record_of(peer, asked, verdict, entry));
        Turn::Closed {
            number,
            amount,
            said,
        }
    }
}

// The verdict on a settlement by what its engine said, if that is one.
fn verdict_by(said: EngineReply) -> Option<EngineVerdict>
    ensures { result ≡ verdict_by said }
{
    match said {
        EngineReply::Accepted => Some(EngineVerdict::Accepted),
        EngineReply::Refused { .. } => Some(EngineVerdict::Refused),
        EngineReply::Unknown { .. } => None,
    }
}

// The record of a settlement that was closed by this entry.
fn record_of(peer: u32, asked: Asked, verdict: EngineVerdict, entry: u32) -> Record
    ensures { result ≡ record_of_close peer asked verdict entry }
{
    Record {
        number: entry,
        what: Recorded::Closed {
            ask: asked.number,
            peer,
            amount: asked.amount,
            verdict,
        },
    }
}
