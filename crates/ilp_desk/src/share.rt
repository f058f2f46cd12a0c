//! What an actor of a desk is lent to book with.
ghost use Rattle.std.specs.Prelude.{◌≡◌, ◌+◌, ◌<◌, ◌^◌};
ghost use Rattle.ilp_desk.specs.Desk.{IsActor};
ghost use Rattle.ilp_desk.specs.Portion.{portion};

use crate::naming::Naming;
use std::marker::Model;
use std::sync::ledger;

/// An actor of a desk, and its part of the desk's ledger: how many entries it booked. It can't be
/// cloned, and its type keeps that the actor is one of the desk's.
#[derive(Drop)]
pub struct Share<J: Naming> {
    actor: u32,
    entries: u32,
    part: ledger::Share<J>,
}

impl<J: Naming> Model for Share<J> {
    ghost use Rattle.std.specs.Prelude.{◌≡◌};
    ghost use Rattle.ilp_desk.specs.Desk.{IsActor};
    ghost use Rattle.ilp_desk.specs.Portion.{Portion, portion};

    ghost Value = { Portion };

    ghost view = { λ s. portion s.actor s.entries };

    ghost invariant = { λ s. IsActor J.desk s.actor × (s.part.parts ≡ 1) × (s.part.amount ≡ s.entries) };
}

impl<J: Naming> Share<J> {
    // The share of an actor that booked nothing yet.
    pub(crate) fn new(actor: u32, part: ledger::Share<J>) -> Share<J>
        requires known { IsActor J.desk actor }
        requires part { (part.parts ≡ 1) × (part.amount ≡ 0) }
        ensures { result ≡ portion actor 0 }
    {
        Share {
            actor,
            entries: 0,
            part,
        }
    }

    /// Who books with it: the workers of a desk count from 0, then comes the sweeper, and last the
    /// settler.
    pub fn actor(&self) -> u32
        ensures value { result ≡ self.now.actor }
        ensures known { IsActor J.desk result }
    {
        self.actor
    }

    /// How many entries were booked with it.
    pub fn entries(&self) -> u32
        ensures { result ≡ self.now.entries }
    {
        self.entries
    }

    // So many entries more, in the share and in the ledger.
    pub(crate) fn count(&mut self, total: &mut ledger::Book<J>, gained: u32)
        requires { total.old.total + gained < 2 ^ 32 }
        ensures share { self.new ≡ portion self.old.actor (self.old.entries + gained) }
        ensures total { total.new.total ≡ total.old.total + gained }
    {
        let part = &mut self.part;
        total.audit(part);
        total.add(part, u64::from(gained));
        self.entries += gained;
    }

    // The part of the ledger that it is.
    pub(crate) fn into_part(self) -> ledger::Share<J>
        ensures parts { result.parts ≡ 1 }
        ensures amount { result.amount ≡ self.entries }
    {
        let Share {
            actor: _,
            entries: _,
            part,
        } = self;
        part
    }
}
