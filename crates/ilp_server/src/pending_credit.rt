//! A settlement or a correction that is booked, until who asked for it is answered.
ghost use Rattle.std.specs.Prelude.{◌≡◌, ◌≤◌};
ghost use Rattle.ilp_workers.specs.Worker.{PlainWorker};
ghost use Rattle.ilp_server.specs.Response.{NeedsNoWorker, response_to};
ghost use Rattle.ilp_server.specs.PendingCredits.{pending_credit, outcome_of};

use crate::handled::ToldChange;
use crate::response::Response;
use crate::served::Served;
use crate::unserved::NotServed;
use ilp_desk::Naming;
use ilp_oer::Octets;
use ilp_workers::{BookedCredit, HandedJournal};
use std::marker::Model;

/// A settlement that is credited, or a correction that is booked, of which nobody is told yet. It has room for its
/// answer, and can't be cloned.
#[derive(Drop)]
pub struct PendingCredit<J: Naming> {
    booked: BookedCredit<J>,
    peer: u32,
    told: ToldChange,
    // The JSON that is answered where the entry is kept.
    text: Octets,
}

/// How a settlement or a correction goes on.
#[derive(Drop)]
pub(crate) enum CreditCourse<J: Naming> {
    // It is booked, now or from before, and answered behind its entry.
    Waits(PendingCredit<J>),
    // This became of it.
    Over(Result<Served, NotServed>),
}

impl<J: Naming> Model for PendingCredit<J> {
    ghost use Rattle.ilp_server.specs.PendingCredits.{PlainPendingCredit, pending_credit};

    ghost Value = { PlainPendingCredit };

    ghost view = { λ c. pending_credit c.booked c.peer c.told c.text };
}

impl<J: Naming> PendingCredit<J> {
    pub(crate) fn new(
        booked: BookedCredit<J>,
        peer: u32,
        told: ToldChange,
        text: Octets,
    ) -> PendingCredit<J>
        ensures { result ≡ pending_credit booked peer told text }
    {
        PendingCredit {
            booked,
            peer,
            told,
            text,
        }
    }

    /// How many entries the journal has at least that the keeper is to be handed before anybody is told.
    pub fn behind(&self) -> u32
        ensures { result ≡ self.now.booked.behind }
    {
        self.booked.behind()
    }

    /// What is answered behind the journal that the keeper was handed: 201 with what is kept under the key, or 503 where
    /// the keeper didn't say that it keeps the journal.
    pub fn tell(self, handed: &HandedJournal<J>) -> Response
        requires behind { self.booked.behind ≤ handed.now.entries }
        ensures { (worker : PlainWorker) → result ≡ response_to worker (outcome_of self handed.now.said) }
    {
        Response::to_outcome(self.outcome(handed))
    }

    // What becomes of it, behind that journal.
    pub(crate) fn outcome(self, handed: &HandedJournal<J>) -> Result<Served, NotServed>
        requires behind { self.booked.behind ≤ handed.now.entries }
        ensures outcome { result ≡ outcome_of self handed.now.said }
        ensures whole { NeedsNoWorker result }
    {
        let PendingCredit {
            booked,
            peer,
            told,
            text,
        } = self;
        match booked.tell(handed) {
            Ok(kept) => Ok(Served::Booked { peer, kept, text }),
            Err(fault) => Err(NotServed::Credit { peer, told, fault }),
        }
    }
}
