//! What an actor of a desk hands back in the end.
ghost use Rattle.std.specs.Prelude.{◌≡◌};
ghost use Rattle.ilp_desk.specs.Desk.{IsActor};
ghost use Rattle.ilp_desk.specs.Portion.{holding};

use crate::naming::Naming;
use crate::record::Record;
use crate::share::Share;
use std::marker::Model;
use std::sync::ledger;

/// A share, and the records that its actor kept of what it booked with it.
#[derive(Drop)]
pub struct End<J: Naming> {
    share: Share<J>,
    records: Vec<Record>,
}

impl<J: Naming> Model for End<J> {
    ghost use Rattle.ilp_desk.specs.Portion.{Holding, holding};

    ghost Value = { Holding };

    ghost view = { λ e. holding e.share e.records.items };
}

impl<J: Naming> End<J> {
    /// What an actor hands in.
    pub fn new(share: Share<J>, records: Vec<Record>) -> End<J>
        ensures { result ≡ holding share records.items }
    {
        End { share, records }
    }

    /// The share.
    pub fn share(&self) -> &Share<J>
        ensures { result.now ≡ self.now.share }
    {
        &self.share
    }

    /// Who booked with the share.
    pub fn actor(&self) -> u32
        ensures value { result ≡ self.now.share.actor }
        ensures known { IsActor J.desk result }
    {
        self.share.actor()
    }

    /// How many entries were booked with the share.
    pub fn entries(&self) -> u32
        ensures { result ≡ self.now.share.entries }
    {
        self.share.entries()
    }

    /// The records, as the actor kept them.
    pub fn records(&self) -> &[Record]
        ensures { result.now ≡ self.now.records }
    {
        self.records.as_slice()
    }

    // The share's part of the ledger.
    pub(crate) fn into_part(self) -> ledger::Share<J>
        ensures parts { result.parts ≡ 1 }
        ensures amount { result.amount ≡ self.share.entries }
    {
        let End { share, records: _ } = self;
        share.into_part()
    }
}
