//! A keeper of the journal for workers that book on meanwhile.
ghost use Rattle.std.specs.Prelude.{◌≡◌};
ghost use Rattle.ilp_workers.specs.Booked.{IsHandedFor};

use crate::booked::HandedJournal;
use ilp_desk::{Desk, JournalReceipt, Naming};
use ilp_keeping::Keeper;
use std::sync::Wait;

/// Has the journal of a desk kept, by a keeper of its own, for workers that book on meanwhile: what it
/// was handed has all that they had booked by then.
#[derive(Drop)]
pub struct JournalKeeper<J: Naming, K: Keeper<J> + Drop> {
    /// What was seen of the journal.
    pub receipt: JournalReceipt<J>,
    pub keeper: K,
}

impl<J: Naming, K: Keeper<J> + Drop> JournalKeeper<J, K> {
    /// One that has seen of the journal what the receipt has.
    pub fn new(receipt: JournalReceipt<J>, keeper: K) -> JournalKeeper<J, K>
        ensures receipt { result.receipt ≡ receipt }
        ensures keeper { result.keeper ≡ keeper }
    {
        JournalKeeper { receipt, keeper }
    }

    /// Has the keeper keep all that is booked on the desk by now, and waits for that. Behind it senders
    /// may be told of as many entries as the journal had, whatever the keeper said.
    pub fn keep(&mut self, rt: &impl Wait, desk: &Desk<J>) -> HandedJournal<J>
        ensures { IsHandedFor J.desk self.old.receipt (K.told self.old.keeper) result
            self.new.receipt (K.told self.new.keeper) }
    {
        desk.show(rt, &mut self.receipt);
        let entries = self.receipt.len();
        HandedJournal::new(entries, self.keeper.keep(&mut self.receipt))
    }
}
