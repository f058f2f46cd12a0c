//! A credit or a correction that is booked, until who asked for it is answered.
ghost use Rattle.std.specs.Prelude.{◌≡◌, ◌≤◌};
ghost use Rattle.ilp_workers.specs.Crediting.{booked_credit, answer_kept};

use crate::booked::HandedJournal;
use crate::crediting::NotCredited;
use ilp_book::Kept;
use ilp_desk::Naming;
use std::marker::{Model, PhantomData};

/// A settlement that is credited, or a correction that is booked, now or under its key from before, of which nobody is
/// told yet. It says how many entries a journal has at least that has its entry. It can't be cloned.
#[derive(Drop)]
pub struct BookedCredit<J: Naming> {
    credit: Kept,
    behind: u32,
    desk: PhantomData<J>,
}

impl<J: Naming> Model for BookedCredit<J> {
    ghost use Rattle.ilp_workers.specs.Crediting.{PlainBookedCredit, booked_credit};

    ghost Value = { PlainBookedCredit };

    ghost view = { λ b. booked_credit b.credit b.behind };
}

impl<J: Naming> BookedCredit<J> {
    pub(crate) fn new(credit: Kept, behind: u32) -> BookedCredit<J>
        ensures { result ≡ booked_credit credit behind }
    {
        BookedCredit {
            credit,
            behind,
            desk: PhantomData,
        }
    }

    /// What is kept under its key.
    pub fn credit(&self) -> Kept
        ensures { result ≡ self.now.credit }
    {
        self.credit
    }

    /// How many entries the journal has at least that the keeper is to be handed before anybody is told.
    pub fn behind(&self) -> u32
        ensures { result ≡ self.now.behind }
    {
        self.behind
    }

    /// What is answered, behind the journal that the keeper was handed: what is kept under the key, or `NotKept` with
    /// that, where the keeper said that it keeps the journal, or not. The entry stays either way.
    pub fn tell(self, handed: &HandedJournal<J>) -> Result<Kept, NotCredited>
        requires behind { self.behind ≤ handed.now.entries }
        ensures { result ≡ answer_kept self.credit handed.now.said }
    {
        match handed.said() {
            Ok(()) => Ok(self.credit),
            Err(_) => Err(NotCredited::NotKept {
                credit: self.credit,
            }),
        }
    }
}
