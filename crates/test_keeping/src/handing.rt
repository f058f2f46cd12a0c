//! A worker's call over the keeper.
ghost use Rattle.test_keeping.specs.Handing.{HeardJournal};
ghost use Rattle.test_keeping.specs.Keepers.{heard_by};

use crate::telling_keeper::TellingKeeper;
use ilp_desk::{Desk, Naming};
use ilp_grown_list::ListNaming;
use ilp_workers::{HandedJournal, JournalKeeper};
use std::sync::Wait;

/// Has the keeper of all workers keep what is booked on the desk: it has heard of a journal of the desk once more, and of
/// nothing else.
pub fn hand_over<J: Naming, K: ListNaming>(
    rt: &impl Wait,
    desk: &Desk<J>,
    keeper: &mut JournalKeeper<J, TellingKeeper<J, K>>,
) -> HandedJournal<J>
    ensures { HeardJournal J.desk keeper.old.receipt (heard_by keeper.old.keeper) result
        (heard_by keeper.new.keeper) }
{
    keeper.keep(rt, desk)
}
