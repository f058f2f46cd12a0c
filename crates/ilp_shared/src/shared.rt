//! What the threads of a connector work on.

use crate::bells::Bells;
use crate::intakes::Intakes;
use crate::keeping::KeptJournal;
use crate::moment::Moments;
use crate::payouts::Payouts;
use crate::period_due::PeriodDue;
use crate::places::Places;
use crate::reloading::Reloading;
use crate::seen::Seen;
use ilp_desk::{Desk, Naming};
use ilp_links::Outside;
use ilp_log_keeper::DiskWait;
use ilp_notices::Notices;
use std::sync::Wait;
use std::time::{Clock, Duration};

/// What the threads of a connector work on.
#[derive(Drop)]
pub struct Shared<'a, J: Naming, R> {
    pub rt: &'a R,
    pub desk: &'a Desk<J>,
    pub places: &'a Places,
    pub intakes: &'a Intakes,
    pub bells: &'a Bells,
    pub kept: &'a KeptJournal<J>,
    /// For how long whoever has the journal kept has waited.
    pub disk: &'a DiskWait,
    pub notices: &'a Notices,
    pub seen: &'a Seen,
    pub moments: &'a Moments,
    pub reloading: &'a Reloading,
    pub payouts: &'a Payouts,
    /// When the desk's period ends by itself.
    pub due: Option<PeriodDue>,
}

impl<'a, J: Naming, R: Wait> Shared<'a, J, R> {
    /// Has the desk's period end where that is due.
    pub fn look_at_period(&self, now: Duration) {
        if let Some(due) = self.due {
            if due.is_reached(self.desk.lock(self.rt).book(), now) {
                let asks = self.places.end_period(self.rt);
                self.intakes.look_again(asks);
            }
        }
    }
}

impl<J: Naming, R: Clock> Shared<'_, J, R> {
    /// The time by the clock that never goes back.
    pub fn now(&self) -> Duration {
        self.moments.now(self.rt)
    }
}

impl<'a, J: Naming, R> Shared<'a, J, R> {
    /// The same, for another thread.
    pub fn another(&self) -> Shared<'a, J, R> {
        Shared {
            rt: self.rt,
            desk: self.desk,
            places: self.places,
            intakes: self.intakes,
            bells: self.bells,
            kept: self.kept,
            disk: self.disk,
            notices: self.notices,
            seen: self.seen,
            moments: self.moments,
            reloading: self.reloading,
            payouts: self.payouts,
            due: self.due,
        }
    }

    /// What calls of peers and engines work with.
    pub fn outside(&self) -> Outside<'a, R> {
        Outside {
            rt: self.rt,
            config: self.desk.config(),
            notices: self.notices,
        }
    }
}
