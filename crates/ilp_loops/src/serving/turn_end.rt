//! The end of a turn: who is told what is booked.

use crate::answers::{Handed, behind, leave};
use crate::deeds::tell_deed;
use crate::guest::Stage;
use crate::serving::Serving;
use ilp_desk::Naming;
use ilp_shared::{KeepingAsker, Shared};
use ilp_workers::{Clock, HandedJournal, Keeper};
use mio::Registry;
use std::io::Eprint;
use std::net::Net;
use std::sync::Wait;
use std::time::Duration;
use std::{mem, time};

impl<J: Naming, C: Clock + Drop, K: Keeper<J> + Drop> Serving<J, C, K> {
    /// Ends a turn. Who waits for what is booked is told: of a Fulfill or a credit once the journal is kept
    /// that has it, which one keeping is for all of. Without somebody to ask for that, it is waited for,
    /// and so it is where no loop of several has anything else. Those whose service is over give back their places.
    pub(crate) fn end_turn<R: Wait + time::Clock + Eprint + Net>(
        &mut self,
        shared: &Shared<'_, J, R>,
        registry: &Registry,
        asker: Option<&KeepingAsker>,
        now: Duration,
    ) {
        if self.has_begun || self.has_packet() {
            self.has_begun = false;
            shared.look_at_period(now);
        }
        if !self.booked.is_empty() {
            self.answer_booked(shared, asker, now);
            self.send_answers(shared, registry, now);
        }
        if let Some(asker) = asker {
            if !self.booked.is_empty() {
                self.have_kept(shared, registry, asker, now);
            }
        }
        for _ in 0..self.over.len() {
            let Some(place) = self.over.pop() else {
                break;
            };
            if let Some(guest) = self.guests.try_remove(place) {
                leave(shared, registry, guest);
            }
        }
    }

    // Has the journal kept for those that are booked. Whoever is asked for that hands it back later than it
    // takes, so what is all that the loops have is kept here, where another loop serves who comes meanwhile. So is what
    // the journal has that was refused last: what can't be kept is known at once.
    fn have_kept<R: Wait + time::Clock + Eprint + Net>(
        &mut self,
        shared: &Shared<'_, J, R>,
        registry: &Registry,
        asker: &KeepingAsker,
        now: Duration,
    ) {
        let has_others = shared.desk.config().workers() > 1;
        let is_one_alone = has_others && shared.places.has_one_alone(shared.rt);
        if !is_one_alone && !self.is_ripe(shared) {
            asker.ask(shared.rt);
            return;
        }
        let handed = self.flight.keep();
        self.answer_behind(&handed, Handed::Now, now);
        self.send_answers(shared, registry, now);
    }

    /// Whether somebody may be told now of what was booked before.
    pub(crate) fn is_ripe<R>(&self, shared: &Shared<'_, J, R>) -> bool {
        let entries = shared.kept.entries();
        let mut booked = self.booked.iter();
        booked.any(|place| match self.guests.get(*place) {
            Some(guest) => guest.stage.is_behind(entries),
            None => false,
        })
    }

    // Whether a packet is booked whose sender waits. A credit has the watcher look whether the period is due.
    fn has_packet(&self) -> bool {
        let mut booked = self.booked.iter();
        booked.any(|place| match self.guests.get(*place) {
            Some(guest) => matches!(guest.stage, Stage::Booked { .. }),
            None => false,
        })
    }

    // Makes the answers of all that is booked and kept.
    fn answer_booked<R: Wait + time::Clock + Eprint>(
        &mut self,
        shared: &Shared<'_, J, R>,
        asker: Option<&KeepingAsker>,
        now: Duration,
    ) {
        match asker {
            Some(_) => {
                let handed = shared.kept.lock(shared.rt);
                self.answer_behind(&handed, Handed::Before, now);
            }
            None => {
                let handed = self.flight.keep();
                self.answer_behind(&handed, Handed::Now, now);
            }
        }
    }

    // Makes the answers of what is booked and may be told behind this journal.
    fn answer_behind(&mut self, handed: &HandedJournal<J>, when: Handed, now: Duration) {
        for k in 0..self.booked.len() {
            let Some(place) = self.booked.get(k).copied() else {
                return;
            };
            let Some(guest) = self.guests.get_mut(place) else {
                continue;
            };
            let stage = mem::replace(&mut guest.stage, Stage::Over);
            guest.stage = behind(stage, handed, when, now);
        }
    }

    // Writes the answers that are made. The others wait on.
    fn send_answers<R: Wait + time::Clock + Eprint + Net>(
        &mut self,
        shared: &Shared<'_, J, R>,
        registry: &Registry,
        now: Duration,
    ) {
        let late = self.clock.now();
        let mut left = 0;
        for k in 0..self.booked.len() {
            let Some(place) = self.booked.get(k).copied() else {
                break;
            };
            let Some(guest) = self.guests.get_mut(place) else {
                continue;
            };
            if guest.stage.behind().is_some() {
                if let Some(slot) = self.booked.get_mut(left) {
                    *slot = place;
                    left = left.saturating_add(1);
                }
                continue;
            }
            let stage = mem::replace(&mut guest.stage, Stage::Over);
            if let Stage::Responds { response, .. } = &stage {
                tell_deed(shared, response.deed());
                if let Some(told_by) = guest.told_by {
                    told_by.tell_late(shared, response.deed(), late);
                }
            }
            self.go_on_from(shared, registry, place, stage, now);
        }
        self.booked.truncate(left);
    }
}
