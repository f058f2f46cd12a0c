//! How a connection goes on, by what comes and by its time.

use crate::answers::{answered_message, answered_peer};
use crate::deeds::count_reject;
use crate::guest::{Stage, Written};
use crate::serving::Serving;
use crate::serving::unread::is_unread;
use ilp_desk::Naming;
use ilp_http::Status;
use ilp_links::{Call, Came};
use ilp_server::Response;
use ilp_shared::Shared;
use ilp_workers::{Clock, EngineMessage, Keeper, PeerMessage};
use mio::{Registry, Token};
use std::io::Eprint;
use std::net::Net;
use std::sync::Wait;
use std::time::Duration;
use std::{mem, time};

impl<J: Naming, C: Clock + Drop, K: Keeper<J> + Drop> Serving<J, C, K> {
    /// Goes on with the connection at this place, of which an event tells.
    pub(crate) fn go_on<R: Wait + time::Clock + Eprint + Net>(
        &mut self,
        shared: &Shared<'_, J, R>,
        registry: &Registry,
        place: usize,
        now: Duration,
    ) {
        let stage = self.take_stage(place);
        if let Stage::Over = stage {
            return;
        }
        self.go_on_from(shared, registry, place, stage, now);
    }

    // Goes on with a connection from this stage.
    pub(super) fn go_on_from<R: Wait + time::Clock + Eprint + Net>(
        &mut self,
        shared: &Shared<'_, J, R>,
        registry: &Registry,
        place: usize,
        stage: Stage<J>,
        now: Duration,
    ) {
        let stage = match stage {
            Stage::Packet { sender, key, call } => {
                self.go_on_packet(shared, registry, place, sender, key, call)
            }
            Stage::ToEngine { message, call } => {
                self.go_on_to_engine(shared, registry, place, message, call, now)
            }
            Stage::ToPeer { message, call } => {
                self.go_on_to_peer(shared, registry, place, message, call, now)
            }
            other => other,
        };
        let stage = match stage {
            Stage::Responds {
                response,
                taken,
                until,
            } => self.go_on_writing(shared, registry, place, response, taken, until, now),
            other => other,
        };
        self.keep_stage(place, stage);
    }

    // Keeps how far a connection is.
    fn keep_stage(&mut self, place: usize, stage: Stage<J>) {
        if let Some(due) = stage.due() {
            self.look_by(due);
        }
        self.has_unread |= is_unread(&stage);
        match &stage {
            Stage::Booked { .. } | Stage::Credited(_) => {
                let _ = self.booked.push(place);
            }
            Stage::Over => {
                let _ = self.over.push(place);
            }
            _ => {}
        }
        if let Some(guest) = self.guests.get_mut(place) {
            guest.stage = stage;
        }
    }

    fn go_on_packet<R: Wait + time::Clock + Eprint + Net>(
        &mut self,
        shared: &Shared<'_, J, R>,
        registry: &Registry,
        place: usize,
        sender: u32,
        key: usize,
        call: Call,
    ) -> Stage<J> {
        let mut call = call;
        let flight = &self.flight;
        let came = match flight.waiting.get(key) {
            Some(pending) => call.go_on(
                &shared.outside(),
                registry,
                Token(place),
                pending.octets(),
                &mut self.buffer,
                &mut self.room,
            ),
            None => Came::Over(None),
        };
        match came {
            Came::NotYet => Stage::Packet { sender, key, call },
            Came::Over(came) => self.book(shared, sender, key, came),
        }
    }

    fn go_on_to_engine<R: Wait + time::Clock + Eprint + Net>(
        &mut self,
        shared: &Shared<'_, J, R>,
        registry: &Registry,
        place: usize,
        message: EngineMessage,
        call: Call,
        now: Duration,
    ) -> Stage<J> {
        let mut call = call;
        match call.go_on(
            &shared.outside(),
            registry,
            Token(place),
            message.octets(),
            &mut self.buffer,
            &mut self.room,
        ) {
            Came::NotYet => Stage::ToEngine { message, call },
            Came::Over(came) => answered_message(shared, message, came, now),
        }
    }

    fn go_on_to_peer<R: Wait + time::Clock + Eprint + Net>(
        &mut self,
        shared: &Shared<'_, J, R>,
        registry: &Registry,
        place: usize,
        message: PeerMessage,
        call: Call,
        now: Duration,
    ) -> Stage<J> {
        let mut call = call;
        match call.go_on(
            &shared.outside(),
            registry,
            Token(place),
            message.packet(),
            &mut self.buffer,
            &mut self.room,
        ) {
            Came::NotYet => Stage::ToPeer { message, call },
            Came::Over(came) => answered_peer(shared, came, now),
        }
    }

    // Writes a response on, and tells what there is to tell of one that is written whole.
    fn go_on_writing<R: Wait + time::Clock + Eprint + Net>(
        &mut self,
        shared: &Shared<'_, J, R>,
        registry: &Registry,
        place: usize,
        response: Response,
        taken: usize,
        until: Duration,
        now: Duration,
    ) -> Stage<J> {
        let Some(guest) = self.guests.get_mut(place) else {
            return Stage::Over;
        };
        if until <= now {
            return Stage::Over;
        }
        let is_stranger = response.status() == Status::Unauthorized;
        let address = if is_stranger { guest.address() } else { None };
        match guest.write(registry, Token(place), &response, taken) {
            Written::Part(taken) => Stage::Responds {
                response,
                taken,
                until,
            },
            Written::Failed => Stage::Over,
            Written::Whole => {
                count_reject(shared, response.deed());
                if is_stranger {
                    shared.notices.wrong_token(shared.rt, address);
                }
                Stage::Over
            }
        }
    }

    /// Gives up what is late.
    pub(crate) fn give_up<R: Wait + time::Clock + Eprint + Net>(
        &mut self,
        shared: &Shared<'_, J, R>,
        registry: &Registry,
        now: Duration,
    ) {
        if !self.is_due(now) {
            return;
        }
        self.due = None;
        for place in 0..self.guests.capacity() {
            match self.due_at(place) {
                Some(due) if due <= now => {
                    let stage = self.take_stage(place);
                    let stage = self.unless_late(shared, stage, now);
                    self.go_on_from(shared, registry, place, stage, now);
                }
                Some(due) => self.look_by(due),
                None => {}
            }
        }
    }

    // Whether one of them may have to be looked at by now.
    fn is_due(&self, now: Duration) -> bool {
        match self.due {
            Some(due) => due <= now,
            None => false,
        }
    }

    // By when the connection at this place is to be looked at, if one is there.
    fn due_at(&self, place: usize) -> Option<Duration> {
        self.guests.get(place)?.stage.due()
    }

    // Some connection is to be looked at by then.
    fn look_by(&mut self, due: Duration) {
        self.due = Some(self.due.unwrap_or(due).min(due));
    }

    // Takes out how far the connection at this place is; it is over where there is none.
    fn take_stage(&mut self, place: usize) -> Stage<J> {
        match self.guests.get_mut(place) {
            Some(guest) => mem::replace(&mut guest.stage, Stage::Over),
            None => Stage::Over,
        }
    }

    // The stage, or what comes next where its time is over.
    fn unless_late<R: Wait + time::Clock + Eprint + Net>(
        &mut self,
        shared: &Shared<'_, J, R>,
        stage: Stage<J>,
        now: Duration,
    ) -> Stage<J> {
        let outside = shared.outside();
        match stage {
            Stage::Packet { sender, key, call } => {
                if call.give_up(&outside, now) {
                    return self.book(shared, sender, key, None);
                }
                Stage::Packet { sender, key, call }
            }
            Stage::ToEngine { message, call } => {
                if call.give_up(&outside, now) {
                    return answered_message(shared, message, None, now);
                }
                Stage::ToEngine { message, call }
            }
            Stage::ToPeer { message, call } => {
                if call.give_up(&outside, now) {
                    return answered_peer(shared, None, now);
                }
                Stage::ToPeer { message, call }
            }
            other => other,
        }
    }
}
