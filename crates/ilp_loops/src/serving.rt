//! What a loop does for the connections that it serves.
mod going_on;
mod turn_end;
mod unread;

ghost use Rattle.std.specs.Prelude.{◌≡◌};
ghost use Rattle.ilp_server.specs.Course.{IsOfKnownPeer};

use crate::answers::{answered_message, answered_peer, ask_close, ask_reload, give_back, responds};
use crate::guest::{Guest, Stage};
use crate::late::ToldBy;
use crate::payouts::{pause_payouts, resume_payouts};
use crate::report_lines::report_lines;
use ilp_desk::{End, Naming};
use ilp_flight::Flight;
use ilp_http::Buffer;
use ilp_links::ReplyRoom;
use ilp_notices::SentHold;
use ilp_oer::Octets;
use ilp_server::{Course, NotServed, Response, Side, begin_request};
use ilp_shared::{Job, Nobody, Shared};
use ilp_workers::{Clock, Keeper, Worker};
use mio::Registry;
use slab::Slab;
use std::alloc::{AllocError, Global};
use std::io::Eprint;
use std::net::Net;
use std::sync::Wait;
use std::time;
use std::time::Duration;

/// A worker with all that it has begun, and the connections that it serves.
#[derive(Drop)]
pub(crate) struct Serving<J: Naming, C: Clock + Drop, K: Keeper<J> + Drop> {
    flight: Flight<J, C, Nobody, Nobody, K>,
    clock: C,
    guests: Slab<Guest<J>>,
    // Those of what is booked, and those that are over, in this turn.
    booked: Vec<usize>,
    over: Vec<usize>,
    // Whether a packet was begun in this turn.
    has_begun: bool,
    buffer: Buffer,
    // Where a reply is read that finds no memory, and whether one is unread since that wasn't there either.
    room: ReplyRoom,
    has_unread: bool,
    // None of them is to be looked at before.
    due: Option<Duration>,
}

impl<J: Naming, C: Clock + Drop, K: Keeper<J> + Drop> Serving<J, C, K> {
    /// A worker none of whose packets waits, with a clock.
    pub(crate) fn new(
        alloc: Global,
        worker: Worker<J, C, Nobody, Nobody, K>,
        clock: C,
    ) -> Result<Serving<J, C, K>, AllocError>
        requires none { worker.pending ≡ 0 }
    {
        Ok(Serving {
            flight: Flight::new(alloc, worker),
            clock,
            guests: Slab::new(alloc),
            booked: Vec::new(alloc),
            over: Vec::new(alloc),
            has_begun: false,
            buffer: Buffer::new(alloc)?,
            room: ReplyRoom::new(alloc)?,
            has_unread: false,
            due: None,
        })
    }

    /// Whether no connection is served.
    pub(crate) fn is_idle(&self) -> bool {
        self.guests.is_empty()
    }

    /// What the worker hands in.
    pub(crate) fn into_end(self) -> Option<End<J>> {
        self.flight.into_end().ok()
    }

    /// Serves a connection, as far as that is possible without waiting. It is closed unanswered where
    /// want of memory refuses it, and where the time after a close is over.
    pub(crate) fn take<R: Wait + time::Clock + Eprint + Net>(
        &mut self,
        shared: &Shared<'_, J, R>,
        registry: &Registry,
        job: Job,
        now: Duration,
    ) {
        let Job { side, connection } = job;
        let work = connection.kind;
        if shared.intakes.is_over(shared.rt) {
            give_back(shared, work);
            return;
        }
        let (guest, octets) = Guest::new(side, connection);
        let Some(place) = self.seat(guest) else {
            give_back(shared, work);
            return;
        };
        let course = self.course_of(shared, side, octets.as_slice());
        if let Course::Reload = course {
            self.begin_reload(shared, registry, place, now);
            return;
        }
        if is_close(&course) {
            self.begin_close(shared, registry, place);
            return;
        }
        self.note_held(shared, &course, place);
        let stage = self.begin(shared, course, now);
        self.go_on_from(shared, registry, place, stage, now);
    }

    // How the request goes on that these octets begin with. Where memory is denied for what a report has behind
    // its text, nothing is begun.
    fn course_of<R: Wait>(
        &mut self,
        shared: &Shared<'_, J, R>,
        side: Side,
        octets: &[u8],
    ) -> Course<J>
        ensures { IsOfKnownPeer J.desk.config result }
    {
        let Ok(lines) = report_lines(shared, side) else {
            return Course::Answered(Response::refusal(NotServed::Memory));
        };
        begin_request(
            shared.rt,
            &mut self.flight,
            shared.desk,
            side,
            octets,
            lines.as_slice(),
            &mut self.buffer,
        )
    }

    // Has the configuration read again for the connection at this place, which leaves the loop. Where that
    // can't be now it is told so.
    fn begin_reload<R: Wait + time::Clock + Eprint + Net>(
        &mut self,
        shared: &Shared<'_, J, R>,
        registry: &Registry,
        place: usize,
        now: Duration,
    ) {
        if shared.places.is_ending(shared.rt) || !shared.reloading.reserve() {
            let refusal = Response::refusal(NotServed::NewPeriod);
            let stage = responds(shared, refusal, now);
            self.go_on_from(shared, registry, place, stage, now);
            return;
        }
        match self.guests.try_remove(place) {
            Some(guest) => ask_reload(shared, registry, guest),
            None => shared.reloading.free(),
        }
    }

    // Has the connector close for the connection at this place, which leaves the loop.
    fn begin_close<R: Wait + time::Clock>(
        &mut self,
        shared: &Shared<'_, J, R>,
        registry: &Registry,
        place: usize,
    ) {
        if let Some(guest) = self.guests.try_remove(place) {
            ask_close(shared, registry, guest);
        }
    }

    // Notes by when the connection at this place is to be told a Fulfill, where its request is a packet that is
    // held.
    fn note_held<R>(&mut self, shared: &Shared<'_, J, R>, course: &Course<J>, place: usize) {
        let Course::Packet { sender: _, key } = course else {
            return;
        };
        let flight = &self.flight;
        if let (Some(pending), Some(guest)) = (
            flight.waiting.get(*key),
            self.guests.get_mut(place),
        ) {
            guest.told_by = Some(ToldBy::of(shared.desk.config(), &pending.prepare()));
        }
    }

    // Gives a connection its place, with room for it in the lists of a turn.
    fn seat(&mut self, guest: Guest<J>) -> Option<usize> {
        let most = self.guests.len().saturating_add(1);
        self.booked.reserve(most).ok()?;
        self.over.reserve(most).ok()?;
        self.guests.insert(guest).ok()
    }

    // What comes next for a request that was begun.
    fn begin<R: Wait + time::Clock + Eprint + Net>(
        &mut self,
        shared: &Shared<'_, J, R>,
        course: Course<J>,
        now: Duration,
    ) -> Stage<J>
        requires { IsOfKnownPeer J.desk.config course }
    {
        match course {
            Course::Answered(response) => responds(shared, response, now),
            Course::Pause { peer } => responds(shared, pause_payouts(shared, peer), now),
            Course::Resume { peer } => responds(shared, resume_payouts(shared, peer), now),
            Course::Packet { sender, key } => {
                self.has_begun = true;
                self.call_next(shared, sender, key)
            }
            Course::Credit(pending) => Stage::Credited(pending),
            Course::ToEngine(message) => match shared.outside().call_engine(message.from(), now) {
                Some(call) => Stage::ToEngine { message, call },
                None => answered_message(shared, message, None, now),
            },
            Course::ToPeer(message) => {
                let (to, deadline) = (message.to(), message.deadline());
                let (late, began) = self.times(shared);
                match shared.outside().call_peer(to, None, deadline, late, began) {
                    Some(call) => Stage::ToPeer { message, call },
                    None => answered_peer(shared, None, now),
                }
            }
            Course::Reload | Course::Unanswered(_) => Stage::Over,
        }
    }

    // How late it is by the clock, and then by the one that never goes back: so what is left until a
    // deadline by the one has passed by the other no sooner.
    fn times<R: time::Clock>(&mut self, shared: &Shared<'_, J, R>) -> (i64, Duration) {
        let late = self.clock.now();
        (late, shared.now())
    }

    // Begins to call the next peer with the packet that waits under the key.
    fn call_next<R: Wait + time::Clock + Eprint + Net>(
        &mut self,
        shared: &Shared<'_, J, R>,
        sender: u32,
        key: usize,
    ) -> Stage<J> {
        let (late, began) = self.times(shared);
        let flight = &self.flight;
        let call = match flight.waiting.get(key) {
            Some(pending) => {
                let prepare = pending.prepare();
                let held = prepare.held;
                let hold = SentHold::new(held.number, held.out, &prepare.condition);
                shared
                    .outside()
                    .call_peer(held.to, Some(hold), held.deadline, late, began)
            }
            None => None,
        };
        match call {
            Some(call) => Stage::Packet { sender, key, call },
            None => self.book(shared, sender, key, None),
        }
    }

    // Books what came for the packet under the key.
    fn book<R: Wait>(
        &mut self,
        shared: &Shared<'_, J, R>,
        sender: u32,
        key: usize,
        came: Option<Octets>,
    ) -> Stage<J> {
        match self.flight.book(shared.rt, shared.desk, key, came) {
            Some(booked) => Stage::Booked { sender, booked },
            None => Stage::Over,
        }
    }
}

// Whether the connector is to close for a request.
fn is_close<J: Naming>(course: &Course<J>) -> bool {
    match course {
        Course::Answered(response) => response.closes(),
        _ => false,
    }
}
