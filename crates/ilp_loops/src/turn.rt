//! What a worker's thread does: turn after turn it takes in what has come, and serves it.
ghost use Rattle.std.specs.Prelude.{◌≡◌};

use crate::serving::Serving;
use crossbeam_channel::{Receiver, TryRecvError};
use ilp_desk::{End, Naming};
use ilp_shared::{Job, KeepingAsker, Nobody, Shared};
use ilp_workers::{Clock, Keeper, Worker};
use mio::{Events, Poll, Token, Waker};
use std::alloc::Global;
use std::io::Eprint;
use std::net::Net;
use std::sync::Wait;
use std::time::Duration;
use std::{io, thread, time};

// What wakes a loop. Connections have numbers from 0 on, and there are never so many.
const BELL: Token = Token(usize::MAX);

// How many events are handled in a turn.
const MOST_EVENTS: usize = 256;

// How many jobs are taken in a turn, so that loops share them.
const MOST_JOBS: usize = 32;

// How long to rest, in milliseconds, where the system refuses to wait for events.
const REST_MS: u64 = 10;

/// Where a loop waits.
#[derive(Drop)]
pub struct Seat {
    number: usize,
    poll: Poll,
    events: Events,
}

impl Seat {
    /// The seat of the loop of this number, and what wakes it.
    pub fn new(rt: &impl Net, alloc: Global, number: usize) -> io::Result<(Seat, Waker)> {
        let poll = Poll::new(rt)?;
        let waker = Waker::new(poll.registry(), BELL)?;
        let events = Events::with_capacity(alloc, MOST_EVENTS)?;
        let seat = Seat {
            number,
            poll,
            events,
        };
        Ok((seat, waker))
    }
}

/// A worker's loop.
#[derive(Drop)]
pub struct ServingLoop<J: Naming, C: Clock + Drop, K: Keeper<J> + Drop> {
    seat: Seat,
    serving: Serving<J, C, K>,
    // By which it asks for the journal to be kept; none where it has that done itself.
    asker: Option<KeepingAsker>,
    // Whether more jobs may come.
    open: bool,
}

impl<J: Naming, C: Clock + Drop, K: Keeper<J> + Drop> ServingLoop<J, C, K> {
    /// The loop of a worker none of whose packets waits, with a clock. It asks for the journal to be
    /// kept, or has the worker's keeper do that, and waits for it.
    pub fn new(
        alloc: Global,
        seat: Seat,
        worker: Worker<J, C, Nobody, Nobody, K>,
        clock: C,
        asker: Option<KeepingAsker>,
    ) -> io::Result<ServingLoop<J, C, K>>
        requires none { worker.pending ≡ 0 }
    {
        Ok(ServingLoop {
            seat,
            serving: Serving::new(alloc, worker, clock)?,
            asker,
            open: true,
        })
    }

    /// Serves connections until no more come and all are over. Then it gives what the worker hands in.
    pub fn run<R: Wait + time::Clock + Eprint + Net>(
        self,
        shared: Shared<'_, J, R>,
        jobs: Receiver<Job>,
    ) -> Option<End<J>> {
        let mut own = self;
        let rt = shared.rt;
        for _ in rt.forever() {
            own.take_turn(&shared, &jobs);
            if !own.open && own.serving.is_idle() {
                break;
            }
        }
        let ServingLoop { serving, .. } = own;
        serving.into_end()
    }

    // Waits until something comes or is due, and serves all that has come.
    fn take_turn<R: Wait + time::Clock + Eprint + Net>(
        &mut self,
        shared: &Shared<'_, J, R>,
        jobs: &Receiver<Job>,
    ) {
        self.wait(shared, jobs);
        let now = shared.now();
        let registry = self.seat.poll.registry();
        self.serving.read_unread(shared, registry, now);
        for event in self.seat.events.iter() {
            if event.token() != BELL {
                let Token(place) = event.token();
                self.serving.go_on(shared, registry, place, now);
            }
        }
        for _ in 0..MOST_JOBS {
            match jobs.try_recv(shared.rt) {
                Ok(job) => self.serving.take(shared, registry, job, now),
                Err(TryRecvError::Empty) => break,
                Err(TryRecvError::Disconnected) => {
                    self.open = false;
                    break;
                }
            }
        }
        self.serving.give_up(shared, registry, now);
        self.serving
            .end_turn(shared, registry, self.asker.as_ref(), now);
    }

    // Waits for events, unless there are jobs.
    fn wait<R: Wait + time::Clock>(&mut self, shared: &Shared<'_, J, R>, jobs: &Receiver<Job>) {
        let now = shared.now();
        let left = match self.serving.due(now) {
            Some(due) => Some(due.saturating_sub(now)),
            None => None,
        };
        shared.bells.rest(self.seat.number);
        let ends = self.open && shared.bells.are_rung_out();
        let comes = ends || !jobs.is_empty() || self.serving.is_ripe(shared);
        let left = if comes { Some(Duration::ZERO) } else { left };
        if self.seat.poll.poll(&mut self.seat.events, left).is_err() {
            thread::sleep(shared.rt, Duration::from_millis(REST_MS));
        }
        shared.bells.wake(self.seat.number);
    }
}
