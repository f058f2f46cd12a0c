//! What the settler's thread does: it takes the peers' turns as they come.

use crate::turns::Turns;
use ilp_desk::{End, Naming};
use ilp_keeping::Keeper;
use ilp_link_traits::Clock;
use ilp_settler::Settler;
use ilp_shared::{Nobody, Shared, Shutdown};
use mio::{Events, Poll, Token, Waker};
use std::alloc::Global;
use std::io::Eprint;
use std::net::Net;
use std::sync::Wait;
use std::time::Duration;
use std::{io, thread, time};

// What wakes the loop. Peers have numbers from 0 on, and there are never so many.
const BELL: Token = Token(usize::MAX);

// How many events are handled in a turn.
const MOST_EVENTS: usize = 256;

// How long to rest, in milliseconds, where the system refuses to wait for events.
const REST_MS: u64 = 10;

/// Wakes a settler's loop where it rests.
#[derive(Drop)]
pub struct SettlerBell {
    waker: Waker,
}

impl SettlerBell {
    /// Has the loop look whether the connector ends.
    pub fn ring(&self) {
        let _ = self.waker.wake();
    }
}

/// A settler's loop.
#[derive(Drop)]
pub struct SettlingLoop<J: Naming, C: Clock + Drop, K: Keeper<J> + Drop> {
    poll: Poll,
    events: Events,
    turns: Turns<J, C, K>,
}

impl<J: Naming, C: Clock + Drop, K: Keeper<J> + Drop> SettlingLoop<J, C, K> {
    /// The loop of a settler with so many peers, and what wakes it.
    pub fn new(
        rt: &impl Net,
        alloc: Global,
        settler: Settler<J, C, Nobody, K>,
        peers: u32,
    ) -> io::Result<(SettlingLoop<J, C, K>, SettlerBell)> {
        let poll = Poll::new(rt)?;
        let waker = Waker::new(poll.registry(), BELL)?;
        let events = Events::with_capacity(alloc, MOST_EVENTS)?;
        let own = SettlingLoop {
            poll,
            events,
            turns: Turns::new(alloc, settler, peers)?,
        };
        Ok((own, SettlerBell { waker }))
    }

    /// Takes a turn for each peer, and the next one `settle_ms` after its end, until the connector ends.
    /// An engine that is asked then has a second left. Gives what the settler hands in.
    pub fn run<R: Wait + time::Clock + Eprint + Net>(
        self,
        shared: Shared<'_, J, R>,
        shutdown: Shutdown,
    ) -> Option<End<J>> {
        let mut own = self;
        own.turns.take_over(&shared);
        for _ in shared.rt.forever() {
            own.take_turns(&shared, &shutdown);
            if own.turns.are_over() {
                break;
            }
        }
        let SettlingLoop { turns, .. } = own;
        turns.leave(&shared);
        turns.into_end()
    }

    // Waits until something comes or is due, and goes on with all of it.
    fn take_turns<R: Wait + time::Clock + Eprint + Net>(
        &mut self,
        shared: &Shared<'_, J, R>,
        shutdown: &Shutdown,
    ) {
        self.wait(shared);
        let now = shared.now();
        if shutdown.has_begun(shared.rt) {
            self.turns.hurry(now);
        }
        let registry = self.poll.registry();
        for event in self.events.iter() {
            let Token(place) = event.token();
            self.turns.go_on(shared, registry, place, now);
        }
        self.turns.look(shared, registry, now);
    }

    // Waits until an engine says something, a turn is due, or the bell rings.
    fn wait<R: Wait + time::Clock>(&mut self, shared: &Shared<'_, J, R>) {
        let left = match self.turns.due() {
            Some(due) => Some(due.saturating_sub(shared.now())),
            None => None,
        };
        if self.poll.poll(&mut self.events, left).is_err() {
            thread::sleep(shared.rt, Duration::from_millis(REST_MS));
        }
    }
}
