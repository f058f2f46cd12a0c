//! When connections are looked at again, whatever comes, and replies that found no memory.

use crate::guest::Stage;
use crate::serving::Serving;
use ilp_desk::Naming;
use ilp_shared::Shared;
use ilp_workers::{Clock, Keeper};
use mio::Registry;
use std::io::Eprint;
use std::net::Net;
use std::sync::Wait;
use std::time;
use std::time::Duration;

// After how many milliseconds a reply is looked at again that found neither memory nor the room.
const UNREAD_MS: u64 = 10;

// After how many milliseconds the journal is asked for again that is to be kept for who waits for it, and looked at
// again, should a bell not have been heard.
const BOOKED_MS: u64 = 1_000;

impl<J: Naming, C: Clock + Drop, K: Keeper<J> + Drop> Serving<J, C, K> {
    /// Has the room for a reply again, if memory is there, and goes on with the replies that are unread.
    pub(crate) fn read_unread<R: Wait + time::Clock + Eprint + Net>(
        &mut self,
        shared: &Shared<'_, J, R>,
        registry: &Registry,
        now: Duration,
    ) {
        self.room.refill();
        if !self.has_unread {
            return;
        }
        self.has_unread = false;
        for place in 0..self.guests.capacity() {
            let stage = self.guests.get(place).map(|guest| &guest.stage);
            if stage.is_some_and(is_unread) {
                self.go_on(shared, registry, place, now);
            }
        }
    }

    /// When one of the connections is to be looked at, whatever comes: soon, where a reply is unread, and in a while
    /// where one waits for the journal.
    pub(crate) fn due(&self, now: Duration) -> Option<Duration> {
        let again = if self.has_unread {
            UNREAD_MS
        } else if self.booked.is_empty() {
            return self.due;
        } else {
            BOOKED_MS
        };
        let again = now.saturating_add(Duration::from_millis(again));
        Some(self.due.unwrap_or(again).min(again))
    }
}

/// Whether a reply is unread.
pub(super) fn is_unread<J: Naming>(stage: &Stage<J>) -> bool {
    match stage {
        Stage::Packet { call, .. } => call.is_unread(),
        Stage::ToEngine { call, .. } => call.is_unread(),
        Stage::ToPeer { call, .. } => call.is_unread(),
        Stage::Booked { .. } => false,
        Stage::Credited(_) => false,
        Stage::Responds { .. } => false,
        Stage::Over => false,
    }
}
