//! The time that an intake counts.

use std::time::{Clock, Duration, Instant};

/// The time that passed while an intake looked after its connections. It stands still from when a
/// connection is given on until the next one is asked for.
#[derive(Clone, Copy)]
pub(crate) struct Watch {
    passed: Duration,
    since: Option<Instant>,
}

impl Watch {
    pub(crate) fn new() -> Watch {
        Watch {
            passed: Duration::ZERO,
            since: None,
        }
    }

    /// Goes on from here: what passed since the last reading is not counted.
    pub(crate) fn resume(&mut self, rt: &impl Clock) {
        self.since = Instant::now(rt).ok();
    }

    /// The time that has passed. Where the clock can't be read, none passes.
    pub(crate) fn read(&mut self, rt: &impl Clock) -> Duration {
        let now = Instant::now(rt).ok();
        if let (Some(now), Some(since)) = (now, self.since) {
            self.passed = self.passed.saturating_add(now.duration_since(since));
        }
        self.since = now;
        self.passed
    }

    /// The time at the last reading.
    pub(crate) fn last(&self) -> Duration {
        self.passed
    }
}
