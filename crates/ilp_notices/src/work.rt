//! What is told where work waits for its turn, and of the clock.

use crate::line::{Level, tell};
use crate::notices::Notices;
use crate::repeated::Repeated;
use crate::seconds::Seconds;
use crate::waiting::WhoWaits;
use ilp_accounts::Config;
use std::io::Eprint;
use std::sync::atomic::{AtomicU64, Ordering};
use std::time::{Clock, Duration};

/// What was told of work that waits. Threads share it by reference.
#[derive(Drop)]
pub(crate) struct WaitingWork {
    itself: Repeated,
    // For how many seconds it waited when that was last said.
    seconds: AtomicU64,
}

impl WaitingWork {
    /// None has waited yet.
    pub(crate) fn new() -> WaitingWork {
        WaitingWork {
            itself: Repeated::new(),
            seconds: AtomicU64::new(0),
        }
    }

    /// Tells where no work waits any more.
    pub(crate) fn tell_over<R: Clock + Eprint>(&self, rt: &R) {
        if self.itself.over(rt).is_some() {
            let time = whole_seconds(self.seconds.load(Ordering::SeqCst));
            let text = format_args!("no work waits for its turn any more, after {time}");
            tell(rt, Level::Info, text);
        }
    }
}

fn whole_seconds(seconds: u64) -> Seconds {
    Seconds(Duration::from_secs(seconds))
}

impl Notices {
    /// Tells that work has waited for its turn for so many seconds, while so many packets and messages may
    /// be in flight, and for whom those wait.
    pub fn work_waits<R: Clock + Eprint>(
        &self,
        rt: &R,
        config: &Config,
        in_flight: u32,
        seconds: u64,
    ) {
        self.work.seconds.store(seconds, Ordering::SeqCst);
        let Some(left_out) = self.work.itself.failed(rt) else {
            return;
        };
        let who = WhoWaits {
            notices: self,
            config,
            in_flight,
        };
        let time = whole_seconds(seconds);
        let text = format_args!("work waits for its turn, for {time} now: {who}{left_out}");
        tell(rt, Level::Warn, text);
    }

    /// Notes that no work waits for its turn.
    pub fn work_goes_on(&self) {
        self.work.itself.answered();
    }

    /// Tells that the clock is so many milliseconds behind the last moment of the book, which takes
    /// that moment for the time then.
    pub fn clock_behind<R: Clock + Eprint>(&self, rt: &R, milliseconds: u64) {
        let Some(left_out) = self.clock.failed(rt) else {
            return;
        };
        let (seconds, rest) = (milliseconds / 1_000, milliseconds % 1_000);
        let text = format_args!(
            "clock: {seconds}.{rest:03} seconds behind the last moment of the book, so that packets come too late{left_out}"
        );
        tell(rt, Level::Error, text);
    }

    /// Notes that the clock is not behind.
    pub fn clock_right(&self) {
        self.clock.answered();
    }

    // Tells where the clock is behind no longer.
    pub(crate) fn tell_clock_right<R: Clock + Eprint>(&self, rt: &R) {
        if self.clock.over(rt).is_some() {
            tell(
                rt,
                Level::Info,
                "clock: no longer behind the last moment of the book",
            );
        }
    }
}
