//! The system's clock.
ghost use Rattle.std.specs.Prelude.{◌≡◌, ◌/◌, ◌-◌, ◌^◌, min, pos};
ghost use Rattle.std.specs.Duration.{as_nanos};

use ilp_link_traits::Clock;
use std::time::Duration;

/// The system's clock, in milliseconds since 1970.
///
/// Where it can't be read, or stands before 1970, it gives what it gave last, and 0 at first. A book, whose time never
/// goes back, takes the moment of its last entry then.
#[derive(Clone, Copy)]
pub struct SystemClock<R> {
    rt: R,
    // What it gave last.
    last: i64,
}

impl<R: std::time::Clock + Copy> SystemClock<R> {
    /// The clock of this runtime.
    pub fn new(rt: R) -> SystemClock<R> {
        SystemClock { rt, last: 0 }
    }
}

impl<R: std::time::Clock + Copy> Clock for SystemClock<R> {
    fn now(&mut self) -> i64 {
        if let Ok(time) = self.rt.since_1970() {
            self.last = milliseconds(time);
        }
        self.last
    }
}

// The whole milliseconds of a time, and at most the greatest moment.
fn milliseconds(time: Duration) -> i64
    ensures { result ≡ pos (min (as_nanos time / 1_000_000) (2 ^ 63 - 1)) }
{
    i64::try_from(time.as_millis()).unwrap_or(i64::MAX)
}
