//! The time by which threads rest.

use std::sync::atomic::{AtomicU64, Ordering};
use std::time::{Clock, Duration};

/// The time of the clock that never goes back, as threads have read it. They share it by reference.
#[derive(Drop)]
pub struct Moments {
    // What was read last, in milliseconds.
    last: AtomicU64,
}

impl Moments {
    /// Nothing was read yet.
    pub fn new() -> Moments {
        Moments {
            last: AtomicU64::new(0),
        }
    }

    /// The time by the clock; where it can't be read, about the last time that a thread has read.
    pub fn now(&self, rt: &impl Clock) -> Duration {
        match rt.monotonic() {
            Ok(now) => {
                if let Ok(milliseconds) = u64::try_from(now.as_millis()) {
                    self.last.store(milliseconds, Ordering::SeqCst);
                }
                now
            }
            Err(_) => Duration::from_millis(self.last.load(Ordering::SeqCst)),
        }
    }
}
