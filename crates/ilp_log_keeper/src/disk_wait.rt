//! How long the disk takes to keep what it was given.

use std::sync::atomic::{AtomicU64, Ordering};
use std::time::Duration;

/// How long those who have a journal kept have waited for the disk. Threads share it by reference. Times are of the
/// clock that never goes back.
#[derive(Drop)]
pub struct DiskWait {
    // How many threads have a journal kept now.
    keepers: AtomicU64,
    // When the first of them began, or one of them ended last, in milliseconds; 2^64 - 1 where no clock told it.
    moved: AtomicU64,
}

impl DiskWait {
    /// Nobody waits.
    pub fn new() -> DiskWait {
        DiskWait {
            keepers: AtomicU64::new(0),
            moved: AtomicU64::new(0),
        }
    }

    /// For how long those who have one kept at this moment have waited since the last of them ended, or since they
    /// began.
    pub fn waited(&self, now: Duration) -> Duration {
        if self.keepers.load(Ordering::SeqCst) == 0 {
            return Duration::ZERO;
        }
        let moved = self.moved.load(Ordering::SeqCst);
        Duration::from_millis(milliseconds(now).saturating_sub(moved))
    }

    /// Somebody begins to have one kept at this moment, who is to tell its end.
    pub(crate) fn begin(&self, now: Option<Duration>) {
        if self.keepers.load(Ordering::SeqCst) == 0 {
            self.moved.store(moment_of(now), Ordering::SeqCst);
        }
        self.keepers.fetch_add(1, Ordering::SeqCst);
    }

    /// That is over at this moment.
    pub(crate) fn end(&self, now: Option<Duration>) {
        self.moved.store(moment_of(now), Ordering::SeqCst);
        self.keepers.fetch_sub(1, Ordering::SeqCst);
    }
}

// A moment, in milliseconds, where the clock told it.
fn moment_of(now: Option<Duration>) -> u64 {
    match now {
        Some(now) => milliseconds(now),
        None => u64::MAX,
    }
}

// In milliseconds, of which no machine sees 2^64.
fn milliseconds(time: Duration) -> u64 {
    u64::try_from(time.as_millis()).unwrap_or(u64::MAX)
}
