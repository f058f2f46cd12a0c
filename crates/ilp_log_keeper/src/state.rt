//! Whether what a desk books is kept.

use crate::disk_wait::DiskWait;
use std::sync::atomic::{AtomicU64, Ordering};

/// Whether what a desk books is kept, as its keepers found it last. They share it by reference.
#[derive(Drop)]
pub struct KeepingState {
    // How often something was not kept.
    failures: AtomicU64,
    // How many of these are made good: all that was booked before them is kept.
    mended: AtomicU64,
    disk: DiskWait,
}

impl KeepingState {
    /// All is kept.
    pub fn new() -> KeepingState {
        KeepingState {
            failures: AtomicU64::new(0),
            mended: AtomicU64::new(0),
            disk: DiskWait::new(),
        }
    }

    /// Whether all is kept that was to be.
    pub fn keeps(&self) -> bool {
        self.failures() == self.mended.load(Ordering::SeqCst)
    }

    /// How long its keepers wait for the disk.
    pub fn disk(&self) -> &DiskWait {
        &self.disk
    }

    /// How often something was not kept.
    pub(crate) fn failures(&self) -> u64 {
        self.failures.load(Ordering::SeqCst)
    }

    /// Something was not kept.
    pub(crate) fn note_failure(&self) {
        self.failures.fetch_add(1, Ordering::SeqCst);
    }

    /// All is kept that was booked when there were so many failures. One that came since is not made good
    /// by that.
    pub(crate) fn mend(&self, failures: u64) {
        self.mended.store(failures, Ordering::SeqCst);
    }
}
