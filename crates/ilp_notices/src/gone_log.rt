//! What is told where the log of a running connector's journal is gone.

use crate::line::{Level, tell};
use crate::notices::Notices;
use std::io::Eprint;
use std::sync::atomic::{AtomicBool, Ordering};
use std::time::Clock;

/// Whether a line has told that the log is gone. Threads share it by reference.
#[derive(Drop)]
pub(crate) struct GoneLog {
    is_told: AtomicBool,
}

impl GoneLog {
    /// It lies there.
    pub(crate) fn new() -> GoneLog {
        GoneLog {
            is_told: AtomicBool::new(false),
        }
    }
}

impl Notices {
    /// Tells once that another file lies at the log's path, or none, until it lies there again.
    pub fn log_gone<R: Clock + Eprint>(&self, rt: &R) {
        if self.gone_log.is_told.swap(true, Ordering::SeqCst) {
            return;
        }
        let text = format_args!(
            "journal: its log was removed or replaced: what was told since the journal was saved stands in memory alone until the next entry, with which the log is made anew: don't kill the connector"
        );
        tell(rt, Level::Error, text);
    }

    /// Notes that the log lies at its path.
    pub fn log_there(&self) {
        self.gone_log.is_told.store(false, Ordering::SeqCst);
    }
}
