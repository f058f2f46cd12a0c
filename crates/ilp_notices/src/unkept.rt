//! What is told where entries are not kept.

use crate::line::{Level, tell};
use crate::notices::Notices;
use crate::repeated::Repeated;
use std::io::Eprint;
use std::time::Clock;

/// What was told of entries that are not kept. Threads share it by reference.
#[derive(Drop)]
pub(crate) struct Unkept {
    itself: Repeated,
}

impl Unkept {
    /// All were kept so far.
    pub(crate) fn new() -> Unkept {
        Unkept {
            itself: Repeated::new(),
        }
    }

    /// Tells where all are kept again.
    pub(crate) fn tell_over<R: Clock + Eprint>(&self, rt: &R) {
        if self.itself.over(rt).is_some() {
            tell(rt, Level::Info, "journal: all that is booked is kept again");
        }
    }
}

/// Tells that the log of a connector that has closed lacks what was booked last.
pub fn log_incomplete<R: Clock + Eprint>(rt: &R) {
    tell(
        rt,
        Level::Error,
        "journal: its log lacks what was booked last: keep the report until the journal is saved",
    );
}

impl Notices {
    /// Tells that not all that is booked is kept, and what comes of it.
    pub fn journal_unkept<R: Clock + Eprint>(&self, rt: &R) {
        let Some(left_out) = self.unkept.itself.failed(rt) else {
            return;
        };
        let text = format_args!(
            "journal: what is booked is not kept: packets get T00, credits 503, and no settlement is asked for{left_out}"
        );
        tell(rt, Level::Error, text);
    }

    /// Notes that all that is booked is kept.
    pub fn journal_kept(&self) {
        self.unkept.itself.answered();
    }
}
