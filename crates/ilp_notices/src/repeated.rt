//! A thing that fails again and again, and what is told of it.

use crate::pace::Pace;
use std::fmt;
use std::fmt::Display;
use std::sync::atomic::{AtomicBool, AtomicU64, Ordering};
use std::time::Clock;

/// A thing that may fail again and again. Threads share it by reference, and none waits for another.
/// Where two come at the same moment, a line more or less may be told, or a failure counted for the
/// next line; nothing else hangs on that.
#[derive(Drop)]
pub(crate) struct Repeated {
    // The pace. Whoever brings `due` forward tells the line, and then sets `rest`.
    rest: AtomicU64,
    due: AtomicU64,
    // How many failures no line told of, since the last line.
    left_out: AtomicU64,
    // How many failures there were since it was last told that it is over.
    failures: AtomicU64,
    // Whether the last thing that happened was a failure.
    failing: AtomicBool,
}

impl Repeated {
    /// It has not failed yet.
    pub(crate) fn new() -> Repeated {
        Repeated {
            rest: AtomicU64::new(0),
            due: AtomicU64::new(0),
            left_out: AtomicU64::new(0),
            failures: AtomicU64::new(0),
            failing: AtomicBool::new(false),
        }
    }

    /// Counts a failure. Tells how many were left out since the last line, where this thread is to
    /// tell the next one now. None is told while the clock can't be read.
    pub(crate) fn failed(&self, rt: &impl Clock) -> Option<LeftOut> {
        self.failing.store(true, Ordering::SeqCst);
        self.failures.fetch_add(1, Ordering::SeqCst);
        if self.take_turn(rt).is_some() {
            return Some(LeftOut(self.left_out.swap(0, Ordering::SeqCst)));
        }
        self.left_out.fetch_add(1, Ordering::SeqCst);
        None
    }

    /// Notes that all was well. It only looks where nothing has failed.
    pub(crate) fn answered(&self) {
        if self.failures.load(Ordering::SeqCst) != 0 {
            self.failing.store(false, Ordering::SeqCst);
        }
    }

    /// How many failures there were, where they are over: all was well last, and the next line would
    /// be due. They count no more from then on.
    pub(crate) fn over(&self, rt: &impl Clock) -> Option<Failures> {
        let failures = self.failures.load(Ordering::SeqCst);
        if failures == 0 || self.failing.load(Ordering::SeqCst) {
            return None;
        }
        self.pace().after(milliseconds(rt)?)?;
        self.failures.store(0, Ordering::SeqCst);
        self.left_out.store(0, Ordering::SeqCst);
        Some(Failures(failures))
    }

    // Takes the turn to tell a line, if one is due and no other thread took it.
    fn take_turn(&self, rt: &impl Clock) -> Option<()> {
        let pace = self.pace();
        let next = pace.after(milliseconds(rt)?)?;
        let taken = self
            .due
            .compare_exchange(pace.due, next.due, Ordering::SeqCst, Ordering::SeqCst);
        match taken {
            Ok(_) => {
                self.rest.store(next.rest, Ordering::SeqCst);
                Some(())
            }
            Err(_) => None,
        }
    }

    fn pace(&self) -> Pace {
        Pace {
            rest: self.rest.load(Ordering::SeqCst),
            due: self.due.load(Ordering::SeqCst),
        }
    }
}

/// What the clock that never goes back shows; none where it can't be read.
pub(crate) fn milliseconds(rt: &impl Clock) -> Option<u64> {
    u64::try_from(rt.monotonic().ok()?.as_millis()).ok()
}

/// How many failures no line told of, since the last line.
#[derive(Clone, Copy)]
pub(crate) struct LeftOut(u64);

impl Display for LeftOut {
    fn fmt<W: fmt::Write>(&self, f: &mut fmt::Formatter<W>) -> fmt::Result {
        match self.0 {
            0 => Ok(()),
            count => write!(f, " ({count} more since the last line)"),
        }
    }
}

/// How many failures there were until it was over.
#[derive(Clone, Copy)]
pub(crate) struct Failures(u64);

impl Display for Failures {
    fn fmt<W: fmt::Write>(&self, f: &mut fmt::Formatter<W>) -> fmt::Result {
        match self.0 {
            1 => f.write_str("1 failure"),
            count => write!(f, "{count} failures"),
        }
    }
}
