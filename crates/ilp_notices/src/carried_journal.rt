//! What of a journal that is carried over is in the way of the connector that begins with it.
ghost use Rattle.std.specs.Prelude.{◌↔◌, pos, ◌+ℤ◌, ◌≤ℤ◌, IsSome};
ghost use Rattle.ilp_notices.specs.Marks.{IsNearlyFull, HasLongHead};

use crate::line::{Level, Time, tell};
use crate::seconds::Seconds;
use std::fmt;
use std::fmt::Display;
use std::io::Eprint;
use std::time::{Clock, Duration};

// From how many percent of its limit on a journal is told of.
const NEARLY_FULL: u64 = 80;

// By how many milliseconds its last moment may lie ahead of the clock before that is told.
const SLACK_MS: i128 = 1_000;

/// What is told of a journal before a connector begins with it. The lines of a running connector say the
/// same of its book.
#[derive(Clone, Copy, Debug, PartialEq, Eq)]
pub enum JournalWarning {
    /// Its last moment, in milliseconds since 1970, lies ahead of the clock by so many milliseconds.
    Ahead { last: i64, milliseconds: u64 },
    /// It has so many entries of its limit.
    NearlyFull { entries: u32, limit: u32 },
    /// A new period begins only where it has twice as many entries as were brought forward.
    LongHead { head: u32, percent: u32 },
}

impl JournalWarning {
    /// That the last moment of a journal lies a second or more ahead of the clock's; both are in
    /// milliseconds since 1970.
    pub fn ahead(last: i64, now: i64) -> Option<JournalWarning>
        ensures { IsSome result ↔ ((now +ℤ pos 1000) ≤ℤ last) }
    {
        if i128::from(last) - i128::from(now) < SLACK_MS {
            return None;
        }
        let milliseconds = last.abs_diff(now);
        Some(JournalWarning::Ahead { last, milliseconds })
    }

    /// That a journal has 80 percent or more of the entries that it may have.
    pub fn nearly_full(entries: u32, limit: u32) -> Option<JournalWarning>
        ensures { IsSome result ↔ IsNearlyFull entries limit }
    {
        if u64::from(entries) * 100 < u64::from(limit) * NEARLY_FULL {
            return None;
        }
        Some(JournalWarning::NearlyFull { entries, limit })
    }

    /// That a journal of so many entries at most, which begins with a head of so many that were brought
    /// forward, has so many percent of them before as many as the head has stand behind it.
    pub fn long_head(head: u32, limit: u32, percent: u32) -> Option<JournalWarning>
        ensures { IsSome result ↔ HasLongHead head limit percent }
    {
        if u64::from(head) * 200 <= u64::from(limit) * u64::from(percent) {
            return None;
        }
        Some(JournalWarning::LongHead { head, percent })
    }
}

impl Display for JournalWarning {
    fn fmt<W: fmt::Write>(&self, f: &mut fmt::Formatter<W>) -> fmt::Result {
        match self {
            JournalWarning::Ahead { last, milliseconds } => {
                let until = Time::of(*last);
                let ahead = Seconds(Duration::from_millis(*milliseconds));
                write!(
                    f,
                    "its last entry is of {until}, {ahead} ahead of the clock: until then packets come too late (R00, R02), and a new start with it changes nothing"
                )
            }
            JournalWarning::NearlyFull { entries, limit } => write!(
                f,
                "it has {entries} of {limit} entries, and a start carries them over: give `journal` more"
            ),
            JournalWarning::LongHead { head, percent } => write!(
                f,
                "it begins with {head} entries that were brought forward, so a new period begins only behind as many more, and not at {percent} percent: give `journal` more"
            ),
        }
    }
}

/// Tells of the journal at this path.
pub fn journal_warning<R: Clock + Eprint>(rt: &R, path: &str, warning: JournalWarning) {
    tell(rt, Level::Warn, format_args!("journal {path:?}: {warning}"));
}
