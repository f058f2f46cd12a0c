//! One line on standard error.
ghost use Rattle.std.specs.Prelude.{◌≤◌};
ghost use Rattle.ilp_terms.specs.Expiry.{IsMoment};

use crate::time_text::time_text;
use ilp_terms::LAST_OF_ALL;
use std::fmt;
use std::fmt::Display;
use std::io::Eprint;
use std::time::Clock;

/// How much a line matters to an operator.
#[derive(Clone, Copy)]
pub(crate) enum Level {
    /// All is as it should be.
    Info,
    /// Something fails that may mend itself.
    Warn,
    /// Something is lost, or an operator has to act.
    Error,
}

impl Display for Level {
    fn fmt<W: fmt::Write>(&self, f: &mut fmt::Formatter<W>) -> fmt::Result {
        f.write_str(match self {
            Level::Info => "info",
            Level::Warn => "warn",
            Level::Error => "error",
        })
    }
}

/// Writes the line `TIME LEVEL TEXT`. One that can't be written is passed over.
pub(crate) fn tell<R: Clock + Eprint, T: Display + Drop>(rt: &R, level: Level, text: T) {
    let time = Time::now(rt);
    let _ = eprintln!(rt; "{time} {level} {text}");
}

/// A moment as lines have it, in milliseconds since 1970.
#[derive(Clone, Copy)]
pub(crate) struct Time {
    moment: i64,
    ghost in_years: { IsMoment moment },
}

impl Time {
    /// This moment, and at least 1970 and at most the last of the year 9999.
    pub(crate) fn of(moment: i64) -> Time {
        Time {
            moment: cut(u64::try_from(moment).unwrap_or(0)),
        }
    }

    // The time now, and at most the last of the year 9999. Where the clock can't be read it is 0.
    fn now(rt: &impl Clock) -> Time {
        let moment = match rt.since_1970() {
            Ok(time) => u64::try_from(time.as_millis()).unwrap_or(u64::MAX),
            Err(_) => 0,
        };
        Time {
            moment: cut(moment),
        }
    }
}

// This moment, and at most the last of the year 9999.
fn cut(moment: u64) -> i64
    ensures { IsMoment result }
{
    i64::try_from(moment)
        .unwrap_or(LAST_OF_ALL)
        .min(LAST_OF_ALL)
}

impl Display for Time {
    fn fmt<W: fmt::Write>(&self, f: &mut fmt::Formatter<W>) -> fmt::Result {
        let text = time_text(self.moment);
        match str::from_utf8(&text) {
            Ok(text) => f.write_str(text),
            Err(_) => Err(fmt::Error),
        }
    }
}
