//! Moments as people write and read them.

use jiff::Timestamp;
use jiff::civil::{Date, Time};
use jiff::tz::Offset;
use std::fmt;
use std::fmt::Display;

// How many octets `2026-11-26T20:00:00` has.
const SECONDS_END: usize = 19;

/// A moment in milliseconds since 1970, printed in UTC as `2026-11-26T20:00:00.000Z` (RFC 3339). One beyond the
/// calendar's years is printed as that number.
#[derive(Clone, Copy, Debug, PartialEq, Eq)]
pub struct Moment(pub i64);

impl Display for Moment {
    fn fmt<W: fmt::Write>(&self, f: &mut fmt::Formatter<W>) -> fmt::Result {
        match Timestamp::from_millisecond(self.0) {
            Ok(moment) => write!(f, "{moment:.3}"),
            Err(_) => write!(f, "{}", self.0),
        }
    }
}

/// The moment that a text names, in milliseconds since 1970. `2026-11-26` is the midnight with which that day
/// begins in UTC, and `2026-11-26T20:00:00Z` that second, of which a fraction may stand behind a point. What is
/// finer than a millisecond is left off, and a leap second is the one before it. Any other text names none.
pub fn moment_of(text: &str) -> Option<i64> {
    if is_date(text.as_bytes()) {
        return midnight(text);
    }
    if !is_in_utc(text.as_bytes()) {
        return None;
    }
    let moment: Timestamp = text.parse().ok()?;
    Some(moment.as_millisecond())
}

// The midnight with which a day begins.
fn midnight(text: &str) -> Option<i64> {
    let date: Date = text.parse().ok()?;
    let moment = Offset::UTC
        .to_timestamp(date.to_datetime(Time::midnight()))
        .ok()?;
    Some(moment.as_millisecond())
}

// Whether a text has the form of a date. The calendar knows others, which nobody writes here.
fn is_date(text: &[u8]) -> bool {
    matches!(text, [_, _, _, _, b'-', _, _, b'-', _, _])
}

// Whether a text has the form of a moment in UTC.
fn is_in_utc(text: &[u8]) -> bool {
    if text.len() <= SECONDS_END {
        return false;
    }
    let (second, rest) = text.split_at(SECONDS_END);
    is_second(second) && matches!(rest, [b'Z'] | [b'.', .., b'Z'])
}

// Whether a text has the form of a date and a time of day.
fn is_second(text: &[u8]) -> bool {
    matches!(
        text,
        [
            _,
            _,
            _,
            _,
            b'-',
            _,
            _,
            b'-',
            _,
            _,
            b'T',
            _,
            _,
            b':',
            _,
            _,
            b':',
            _,
            _
        ]
    )
}
