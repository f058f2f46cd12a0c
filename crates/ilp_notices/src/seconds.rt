//! Times as lines have them.

use std::fmt;
use std::fmt::Display;
use std::time::Duration;

/// A time in seconds, with milliseconds where there are any: `4 seconds`, `1 second`, `0.250 seconds`.
#[derive(Clone, Copy)]
pub(crate) struct Seconds(pub(crate) Duration);

impl Display for Seconds {
    fn fmt<W: fmt::Write>(&self, f: &mut fmt::Formatter<W>) -> fmt::Result {
        match (self.0.as_secs(), self.0.subsec_millis()) {
            (1, 0) => f.write_str("1 second"),
            (seconds, 0) => write!(f, "{seconds} seconds"),
            (seconds, rest) => write!(f, "{seconds}.{rest:03} seconds"),
        }
    }
}
