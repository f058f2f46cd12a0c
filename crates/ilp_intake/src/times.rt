//! By when connections are closed.

use crate::limits::{ALLOWANCE_MS, GRACE_MS};
use std::time::Duration;

/// By when the request of a connection that was accepted then is to have come.
pub(crate) fn latest(accepted: Duration, closed: Option<Duration>) -> Duration {
    let latest = accepted.saturating_add(Duration::from_millis(ALLOWANCE_MS));
    match closed {
        Some(closed) => latest.min(closed.saturating_add(Duration::from_millis(GRACE_MS))),
        None => latest,
    }
}

/// The shorter of two times, where there are any.
pub(crate) fn earlier(one: Option<Duration>, other: Option<Duration>) -> Option<Duration> {
    match (one, other) {
        (Some(one), Some(other)) => Some(one.min(other)),
        (one, None) => one,
        (None, other) => other,
    }
}
