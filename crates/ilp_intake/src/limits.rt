//! How many connections wait, and for how long.

/// How many connections wait at an intake at most, those that linger among them. When one more comes,
/// one is closed: the one that lingers longest; else the one that has waited longest for its request;
/// else the newest of the sender with most.
pub const MOST_WAITING: usize = 1_024;

// For how long a connection whose request has not come whole is closed for no other, in microseconds for
// each that may wait. So where 10,000 a second come or fewer, none is left with the system for that.
pub(crate) const SPARED_US: u64 = 100;

/// How long a request may take to come, in milliseconds from the moment at which its connection was
/// accepted. The time in which an intake waits for whoever takes its connections is not counted.
pub const ALLOWANCE_MS: u64 = 10_000;

/// How long a request may still take to come once the intake is closed, in milliseconds.
pub const GRACE_MS: u64 = 1_000;

/// How long a connection lingers that was answered, unless its client closes it sooner, in
/// milliseconds. What comes is read and dropped, so that the answer is not lost by a reset.
pub const LINGER_MS: u64 = 1_000;

/// How many octets are read and dropped of a connection that lingers. Then it is closed.
pub const MOST_DROPPED: usize = 1_048_576;

// How many connections may be on their way back to an intake.
pub(crate) const MOST_RETURNED: usize = 128;

// How many connections are accepted before others are read.
pub(crate) const MOST_AT_ONCE: usize = 128;

// How many are accepted at the close: as many as Linux has wait at a listening socket, where nobody
// configured that.
pub(crate) const MOST_AT_THE_CLOSE: usize = 4_096;

// How many events are handled at once.
pub(crate) const MOST_EVENTS: usize = 256;

// How long to rest, in milliseconds, where no connection can be accepted although one waits, since
// no descriptor is left for it.
pub(crate) const REST_MS: u64 = 10;

// How many octets are read at once.
pub(crate) const PIECE: usize = 4_096;
