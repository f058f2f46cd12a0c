//! What the sweeper's thread does: turns, and rests between them.

use ilp_desk::{Desk, End, Naming};
use ilp_settler::Sweeper;
use ilp_shared::Shutdown;
use ilp_workers::Clock;
use std::sync::Wait;
use std::time;
use std::time::Duration;

/// Has the sweeper take turns until nothing is late, and then rest for `sweep_ms`, until the
/// connector ends.
pub(crate) fn sweep<J: Naming, C: Clock + Drop, R: Wait + time::Clock>(
    rt: &R,
    desk: &Desk<J>,
    sweeper: Sweeper<J, C>,
    shutdown: Shutdown,
) -> End<J> {
    let mut sweeper = sweeper;
    let rest = Duration::from_millis(u64::from(desk.config().sweep_ms()));
    for _ in rt.forever() {
        if sweeper.turn(rt, desk).is_none() && shutdown.rest(rt, rest) {
            break;
        }
    }
    sweeper.into_end()
}
