//! How long a settlement waits: since when a peer's balance is seen at its threshold or above.
ghost use Rattle.std.specs.Prelude.{◌↔◌, ◌++◌, ◌∷◌, [], List, IsTrue};
ghost use Rattle.ilp_book.specs.Configured.{IsKnown};
ghost use Rattle.ilp_settling.specs.Waiting.{Look, look, IsAtThreshold, IsReached, HasWaited};

use ilp_book::Book;
use std::time::Duration;

/// Whether a peer's balance is at its threshold or above it. That of a peer without a threshold never is.
pub(crate) fn is_at_threshold(book: &Book, peer: u32) -> bool
    requires known { IsKnown book.now.config peer }
    ensures { IsTrue result ↔ IsAtThreshold book.now peer }
{
    match book.config().levels(peer) {
        Some(levels) => i128::from(levels.threshold) <= book.balance(peer),
        None => false,
    }
}

/// Since when a peer's balance is seen at its threshold or above, once one look more was had at this time. What
/// the balance is between two looks is not seen.
pub(crate) fn reached_after(
    reached: Option<Duration>,
    reaches: bool,
    now: Duration,
) -> Option<Duration>
    ensures { (looks : List Look) → IsReached looks reached
        → IsReached (looks ++ look now reaches ∷ []) result }
{
    if reaches {
        Some(reached.unwrap_or(now))
    } else {
        None
    }
}

/// Whether a settlement that waits for so many milliseconds may be asked for by this time, where the peer's
/// balance is seen at its threshold or above since `reached`. One that waits for none may always be.
pub(crate) fn has_waited(reached: Option<Duration>, now: Duration, wait_ms: u32) -> bool
    ensures { IsTrue result ↔ HasWaited reached now wait_ms }
{
    if wait_ms == 0 {
        return true;
    }
    let Some(since) = reached else {
        return false;
    };
    match now.checked_sub(since) {
        Some(waited) => u128::from(wait_ms) <= waited.as_millis(),
        None => false,
    }
}
