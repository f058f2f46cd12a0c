//! Which connection is closed where more wait than may.
ghost use Rattle.std.specs.Prelude.{◌≡◌, ◌↔◌, [], position, IfSome, MatchOption};
ghost use Rattle.ilp_flow.specs.Closing.{lingers, is_partial, IsClosedNext, IsOfMost};
ghost use Rattle.ilp_flow.specs.Fullest.{HasRoomFor, HasCounted, HasNoWhole, fuller};

use crate::waiter::Waiter;

/// Which of those that wait at a side, the first to come in front, is closed where they are too many: the
/// one that lingers longest; where none does, the oldest whose request isn't whole; where all are whole,
/// the newest of the sender with most. None where none waits. It counts in `counts`, which has a place for
/// each sender; what was there before doesn't matter.
pub fn closed_next(waiters: &[Waiter], counts: &mut [usize]) -> Option<usize>
    requires known { HasRoomFor counts.old waiters.now }
    ensures closed { IfSome result (IsClosedNext waiters.now) }
    ensures none { (result ≡ None) ↔ (waiters.now ≡ []) }
{
    if let Some(place) = oldest_lingering(waiters) {
        return Some(place);
    }
    if let Some(place) = oldest_partial(waiters) {
        return Some(place);
    }
    count_whole(waiters, counts);
    newest_of_most(waiters, counts)
}

fn oldest_lingering(waiters: &[Waiter]) -> Option<usize>
    ensures { result ≡ position lingers waiters.now }
{
    waiters
        .iter()
        .position(|waiter| matches!(waiter, Waiter::Lingers))
}

fn oldest_partial(waiters: &[Waiter]) -> Option<usize>
    ensures { result ≡ position is_partial waiters.now }
{
    waiters
        .iter()
        .position(|waiter| matches!(waiter, Waiter::Partial))
}

// Counts the whole requests of each sender.
fn count_whole(waiters: &[Waiter], counts: &mut [usize])
    requires known { HasRoomFor counts.old waiters.now }
    ensures { HasCounted counts.new waiters.now }
{
    counts.fill(0);
    for waiter in waiters {
        if let Waiter::Whole { sender } = *waiter {
            counts[sender as usize] += 1;
        }
    }
}

// The newest whole request of the sender with most.
fn newest_of_most(waiters: &[Waiter], counts: &[usize]) -> Option<usize>
    requires known { HasRoomFor counts.now waiters.now }
    requires counted { HasCounted counts.now waiters.now }
    ensures { MatchOption result (HasNoWhole waiters.now) (IsOfMost waiters.now) }
{
    let mut fullest: Option<Fullest> = None;
    for (place, waiter) in waiters.iter().enumerate() {
        if let Waiter::Whole { sender } = *waiter {
            fullest = fuller(fullest, place, counts[sender as usize]);
        }
    }
    fullest.map(|one| one.place)
}

// A whole request, and how many its sender has.
#[derive(Clone, Copy)]
pub(crate) struct Fullest {
    place: usize,
    count: usize,
}

// The later one, unless the sender of the one before has more.
fn fuller(before: Option<Fullest>, place: usize, count: usize) -> Option<Fullest>
    ensures { result ≡ fuller before place count }
{
    match before {
        Some(one) if one.count > count => Some(one),
        _ => Some(Fullest { place, count }),
    }
}
