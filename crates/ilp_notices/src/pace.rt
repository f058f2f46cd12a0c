//! How often lines on one thing are told.
ghost use Rattle.std.specs.Prelude.{◌≡◌, ◌+◌, ◌-◌, ◌^◌, ◌≤◌, ◌↔◌, min, IsSome, IfSome};
ghost use Rattle.ilp_notices.specs.Pace.{next_rest};

use crate::doubling::doubled;

// How many milliseconds lie between the first line on a thing and the next.
const FIRST_REST: u64 = 1_000;

// How many lie between two lines at most.
const LONGEST_REST: u64 = 60_000;

// For how many a thing is well after its next line was due until it begins at the first rest again.
const CALM: u64 = 60_000;

/// When lines on one thing are told, in milliseconds of the clock that never goes back.
#[derive(Clone, Copy)]
pub(crate) struct Pace {
    /// How long after the last line the next one is due; 0 where there was none.
    pub(crate) rest: u64,
    /// When it is due.
    pub(crate) due: u64,
}

impl Pace {
    /// The pace after a line that is told now; none where no line is due yet.
    pub(crate) fn after(self, now: u64) -> Option<Pace>
        ensures due { IsSome result ↔ (self.due ≤ now) }
        ensures rest { IfSome result (λ next. next.rest ≡ next_rest self.rest self.due now) }
        ensures later { IfSome result (λ next. next.due ≡ min (now + next.rest) (2 ^ 64 - 1)) }
    {
        if now < self.due {
            return None;
        }
        let rest = if self.rest == 0 || now - self.due >= CALM {
            FIRST_REST
        } else {
            doubled(self.rest, LONGEST_REST)
        };
        Some(Pace {
            rest,
            due: now.saturating_add(rest),
        })
    }
}
