//! How far a peer's turn is.
ghost use Rattle.std.specs.Prelude.{◌≡◌, ◌<◌, None, if◌then◌else◌};
ghost use Rattle.std.specs.Option.{option_or};
ghost use Rattle.ilp_settling.specs.Rests.{RestsUntil};

use ilp_links::EngineCall;
use ilp_settler::Asking;
use ilp_shared::LeftTurns;
use std::time::Duration;

/// How far a peer's turn is. Times are by the clock that never goes back.
#[derive(Drop)]
pub(crate) enum Course {
    /// The next one begins then.
    Rests { until: Duration },
    /// The peer's engine is asked whether it has the account.
    AsksForAccount(EngineCall),
    /// The peer's engine is asked for a settlement.
    Settles { asking: Asking, call: EngineCall },
}

/// The turns of a peer.
#[derive(Drop)]
pub(crate) struct PeerTurns {
    pub(crate) course: Course,
    /// How long its last pause was after a refusal, in milliseconds; 0 where none was since a settlement was
    /// accepted.
    pub(crate) pause: u64,
    /// Since when its balance is seen at its threshold or above; none where it was below at the last look, and
    /// where there was none. Only the balance of a peer whose settlements wait is looked at.
    pub(crate) reached: Option<Duration>,
    /// What `reached` was as this turn asked for a new settlement: a refusal gives its amount back, which has waited
    /// since then. None where this turn asks for none.
    pub(crate) reached_before: Option<Duration>,
}

impl PeerTurns {
    /// The first turn begins at once. No look was had at the balance yet.
    pub(crate) fn new() -> PeerTurns
        ensures rests { RestsUntil result.course Duration.ZERO }
        ensures pause { result.pause ≡ 0 }
        ensures reached { (result.reached ≡ None) × (result.reached_before ≡ None) }
    {
        PeerTurns {
            course: Course::Rests {
                until: Duration::ZERO,
            },
            pause: 0,
            reached: None,
            reached_before: None,
        }
    }

    /// They go on from what the period before left of them: a rest behind a refusal, and, where the peer's settlements
    /// wait, since when its balance is seen at its threshold or above.
    pub(crate) fn take_over(&mut self, left: LeftTurns, waits: bool)
        ensures rests { RestsUntil self.new.course left.until }
        ensures pause { self.new.pause ≡ left.pause }
        ensures reached { self.new.reached ≡ (if waits then left.reached else None) }
        ensures before { self.new.reached_before ≡ self.old.reached_before }
    {
        self.course = Course::Rests { until: left.until };
        self.pause = left.pause;
        self.reached = if waits { left.reached } else { None };
    }

    /// What is left of them to the next period. Where no pause goes on a turn begins at once there.
    pub(crate) fn left(&self) -> LeftTurns
        ensures rests { (until : Duration) → RestsUntil self.now.course until
            → 0 < self.now.pause → result.until ≡ until }
        ensures anew { self.now.pause ≡ 0 → result.until ≡ Duration.ZERO }
        ensures pause { result.pause ≡ self.now.pause }
        ensures reached { result.reached ≡ self.now.reached }
    {
        let until = match &self.course {
            Course::Rests { until } if self.pause > 0 => *until,
            _ => Duration::ZERO,
        };
        LeftTurns {
            reached: self.reached,
            pause: self.pause,
            until,
        }
    }

    /// A new settlement is asked for in this turn, or none.
    pub(crate) fn note_asking(&mut self, asks: bool)
        ensures before { self.new.reached_before ≡ (if asks then self.old.reached else None) }
        ensures others { (self.new.course ≡ self.old.course) × (self.new.pause ≡ self.old.pause)
            × (self.new.reached ≡ self.old.reached) }
    {
        self.reached_before = if asks { self.reached } else { None };
    }

    /// A settlement was refused, and the next one comes after this pause, in milliseconds. One that this turn asked
    /// for has waited: its amount is back, so the next one waits for the pause alone.
    pub(crate) fn note_refusal(&mut self, pause: u64)
        ensures pause { self.new.pause ≡ pause }
        ensures reached { self.new.reached ≡ option_or self.old.reached_before self.old.reached }
        ensures others { (self.new.course ≡ self.old.course)
            × (self.new.reached_before ≡ self.old.reached_before) }
    {
        self.pause = pause;
        self.reached = self.reached_before.or(self.reached);
    }
}

impl Course {
    /// By when it is to be looked at, whatever comes. Once the connector ends no turn begins.
    pub(crate) fn due(&self, ends: bool) -> Option<Duration> {
        match self {
            Course::Rests { until: _ } if ends => None,
            Course::Rests { until } => Some(*until),
            Course::AsksForAccount(call) => Some(call.due()),
            Course::Settles { asking: _, call } => Some(call.due()),
        }
    }

    /// Whether no engine is asked.
    pub(crate) fn is_resting(&self) -> bool {
        match self {
            Course::Rests { .. } => true,
            _ => false,
        }
    }

    /// The connector ends: the engine has little time left.
    pub(crate) fn hurry(&mut self, now: Duration) {
        match self {
            Course::Rests { .. } => {}
            Course::AsksForAccount(call) => call.hurry(now),
            Course::Settles { asking: _, call } => call.hurry(now),
        }
    }
}
