//! What holds of the definitions. This function does nothing: its contract is the law.
ghost use Rattle.std.specs.Prelude.{ℕ};
ghost use Rattle.ilp_backup.specs.Moment.{History, GoesOneWay, IsSeen, AreBefore, AreBehind, AreSame, LayThere};
ghost use Rattle.ilp_backup.specs.declared.seen.Part.{Part};
ghost use Rattle.ilp_backup.specs.declared.seen.Places.{Places};

/// What two looks at each name see alike lay there at each moment between them, where the journal was looked at first
/// and last.
pub fn what_stands_still_lay_there()
    ensures { (history : History) (seen seen_behind : Places) (before behind : Part → ℕ) (moment : ℕ)
        → GoesOneWay history → IsSeen history seen before → IsSeen history seen_behind behind
        → AreBefore before moment → AreBehind behind moment → AreSame seen seen_behind
        → LayThere history seen moment }
{}
