//! How long a peer's turns rest after its engine refused a settlement.
ghost use Rattle.std.specs.Prelude.{◌≡◌};
ghost use Rattle.ilp_settling.specs.Pauses.{pause_after};

use ilp_notices::doubled;

// The first pause of a peer, in milliseconds.
const FIRST: u64 = 1_000;

// The longest one.
const LONGEST: u64 = 300_000;

/// The pause of a peer's turns that follows one of this length, in milliseconds; 0 is none since a
/// settlement was accepted. An engine that refuses each settlement would else fill the journal, two entries
/// a turn.
pub(crate) fn pause_after(length: u64) -> u64
    ensures { result ≡ pause_after length }
{
    if length == 0 {
        FIRST
    } else {
        doubled(length, LONGEST)
    }
}
