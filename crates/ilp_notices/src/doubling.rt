//! Rests that grow where a thing comes again and again.
ghost use Rattle.std.specs.Prelude.{◌≡◌};
ghost use Rattle.ilp_notices.specs.Doubling.{doubled};

/// The rest that follows one of this length: twice as long, and at most the longest. It is in the unit
/// of the two.
pub fn doubled(rest: u64, longest: u64) -> u64
    ensures { result ≡ doubled rest longest }
{
    rest.saturating_mul(2).min(longest)
}
