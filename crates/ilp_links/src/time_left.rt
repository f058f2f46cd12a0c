//! How long is left until a deadline.
ghost use Rattle.std.specs.Prelude.{◌≡◌, min, ◌-ℤ◌, ◌≤ℤ◌, ◌<ℤ◌, nat_abs};

// The longest wait, in milliseconds: the longest hold that a configuration may have.
const LONGEST_WAIT: u64 = 3_600_000;

/// How many milliseconds are left until a deadline, and at most an hour. Both are in milliseconds
/// since 1970.
pub(crate) fn time_left(deadline: i64, now: i64) -> u64
    ensures over { deadline ≤ℤ now → result ≡ 0 }
    ensures left { now <ℤ deadline → result ≡ min (nat_abs (deadline -ℤ now)) LONGEST_WAIT }
{
    if deadline <= now {
        return 0;
    }
    deadline.abs_diff(now).min(LONGEST_WAIT)
}
