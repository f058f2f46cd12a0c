//! Moments, in milliseconds since 1970.
ghost use Rattle.std.specs.Prelude.{◌≡◌, pos, ◌≤ℤ◌, ◌+ℤ◌};
ghost use Rattle.ilp_journal.specs.Journal.{last_moment};
ghost use Rattle.ilp_terms.specs.Expiry.{last_of_all};
ghost use Rattle.ilp_rules.specs.Book.{moment_at};

use ilp_journal::Journal;
use ilp_terms::LAST_OF_ALL;
use std::alloc::Allocator;

/// The moment of a call at the time `now`: of the years 1970 to 9999, and never before the last
/// entry's.
pub fn moment_at<A: Allocator>(journal: &Journal<A>, now: i64) -> i64
    ensures { result ≡ moment_at journal.now.entries now }
{
    now.min(LAST_OF_ALL).max(0).max(last_moment(journal))
}

/// The moment of the last entry, or 0 before any.
pub(crate) fn last_moment<A: Allocator>(journal: &Journal<A>) -> i64
    ensures { result ≡ last_moment journal.now.entries }
{
    let len = journal.len();
    if len == 0 {
        return 0;
    }
    match journal.get(len - 1) {
        Some(entry) => entry.moment,
        None => 0,
    }
}

/// The moment that lies so many milliseconds after another.
pub fn after(moment: i64, span: u32) -> i64
    requires { moment ≤ℤ last_of_all }
    ensures { result ≡ moment +ℤ pos span }
{
    moment + i64::from(span)
}
