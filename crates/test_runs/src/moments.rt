//! Moments, in milliseconds since 1970.

use ilp_book::Book;

// 9999-12-31T23:59:59.999Z.
const LAST_OF_ALL: i64 = 253_402_300_799_999;

/// The moment of a call when the clock tells `now`: of the years 1970 to 9999, and never before the
/// last entry's.
pub(crate) fn moment_of(book: &Book, now: i64) -> i64 {
    let moment = now.max(0).min(LAST_OF_ALL);
    match book.entry(book.len().wrapping_sub(1)) {
        Some(last) => moment.max(last.moment),
        None => moment,
    }
}
