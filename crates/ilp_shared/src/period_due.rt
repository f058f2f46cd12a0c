//! When the period of a desk ends by itself.
ghost use Rattle.std.specs.Prelude.{◌≡◌, ◌↔◌, ◌≤◌, Some, None, IfSome, IfNone, IsTrue};
ghost use Rattle.ilp_book.specs.Reopened.{IsHead};
ghost use Rattle.ilp_shared.specs.PeriodDue.{IsDue, IsFrom};

use ilp_book::Book;
use std::time::Duration;

/// When the period of a desk ends by itself: once so many percent of the entries that its journal may have
/// are taken, and as many entries as were brought forward stand behind these. So a long head does not begin
/// one period after the other.
#[derive(Clone, Copy, Debug, PartialEq, Eq)]
pub struct PeriodDue {
    percent: u32,
    head: u32,
    not_before: Duration,
}

impl PeriodDue {
    /// That of a desk that begins with this book, not before a time of the clock that never goes back; none
    /// where the configuration has none.
    pub fn of(book: &Book, not_before: Duration) -> Option<PeriodDue>
        ensures due { IfSome result (λ due. IsHead book.now.entries due.head
            × (book.now.config.settings.new_period_at ≡ Some due.percent)
            × (due.not_before ≡ not_before)) }
        ensures never { IfNone result (book.now.config.settings.new_period_at ≡ None) }
    {
        let percent = book.config().new_period_at()?;
        Some(PeriodDue {
            percent,
            head: book.head(),
            not_before,
        })
    }

    /// Whether the period of this book ends at this time.
    pub fn is_reached(self, book: &Book, now: Duration) -> bool
        ensures { IsTrue result
            ↔ (IsFrom self.not_before now × IsDue self.percent self.head book.now) }
    {
        self.not_before <= now && self.is_due(book)
    }

    // Whether it is time by what the book has.
    fn is_due(self, book: &Book) -> bool
        ensures { IsTrue result ↔ IsDue self.percent self.head book.now }
    {
        let most = u64::from(self.percent) * u64::from(book.config().journal());
        let entries = u64::from(book.len());
        most <= book.taken() * 100 && u64::from(self.head) * 2 <= entries
    }
}
