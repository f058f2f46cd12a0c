//! From when on entries are listed.
ghost use Rattle.std.specs.Prelude.{◌≡◌, ◌≤◌, length, int_le};
ghost use Rattle.ilp_order.specs.Places.{passes_at};
ghost use Rattle.ilp_statement.specs.Statement.{number_from};

use ilp_book::Book;
use std::alloc::Allocator;

/// The number of the first entry that is not before a moment, in milliseconds since 1970; that of the next one
/// where there is none.
pub fn number_from<A: Allocator>(book: &Book<A>, moment: i64) -> u32
    ensures number { result ≡ number_from book.now.entries moment }
    ensures within { result ≤ length book.now.entries }
{
    for number in 0..book.len() {
        if is_from(book, number, moment) {
            return number;
        }
    }
    book.len()
}

// Whether the entry of a number is not before a moment.
fn is_from<A: Allocator>(book: &Book<A>, number: u32, moment: i64) -> bool
    ensures { result ≡ passes_at (λ e. int_le moment e.moment) book.now.entries number }
{
    match book.entry(number) {
        Some(entry) => moment <= entry.moment,
        None => false,
    }
}
