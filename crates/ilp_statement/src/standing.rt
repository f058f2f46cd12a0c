//! What stands under a number.
ghost use Rattle.std.specs.Prelude.{◌≡◌};
ghost use Rattle.ilp_journal.specs.Journal.{ask_at, hold_at};

use ilp_book::Book;
use ilp_journal::{Ask, Hold, What};
use std::alloc::Allocator;

/// The hold under a number; none where none stands there.
pub fn hold_at<A: Allocator>(book: &Book<A>, number: u32) -> Option<Hold>
    ensures { result ≡ hold_at book.now.entries number }
{
    match &book.entry(number)?.what {
        What::Hold(hold) => Some(*hold),
        _ => None,
    }
}

/// The settlement that was asked for under a number, in this period or in an earlier one; none where none stands
/// there.
pub fn ask_at<A: Allocator>(book: &Book<A>, number: u32) -> Option<Ask>
    ensures { result ≡ ask_at book.now.entries number }
{
    match &book.entry(number)?.what {
        What::Asked(ask) => Some(*ask),
        What::Pending { peer, amount, .. } => Some(Ask {
            peer: *peer,
            amount: *amount,
        }),
        _ => None,
    }
}
