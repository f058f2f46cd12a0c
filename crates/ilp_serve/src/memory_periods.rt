//! Periods of a connector whose books are nowhere kept.
ghost use Rattle.std.specs.Prelude.{◌≡◌, None, IfOk, IfErr};
ghost use Rattle.ilp_running.specs.Serving.{IsOfNoDesk};
ghost use Rattle.ilp_serve.specs.Following.{FollowsAs};

use crate::followed::{Change, Followed};
use crate::next_books::{NextBooks, next_books};
use ilp_accounts::Config;
use ilp_book::Book;
use ilp_line_file::Device;
use ilp_running::{BegunPeriod, ServeFault};
use std::alloc::Global;

/// What comes behind the books of a period that are nowhere kept, and have no log: by another configuration
/// where one is given, else by the same.
pub(crate) fn follow_unkept<D: Device + Drop>(
    alloc: Global,
    book: Book,
    next: Option<Config>,
) -> Result<Followed<D>, ServeFault>
    ensures follows { IfOk result (λ f. FollowsAs f.change book next f.period.book) }
    ensures unkept { IfOk result (λ f. f.unkept ≡ None) }
    ensures refused { IfErr result IsOfNoDesk }
{
    match next_books(alloc, book, next)? {
        NextBooks::Next {
            ended: _,
            next,
            told,
        } => Ok(Followed {
            period: BegunPeriod {
                book: next,
                log: None,
            },
            unkept: None,
            change: Change::NewPeriod,
            told,
        }),
        NextBooks::Same { book, told, .. } => Ok(Followed {
            period: BegunPeriod { book, log: None },
            unkept: None,
            change: Change::None,
            told,
        }),
    }
}
