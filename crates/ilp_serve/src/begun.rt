//! A period that begins with a log.
ghost use Rattle.std.specs.Prelude.{◌≡◌, length, IsSome};
ghost use Rattle.ilp_starting.specs.GoingOn.{IsAlone};

use ilp_book::Book;
use ilp_line_file::Device;
use ilp_log::BegunLog;
use ilp_running::BegunPeriod;

/// A period of this book, with the log that goes on from it.
pub(crate) fn begun_with<D: Device + Drop>(book: Book, log: BegunLog<D>) -> BegunPeriod<D>
    requires opening { length book.entries ≡ book.base }
    requires base { log.start.base ≡ length book.entries }
    requires alone { D.claims → IsAlone D.seen D.may_leave log }
    ensures book { result.book ≡ book }
    ensures logged { IsSome result.log }
{
    BegunPeriod {
        book,
        log: Some(log),
    }
}
