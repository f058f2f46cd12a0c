//! With what a period of a connector begins, and what it comes to.
ghost use Rattle.std.specs.Prelude.{◌≡◌, ◌≤◌, length};
ghost use Rattle.std.specs.Option.{ForSome};
ghost use Rattle.ilp_running.specs.Logging.{IsAlone};

use crate::logging::ClosedRun;
use ilp_book::Book;
use ilp_line_file::Device;
use ilp_log::BegunLog;
use ilp_threads::Sides;

/// With what a period begins: its book, which is at its base, and the log that goes on from it, where there
/// is one.
#[derive(Drop)]
pub struct BegunPeriod<D: Device + Drop> {
    pub book: Book,
    pub log: Option<BegunLog<D>>,
    ghost opening: { length book.entries ≡ book.base },
    ghost base: { ForSome log (λ l. l.start.base ≤ length book.entries) },
    ghost alone: { D.claims → ForSome log (IsAlone D.seen D.may_leave) },
}

/// A period that is over, and the sides where connections wait for the next one, if one is to begin.
#[derive(Drop)]
pub struct RunPeriod<D: Device + Drop> {
    pub run: ClosedRun<D>,
    pub sides: Option<Sides>,
}
