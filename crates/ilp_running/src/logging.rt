//! The log of a running connector.
ghost use Rattle.std.specs.Prelude.{◌≡◌, ◌≤◌, length, true, Some, IfSome};
ghost use Rattle.ilp_running.specs.Logging.{told_at, EndsLog, HasHead, IsBegun, IsLogOf, IsToldFirst};

use ilp_book::Book;
use ilp_desk::{JournalReceipt, LockedBook, Naming};
use ilp_grown_list::NewList;
use ilp_line_file::{Device, LineFile};
use ilp_log::{Ack, BegunLog, Kept, Log, LogNaming, OpenLog};
use ilp_notices::log_incomplete;
use std::io::Eprint;
use std::time::Clock;

/// What a run of a connector comes to.
#[derive(Drop)]
pub struct ClosedRun<D: Device + Drop> {
    /// The book, as it was closed.
    pub book: Book,
    /// The file of the log, where there is one and it has all that was booked.
    pub log: Option<D>,
}

// The list of what a log has told.
pub(crate) type AckList<D> = NewList<LineFile<D>, Ack>;

/// The log of a desk that runs.
#[derive(Drop)]
pub(crate) struct RunningLog<J: Naming, K: LogNaming, D: Device + Drop> {
    pub(crate) log: Log<J, K, D>,
    // What it told as it began. It is found again in the end, for what that says of each crash since.
    begun: Option<Kept<D, K>>,
}

impl<J: Naming, K: LogNaming, D: Device + Drop> RunningLog<J, K, D> {
    /// A log that goes on from this file, of a desk whose receipt this is.
    pub(crate) fn begin(
        begun: BegunLog<D>,
        receipt: JournalReceipt<J>,
        acks: AckList<D>,
    ) -> RunningLog<J, K, D>
        requires log { IsLogOf K.form J.desk begun.start.base }
        requires base { begun.start.base ≤ length receipt }
        requires begun { D.claims → IsBegun D.seen D.may_leave begun }
        requires head { D.claims → HasHead D.seen K.form begun }
        requires acks { acks ≡ K.table }
        ensures { D.claims → IfSome result.begun (IsToldFirst K.form (D.moment begun.file.device)) }
    {
        let BegunLog { file, start } = begun;
        let mut log = OpenLog::begin(file, receipt, start, acks.named());
        let begun = log.tell().ok();
        RunningLog {
            log: Log::new(log),
            begun,
        }
    }

    /// What its closed desk comes to, once it has all that was booked. Where it hasn't, that is told.
    pub(crate) fn close<R: Clock + Eprint>(self, rt: &R, book: LockedBook<J>) -> ClosedRun<D>
        requires { D.claims → IfSome self.begun (λ first. first.lines ≡ K.form.head) }
        ensures book { result.book ≡ book }
        ensures logged { D.claims → EndsLog D.seen D.may_leave D.left_since
            K.form (told_at self.begun) book.entries result.log }
    {
        let RunningLog { log, begun } = self;
        let mut book = book;
        let mut log = log.into_inner();
        let log = if has_all(&mut log, &mut book, begun) {
            Some(log.into_device())
        } else {
            log_incomplete(rt);
            None
        };
        ClosedRun {
            book: book.into_book(),
            log,
        }
    }
}

// Whether a log has all that was booked, once what isn't in it was written.
fn has_all<J, K, D>(
    log: &mut OpenLog<J, K, D>,
    book: &mut LockedBook<J>,
    begun: Option<Kept<D, K>>,
) -> bool
where
    J: Naming,
    K: LogNaming,
    D: Device + Drop,
    requires { D.claims → IfSome begun (λ first. first.lines ≡ K.form.head) }
    ensures book { book.new ≡ book.old }
    ensures logged { D.claims → result ≡ true → EndsLog D.seen D.may_leave D.left_since
        K.form (told_at begun) book.old.entries (Some log.new.device) }
{
    let Some(begun) = begun else {
        return false;
    };
    let alloc = book.book().config().allocator();
    let Ok(kept) = log.commit_all(alloc, book) else {
        return false;
    };
    log.find(book, begun);
    log.find(book, kept);
    true
}
