//! What a start finds behind a crash.
ghost use Rattle.std.specs.Prelude.{◌≡◌, ◌<◌, ◌^◌, All, length, option_map};
ghost use mathlib.Core.List.{IsPrefix};
ghost use Rattle.ilp_accounts.specs.Valid.{IsValid};
ghost use Rattle.ilp_crash_laws.specs.Crash.{log_behind};
ghost use Rattle.ilp_journal_text.specs.Reading.{IsTyped};
ghost use Rattle.ilp_journal_text.specs.Text.{journal_text};
ghost use Rattle.ilp_log.specs.Lines.{lines_of};
ghost use Rattle.ilp_starting.specs.Beginning.{saved_or_none};
ghost use Rattle.test_crash.specs.Whole.{IsWholeBehind};

use crate::told::Told;
use ilp_book::Book;
use ilp_crash_laws::laws::what_was_told_is_recovered;
use ilp_desk::{Desk, LockedBook, Naming};
use ilp_journal_text::entry_line;
use ilp_line_file::Device;
use ilp_log::{LogNaming, OpenLog};
use std::sync::Wait;

/// Finds that whatever crash has come since an actor was told, a start finds a book with all that the actor had
/// seen. The log goes on from this text of the journal, or from none.
pub fn find_whole<J: Naming, K: LogNaming, D: Device + Drop>(
    rt: &impl Wait,
    desk: &Desk<J>,
    log: &mut OpenLog<J, K, D>,
    text: Option<&[u8]>,
    told: Told<J, K, D>,
)
    requires form { K.form ≡ log_behind J.desk.config J.desk.opening
        (option_map (λ t. t.now) text) }
    requires saved { saved_or_none (option_map (λ t. t.now) text)
        ≡ journal_text J.desk.config J.desk.period J.desk.opening }
    requires kept { D.claims → IsPrefix (lines_of K.form told.seen) told.kept.lines }
    ensures device { log.new.device ≡ log.old.device }
    ensures whole { D.claims → IsWholeBehind J.desk (option_map (λ t. t.now) text.entry)
        (D.left_since log.old.device told.kept.moment) told.seen }
{
    let mut book = desk.lock(rt);
    find_in(&mut book, log, text, told);
}

// The same, of a desk's book under its lock.
fn find_in<J: Naming, K: LogNaming, D: Device + Drop>(
    book: &mut LockedBook<J>,
    log: &mut OpenLog<J, K, D>,
    text: Option<&[u8]>,
    told: Told<J, K, D>,
)
    requires form { K.form ≡ log_behind J.desk.config J.desk.opening
        (option_map (λ t. t.now) text) }
    requires saved { saved_or_none (option_map (λ t. t.now) text)
        ≡ journal_text J.desk.config J.desk.period J.desk.opening }
    requires kept { D.claims → IsPrefix (lines_of K.form told.seen) told.kept.lines }
    ensures device { log.new.device ≡ log.old.device }
    ensures whole { D.claims → IsWholeBehind J.desk (option_map (λ t. t.now) text.entry)
        (D.left_since log.old.device told.kept.moment) told.seen }
{
    let Told { seen, kept } = told;
    let mut seen = seen;
    // Called for what its contract tells: what the desk was opened with begins what was seen.
    let _ = seen.len();
    book.show(&mut seen);
    log.find(book, kept);
    look_through(book.book());
    what_was_told_is_recovered();
}

// Finds that the numbers of all entries are of their types. They are few, and the configuration is valid.
fn look_through(book: &Book)
    ensures typed { All IsTyped book.now.entries }
    ensures few { length book.now.entries < 2 ^ 32 }
    ensures valid { IsValid book.now.config }
{
    let _ = book.config();
    for number in 0..book.len() {
        let Some(entry) = book.entry(number) else {
            unreachable!();
        };
        let _ = entry_line(book.config(), entry);
    }
}
