//! Keeping a period as a whole while the next one runs, and looking at the journal's files.

use crate::telling::why_of;
use ilp_book::Book;
use ilp_journal_file::{HeldLock, JournalFile, JournalWatch, PlacesFiles};
use ilp_notices::no_next_period;
use ilp_starting::keep_set_aside;
use std::rt::Runtime;

/// A runtime that keeps periods, and looks at a journal's files. It is asked for beside what else a runtime has, as `ReadsConfigs` is.
pub trait KeepsPeriods {
    /// Keeps the period as a whole that ended with this book, whose log was set aside beside the journal at this path, of
    /// which this is held.
    /// Where it can't be kept a line says so, and until it is no other period ends: the next end begins with it, and so
    /// does a start.
    fn keep_set_aside(&self, path: &str, held: HeldLock, book: &Book);

    /// Whether a journal is still had, as `JournalWatch` looks.
    fn has_journal(&self, watch: &JournalWatch) -> bool;

    /// Whether its log lies at its path, likewise.
    fn has_log(&self, watch: &JournalWatch) -> bool;
}

impl<R: Runtime + AllocGlobal + PlacesFiles> KeepsPeriods for R {
    fn keep_set_aside(&self, path: &str, held: HeldLock, book: &Book) {
        let Ok(file) = JournalFile::held_elsewhere(self.alloc(), path, held) else {
            return;
        };
        if let Err(refused) = keep_set_aside(self, &file, book) {
            no_next_period(self, path, &refused.refusal, why_of(&refused));
        }
    }

    fn has_journal(&self, watch: &JournalWatch) -> bool {
        watch.has_journal(self)
    }

    fn has_log(&self, watch: &JournalWatch) -> bool {
        watch.has_log(self)
    }
}
