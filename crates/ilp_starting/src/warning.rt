//! What of a configuration is allowed and probably not meant, and what of a journal is in the way of a
//! connector that begins with it, told on standard error.

use ilp_accounts::Config;
use ilp_book::Book;
use ilp_link_traits::Clock;
use ilp_links::SystemClock;
use ilp_notices::{
    JournalWarning, RecoveryNote, configuration_warning, journal_warning, recovery_note,
};
use ilp_warnings::warnings;
use std::alloc::AllocError;
use std::io::Eprint;
use std::os::unix::fs::PermissionsExt;
use std::rt::Runtime;
use std::{fs, time};

// The right of everybody to read a file.
const OTHERS_READ: u32 = 0o004;

/// How it is told.
#[derive(Clone, Copy, PartialEq, Eq)]
pub enum Telling {
    /// Each thing by a line, to whoever checks a configuration.
    Line,
    /// Each by a line with time and level, to whoever runs a connector.
    Notice,
}

impl Telling {
    // Tells one thing.
    fn tell<R: Runtime>(self, rt: &R, what: &str) {
        match self {
            Telling::Line => {
                let _ = rt.eprintln(what);
            }
            Telling::Notice => configuration_warning(rt, what),
        }
    }

    // Tells one thing of the journal at this path. How full the book is a running connector tells by
    // itself.
    fn tell_of_journal<R: time::Clock + Eprint>(self, rt: &R, path: &str, warning: JournalWarning) {
        match (self, warning) {
            (Telling::Line, warning) => {
                let _ = eprintln!(rt; "journal {path:?}: {warning}");
            }
            (Telling::Notice, JournalWarning::Ahead { .. }) => journal_warning(rt, path, warning),
            (Telling::Notice, JournalWarning::LongHead { .. }) => journal_warning(
                rt, path, warning,
            ),
            (Telling::Notice, JournalWarning::NearlyFull { .. }) => {}
        }
    }

    /// Tells one thing of how the journal at this path goes on behind a sudden stop.
    pub(crate) fn tell_recovery<R: time::Clock + Eprint>(
        self,
        rt: &R,
        path: &str,
        note: RecoveryNote<'_>,
    ) {
        match self {
            Telling::Line => {
                let _ = eprintln!(rt; "journal {path:?}: {note}");
            }
            Telling::Notice => recovery_note(rt, path, note),
        }
    }
}

/// Tells what is to be looked at in a configuration and its file. Of the built-in one, whose tokens are
/// known to all, and of one that is refused nothing is told; and where memory is short not all is.
pub fn tell_warnings<R: Runtime + AllocGlobal>(
    rt: &R,
    path: &str,
    octets: &[u8],
    telling: Telling,
) {
    if path == "-" {
        return;
    }
    if let Ok(config) = Config::read(rt.alloc(), octets) {
        tell_of_file(rt, path, telling);
        let _ = tell_all(rt, octets, &config, telling);
    }
}

// Tells of a file that everybody on its machine may read, since it has tokens.
fn tell_of_file<R: Runtime>(rt: &R, path: &str, telling: Telling) {
    let Ok(metadata) = fs::metadata(rt, path) else {
        return;
    };
    if metadata.permissions().mode() & OTHERS_READ != 0 {
        telling.tell(rt, "the file has tokens, and others may read it: chmod o-r");
    }
}

// Tells of a configuration that was read.
fn tell_all<R: Runtime + AllocGlobal>(
    rt: &R,
    octets: &[u8],
    config: &Config,
    telling: Telling,
) -> Result<(), AllocError> {
    let found = warnings(rt.alloc(), octets, config)?;
    for warning in &found {
        let line = warning.line(rt.alloc(), config)?;
        telling.tell(rt, line.as_str());
    }
    Ok(())
}

/// What of a journal is in the way of a connector that begins with it.
#[derive(Clone, Copy)]
pub struct JournalWarnings {
    ahead: Option<JournalWarning>,
    nearly_full: Option<JournalWarning>,
    long_head: Option<JournalWarning>,
}

impl JournalWarnings {
    /// What is in the way now of one that begins with this book: its last moment lies ahead of the clock,
    /// it is nearly full, or a new period would begin late since so much was brought forward.
    pub fn of<R: time::Clock + Copy>(rt: &R, book: &Book) -> JournalWarnings {
        let now = SystemClock::new(*rt).now();
        let ahead = match book.entry(book.len().saturating_sub(1)) {
            Some(entry) => JournalWarning::ahead(entry.moment, now),
            None => None,
        };
        let limit = book.config().journal();
        JournalWarnings {
            ahead,
            nearly_full: JournalWarning::nearly_full(book.len(), limit),
            long_head: long_head_of(book),
        }
    }

    /// Tells it of the journal at this path.
    pub fn tell<R: time::Clock + Eprint>(self, rt: &R, path: &str, telling: Telling) {
        if let Some(warning) = self.ahead {
            telling.tell_of_journal(rt, path, warning);
        }
        if let Some(warning) = self.nearly_full {
            telling.tell_of_journal(rt, path, warning);
        }
        if let Some(warning) = self.long_head {
            telling.tell_of_journal(rt, path, warning);
        }
    }
}

// Whether so much was brought forward that a new period begins later than its configuration says.
fn long_head_of(book: &Book) -> Option<JournalWarning> {
    let config = book.config();
    let percent = config.new_period_at()?;
    JournalWarning::long_head(book.head(), config.journal(), percent)
}
