//! Texts of periods that are kept, which no connector goes on from.

use crate::fault::FileFault;
use crate::names::Names;
use ilp_journal_text::JournalText;
use ilp_notices::journal_unfit;
use std::fs;
use std::io::{Eprint, Read};
use std::rt::Files;
use std::time::Clock;

// The first line of a journal is shorter.
const FIRST_LINE: usize = 64;

impl Names {
    /// Finds that the journal isn't the text of a period which is kept beside a journal of a later one: a connector
    /// that begins with it lacks what came since, and engines take keys of its settlements for old.
    ///
    /// It is refused as `Unread` where it is.
    pub(crate) fn expect_not_kept<R: Files + Clock + Eprint>(
        &self,
        rt: &R,
    ) -> Result<(), FileFault> {
        let path = self.journal.as_str();
        let Some(later) = later_journal(rt, path) else {
            return Ok(());
        };
        let why = format_args!(
            "it is kept of a period that has ended, behind which {later:?} goes on"
        );
        journal_unfit(rt, path, why);
        Err(FileFault::Unread)
    }
}

// The path of the journal of a later period beside which the text at this path is kept, if it is: it is named by
// that path and the number of its own period.
fn later_journal<'p, R: Files>(rt: &R, path: &'p str) -> Option<&'p str> {
    let (journal, number) = path.rsplit_once('.')?;
    let period: u32 = number.parse().ok()?;
    if period_at(rt, path)? == period && period < period_at(rt, journal)? {
        Some(journal)
    } else {
        None
    }
}

/// The number of the period of the text at a path, if a file with one is there.
pub(crate) fn period_at<R: Files>(rt: &R, path: &str) -> Option<u32> {
    if !fs::metadata(rt, path).ok()?.is_file() {
        return None;
    }
    let mut file = fs::open(rt, path).ok()?;
    let mut room = [0u8; FIRST_LINE];
    let text = JournalText::begin(front_of(&mut file, &mut room)?).ok()?;
    Some(text.period())
}

// What comes first in a file, as far as there is room for it. A read may bring less, so it is read on.
fn front_of<'r, F: Read>(file: &mut F, room: &'r mut [u8; FIRST_LINE]) -> Option<&'r [u8]> {
    let mut count = 0;
    for _ in 0..FIRST_LINE {
        match file.read(&mut room[count..]).ok()? {
            0 => break,
            more => count += more,
        }
    }
    Some(&room[..count])
}
