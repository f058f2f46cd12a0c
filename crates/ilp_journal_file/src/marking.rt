//! The mark of a connector that kept no log.

use crate::fault::FileFault;
use crate::names::Names;
use ilp_notices::{journal_unread, stopped_unsaved};
use std::io::{Eprint, ErrorKind, Read};
use std::rt::Files;
use std::time::Clock;
use std::{fs, str};

// A mark is shorter: it has a run's name, a number and a few words.
const LONGEST_MARK: usize = 256;

impl Names {
    /// Finds no mark of a connector that kept no log and has stopped without saving: what it booked is lost.
    ///
    /// It is refused as `Unread` where there is one.
    pub(crate) fn expect_saved<R>(&self, rt: &R) -> Result<(), FileFault>
    where
        R: Files + Clock + Eprint,
    {
        let mut mark = match fs::open(rt, self.running.as_str()) {
            Ok(mark) => mark,
            Err(error) if error.kind() == ErrorKind::NotFound => return Ok(()),
            Err(error) => {
                journal_unread(rt, self.running.as_str(), &error);
                return Err(FileFault::Unread);
            }
        };
        let mut room = [0u8; LONGEST_MARK];
        let count = mark.read(&mut room).unwrap_or(0);
        let said = str::from_utf8(&room[..count]).unwrap_or("");
        stopped_unsaved(
            rt,
            self.journal.as_str(),
            self.running.as_str(),
            said.trim_end(),
        );
        Err(FileFault::Unread)
    }
}
