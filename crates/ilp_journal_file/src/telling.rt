//! What is told of a log's device, and how many of its calls have failed.
ghost use Rattle.std.specs.Prelude.{◌≡◌, ◌≤◌, ◌<◌};
ghost use Rattle.ilp_line_file.specs.declared.device.DeviceFault.TheVariants.{Failed};

use crate::log_place::LogPlace;
use crate::placing::PlacesFiles;
use ilp_line_file::DeviceFault;
use ilp_notices::{journal_lost, log_begun, log_unwritten};
use std::io;
use std::io::Eprint;
use std::time::Clock;

/// What is told of a log's device by lines on standard error, and how many of its calls have failed.
#[derive(Drop)]
pub(crate) struct Telling {
    pub(crate) failures: u64,
    // Whether a line has told of a failure since the disk had what was written.
    is_told: bool,
    /// Whether the log was made anew since.
    pub(crate) is_anew: bool,
}

impl Telling {
    /// Nothing has failed yet.
    pub(crate) fn new() -> Telling
        ensures { result.failures ≡ 0 }
    {
        Telling {
            failures: 0,
            is_told: false,
            is_anew: false,
        }
    }

    /// Notes that the disk has what was written.
    pub(crate) fn note_kept<R: Clock + Eprint>(&mut self, rt: &R, place: &LogPlace)
        ensures { self.new.failures ≡ self.old.failures }
    {
        if self.is_anew {
            log_begun(rt, place.path.as_str(), place.sync);
            self.is_anew = false;
        }
        self.is_told = false;
    }

    /// A call has failed. The first one is told.
    pub(crate) fn failed<R: PlacesFiles + Clock + Eprint>(
        &mut self,
        rt: &R,
        place: &LogPlace,
        error: &io::Error,
    ) -> DeviceFault
        ensures later { self.old.failures ≤ self.new.failures }
        ensures counted { result ≡ Failed → self.old.failures < self.new.failures }
    {
        if !self.is_told {
            match place.held.is_at(rt, place.lock.as_str()) {
                Ok(false) => journal_lost(rt, place.journal.as_str(), place.lock.as_str()),
                _ => log_unwritten(rt, place.path.as_str(), error),
            }
            self.is_told = true;
        }
        self.count()
    }

    /// A call has failed. More than have a number are told as want of memory.
    pub(crate) fn count(&mut self) -> DeviceFault
        ensures later { self.old.failures ≤ self.new.failures }
        ensures counted { result ≡ Failed → self.old.failures < self.new.failures }
    {
        match self.failures.checked_add(1) {
            Some(failures) => {
                self.failures = failures;
                DeviceFault::Failed
            }
            None => DeviceFault::Memory,
        }
    }
}
