//! From whoever asks that the configuration be read again to the period that begins by it.

use crate::asker::Asker;
use crate::intakes::Intakes;
use ilp_accounts::Config;
use std::sync::atomic::{AtomicBool, Ordering};
use std::sync::{Mutex, Wait};

/// What a running connector has on the disk, beside the log that it writes.
pub trait OnDisk {
    /// The configuration as it stands there now, where a connector of this one may go on by it. Else a line
    /// that says why not; none where memory for that is short.
    fn read_again(&self, in_force: &Config) -> Result<Config, Option<String>>;

    /// Whether its journal, if it has one, is still its own, as far as the system says: another connector may have taken
    /// it. Where it isn't a line says so, each time.
    fn has_journal(&self) -> bool;

    /// Whether the log of its journal, if it has one, lies at its path, as far as the system says.
    fn has_log(&self) -> bool;
}

/// A configuration by which the next period is to begin, and who asks for that.
#[derive(Drop)]
pub struct NextConfig {
    pub config: Config,
    pub asker: Asker,
}

/// Who asks that the configuration be read again, one at a time, and what was read. Threads share it by
/// reference.
#[derive(Drop)]
pub struct Reloading {
    // Whether somebody has asked, and is not answered yet.
    taken: AtomicBool,
    asked: Mutex<Option<Asker>>,
    read: Mutex<Option<NextConfig>>,
}

impl Reloading {
    /// Nobody asks.
    pub fn new() -> Reloading {
        Reloading {
            taken: AtomicBool::new(false),
            asked: Mutex::new(None),
            read: Mutex::new(None),
        }
    }

    /// Whether somebody may ask now, since nobody else does. It is for that one until it is free again.
    pub fn reserve(&self) -> bool {
        !self.taken.swap(true, Ordering::SeqCst)
    }

    /// Who asked is answered: another may ask.
    pub fn free(&self) {
        self.taken.store(false, Ordering::SeqCst);
    }

    /// This one asks, who reserved it.
    pub fn ask(&self, rt: &impl Wait, asker: Asker) {
        *self.asked.lock(rt) = Some(asker);
    }

    /// Who asks, and for whom nothing was read yet.
    pub fn take_asker(&self, rt: &impl Wait) -> Option<Asker> {
        self.asked.lock(rt).take()
    }

    /// This was read, and the next period is to begin by it.
    pub fn put(&self, rt: &impl Wait, next: NextConfig) {
        *self.read.lock(rt) = Some(next);
    }

    /// By what the next period is to begin, if somebody asks for that.
    pub fn take_next(&self, rt: &impl Wait) -> Option<NextConfig> {
        self.read.lock(rt).take()
    }

    /// The connector ends: who asks is told so.
    pub fn turn_away(&self, rt: &impl Wait, intakes: &Intakes) {
        if let Some(asker) = self.take_asker(rt) {
            asker.turned_away(rt, intakes);
        }
        if let Some(NextConfig { config: _, asker }) = self.take_next(rt) {
            asker.turned_away(rt, intakes);
        }
    }
}
