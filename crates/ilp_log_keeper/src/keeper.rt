//! A keeper that writes a desk's journal to its log.
ghost use Rattle.std.specs.Prelude.{◌≡◌, true, OnOk};
ghost use mathlib.Core.List.{IsPrefix};
ghost use Rattle.ilp_log.specs.Lines.{lines_of};
ghost use Rattle.ilp_log_keeper.specs.Keeping.{HasTold};

use crate::state::KeepingState;
use ilp_accounts::Config;
use ilp_desk::{Desk, JournalReceipt, Naming};
use ilp_keeping::{Keeper, NotKept, SharedKeeper};
use ilp_line_file::Device;
use ilp_log::{Kept, Log, LogNaming};
use std::sync::Wait;
use std::time::{Clock, Duration};

// How long the disk may take at least before nothing new is kept, in milliseconds, however short the window is.
const LEAST_PATIENCE: u64 = 250;

/// A keeper that writes a desk's journal to its log. It waits for the log's lock, and for the disk. While the disk
/// takes longer than half of `window_ms`, and longer than 250 milliseconds, it keeps nothing new: who sends a Prepare
/// then would be told its Fulfill too late.
#[derive(Drop)]
pub struct LogKeeper<'k, J: Naming, K: LogNaming, D: Device + Drop, R> {
    rt: &'k R,
    desk: &'k Desk<J>,
    log: &'k Log<J, K, D>,
    state: &'k KeepingState,
    // How long the disk may take.
    patience: Duration,
    // What the log told it last.
    told: Option<Kept<D, K>>,
}

impl<'k, J: Naming, K: LogNaming, D: Device + Drop, R: Wait + Clock> LogKeeper<'k, J, K, D, R> {
    /// A keeper of this desk's journal in this log, which was told nothing. The keepers of one log share
    /// the state.
    pub fn new(
        rt: &'k R,
        desk: &'k Desk<J>,
        log: &'k Log<J, K, D>,
        state: &'k KeepingState,
    ) -> LogKeeper<'k, J, K, D, R> {
        LogKeeper {
            rt,
            desk,
            log,
            state,
            patience: patience_of(desk.config()),
            told: None,
        }
    }
}

// How long the disk may take before nothing new is kept.
fn patience_of(config: &Config) -> Duration {
    let half = u64::from(config.window_ms()) / 2;
    Duration::from_millis(half.max(LEAST_PATIENCE))
}

impl<'k, J: Naming, K: LogNaming, D: Device + Drop, R: Wait + Clock> LogKeeper<'k, J, K, D, R> {
    // The time by the clock that never goes back, where it can be read.
    fn now(&self) -> Option<Duration> {
        self.rt.monotonic().ok()
    }

    // Whether nobody waits for the disk for longer than new entries may.
    fn is_prompt(&self) -> bool {
        match self.now() {
            Some(now) => self.state.disk().waited(now) <= self.patience,
            None => true,
        }
    }
}

impl<J: Naming, K: LogNaming, D: Device + Drop, R: Wait + Clock> Keeper<J>
    for LogKeeper<'_, J, K, D, R> {
    fn keeps(&mut self) -> bool {
        self.state.keeps() && self.is_prompt()
    }

    fn keep(&mut self, receipt: &mut JournalReceipt<J>) -> Result<(), NotKept>
        ensures seen { IsPrefix receipt.old receipt.new }
        ensures kept { D.claims
            → OnOk result (HasTold (lines_of K.form receipt.old) self.new.told) }
    {
        let alloc = self.desk.config().allocator();
        self.state.disk().begin(self.now());
        let told = self.log.commit(self.rt, alloc, self.desk, receipt);
        self.state.disk().end(self.now());
        match told {
            Ok(told) => {
                self.told = Some(told);
                Ok(())
            }
            Err(_) => {
                self.state.note_failure();
                Err(NotKept)
            }
        }
    }
}

impl<J: Naming, K: LogNaming, D: Device + Drop, R: Wait + Clock> SharedKeeper<J>
    for LogKeeper<'_, J, K, D, R> {
    fn another(&self) -> Self {
        LogKeeper::new(self.rt, self.desk, self.log, self.state)
    }

    fn mend(&mut self, receipt: &mut JournalReceipt<J>) -> bool
        ensures seen { IsPrefix receipt.old receipt.new }
        ensures kept { D.claims → result ≡ true
            → HasTold (lines_of K.form receipt.old) self.new.told }
    {
        // Those that fail from here on are not made good by what the receipt sees.
        let failures = self.state.failures();
        self.desk.show(self.rt, receipt);
        let alloc = self.desk.config().allocator();
        match self.log.mend(self.rt, alloc, self.desk, receipt) {
            Ok(told) => {
                self.told = Some(told);
                self.state.mend(failures);
                true
            }
            Err(_) => false,
        }
    }
}
