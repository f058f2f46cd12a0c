//! What is told where the disk takes long to keep a journal: that senders wait for that, and of each who is told
//! a Fulfill late.

use crate::line::{Level, tell};
use crate::notices::Notices;
use crate::repeated::Repeated;
use crate::seconds::Seconds;
use crate::sent_hold::SentHold;
use ilp_accounts::Config;
use std::io::Eprint;
use std::sync::atomic::{AtomicU64, Ordering};
use std::time::{Clock, Duration};

// For how many seconds the disk may take before that is told, and how many lie between two lines.
const PATIENCE: u64 = 5;

const BETWEEN: u64 = 60;

/// What was told of a disk that takes long. Threads share it by reference.
#[derive(Drop)]
pub(crate) struct SlowDisk {
    late: Repeated,
    // How many Fulfills were told late.
    fulfills: AtomicU64,
    // For how many seconds it had taken when that was last said; 0 where it goes on.
    told: AtomicU64,
    // For how many it was seen to take last.
    seconds: AtomicU64,
}

impl SlowDisk {
    /// Nothing was late.
    pub(crate) fn new() -> SlowDisk {
        SlowDisk {
            late: Repeated::new(),
            fulfills: AtomicU64::new(0),
            told: AtomicU64::new(0),
            seconds: AtomicU64::new(0),
        }
    }
}

impl Notices {
    /// Tells that a peer is told a Fulfill so many milliseconds behind the deadline of its hold and the window,
    /// when its Prepare has expired, unless the longest hold ended before.
    pub fn fulfill_late<R: Clock + Eprint>(
        &self,
        rt: &R,
        config: &Config,
        peer: u32,
        hold: SentHold,
        milliseconds: u64,
    ) {
        if peer >= config.peers() {
            return;
        }
        self.slow_disk.fulfills.fetch_add(1, Ordering::SeqCst);
        let Some(left_out) = self.slow_disk.late.failed(rt) else {
            return;
        };
        let name = config.name(peer);
        let time = Seconds(Duration::from_millis(milliseconds));
        let text = format_args!(
            "fulfill told to {name} {time} too late ({hold}): {name} may not pay for it, and the book has it paid{left_out}"
        );
        tell(rt, Level::Error, text);
    }

    /// How many Fulfills were told late.
    pub fn fulfills_late(&self) -> u64 {
        self.slow_disk.fulfills.load(Ordering::SeqCst)
    }

    /// Tells where the disk has taken so long to keep the journal that senders wait for: at 5 seconds, and each
    /// minute again. Somebody calls it each second.
    pub fn disk_takes<R: Clock + Eprint>(&self, rt: &R, time: Duration) {
        let seconds = time.as_secs();
        let told = self.slow_disk.told.load(Ordering::SeqCst);
        let last = self.slow_disk.seconds.swap(seconds, Ordering::SeqCst);
        if seconds < last && told != 0 {
            self.slow_disk.told.store(0, Ordering::SeqCst);
            let time = Seconds(Duration::from_secs(last));
            let text = format_args!("journal: the disk has kept what it was given, after {time}");
            tell(rt, Level::Info, text);
        } else if seconds >= PATIENCE && (told == 0 || seconds >= told.saturating_add(BETWEEN)) {
            self.slow_disk.told.store(seconds, Ordering::SeqCst);
            let time = Seconds(Duration::from_secs(seconds));
            let text = format_args!(
                "journal: the disk has not kept what it was given, for {time} now: no Fulfill is told until it has"
            );
            tell(rt, Level::Error, text);
        }
    }
}
