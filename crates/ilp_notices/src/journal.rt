//! How full the journal is.
ghost use Rattle.std.specs.Prelude.{◌≡◌, ◌*◌, ◌/◌, ◌<◌, ◌↔◌, IsSome, IfSome};
ghost use Rattle.ilp_notices.specs.Marks.{greatest_reached, percent_of};

use crate::line::{Level, tell};
use crate::notices::Notices;
use std::io::Eprint;
use std::sync::atomic::{AtomicBool, AtomicU64, Ordering};
use std::time::Clock;

/// What was told of the journal. Threads share it by reference.
#[derive(Drop)]
pub(crate) struct Fullness {
    // The percent of the greatest mark that was told; 0 before the first.
    told: AtomicU64,
    // Whether it was told that it is full.
    full: AtomicBool,
}

impl Fullness {
    /// Nothing was told yet.
    pub(crate) fn new() -> Fullness {
        Fullness {
            told: AtomicU64::new(0),
            full: AtomicBool::new(false),
        }
    }
}

// How full a journal is when a line is told of it.
#[derive(Clone, Copy)]
enum Mark {
    Eighty,
    Ninety,
    NinetyFive,
}

impl Mark {
    // The greatest mark that is reached at so many percent, where it is above what was told.
    fn next(told: u64, percent: u64) -> Option<Mark>
        ensures due { IsSome result ↔ (told < greatest_reached percent) }
        ensures greatest { IfSome result (λ mark. percent_of mark ≡ greatest_reached percent) }
    {
        let mark = if percent >= 95 {
            Mark::NinetyFive
        } else if percent >= 90 {
            Mark::Ninety
        } else if percent >= 80 {
            Mark::Eighty
        } else {
            return None;
        };
        if told < mark.percent() {
            Some(mark)
        } else {
            None
        }
    }

    // The percent at which it is reached.
    fn percent(self) -> u64
        ensures { result ≡ percent_of self }
    {
        match self {
            Mark::Eighty => 80,
            Mark::Ninety => 90,
            Mark::NinetyFive => 95,
        }
    }

    fn level(self) -> Level {
        match self {
            Mark::Eighty | Mark::Ninety => Level::Warn,
            Mark::NinetyFive => Level::Error,
        }
    }
}

// How many whole percent of the limit the entries are. All of a journal without room is full.
fn percent(entries: u32, limit: u32) -> u64
    ensures room { 0 < limit → result ≡ entries * 100 / limit }
    ensures none { limit ≡ 0 → result ≡ 100 }
{
    if limit == 0 {
        return 100;
    }
    u64::from(entries) * 100 / u64::from(limit)
}

impl Notices {
    /// Tells how many entries of its limit the journal has, once where it has 80, 90 and 95 percent of
    /// them, each time of the greatest that is reached.
    pub fn journal<R: Clock + Eprint>(&self, rt: &R, entries: u32, limit: u32) {
        let told = self.fullness.told.load(Ordering::SeqCst);
        let percent = percent(entries, limit);
        let Some(mark) = Mark::next(told, percent) else {
            return;
        };
        let taken = self
            .fullness
            .told
            .compare_exchange(told, mark.percent(), Ordering::SeqCst, Ordering::SeqCst);
        if taken.is_ok() {
            let text = format_args!("journal: {entries} of {limit} entries, {percent} percent");
            tell(rt, mark.level(), text);
        }
    }

    /// Tells once that the journal is full, and what comes of it.
    pub fn journal_full<R: Clock + Eprint>(&self, rt: &R, entries: u32, limit: u32) {
        if self.fullness.full.swap(true, Ordering::SeqCst) {
            return;
        }
        let text = format_args!(
            "journal: full, with {entries} of {limit} entries: packets get T03, and credits 503"
        );
        tell(rt, Level::Error, text);
    }
}
