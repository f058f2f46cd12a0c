//! What the watcher's thread does: it looks each second at what an operator is to know.

use crate::actors::WatcherLinks;
use ilp_book::Book;
use ilp_desk::{Desk, Naming};
use ilp_keeping::SharedKeeper;
use ilp_log_keeper::DiskWait;
use ilp_notices::{Notices, not_reloaded};
use ilp_shared::{
    Intakes, MEMORY_IS_SHORT, Moments, NextConfig, OnDisk, PeriodDue, Places, Reloading, Seen,
    Shutdown, without_end,
};
use ilp_workers::{Clock, Keeper};
use std::io::Eprint;
use std::sync::Wait;
use std::time;
use std::time::Duration;

// How long the watcher rests between two looks, in milliseconds.
const REST_MS: u64 = 1_000;

// By how many milliseconds the clock may lie behind the book before that is told.
const SLACK_MS: u64 = 1_000;

// For how many milliseconds the disk may have taken where the watcher has a log mended: it would wait for the same disk.
const BUSY_MS: u64 = 100;

/// What the watcher looks at.
#[derive(Drop)]
pub(crate) struct Watcher<'a, J: Naming, C: Clock + Drop, K: Keeper<J> + Drop, P> {
    pub(crate) desk: &'a Desk<J>,
    pub(crate) links: WatcherLinks<J, C, K>,
    pub(crate) places: &'a Places,
    pub(crate) intakes: &'a Intakes,
    pub(crate) disk: &'a DiskWait,
    pub(crate) notices: &'a Notices,
    pub(crate) seen: &'a Seen,
    pub(crate) moments: &'a Moments,
    pub(crate) reloading: &'a Reloading,
    pub(crate) due: Option<PeriodDue>,
    pub(crate) on_disk: P,
    /// Whether another connector may have the journal, so that this one ends.
    pub(crate) is_lost: bool,
}

/// Has the watcher look each second until the connector ends, and once more then.
pub(crate) fn watch<J, C, K, P, R>(rt: &R, watcher: Watcher<'_, J, C, K, P>, shutdown: Shutdown)
where
    J: Naming,
    C: Clock + Drop,
    K: SharedKeeper<J> + Drop,
    P: OnDisk + Drop,
    R: Wait + time::Clock + Eprint,
{
    let mut watcher = watcher;
    let rest = Duration::from_millis(REST_MS);
    for _ in rt.forever() {
        let ends = shutdown.rest(rt, rest);
        watcher.look(rt);
        if ends {
            break;
        }
        watcher.notices.look(rt, watcher.desk.config());
    }
    watcher.notices.last_look(rt, watcher.desk.config());
}

// What there is to see of a book.
#[derive(Clone, Copy)]
struct BookState {
    entries: u32,
    // How many entries there are, and how many are kept for what is open.
    taken: u64,
    // The moment of the last entry, and 0 where there is none, in milliseconds since 1970.
    last: i64,
}

impl BookState {
    fn of(book: &Book) -> BookState {
        let entries = book.len();
        let last = match book.entry(entries.saturating_sub(1)) {
            Some(entry) => entry.moment,
            None => 0,
        };
        BookState {
            entries,
            taken: book.taken(),
            last,
        }
    }
}

impl<J, C, K, P> Watcher<'_, J, C, K, P>
where
    J: Naming,
    C: Clock + Drop,
    K: SharedKeeper<J> + Drop,
    P: OnDisk + Drop,
{
    fn look<R: Wait + time::Clock + Eprint>(&mut self, rt: &R) {
        // The lock is free again before the clock is asked and anything is told.
        let state = BookState::of(self.desk.lock(rt).book());
        self.look_at_clock(rt, state.last);
        self.look_at_journal(rt, state);
        self.look_at_work(rt);
        self.look_at_lock(rt);
        self.look_at_disk(rt);
        self.look_at_period(rt);
        self.look_at_reload(rt);
    }

    // No entry was booked after the clock's moment, unless it was set back.
    fn look_at_clock<R: time::Clock + Eprint>(&mut self, rt: &R, last: i64) {
        let now = self.links.clock.now();
        let behind = if now < last { last.abs_diff(now) } else { 0 };
        if behind < SLACK_MS {
            self.notices.clock_right();
        } else {
            self.notices.clock_behind(rt, behind);
        }
    }

    // What was refused for want of room tells it too, where that came and went between two looks.
    fn look_at_journal<R: time::Clock + Eprint>(&self, rt: &R, state: BookState) {
        let limit = self.desk.config().journal();
        if state.taken >= u64::from(limit) || self.seen.was_full() {
            self.notices.journal_full(rt, state.entries, limit);
        } else {
            self.notices.journal(rt, state.entries, limit);
        }
    }

    fn look_at_work<R: Wait + time::Clock + Eprint>(&self, rt: &R) {
        let seconds = match self.places.waited(rt) {
            Some(time) => time.as_secs(),
            None => 0,
        };
        if seconds == 0 {
            self.notices.work_goes_on();
        } else {
            let in_flight = self.places.in_flight();
            self.notices
                .work_waits(rt, self.desk.config(), in_flight, seconds);
        }
    }

    // Has the period end where that is due. Loops do so as they book; but where the journal is full, or
    // settlements alone are booked, no packet is.
    fn look_at_period<R: Wait + time::Clock>(&self, rt: &R) {
        if let Some(due) = self.due {
            if due.is_reached(self.desk.lock(rt).book(), self.moments.now(rt)) {
                self.end_period(rt);
            }
        }
    }

    fn end_period<R: Wait>(&self, rt: &R) {
        let asks = self.places.end_period(rt);
        self.intakes.look_again(asks);
    }

    // Reads the configuration again where somebody asks for that, and has the period end where it is taken.
    fn look_at_reload<R: Wait + time::Clock + Eprint>(&self, rt: &R) {
        let Some(asker) = self.reloading.take_asker(rt) else {
            return;
        };
        match self.on_disk.read_again(self.desk.config()) {
            Ok(config) => {
                self.reloading.put(rt, NextConfig { config, asker });
                self.end_period(rt);
            }
            Err(why) => {
                let line = match &why {
                    Some(line) => line.as_str(),
                    None => MEMORY_IS_SHORT,
                };
                not_reloaded(rt, without_end(line));
                // Who is answered may ask again at once.
                self.reloading.free();
                asker.refused(rt, self.intakes, line);
            }
        }
    }

    // Where somebody waits long for the disk, who mends a log would too.
    fn look_at_disk<R: time::Clock + Eprint>(&mut self, rt: &R) {
        let waited = self.disk.waited(self.moments.now(rt));
        self.notices.disk_takes(rt, waited);
        if waited < Duration::from_millis(BUSY_MS) {
            self.look_at_keeper(rt);
        }
    }

    // Where entries were not kept it is tried again. Where all are, the log is to lie there that has them.
    fn look_at_keeper<R: time::Clock + Eprint>(&mut self, rt: &R) {
        let links = &mut self.links;
        if links.keeper.keeps() {
            self.notices.journal_kept();
            self.look_at_log(rt);
        } else if links.keeper.mend(&mut links.receipt) {
            self.notices.journal_kept();
        } else {
            self.notices.journal_unkept(rt);
        }
    }

    fn look_at_log<R: time::Clock + Eprint>(&self, rt: &R) {
        if self.on_disk.has_log() {
            self.notices.log_there();
        } else {
            self.notices.log_gone(rt);
        }
    }

    // Whoever else has the journal by now answers for it: this connector ends.
    fn look_at_lock<R: time::Clock>(&mut self, rt: &R) {
        if !self.is_lost && !self.on_disk.has_journal() {
            self.is_lost = true;
            self.intakes.end(rt);
        }
    }
}
