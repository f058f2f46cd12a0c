//! What is told of a book that goes on behind a sudden stop.

use crate::carrying::{Carried, Source};
use crate::warning::Telling;
use ilp_book::Book;
use ilp_journal::{Hold, What};
use ilp_notices::RecoveryNote;
use std::io::Eprint;
use std::time::Clock;

impl Carried {
    /// Tells how many entries come from the log of the journal at this path, and of each peer which holds
    /// that went on to it were open at the stop.
    pub fn tell<R: Clock + Eprint>(&self, rt: &R, path: &str, telling: Telling) {
        match self.source {
            Source::Saved => {}
            Source::OlderLog => telling.tell_recovery(rt, path, RecoveryNote::OlderLog),
            Source::Logged { saved, logged } => {
                telling.tell_recovery(rt, path, RecoveryNote::Logged { entries: logged });
                let ends = saved.saturating_add(logged);
                tell_open_holds(rt, path, &self.book, ends, telling);
            }
        }
    }
}

// Tells of each peer the holds that the entries from this number on end.
fn tell_open_holds<R: Clock + Eprint>(
    rt: &R,
    path: &str,
    book: &Book,
    ends: u32,
    telling: Telling,
) {
    let config = book.config();
    for peer in 0..config.peers() {
        let OpenHolds { holds, out } = OpenHolds::of(book, ends, peer);
        if holds > 0 {
            let peer = config.name(peer);
            telling.tell_recovery(rt, path, RecoveryNote::OpenHolds { peer, holds, out });
        }
    }
}

// Holds that went on to one peer: how many, and what it was to get in all, in units of its asset.
#[derive(Clone, Copy)]
struct OpenHolds {
    holds: u32,
    out: u128,
}

impl OpenHolds {
    // Those that the entries from this number on end.
    fn of(book: &Book, ends: u32, peer: u32) -> OpenHolds {
        let mut open = OpenHolds { holds: 0, out: 0 };
        for number in ends..book.len() {
            if let Some(hold) = ended_hold(book, number) {
                open.add(hold, peer);
            }
        }
        open
    }

    fn add(&mut self, hold: &Hold, peer: u32) {
        if hold.to == peer {
            self.holds = self.holds.saturating_add(1);
            self.out = self.out.saturating_add(u128::from(hold.out));
        }
    }
}

// The hold that an entry ends.
fn ended_hold(book: &Book, number: u32) -> Option<&Hold> {
    let ended = book.entry(number)?.what.answered()?;
    match &book.entry(ended)?.what {
        What::Hold(hold) => Some(hold),
        _ => None,
    }
}
