//! How many Rejects went to each peer, by their codes.
ghost use Rattle.std.specs.Prelude.{◌<◌, length};

use crate::line::{Level, tell};
use crate::repeated::milliseconds;
use ilp_accounts::Config;
use std::alloc::{AllocError, Global};
use std::fmt::Display;
use std::io::Eprint;
use std::sync::atomic::{AtomicU64, Ordering};
use std::sync::{Mutex, Wait};
use std::time::Clock;
use std::{fmt, mem};

// How many milliseconds lie between two times at which they are told.
const REST: u64 = 60_000;

// For how many pairs of a peer and a code there is room.
const ROWS: usize = 1_024;

/// The Rejects since they were last told. Threads share it by reference.
#[derive(Drop)]
pub(crate) struct Rejects {
    counted: Mutex<Table>,
    // What is being told. It changes places with what is counted, so that none who counts waits for
    // standard error.
    told: Mutex<Table>,
    // When they are told next, in milliseconds of the clock that never goes back; 0 before the first
    // look.
    due: AtomicU64,
}

impl Rejects {
    /// None yet, to so many peers. `AllocError` tells that memory is short.
    pub(crate) fn new(alloc: Global, peers: u32) -> Result<Rejects, AllocError> {
        Ok(Rejects {
            counted: Mutex::new(Table::new(alloc, peers)?),
            told: Mutex::new(Table::new(alloc, peers)?),
            due: AtomicU64::new(0),
        })
    }

    /// Counts one with this code to this peer.
    pub(crate) fn count(&self, rt: &impl Wait, peer: u32, code: [u8; 3]) {
        let mut counted = self.counted.lock(rt);
        let table = &mut *counted;
        table.count(peer, Code(code));
    }

    /// Whether a minute has passed since they were last told. The first minute begins at the first look.
    pub(crate) fn are_due(&self, rt: &impl Clock) -> bool {
        let Some(now) = milliseconds(rt) else {
            return false;
        };
        let due = self.due.load(Ordering::SeqCst);
        if now < due {
            return false;
        }
        self.due.store(now.saturating_add(REST), Ordering::SeqCst);
        due != 0
    }

    /// Tells them, one line a peer, and counts from none again.
    pub(crate) fn tell<R: Clock + Eprint + Wait>(&self, rt: &R, config: &Config) {
        let mut guard = self.told.lock(rt);
        let told = &mut *guard;
        self.take(rt, told);
        told.tell(rt, config);
        told.clear();
    }

    // Has an empty table change places with what was counted.
    fn take(&self, rt: &impl Wait, told: &mut Table) {
        let mut counted = self.counted.lock(rt);
        mem::swap(&mut *counted, told);
    }
}

// An error code of a Reject: any three octets.
#[derive(Clone, Copy, PartialEq, Eq)]
struct Code([u8; 3]);

impl Display for Code {
    fn fmt<W: fmt::Write>(&self, f: &mut fmt::Formatter<W>) -> fmt::Result {
        let [a, b, c] = self.0;
        if a.is_ascii_alphanumeric() && b.is_ascii_alphanumeric() && c.is_ascii_alphanumeric() {
            write!(f, "{}{}{}", char::from(a), char::from(b), char::from(c))
        } else {
            write!(f, "0x{a:02x}{b:02x}{c:02x}")
        }
    }
}

// How many Rejects with a code went to a peer. A row of none is free.
#[derive(Clone, Copy)]
struct Row {
    peer: u32,
    code: Code,
    count: u64,
}

impl Row {
    const FREE: Row = Row {
        peer: 0,
        code: Code([0; 3]),
        count: 0,
    };

    fn is_free(&self) -> bool {
        self.count == 0
    }

    fn is_of(&self, peer: u32) -> bool {
        self.peer == peer && self.count != 0
    }
}

// The rows, those that are free last, and what had no room in them, for each peer.
#[derive(Drop)]
struct Table {
    rows: Vec<Row>,
    others: Vec<u64>,
}

impl Table {
    fn new(alloc: Global, peers: u32) -> Result<Table, AllocError> {
        Ok(Table {
            rows: vec![in alloc; Row::FREE; ROWS]?,
            others: vec![in alloc; 0; peers as usize]?,
        })
    }

    fn count(&mut self, peer: u32, code: Code) {
        for row in self.rows.iter_mut() {
            if row.is_free() || (row.peer == peer && row.code == code) {
                *row = Row {
                    peer,
                    code,
                    count: row.count.saturating_add(1),
                };
                return;
            }
        }
        if let Some(others) = self.others.get_mut(peer as usize) {
            *others = others.saturating_add(1);
        }
    }

    fn tell<R: Clock + Eprint>(&self, rt: &R, config: &Config) {
        for peer in 0..config.peers() {
            if self.has(peer) {
                tell(rt, Level::Info, self.line(config, peer));
            }
        }
    }

    // Whether there are Rejects to this peer.
    fn has(&self, peer: u32) -> bool {
        self.others(peer) != 0 || self.rows.iter().any(|row| row.is_of(peer))
    }

    fn others(&self, peer: u32) -> u64 {
        self.others.get(peer as usize).copied().unwrap_or(0)
    }

    fn line<'t>(&'t self, config: &'t Config, peer: u32) -> Line<'t>
        requires { peer < length config.now.peers }
    {
        Line {
            table: self,
            name: config.name(peer),
            peer,
        }
    }

    fn clear(&mut self) {
        self.rows.fill(Row::FREE);
        self.others.fill(0);
    }
}

// The line on a peer.
#[derive(Clone, Copy)]
struct Line<'t> {
    table: &'t Table,
    name: &'t str,
    peer: u32,
}

impl Display for Line<'_> {
    fn fmt<W: fmt::Write>(&self, f: &mut fmt::Formatter<W>) -> fmt::Result {
        write!(f, "rejects to {}", self.name)?;
        let mut before = ": ";
        for row in self.table.rows.iter() {
            if row.is_of(self.peer) {
                write!(f, "{before}{} of {}", row.count, row.code)?;
                before = ", ";
            }
        }
        match self.table.others(self.peer) {
            0 => Ok(()),
            count => write!(f, "{before}{count} of other codes"),
        }
    }
}
