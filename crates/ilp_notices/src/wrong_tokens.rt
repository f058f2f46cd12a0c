//! Requests that got 401, since they show no peer's token, by the addresses that they came from.

use crate::line::{Level, tell};
use crate::pace::Pace;
use crate::repeated::milliseconds;
use std::fmt;
use std::fmt::Display;
use std::io::Eprint;
use std::net::IpAddr;
use std::sync::{Mutex, Wait};
use std::time::Clock;

// For how many addresses there is room. Requests from others are counted all the same.
const ROWS: usize = 64;

/// Those that no line has told of. Threads share it by reference. Who counts never writes a line, so that
/// strangers don't hold up a worker.
#[derive(Drop)]
pub(crate) struct WrongTokens {
    counted: Mutex<Counted>,
}

impl WrongTokens {
    /// None yet.
    pub(crate) fn new() -> WrongTokens {
        WrongTokens {
            counted: Mutex::new(Counted::NONE),
        }
    }

    /// Counts one from this address, if that is known.
    pub(crate) fn count(&self, rt: &impl Wait, address: Option<IpAddr>) {
        let mut counted = self.counted.lock(rt);
        let counted = &mut *counted;
        counted.count(address);
    }

    /// Tells how many there were since the last line, where there were any and the next line is due.
    pub(crate) fn tell_due<R: Clock + Eprint + Wait>(&self, rt: &R) {
        let Some(now) = milliseconds(rt) else {
            return;
        };
        if let Some(sum) = self.take_due(rt, now) {
            tell(rt, Level::Warn, sum);
        }
    }

    /// Tells at once how many there were since the last line, where there were any.
    pub(crate) fn tell<R: Clock + Eprint + Wait>(&self, rt: &R) {
        if let Some(sum) = self.take(rt) {
            tell(rt, Level::Warn, sum);
        }
    }

    fn take_due(&self, rt: &impl Wait, now: u64) -> Option<Sum> {
        let mut counted = self.counted.lock(rt);
        let counted = &mut *counted;
        counted.take_due(now)
    }

    fn take(&self, rt: &impl Wait) -> Option<Sum> {
        let mut counted = self.counted.lock(rt);
        let counted = &mut *counted;
        counted.take()
    }
}

// How many came from an address. A row of none is free.
#[derive(Clone, Copy)]
struct Row {
    address: Option<IpAddr>,
    count: u64,
}

impl Row {
    const FREE: Row = Row {
        address: None,
        count: 0,
    };
}

// How many came in all and from each address, the free rows last, and when the next line is due.
#[derive(Clone, Copy)]
struct Counted {
    all: u64,
    rows: [Row; ROWS],
    pace: Pace,
}

impl Counted {
    const NONE: Counted = Counted {
        all: 0,
        rows: [Row::FREE; ROWS],
        pace: Pace { rest: 0, due: 0 },
    };

    fn count(&mut self, address: Option<IpAddr>) {
        self.all = self.all.saturating_add(1);
        for row in self.rows.iter_mut() {
            if row.count == 0 || row.address == address {
                *row = Row {
                    address,
                    count: row.count.saturating_add(1),
                };
                return;
            }
        }
    }

    // The sum, and none is counted any more, where there are any and a line is due at this moment.
    fn take_due(&mut self, now: u64) -> Option<Sum> {
        if self.all == 0 {
            return None;
        }
        self.pace = self.pace.after(now)?;
        self.take()
    }

    // The sum, and none is counted any more.
    fn take(&mut self) -> Option<Sum> {
        if self.all == 0 {
            return None;
        }
        let sum = Sum {
            all: self.all,
            most: self.most(),
        };
        self.all = 0;
        self.rows = [Row::FREE; ROWS];
        Some(sum)
    }

    // The row of the address that most came from, the first of those; of those that are not known none.
    fn most(&self) -> Row {
        let mut most = Row::FREE;
        for row in self.rows.iter() {
            if row.address.is_some() && row.count > most.count {
                most = *row;
            }
        }
        most
    }
}

// How many there were, and how many from the address that most came from.
#[derive(Clone, Copy)]
struct Sum {
    all: u64,
    most: Row,
}

impl Display for Sum {
    fn fmt<W: fmt::Write>(&self, f: &mut fmt::Formatter<W>) -> fmt::Result {
        match self.all {
            1 => f.write_str("wrong tokens: 1 request got 401")?,
            count => write!(f, "wrong tokens: {count} requests got 401")?,
        }
        match self.most.address {
            Some(address) => write!(f, ", {} from {address}", self.most.count),
            None => Ok(()),
        }
    }
}
