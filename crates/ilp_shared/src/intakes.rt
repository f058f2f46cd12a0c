//! What reaches the intakes of both sides, who waits for their close, and when that is over.

use crate::asker::Asker;
use crate::places::HeldBack;
use ilp_intake::IntakeHandle;
use ilp_server::Side;
use std::alloc::{AllocError, Global};
use std::mem;
use std::net::TcpStream;
use std::sync::atomic::{AtomicU64, Ordering};
use std::sync::{Mutex, Wait};
use std::time::{Clock, Duration};

// How long connections are still served after a close, beside the longest hold, in milliseconds.
const MARGIN_MS: u64 = 10_000;

// How many may wait at once until a close is done.
const MOST_CLOSERS: usize = 256;

/// For how long connections that were accepted are still served after a close, where packets are held
/// for so many milliseconds at most.
pub fn ending_after(max_hold_ms: u32) -> Duration {
    Duration::from_millis(u64::from(max_hold_ms).saturating_add(MARGIN_MS))
}

/// What reaches the intakes of both sides, and whether what still waits there is served after a close.
/// Threads share it by reference.
#[derive(Drop)]
pub struct Intakes {
    peers: IntakeHandle,
    engines: IntakeHandle,
    // For how long connections are served once it is closed.
    after: Duration,
    // When none is served any more, in milliseconds of the clock that never goes back; the greatest
    // number while it is not closed.
    over: AtomicU64,
    closing: Mutex<Closing>,
}

// Which sides accept connections, and who asked for a close, and waits until neither does.
#[derive(Drop)]
struct Closing {
    peers: bool,
    engines: bool,
    closers: Vec<Asker>,
}

impl Closing {
    // Has who asked wait, and gives him back where neither side accepts. One more than may wait is closed
    // unanswered.
    fn add(&mut self, closer: Asker) -> Option<Asker> {
        if !self.peers && !self.engines {
            return Some(closer);
        }
        if self.closers.len() < MOST_CLOSERS {
            let _ = self.closers.push(closer);
        }
        None
    }

    // This side accepts no more. Gives all who wait where the other one doesn't either.
    fn note_closed(&mut self, side: Side) -> Vec<Asker> {
        match side {
            Side::Ilp => self.peers = false,
            Side::Engine => self.engines = false,
        }
        let none = Vec::new(*self.closers.allocator());
        if self.peers || self.engines {
            return none;
        }
        mem::replace(&mut self.closers, none)
    }
}

impl Intakes {
    /// The intakes of these handles, which accept. After a close they are served for so long.
    pub fn new(
        alloc: Global,
        peers: IntakeHandle,
        engines: IntakeHandle,
        after: Duration,
    ) -> Result<Intakes, AllocError> {
        Ok(Intakes {
            peers,
            engines,
            after,
            over: AtomicU64::new(u64::MAX),
            closing: Mutex::new(Closing {
                peers: true,
                engines: true,
                closers: Vec::with_capacity(alloc, MOST_CLOSERS)?,
            }),
        })
    }

    /// After a close they are served for so long, from now on.
    pub fn serve_for(&mut self, after: Duration) {
        self.after = after;
    }

    /// Has both sides accept no more, and counts the time from here. A second close changes nothing. Who asks
    /// is answered once neither accepts.
    pub fn close<R: Wait + Clock>(&self, rt: &R, closer: Asker) {
        self.count_from_now(rt);
        let answered = self.closing.lock(rt).add(closer);
        match answered {
            Some(closer) => closer.closed(rt, self),
            None => self.accept_no_more(),
        }
    }

    /// Has both sides accept no more, as a close does, though nobody asked for one.
    pub fn end<R: Clock>(&self, rt: &R) {
        self.count_from_now(rt);
        self.accept_no_more();
    }

    // Counts the time from here, unless it is counted.
    fn count_from_now<R: Clock>(&self, rt: &R) {
        if let Ok(now) = rt.monotonic() {
            let over = in_milliseconds(now.saturating_add(self.after));
            let _ = self
                .over
                .compare_exchange(u64::MAX, over, Ordering::SeqCst, Ordering::SeqCst);
        }
    }

    /// Whether somebody asked for the close, and a side accepts connections all the same.
    pub fn has_closers(&self, rt: &impl Wait) -> bool {
        !self.closing.lock(rt).closers.is_empty()
    }

    /// This side accepts no more. Where the other one doesn't either, all who asked for the close are
    /// answered.
    pub fn note_closed(&self, rt: &impl Wait, side: Side) {
        let closers = self.closing.lock(rt).note_closed(side);
        for closer in closers {
            closer.closed(rt, self);
        }
    }

    /// Has both sides accept no more.
    pub fn accept_no_more(&self) {
        self.peers.close();
        self.engines.close();
    }

    /// Tells the intakes of these sides that a connection which waits there may be given on now.
    pub fn look_again(&self, held_back: HeldBack) {
        if held_back.peers {
            self.peers.look_again();
        }
        if held_back.engines {
            self.engines.look_again();
        }
    }

    /// Closes an answered connection, whose reads don't wait: the intake of this side reads on, for a moment,
    /// what its client still sends.
    pub fn linger(&self, rt: &impl Wait, side: Side, stream: TcpStream) {
        match side {
            Side::Ilp => self.peers.linger(rt, stream),
            Side::Engine => self.engines.linger(rt, stream),
        }
    }

    /// Whether what has not begun is closed unanswered. While the clock can't be read, nothing is.
    pub fn is_over(&self, rt: &impl Clock) -> bool {
        match rt.monotonic() {
            Ok(now) => self.over.load(Ordering::SeqCst) <= in_milliseconds(now),
            Err(_) => false,
        }
    }
}

fn in_milliseconds(time: Duration) -> u64 {
    u64::try_from(time.as_millis()).unwrap_or(u64::MAX)
}
