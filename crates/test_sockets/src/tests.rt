//! The links, against stand-ins of peers and engines, each a thread with a listener of its own; and the
//! running connector, in a conversation of its peers and a settlement engine, from its start to the
//! report that it prints.

mod links;
mod running;
mod sockets;

use ilp_link_traits::Clock;
use std::sync::atomic::{AtomicI64, Ordering};

// 2025-01-01T00:00:00Z.
const START: i64 = 1_735_689_600_000;

/// A clock that stands still there.
#[derive(Clone, Copy)]
struct Still;

impl Clock for Still {
    fn now(&mut self) -> i64 {
        START
    }
}

/// A clock that tells the moment that it was set to last, by whichever thread.
#[derive(Clone, Copy)]
struct Settable<'a>(&'a AtomicI64);

impl Clock for Settable<'_> {
    fn now(&mut self) -> i64 {
        self.0.load(Ordering::SeqCst)
    }
}

// A Fulfill of 32 zero octets, without data.
const FULFILL: &[u8] =
    b"\x0d\x21\0\0\0\0\0\0\0\0\0\0\0\0\0\0\0\0\0\0\0\0\0\0\0\0\0\0\0\0\0\0\0\0\0";
