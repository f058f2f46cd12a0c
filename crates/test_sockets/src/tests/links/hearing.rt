//! A runtime that keeps what is written to standard error.

use std::alloc::Global;
use std::fmt::Display;
use std::io;
use std::io::Eprint;
use std::net::{Net, SocketAddr};
use std::sync::atomic::{AtomicBool, Ordering};
use std::sync::{Mutex, Wait};
use std::time::{Clock, Duration};

/// The network, the waits and the clock that never goes back of another runtime, at a moment that stands
/// still. What is written to standard error stands in its text.
#[derive(Drop)]
pub(super) struct Hearing<R: Copy> {
    rt: R,
    alloc: Global,
    // In milliseconds since 1970.
    moment: u64,
    text: Mutex<String>,
}

impl<R: Copy> Hearing<R> {
    pub(super) fn new(rt: R, alloc: Global, moment: u64) -> Hearing<R> {
        Hearing {
            rt,
            alloc,
            moment,
            text: Mutex::new(String::new(alloc)),
        }
    }

    /// Whether what was written begins so.
    pub(super) fn wrote(&self, text: &str) -> bool {
        match self.text.try_lock() {
            Some(written) => written.as_str().starts_with(text),
            None => false,
        }
    }

    /// Whether this was written, and nothing else.
    pub(super) fn wrote_only(&self, text: &str) -> bool {
        match self.text.try_lock() {
            Some(written) => written.as_str() == text,
            None => false,
        }
    }
}

impl<R: Copy> Eprint for Hearing<R> {
    fn eprint<D: Display + Drop>(&self, value: D) -> io::Result<()> {
        let more = format!(in self.alloc; "{value}")?;
        let Some(mut text) = self.text.try_lock() else {
            return Err(io::Error::from(io::ErrorKind::ResourceBusy));
        };
        text.push_str(more.as_str())?;
        Ok(())
    }

    fn eprintln<D: Display + Drop>(&self, value: D) -> io::Result<()> {
        self.eprint(value)?;
        self.eprint("\n")
    }
}

impl<R: Clock + Copy> Clock for Hearing<R> {
    fn monotonic(&self) -> io::Result<Duration> {
        self.rt.monotonic()
    }

    fn since_1970(&self) -> io::Result<Duration> {
        Ok(Duration::from_millis(self.moment))
    }
}

impl<R: Wait + Copy> Wait for Hearing<R> {}

impl<R: Net + Copy> Net for Hearing<R> {
    type Stream = R::Stream;

    type Listener = R::Listener;

    fn bind(&self, addr: SocketAddr) -> io::Result<R::Listener> {
        self.rt.bind(addr)
    }

    fn connect(&self, addr: SocketAddr) -> io::Result<R::Stream> {
        self.rt.connect(addr)
    }

    fn connect_timeout(&self, addr: SocketAddr, timeout: Duration) -> io::Result<R::Stream> {
        self.rt.connect_timeout(addr, timeout)
    }
}

/// Another runtime, with clocks that stand at so many milliseconds.
#[derive(Clone, Copy)]
pub(super) struct At<R> {
    pub(super) rt: R,
    pub(super) milliseconds: u64,
}

impl<R> Clock for At<R> {
    fn monotonic(&self) -> io::Result<Duration> {
        Ok(Duration::from_millis(self.milliseconds))
    }

    fn since_1970(&self) -> io::Result<Duration> {
        Ok(Duration::from_millis(self.milliseconds))
    }
}

impl<R: Wait> Wait for At<R> {}

/// A clock that tells so many milliseconds, while it works.
#[derive(Clone, Copy)]
pub(super) struct Stopping<'c> {
    pub(super) works: &'c AtomicBool,
    pub(super) milliseconds: u64,
}

impl Stopping<'_> {
    fn read(&self) -> io::Result<Duration> {
        if self.works.load(Ordering::SeqCst) {
            Ok(Duration::from_millis(self.milliseconds))
        } else {
            Err(io::Error::from(io::ErrorKind::Other))
        }
    }
}

impl Clock for Stopping<'_> {
    fn monotonic(&self) -> io::Result<Duration> {
        self.read()
    }

    fn since_1970(&self) -> io::Result<Duration> {
        self.read()
    }
}
