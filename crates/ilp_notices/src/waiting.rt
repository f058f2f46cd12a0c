//! Who waits for whom.
ghost use Rattle.std.specs.Prelude.{◌<◌, length};

use crate::notices::Notices;
use ilp_accounts::Config;
use std::fmt;
use std::fmt::Display;
use std::sync::atomic::{AtomicU64, Ordering};

/// How many packets and messages wait for one peer or one engine now. Threads share it by reference.
#[derive(Drop)]
pub(crate) struct Waiters {
    count: AtomicU64,
}

impl Waiters {
    /// None waits.
    pub(crate) fn new() -> Waiters {
        Waiters {
            count: AtomicU64::new(0),
        }
    }

    fn add(&self) {
        self.count.fetch_add(1, Ordering::SeqCst);
    }

    fn remove(&self) {
        self.count.fetch_sub(1, Ordering::SeqCst);
    }

    fn count(&self) -> u64 {
        self.count.load(Ordering::SeqCst)
    }
}

impl Notices {
    /// Counts that one more waits for a peer, until `peer_is_over`.
    pub fn waits_for_peer(&self, peer: u32) {
        if let Some(of_peer) = self.peers.get(peer as usize) {
            of_peer.wait_for_peer.add();
        }
    }

    /// One for which `waits_for_peer` was told waits no more.
    pub fn peer_is_over(&self, peer: u32) {
        if let Some(of_peer) = self.peers.get(peer as usize) {
            of_peer.wait_for_peer.remove();
        }
    }

    /// Counts that one more waits for the engine of a peer, until `engine_is_over`.
    pub fn waits_for_engine(&self, peer: u32) {
        if let Some(of_peer) = self.peers.get(peer as usize) {
            of_peer.wait_for_engine.add();
        }
    }

    /// One for which `waits_for_engine` was told waits no more.
    pub fn engine_is_over(&self, peer: u32) {
        if let Some(of_peer) = self.peers.get(peer as usize) {
            of_peer.wait_for_engine.remove();
        }
    }
}

/// Who waits for whom now, as `of 4 in flight 2 wait for peer bob, 1 for the engine of alice`.
#[derive(Clone, Copy)]
pub(crate) struct WhoWaits<'a> {
    pub(crate) notices: &'a Notices,
    pub(crate) config: &'a Config,
    // How many may be in flight.
    pub(crate) in_flight: u32,
}

impl Display for WhoWaits<'_> {
    fn fmt<W: fmt::Write>(&self, f: &mut fmt::Formatter<W>) -> fmt::Result {
        write!(f, "of {} in flight", self.in_flight)?;
        let begun = self.write_all(f, Whom::Peer, Begun::NotYet)?;
        match self.write_all(f, Whom::Engine, begun)? {
            Begun::NotYet => f.write_str(" none waits for a peer or an engine"),
            Begun::Already => Ok(()),
        }
    }
}

impl WhoWaits<'_> {
    // Writes how many wait for each peer, or for each engine, and whether one was written by then.
    fn write_all<W: fmt::Write>(
        &self,
        f: &mut fmt::Formatter<W>,
        whom: Whom,
        begun: Begun,
    ) -> Result<Begun, fmt::Error> {
        let mut begun = begun;
        for peer in 0..self.config.peers() {
            let count = self.count(whom, peer);
            if count != 0 {
                write!(f, "{}{}", begun.before(count), self.named(whom, peer))?;
                begun = Begun::Already;
            }
        }
        Ok(begun)
    }

    fn count(&self, whom: Whom, peer: u32) -> u64 {
        match (self.notices.peers.get(peer as usize), whom) {
            (Some(of_peer), Whom::Peer) => of_peer.wait_for_peer.count(),
            (Some(of_peer), Whom::Engine) => of_peer.wait_for_engine.count(),
            (None, _) => 0,
        }
    }

    fn named(&self, whom: Whom, peer: u32) -> Named<'_>
        requires { peer < length self.now.config.now.peers }
    {
        Named {
            whom,
            name: self.config.name(peer),
        }
    }
}

// What is waited for.
#[derive(Clone, Copy)]
enum Whom {
    Peer,
    Engine,
}

// What is waited for, by the peer's name.
#[derive(Clone, Copy)]
struct Named<'a> {
    whom: Whom,
    name: &'a str,
}

impl Display for Named<'_> {
    fn fmt<W: fmt::Write>(&self, f: &mut fmt::Formatter<W>) -> fmt::Result {
        f.write_str(match self.whom {
            Whom::Peer => "peer ",
            Whom::Engine => "the engine of ",
        })?;
        f.write_str(self.name)
    }
}

// Whether the list of those who wait has begun.
#[derive(Clone, Copy)]
enum Begun {
    NotYet,
    Already,
}

impl Begun {
    // What stands before the name of whom so many wait for.
    fn before(self, count: u64) -> Before {
        Before { begun: self, count }
    }
}

#[derive(Clone, Copy)]
struct Before {
    begun: Begun,
    count: u64,
}

impl Display for Before {
    fn fmt<W: fmt::Write>(&self, f: &mut fmt::Formatter<W>) -> fmt::Result {
        match (self.begun, self.count) {
            (Begun::Already, count) => write!(f, ", {count} for "),
            (Begun::NotYet, 1) => f.write_str(" 1 waits for "),
            (Begun::NotYet, count) => write!(f, " {count} wait for "),
        }
    }
}
