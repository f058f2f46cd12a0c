//! The connections that wait at an intake.
ghost use Rattle.std.specs.Prelude.{◌≡◌, ◌+◌, ◌<◌, ◌≤◌, ◌↔◌, vec_len, min, max, IfOk, IfSome, IsTrue, IsFalse};
ghost use Rattle.ilp_intake.specs.declared.limits.TheConstants.{MOST_WAITING};

use crate::admission::Admission;
use crate::closing::Closing;
use crate::connection::Connection;
use crate::limits::{MOST_WAITING, SPARED_US};
use crate::lingering::Lingering;
use crate::ready::ReadyConnection;
use crate::stage::Stage;
use crate::times::{earlier, latest};
use mio::net::TcpStream;
use mio::{Interest, Registry, Token};
use std::alloc::{AllocError, Global};
use std::time::Duration;
use std::{io, net};

/// The connections that wait, those that came first in front, and those that linger, likewise.
/// There are `most` in all.
#[derive(Drop)]
pub(crate) struct Connections<K> {
    waiting: Vec<Connection<K>>,
    lingering: Vec<Lingering>,
    ready: Ready<K>,
    closing: Closing,
    most: usize,
    // The number of the next one.
    next: usize,
    // Whether there may be some of which no event tells yet.
    has_new: bool,
    // When the intake was closed.
    closed: Option<Duration>,
    ghost few: { vec_len waiting + vec_len lingering ≤ most },
    ghost some: { 0 < most },
    ghost bounded: { most ≤ MOST_WAITING },
}

// Those that are ready, in their order: where each stands among those that wait, and of which kind it
// is. The list is made anew each time that one is to be given on.
#[derive(Drop)]
struct Ready<K> {
    places: Vec<usize>,
    kinds: Vec<K>,
}

impl<K: Copy> Ready<K> {
    fn new(alloc: Global, most: usize) -> Result<Ready<K>, AllocError> {
        Ok(Ready {
            places: Vec::with_capacity(alloc, most)?,
            kinds: Vec::with_capacity(alloc, most)?,
        })
    }

    // There is room for as many as may wait, so none is left out.
    fn list(&mut self, waiting: &[Connection<K>]) {
        self.places.clear();
        self.kinds.clear();
        for (place, connection) in waiting.iter().enumerate() {
            if let Stage::Ready { kind } = connection.stage() {
                let _ = self.places.push(place);
                let _ = self.kinds.push(kind);
            }
        }
    }

    // Where the one of this number in the list stands, and of which kind it is.
    fn get(&self, chosen: usize) -> Option<(usize, K)> {
        let place = self.places.get(chosen)?;
        let kind = self.kinds.get(chosen)?;
        Some((*place, *kind))
    }
}

impl<K: Copy> Connections<K> {
    /// None yet. There will be so many at most, but one at least and `MOST_WAITING` at most, of senders
    /// whose numbers are not above the last.
    pub(crate) fn new(alloc: Global, most: usize, last: u32) -> Result<Connections<K>, AllocError>
        ensures { IfOk result (λ connections. connections.most ≡ max 1 (min most MOST_WAITING)) }
    {
        let most = most.min(MOST_WAITING).max(1);
        Ok(Connections {
            waiting: Vec::with_capacity(alloc, most)?,
            lingering: Vec::with_capacity(alloc, most)?,
            ready: Ready::new(alloc, most)?,
            closing: Closing::new(alloc, most, last)?,
            most,
            next: 0,
            has_new: false,
            closed: None,
        })
    }

    /// Whether none waits. Some may linger.
    pub(crate) fn is_empty(&self) -> bool {
        self.waiting.is_empty()
    }

    // Whether there are as many as may be.
    fn is_full(&self) -> bool
        ensures { IsTrue result ↔ (vec_len self.now.waiting + vec_len self.now.lingering ≡ self.now.most) }
    {
        self.waiting.len() + self.lingering.len() == self.most
    }

    // Whether there are fewer than may be.
    fn has_room(&self) -> bool
        ensures { IsTrue result → vec_len self.now.waiting + vec_len self.now.lingering < self.now.most }
    {
        !self.is_full()
    }

    /// How long the next one is left with the system: where there is no room for it, as long as all that may
    /// be closed for it are spared. None where it may be accepted now.
    pub(crate) fn spared_for(&self, now: Duration) -> Option<Duration> {
        if self.has_room() || !self.lingering.is_empty() {
            return None;
        }
        let mut waiting = self.waiting.iter();
        let oldest = waiting.find(|connection| connection.is_waiting())?;
        let spared = Duration::from_micros(SPARED_US.saturating_mul(self.most as u64));
        let until = oldest.accepted().saturating_add(spared);
        if until <= now {
            return None;
        }
        Some(until.saturating_sub(now))
    }

    /// Adds a connection that was accepted at this time, and reads it: mostly its request has come
    /// by then, and is given on before any event need tell of it. Where there are as many as may be, one of
    /// them is closed. The added one is closed where it is lost already, or want of memory refuses it.
    pub(crate) fn add<D: Admission<Kind = K>>(
        &mut self,
        stream: TcpStream,
        now: Duration,
        admission: &mut D,
    ) {
        let alloc = *self.waiting.allocator();
        let mut connection = Connection::new(alloc, self.next, stream, now);
        connection.read(admission);
        if connection.is_lost() {
            return;
        }
        if self.is_full() {
            self.close_one(admission);
        }
        if !self.has_room() {
            return;
        }
        self.next = self.next.wrapping_add(1);
        self.has_new = true;
        let _ = self.waiting.push(connection);
    }

    // Closes one of them: one that lingers, else one whose request has not come whole, and else the newest of
    // the sender with most.
    fn close_one<D: Admission<Kind = K>>(&mut self, admission: &mut D) {
        let lingering = self.lingering.len();
        let waiting = self.waiting.as_slice();
        let Some(chosen) = self.closing.choose(lingering, waiting, admission) else {
            return;
        };
        if chosen < lingering {
            drop(self.lingering.remove(chosen));
            return;
        }
        let place = chosen - lingering;
        if place < self.waiting.len() {
            self.waiting.remove(place).turn_away(admission);
        }
    }

    /// Has events tell of all that wait: of more of their requests, or that they are lost. One whose request
    /// has not come whole is closed where the system refuses that.
    pub(crate) fn register_new(&mut self, registry: &Registry) {
        if !self.has_new {
            return;
        }
        self.has_new = false;
        for connection in self.waiting.iter_mut() {
            connection.register(registry);
        }
        self.waiting.retain(|connection| !connection.is_lost());
    }

    /// Closes the connection that lingers longest, or else the one that has waited longest for its
    /// request. False where neither is there.
    pub(crate) fn give_up_one(&mut self) -> bool
        ensures one { IsTrue result → vec_len self.new.waiting + vec_len self.new.lingering + 1
            ≡ vec_len self.old.waiting + vec_len self.old.lingering }
        ensures none { IsFalse result → (vec_len self.new.lingering ≡ 0)
            × (vec_len self.old.lingering ≡ 0) × (vec_len self.new.waiting ≡ vec_len self.old.waiting) }
        ensures most { self.new.most ≡ self.old.most }
    {
        if !self.lingering.is_empty() {
            drop(self.lingering.remove(0));
            return true;
        }
        match self.oldest() {
            Some(place) => {
                drop(self.waiting.remove(place));
                true
            }
            None => false,
        }
    }

    // The place of the one that has waited longest for its request.
    fn oldest(&self) -> Option<usize>
        ensures { IfSome result (λ place. place < vec_len self.now.waiting) }
    {
        let mut waiting = self.waiting.iter();
        waiting.position(|connection| connection.is_waiting())
    }

    /// Takes back a connection that was answered, and whose reads don't wait. Where there are as many as
    /// may be, the first that lingers is closed, and else this one.
    pub(crate) fn linger(&mut self, registry: &Registry, stream: net::TcpStream, now: Duration) {
        let _ = self.try_linger(registry, stream, now);
    }

    fn try_linger(
        &mut self,
        registry: &Registry,
        stream: net::TcpStream,
        now: Duration,
    ) -> io::Result<()> {
        if self.is_full() {
            if self.lingering.is_empty() {
                return Ok(());
            }
            drop(self.lingering.remove(0));
        }
        let mut stream = TcpStream::from_std(stream);
        registry.register(&mut stream, Token(self.next), Interest::READABLE)?;
        let lingering = Lingering::new(self.next, stream, now);
        self.next = self.next.wrapping_add(1);
        self.lingering.push(lingering)?;
        Ok(())
    }

    /// Takes in what an event tells of the connection of this number, if it is still here.
    pub(crate) fn handle_event<D: Admission<Kind = K>>(
        &mut self,
        number: usize,
        admission: &mut D,
    ) {
        let mut waiting = self.waiting.iter();
        match waiting.position(|connection| connection.number() == number) {
            Some(place) => self.waiting[place].handle_event(admission),
            None => self.drain(number),
        }
    }

    // Reads what has come of the connection of this number, if it lingers.
    fn drain(&mut self, number: usize) {
        let mut lingering = self.lingering.iter();
        if let Some(place) = lingering.position(|connection| connection.number() == number) {
            if !self.lingering[place].drain() {
                drop(self.lingering.remove(place));
            }
        }
    }

    /// Closes the connections that are lost, and those whose time is up.
    pub(crate) fn drop_expired(&mut self, now: Duration) {
        let closed = self.closed;
        self.waiting.retain(|connection| match connection.stage() {
            Stage::Waiting => now < latest(connection.accepted(), closed),
            Stage::Ready { .. } => true,
            Stage::Lost => false,
        });
        self.lingering.retain(|connection| now < connection.until());
    }

    /// Takes out the connection that is to be given on now, if one is.
    pub(crate) fn take_ready<D: Admission<Kind = K>>(
        &mut self,
        registry: &Registry,
        admission: &mut D,
    ) -> Option<ReadyConnection<K>> {
        for _ in 0..MOST_WAITING {
            self.ready.list(self.waiting.as_slice());
            let chosen = admission.admit(self.ready.kinds.as_slice())?;
            let (place, kind) = self.ready.get(chosen)?;
            if place >= self.waiting.len() {
                return None;
            }
            match self.waiting.remove(place).into_ready(registry, kind) {
                Ok(ready) => return Some(ready),
                Err(_) => admission.give_back(kind),
            }
        }
        None
    }

    /// Room for senders whose numbers are not above this last one.
    pub(crate) fn room_for(&self, last: u32) -> Result<Closing, AllocError> {
        Closing::new(*self.waiting.allocator(), self.most, last)
    }

    /// From now on the senders are those for whom this room was made.
    pub(crate) fn take_over(&mut self, closing: Closing) {
        self.closing = closing;
    }

    /// Looks anew at those whose request has come whole.
    pub(crate) fn look_anew<D: Admission<Kind = K>>(&mut self, admission: &mut D) {
        for connection in self.waiting.iter_mut() {
            connection.look_anew(admission);
        }
    }

    /// Closes the intake: what has not come in a second from now is not waited for.
    pub(crate) fn close(&mut self, now: Duration) {
        self.closed = Some(now);
    }

    /// How long connections are still given on, where the intake is closed and they are for so long.
    pub(crate) fn ending_left(&self, ending: Duration, now: Duration) -> Option<Duration> {
        let closed = self.closed?;
        Some(closed.saturating_add(ending).saturating_sub(now))
    }

    /// How much time is left until a connection may have to be closed for its time.
    pub(crate) fn time_left(&self, now: Duration) -> Option<Duration> {
        let mut waiting = self.waiting.iter();
        let first = waiting.find(|connection| connection.is_waiting());
        let waits = first.map(|connection| latest(connection.accepted(), self.closed));
        let lingers = self.lingering.first().map(|connection| connection.until());
        Some(earlier(waits, lingers)?.saturating_sub(now))
    }
}
