//! The intake of one listening socket.

use crate::admission::Admission;
use crate::closing::Closing;
use crate::connections::Connections;
use crate::limits::{MOST_AT_ONCE, MOST_AT_THE_CLOSE, MOST_EVENTS, MOST_RETURNED, REST_MS};
use crate::lingering::end_writing;
use crate::listener::{Listener, NotAccepted};
use crate::ready::ReadyConnection;
use crate::times::earlier;
use crate::watch::Watch;
use crossbeam_channel::{Receiver, Sender, bounded};
use mio::{Events, Poll, Token, Waker};
use std::alloc::{AllocError, Global};
use std::net::{Net, TcpStream};
use std::sync::Wait;
use std::time::{Clock, Duration};
use std::{io, thread};

// What events are of. Connections have numbers from 0 on, and there are never so many.
const LISTENER: Token = Token(usize::MAX);

const CLOSE: Token = Token(usize::MAX - 1);

const LOOK: Token = Token(usize::MAX - 2);

/// Takes in the connections of one listening socket, and gives them on one by one, as an `Admission`
/// decides.
///
/// What no clause can say, since the system holds it: connections are accepted and read without
/// waiting for any one client, nor for whoever takes them; at most so many wait as it was made for,
/// and past that one is closed, where no more than 10,000 a second come, and else later; where the system
/// has no descriptor for one more, the oldest goes whose request has not come whole; each has 10 seconds
/// in all for its request, and is closed without an answer then; and its octets take 81,920 of memory at
/// most, and none while nothing came. One that was answered is read on until its client closes it, for a
/// second and to 1 MiB at most, which takes no memory, and counts among those that wait.
#[derive(Drop)]
pub struct Intake<K> {
    poll: Poll,
    events: Events,
    // None once the intake is closed.
    listener: Option<Listener>,
    backlog: Backlog,
    connections: Connections<K>,
    // Connections that are handed back.
    returned: Receiver<TcpStream>,
    // For how long connections are still given on once it is closed.
    ending: Duration,
    watch: Watch,
}

/// Room that an intake wants for its senders.
#[derive(Drop)]
pub struct RoomForSenders {
    closing: Closing,
}

/// Reaches an intake from other threads.
#[derive(Drop)]
pub struct IntakeHandle {
    close: Waker,
    look: Waker,
    returned: Sender<TcpStream>,
}

impl IntakeHandle {
    /// Has the intake accept no more. The connections that wait there are still given on, as far as
    /// their requests come within a second.
    pub fn close(&self) {
        let _ = self.close.wake();
    }

    /// Has the intake ask again which connections are given on: one that was not may be now.
    pub fn look_again(&self) {
        let _ = self.look.wake();
    }

    /// Hands back a connection that was answered, and whose reads don't wait, so that the answer reaches its
    /// client whatever that still sends. It is written to no more. Unless its client has ended its side, the
    /// intake reads and drops what comes for a second at most, and to `MOST_DROPPED` octets, and closes the
    /// connection once its client does, or then. It waits for nobody: where too many are on their
    /// way, or the intake has ended, the connection is closed at once, behind a piece of what has come.
    pub fn linger(&self, rt: &impl Wait, stream: TcpStream) {
        let stream = mio::net::TcpStream::from_std(stream);
        if !end_writing(&stream) {
            return;
        }
        let stream = TcpStream::from(stream);
        if self.returned.try_send(rt, stream).is_ok() {
            let _ = self.look.wake();
        }
    }
}

/// What an intake has next.
#[derive(Drop)]
pub enum Next<K> {
    /// A connection that is to be given on.
    Ready(ReadyConnection<K>),
    /// Nothing for now, as the admission says. Those that wait go on waiting.
    Paused,
    /// Nothing any more: it was closed.
    Ended,
}

// Whether connections wait at the listener to be accepted.
#[derive(Clone, Copy, PartialEq, Eq)]
enum Backlog {
    // None that is known of.
    Empty,
    // One waits.
    Pending,
    // One waits, or did, and could not be accepted.
    Blocked,
    // One waits, or did, and is accepted once so much time is over.
    Spared(Duration),
}

impl<K: Copy> Intake<K> {
    /// The intake of a listening socket, and what reaches it. So many connections wait at most, of
    /// which each has a descriptor: at least 1 and at most `MOST_WAITING`, whatever is asked for. Their
    /// senders' numbers are not above the last. Once
    /// it is closed, connections are given on for so long at most. Where memory is denied the error's
    /// kind is `OutOfMemory`.
    pub fn new(
        rt: &impl Net,
        alloc: Global,
        listener: Listener,
        most: usize,
        last: u32,
        ending: Duration,
    ) -> io::Result<(Intake<K>, IntakeHandle)> {
        let mut listener = listener;
        let poll = Poll::new(rt)?;
        // Each of these has a descriptor too.
        let (sender, returned) = bounded(alloc, most.min(MOST_RETURNED).max(1))?;
        let handle = IntakeHandle {
            close: Waker::new(poll.registry(), CLOSE)?,
            look: Waker::new(poll.registry(), LOOK)?,
            returned: sender,
        };
        listener.register(poll.registry(), LISTENER)?;
        let intake = Intake {
            poll,
            events: Events::with_capacity(alloc, MOST_EVENTS)?,
            listener: Some(listener),
            backlog: Backlog::Empty,
            connections: Connections::new(alloc, most, last)?,
            returned,
            ending,
            watch: Watch::new(),
        };
        Ok((intake, handle))
    }

    /// The next connection that is to be given on: of those whose request has come whole, is refused
    /// as it stands, or whose client sends nothing more, the one that is admitted. Waits until there
    /// is one, or the admission pauses. `Ended` once the intake was closed and no connection waits, or its
    /// time is over: those that wait then are closed with it, as are those that linger.
    pub fn next<R: Clock + Wait, D: Admission<Kind = K>>(
        &mut self,
        rt: &R,
        admission: &mut D,
    ) -> Next<K> {
        self.watch.resume(rt);
        for _ in rt.forever() {
            if admission.pauses() {
                return Next::Paused;
            }
            let now = self.watch.last();
            let left = self.connections.ending_left(self.ending, now);
            if left == Some(Duration::ZERO) {
                return Next::Ended;
            }
            let registry = self.poll.registry();
            if let Some(ready) = self.connections.take_ready(registry, admission) {
                return Next::Ready(ready);
            }
            if self.listener.is_none() && self.connections.is_empty() {
                return Next::Ended;
            }
            self.handle_events(rt, admission);
        }
        unreachable!()
    }

    /// Room for senders whose numbers are not above this last one.
    pub fn room_for(&self, last: u32) -> Result<RoomForSenders, AllocError> {
        let closing = self.connections.room_for(last)?;
        Ok(RoomForSenders { closing })
    }

    /// From now on the senders are those for whom this room was made, and once it is closed connections are
    /// given on for so long at most. An admission that knows them is to look anew.
    pub fn take_over(&mut self, room: RoomForSenders, ending: Duration) {
        let RoomForSenders { closing } = room;
        self.connections.take_over(closing);
        self.ending = ending;
    }

    /// Looks anew at those that wait, by an admission that may know them otherwise.
    pub fn look_anew<D: Admission<Kind = K>>(&mut self, admission: &mut D) {
        self.connections.look_anew(admission);
    }

    /// Closes it now, where it was asked to close while nothing was asked of it. Connections that came
    /// before are accepted; they are given on, and time counts for them, once the next one is asked for.
    pub fn close<D: Admission<Kind = K>>(&mut self, admission: &mut D) {
        let now = self.watch.last();
        self.accept_pending(now, admission, true);
        self.stop_listening(now, admission);
    }

    // Waits until events come or a connection's time is up, and handles both.
    fn handle_events<R: Clock + Wait, D: Admission<Kind = K>>(
        &mut self,
        rt: &R,
        admission: &mut D,
    ) {
        self.connections.register_new(self.poll.registry());
        let timeout = self.poll_timeout();
        if self.poll.poll(&mut self.events, timeout).is_err() {
            thread::sleep(rt, Duration::from_millis(REST_MS));
        }
        let now = self.watch.read(rt);
        let (mut closing, mut returning) = (false, false);
        for event in self.events.iter() {
            match event.token() {
                LISTENER => self.backlog = Backlog::Pending,
                CLOSE => closing = true,
                LOOK => returning = true,
                Token(number) => self.connections.handle_event(number, admission),
            }
        }
        if returning {
            self.take_returned(rt, now);
        }
        // Connections that came before the close are accepted.
        if closing || self.backlog != Backlog::Empty {
            self.accept_pending(now, admission, closing);
        }
        if closing {
            self.stop_listening(now, admission);
        }
        self.connections.drop_expired(now);
    }

    // Accepts no more.
    fn stop_listening<D: Admission<Kind = K>>(&mut self, now: Duration, admission: &mut D) {
        self.backlog = Backlog::Empty;
        if let Some(listener) = self.listener.take() {
            drop(listener);
            self.connections.close(now);
            admission.note_closed();
        }
    }

    // How long to wait for events at most; none for as long as it takes.
    fn poll_timeout(&self) -> Option<Duration> {
        let now = self.watch.last();
        let left = earlier(
            self.connections.time_left(now),
            self.connections.ending_left(self.ending, now),
        );
        match self.backlog {
            Backlog::Empty => left,
            Backlog::Pending => Some(Duration::ZERO),
            Backlog::Blocked => {
                let rest = Duration::from_millis(REST_MS);
                Some(left.unwrap_or(rest).min(rest))
            }
            Backlog::Spared(rest) => Some(left.unwrap_or(rest).min(rest)),
        }
    }

    // Takes back connections that were answered. There is an event for each that comes behind these.
    fn take_returned(&mut self, rt: &impl Wait, now: Duration) {
        for _ in 0..MOST_RETURNED {
            let Ok(stream) = self.returned.try_recv(rt) else {
                return;
            };
            self.connections.linger(self.poll.registry(), stream, now);
        }
    }

    // Accepts the connections that wait at the listener, so many of them at most. Before the close none is
    // accepted for which another would go that is spared: it waits at the listener for as long.
    //
    // Where the system is short of descriptors it says so also while none waits. So a connection is
    // given up only for one that is known to wait, and else the listener's event tells whether one does.
    fn accept_pending<D: Admission<Kind = K>>(
        &mut self,
        now: Duration,
        admission: &mut D,
        closing: bool,
    ) {
        let Some(listener) = &mut self.listener else {
            return;
        };
        let most = if closing {
            MOST_AT_THE_CLOSE
        } else {
            MOST_AT_ONCE
        };
        let registry = self.poll.registry();
        let mut one_waits = self.backlog != Backlog::Empty;
        self.backlog = Backlog::Empty;
        for _ in 0..most {
            if let Some(rest) = self.connections.spared_for(now) {
                if !closing {
                    self.backlog = Backlog::Spared(rest);
                    return;
                }
            }
            match listener.accept() {
                Ok(stream) => {
                    self.connections.add(stream, now, admission);
                    one_waits = false;
                }
                Err(NotAccepted::Lost) => one_waits = false,
                Err(NotAccepted::NoneWaits) => return,
                Err(NotAccepted::Short) if one_waits && self.connections.give_up_one() => {}
                Err(NotAccepted::Short) if !one_waits => break,
                Err(NotAccepted::Short | NotAccepted::Failed) => {
                    self.backlog = Backlog::Blocked;
                    return;
                }
            }
        }
        if listener.ask_again(registry, LISTENER).is_err() {
            self.backlog = Backlog::Blocked;
        }
    }
}
