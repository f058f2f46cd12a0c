//! A connection that a loop serves.

use crate::late::ToldBy;
use ilp_desk::Naming;
use ilp_intake::ReadyConnection;
use ilp_links::{Call, Resumed};
use ilp_server::{PendingCredit, Response, Side, Work};
use ilp_workers::{Booked, EngineMessage, PeerMessage};
use mio::net::TcpStream;
use mio::{Interest, Registry, Token};
use std::io::ErrorKind;
use std::net;
use std::net::IpAddr;
use std::time::Duration;

// How long a client may take for a response that it doesn't take at once, in milliseconds.
const RESPONSE_MS: u64 = 10_000;

/// A connection that is served, and how far that is.
#[derive(Drop)]
pub(crate) struct Guest<J: Naming> {
    pub(crate) side: Side,
    pub(crate) work: Work,
    pub(crate) stage: Stage<J>,
    /// Of a packet that is held.
    pub(crate) told_by: Option<ToldBy>,
    stream: TcpStream,
    // Whether events tell of it.
    registered: bool,
}

/// How far the service of a connection is.
#[derive(Drop)]
pub(crate) enum Stage<J: Naming> {
    /// The next peer is called with the packet of this sender that waits under the key.
    Packet {
        sender: u32,
        key: usize,
        call: Call,
    },
    /// The engine here is called with a message.
    ToEngine {
        message: EngineMessage,
        call: Call,
    },
    /// A peer is called with a message of the engine here.
    ToPeer {
        message: PeerMessage,
        call: Call,
    },
    /// The end of this sender's packet is booked.
    Booked {
        sender: u32,
        booked: Booked<J>,
    },
    /// A settlement or a correction is booked.
    Credited(PendingCredit<J>),
    /// The connection has taken so many octets of the response, and is to take the rest by then.
    Responds {
        response: Response,
        taken: usize,
        until: Duration,
    },
    /// It is over.
    Over,
}

impl<J: Naming> Stage<J> {
    /// A response that is to be written from now on.
    pub(crate) fn responds(response: Response, now: Duration) -> Stage<J> {
        Stage::Responds {
            response,
            taken: 0,
            until: now.saturating_add(Duration::from_millis(RESPONSE_MS)),
        }
    }

    /// Whether it is booked, and may be told behind a journal of so many entries.
    pub(crate) fn is_behind(&self, entries: u32) -> bool {
        match self.behind() {
            Some(behind) => behind <= entries,
            None => false,
        }
    }

    /// Of what is booked, how many entries a journal has behind which it may be told.
    pub(crate) fn behind(&self) -> Option<u32> {
        match self {
            Stage::Booked { booked, .. } => Some(booked.behind()),
            Stage::Credited(pending) => Some(pending.behind()),
            _ => None,
        }
    }

    /// By when it is to be looked at, whatever comes.
    pub(crate) fn due(&self) -> Option<Duration> {
        match self {
            Stage::Packet { call, .. } => Some(call.due()),
            Stage::ToEngine { call, .. } => Some(call.due()),
            Stage::ToPeer { call, .. } => Some(call.due()),
            Stage::Responds { until, .. } => Some(*until),
            Stage::Booked { .. } => None,
            Stage::Credited(_) => None,
            Stage::Over => None,
        }
    }
}

/// What became of a response that was written on.
#[derive(Clone, Copy, PartialEq, Eq)]
pub(crate) enum Written {
    Whole,
    /// The connection has taken so many octets of it.
    Part(usize),
    Failed,
}

impl<J: Naming> Guest<J> {
    /// A connection of which nothing is served yet.
    pub(crate) fn new(side: Side, connection: ReadyConnection<Work>) -> (Guest<J>, Vec<u8>) {
        let ReadyConnection {
            stream,
            octets,
            kind,
        } = connection;
        let guest = Guest {
            side,
            work: kind,
            stage: Stage::Over,
            told_by: None,
            stream: TcpStream::from_std(stream),
            registered: false,
        };
        (guest, octets)
    }

    /// Its address, while the client is there.
    pub(crate) fn address(&self) -> Option<IpAddr> {
        self.stream.peer_addr().ok().map(|place| place.ip())
    }

    /// Writes a response on, behind so many octets that the connection has taken. Where it takes no more
    /// now, events of the token tell when it does.
    pub(crate) fn write(
        &mut self,
        registry: &Registry,
        token: Token,
        response: &Response,
        taken: usize,
    ) -> Written {
        let mut sink = Resumed::new(&self.stream, taken);
        if response.write(&mut sink).is_ok() {
            return Written::Whole;
        }
        let (taken, failure) = (sink.taken(), sink.failure());
        if failure != Some(ErrorKind::WouldBlock) {
            return Written::Failed;
        }
        if !self.registered {
            match registry.register(&mut self.stream, token, Interest::WRITABLE) {
                Ok(()) => self.registered = true,
                Err(_) => return Written::Failed,
            }
        }
        Written::Part(taken)
    }

    /// The connection, of which no event tells any more.
    pub(crate) fn into_stream(self, registry: &Registry) -> Option<net::TcpStream> {
        let Guest {
            side: _,
            work: _,
            stage: _,
            told_by: _,
            mut stream,
            registered,
        } = self;
        if registered && registry.deregister(&mut stream).is_err() {
            return None;
        }
        Some(net::TcpStream::from(stream))
    }
}
