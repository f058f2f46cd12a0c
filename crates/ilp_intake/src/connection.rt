//! A connection that waits until its request has come.

use crate::admission::Admission;
use crate::incoming::{Arrival, Incoming};
use crate::limits::PIECE;
use crate::lingering::end_writing;
use crate::ready::ReadyConnection;
use crate::stage::Stage;
use ilp_http::BUFFER_LENGTH;
use mio::net::TcpStream;
use mio::{Interest, Registry, Token};
use std::alloc::Global;
use std::io::{ErrorKind, Read};
use std::time::Duration;
use std::{io, net};

/// A connection that waits.
#[derive(Drop)]
pub(crate) struct Connection<K> {
    // The number by which an event names it.
    number: usize,
    stream: TcpStream,
    incoming: Incoming,
    accepted: Duration,
    stage: Stage<K>,
    // Whether events tell of it.
    registered: bool,
}

impl<K: Copy> Connection<K> {
    /// A connection of which nothing is read yet, and of which no event tells.
    pub(crate) fn new(
        alloc: Global,
        number: usize,
        stream: TcpStream,
        accepted: Duration,
    ) -> Connection<K> {
        Connection {
            number,
            stream,
            incoming: Incoming::new(alloc),
            accepted,
            stage: Stage::Waiting,
            registered: false,
        }
    }

    /// The number by which an event names it.
    pub(crate) fn number(&self) -> usize {
        self.number
    }

    /// How far it is.
    pub(crate) fn stage(&self) -> Stage<K> {
        self.stage
    }

    /// Whether its request has not come whole.
    pub(crate) fn is_waiting(&self) -> bool {
        matches!(self.stage, Stage::Waiting)
    }

    /// Whether it is to be closed without an answer.
    pub(crate) fn is_lost(&self) -> bool {
        matches!(self.stage, Stage::Lost)
    }

    /// When it was accepted.
    pub(crate) fn accepted(&self) -> Duration {
        self.accepted
    }

    /// Has events tell of it, if none does. Where the system refuses that, it is lost if more of its request
    /// has to come.
    pub(crate) fn register(&mut self, registry: &Registry) {
        if self.registered {
            return;
        }
        let interest = Interest::READABLE;
        match registry.register(&mut self.stream, Token(self.number), interest) {
            Ok(()) => self.registered = true,
            Err(_) if self.is_waiting() => self.stage = Stage::Lost,
            Err(_) => {}
        }
    }

    /// Takes in what an event of it tells. One that waits is read. One that is ready is not read on,
    /// and is lost where the system tells of a failure.
    pub(crate) fn handle_event<D: Admission<Kind = K>>(&mut self, admission: &mut D) {
        match self.stage {
            Stage::Waiting => self.read(admission),
            Stage::Ready { .. } => {
                if !matches!(self.stream.take_error(), Ok(None)) {
                    self.stage = Stage::Lost;
                }
            }
            Stage::Lost => {}
        }
    }

    /// Reads until it is ready or lost, or nothing more has come. Each read but those that were
    /// interrupted gives an octet at least, so there are no more reads than octets of a request.
    pub(crate) fn read<D: Admission<Kind = K>>(&mut self, admission: &mut D) {
        for _ in 0..=BUFFER_LENGTH {
            match self.read_piece() {
                Ok(Some(Arrival::Partial)) => {}
                Ok(_) => {
                    self.stage = Stage::Ready {
                        kind: admission.kind_of(self.incoming.octets()),
                    };
                    return;
                }
                Err(error) if error.kind() == ErrorKind::Interrupted => {}
                Err(error) if error.kind() == ErrorKind::WouldBlock => return,
                Err(_) => {
                    self.stage = Stage::Lost;
                    return;
                }
            }
        }
    }

    /// Looks anew of which kind it is, where its request has come whole.
    pub(crate) fn look_anew<D: Admission<Kind = K>>(&mut self, admission: &mut D) {
        if let Stage::Ready { .. } = self.stage {
            self.stage = Stage::Ready {
                kind: admission.kind_of(self.incoming.octets()),
            };
        }
    }

    // What a piece makes of the request; nothing where the client sends none any more.
    fn read_piece(&mut self) -> io::Result<Option<Arrival>> {
        let mut piece = [0; PIECE];
        match self.stream.read(&mut piece)? {
            0 => Ok(None),
            count => Ok(Some(self.incoming.add(&piece[..count])?)),
        }
    }

    /// Tells its client that it is closed, where its request has come whole. There is no room for it to
    /// linger: what has come behind its request is dropped, so that this brings no reset.
    pub(crate) fn turn_away<D: Admission<Kind = K>>(self, admission: &mut D) {
        if let Stage::Ready { kind } = self.stage {
            admission.turn_away(kind, &self.stream);
            let _ = end_writing(&self.stream);
        }
    }

    /// The connection as it is given on. No event tells of it any more.
    pub(crate) fn into_ready(self, registry: &Registry, kind: K) -> io::Result<ReadyConnection<K>> {
        let Connection {
            number: _,
            mut stream,
            incoming,
            accepted: _,
            stage: _,
            registered,
        } = self;
        if registered {
            registry.deregister(&mut stream)?;
        }
        Ok(ReadyConnection {
            stream: net::TcpStream::from(stream),
            octets: incoming.into_octets(),
            kind,
        })
    }
}
