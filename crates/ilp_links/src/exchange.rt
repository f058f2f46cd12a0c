//! A request over a connection of its own, and its response, of which nothing waits.

use crate::no_answer::NoAnswer;
use crate::reply_room::{PIECE, ReplyRoom};
use crate::resumed::Resumed;
use crate::so_far::{SoFar, has_empty_line, lacking};
use ilp_client::PostFault;
use ilp_http::{
    BODY_LIMIT, Buffer, HEAD_LIMIT, MOST_READS, Outgoing, Response, ResponseFault, read_response,
    write_request,
};
use ilp_oer::Octets;
use mio::net::TcpStream;
use mio::{Interest, Registry, Token};
use std::alloc::{AllocError, Global};
use std::io::{ErrorKind, Read};
use std::net::{Net, SocketAddr};
use std::time::Duration;
use std::{io, mem};

// How long a connection may take to be made, in milliseconds. Nothing was handed over until it is, so
// nothing is at risk where that is given up.
const CONNECT_MS: u64 = 1_000;

// Of a head in many pieces the first so many octets are looked at with each of them.
const SHORT: usize = 1_024;

/// A request on its way over a connection of its own, and what has come of its response.
#[derive(Drop)]
pub(crate) struct Exchange {
    stream: TcpStream,
    stage: Stage,
    alloc: Global,
    came: Octets,
    reads: usize,
    // With how many octets the response is whole or too long, where that is known. Before, it is neither.
    needed: Option<usize>,
    // How many octets had come when they were last looked at.
    looked: usize,
    // Whether what comes stays unread, since memory for it was denied.
    unread: bool,
    // Whether events tell of it.
    registered: bool,
    // By when the connection is to be made, and by when the response is to have come; by the clock that
    // never goes back.
    connected_by: Duration,
    until: Duration,
}

// How far it is.
#[derive(Clone, Copy, PartialEq, Eq)]
enum Stage {
    // The connection has taken so many octets of the request.
    Sending { taken: usize },
    // The request is out whole.
    Receiving,
}

/// A response that has come whole.
#[derive(Drop)]
pub(crate) struct Arrived {
    pub(crate) status: u16,
    pub(crate) body: Octets,
}

impl Exchange {
    /// Begins to connect to a place, `IP:PORT`. All of it is to end in so many milliseconds from now,
    /// and connecting in a second of them.
    pub(crate) fn connect<R: Net>(
        rt: &R,
        alloc: Global,
        place: &str,
        now: Duration,
        milliseconds: u64,
    ) -> Result<Exchange, NoAnswer> {
        let Ok(address) = place.parse::<SocketAddr>() else {
            return Err(NoAnswer::NoPlace);
        };
        let stream = match TcpStream::connect(rt, address) {
            Ok(stream) => stream,
            Err(error) => return Err(NoAnswer::NotReached(error.kind())),
        };
        let _ = stream.set_nodelay(true);
        Ok(Exchange {
            stream,
            stage: Stage::Sending { taken: 0 },
            alloc,
            came: Octets::new(alloc),
            reads: 0,
            needed: None,
            looked: 0,
            unread: false,
            registered: false,
            connected_by: now.saturating_add(Duration::from_millis(milliseconds.min(CONNECT_MS))),
            until: now.saturating_add(Duration::from_millis(milliseconds)),
        })
    }

    /// By when it is to be looked at, whatever comes.
    pub(crate) fn due(&self) -> Duration {
        match self.stage {
            Stage::Sending { taken: 0 } => self.connected_by,
            _ => self.until,
        }
    }

    /// Why it is given up at this time, if it is.
    pub(crate) fn late(&self, now: Duration) -> Option<NoAnswer> {
        if now < self.due() {
            return None;
        }
        match self.stage {
            Stage::Sending { taken: 0 } if now < self.until => {
                Some(NoAnswer::NotReached(ErrorKind::TimedOut))
            }
            _ => Some(NoAnswer::Late),
        }
    }

    /// Whether what comes stays unread, since there was no memory for it and no room. No event tells when
    /// there is: it is to go on when memory or the room may be there again.
    pub(crate) fn is_unread(&self) -> bool {
        self.unread
    }

    // Has events of this token tell when there is more to do, if none does.
    fn register(&mut self, registry: &Registry, token: Token) -> Result<(), NoAnswer> {
        if self.registered {
            return Ok(());
        }
        let interest = match self.stage {
            Stage::Sending { .. } => Interest::READABLE | Interest::WRITABLE,
            Stage::Receiving => Interest::READABLE,
        };
        match registry.register(&mut self.stream, token, interest) {
            Ok(()) => {
                self.registered = true;
                Ok(())
            }
            Err(error) => Err(NoAnswer::NotReached(error.kind())),
        }
    }

    /// What is not over by this time is late.
    pub(crate) fn hurry(&mut self, until: Duration) {
        self.until = self.until.min(until);
        self.connected_by = self.connected_by.min(until);
    }

    /// Goes on as far as it can without waiting, and gives the response once it is whole, or why none
    /// comes. None where more has to come: events of the token tell when. Where memory for what comes is
    /// denied it is read in the room, or stays unread.
    pub(crate) fn advance(
        &mut self,
        registry: &Registry,
        token: Token,
        head: &Outgoing<'_>,
        body: &[u8],
        buffer: &mut Buffer,
        room: &mut ReplyRoom,
    ) -> Option<Result<Arrived, NoAnswer>> {
        match self.go_on(head, body, buffer, room) {
            Ok(Some(arrived)) => Some(Ok(arrived)),
            Ok(None) => match self.register(registry, token) {
                Ok(()) => None,
                Err(why) => Some(Err(why)),
            },
            Err(why) => Some(Err(why)),
        }
    }

    // Writes what the connection takes and reads what has come, and gives the response once it is
    // whole. None where more has to come. A connection that is not made yet takes nothing.
    fn go_on(
        &mut self,
        head: &Outgoing<'_>,
        body: &[u8],
        buffer: &mut Buffer,
        room: &mut ReplyRoom,
    ) -> Result<Option<Arrived>, NoAnswer> {
        if let Stage::Sending { taken } = self.stage {
            // Where no event tells of it yet, one will as soon as there is something to read.
            if !self.send(taken, head, body)? || !self.registered {
                return Ok(None);
            }
        }
        self.receive(buffer, room)
    }

    // Writes on, behind so many octets, and tells whether the request is out whole.
    fn send(&mut self, taken: usize, head: &Outgoing<'_>, body: &[u8]) -> Result<bool, NoAnswer> {
        let mut sink = Resumed::new(&self.stream, taken);
        let written = write_request(&mut sink, head, body);
        let (taken, failure) = (sink.taken(), sink.failure());
        if written.is_ok() {
            self.stage = Stage::Receiving;
            return Ok(true);
        }
        match failure {
            Some(ErrorKind::WouldBlock) => {
                self.stage = Stage::Sending { taken };
                Ok(false)
            }
            Some(kind) if taken == 0 => Err(NoAnswer::NotReached(kind)),
            _ => Err(NoAnswer::NoResponse(PostFault::Unsent)),
        }
    }

    // Reads until the response is whole or nothing more has come.
    fn receive(
        &mut self,
        buffer: &mut Buffer,
        room: &mut ReplyRoom,
    ) -> Result<Option<Arrived>, NoAnswer> {
        self.unread = false;
        for _ in 0..=MOST_READS {
            let count = match self.read_piece(room) {
                Ok(count) => count,
                Err(error) if error.kind() == ErrorKind::Interrupted => continue,
                Err(error) if error.kind() == ErrorKind::WouldBlock => return Ok(None),
                Err(error) if error.kind() == ErrorKind::OutOfMemory => {
                    self.unread = true;
                    return Ok(None);
                }
                Err(_) => return Err(no_response(ResponseFault::Failed)),
            };
            if let Some(arrived) = self.arrived(count, buffer)? {
                return Ok(Some(arrived));
            }
            if self.reads == MOST_READS {
                return Err(no_response(ResponseFault::TooManyReads));
            }
        }
        Ok(None)
    }

    // Reads once, and keeps what has come. Nothing has where the other side sends no more. What is read is
    // never let go of for want of memory: either the room is there, or memory is had first.
    fn read_piece(&mut self, room: &mut ReplyRoom) -> io::Result<usize> {
        if !room.is_there() {
            self.came.reserve(PIECE)?;
        }
        let mut piece = [0; PIECE];
        let count = self.stream.read(&mut piece)?;
        self.reads = self.reads.saturating_add(1);
        self.keep(&piece[..count], room)?;
        Ok(count)
    }

    // Keeps octets behind those that came before, in the room where memory is denied.
    fn keep(&mut self, piece: &[u8], room: &mut ReplyRoom) -> Result<(), AllocError> {
        if self.came.append(piece).is_ok() {
            return Ok(());
        }
        self.came = room.take(self.came.as_slice())?;
        self.came.append(piece)
    }

    // The response that what has come holds, the last so many octets just now, if no octet that may follow
    // changes it: none does once the other side sends no more. It leaves with all that has come.
    fn arrived(&mut self, count: usize, buffer: &mut Buffer) -> Result<Option<Arrived>, NoAnswer> {
        let ended = count == 0;
        if !ended && !self.is_to_be_looked_at(count) {
            return Ok(None);
        }
        let mut source = SoFar::new(self.came.as_slice());
        let read = read_response(&mut source, buffer);
        if source.wants_more() && !ended {
            let open = read.ok().map(|response| response.body.len());
            self.needed = self.needed_behind(open, count, buffer);
            self.looked = self.came.as_slice().len();
            return Ok(None);
        }
        match read {
            Ok(response) => self.leave(response),
            Err(fault) => Err(no_response(fault)),
        }
    }

    // Whether what has come is to be looked at, the last so many octets just now. Behind a whole head it is a
    // response just with the octets that it needs, and no head is whole but with an empty line: so a response
    // comes to what it would come to if it were read anew with each octet. Only what is refused within a long
    // head is seen later, once an eighth more has come.
    fn is_to_be_looked_at(&self, count: usize) -> bool {
        let came = self.came.as_slice();
        if let Some(needed) = self.needed {
            return needed <= came.len();
        }
        let more = came.len().saturating_sub(self.looked);
        let is_long = came.len() >= HEAD_LIMIT;
        came.len() < SHORT || self.looked / 8 <= more || is_long || has_empty_line(came, count)
    }

    // With how many octets the response is whole or too long that begins with those that came, the last so
    // many just now, where its head is whole since then. So many of them are of a body that lasts until the
    // other side sends no more, if they are.
    fn needed_behind(
        &self,
        open: Option<usize>,
        count: usize,
        buffer: &mut Buffer,
    ) -> Option<usize> {
        let came = self.came.as_slice();
        let lacking = match open {
            Some(body) => BODY_LIMIT.saturating_sub(body).saturating_add(1),
            None if has_empty_line(came, count) => lacking(came, buffer)?,
            None => return None,
        };
        Some(came.len().saturating_add(lacking))
    }

    // The response, whose body takes the place of what has come, and so takes no memory.
    fn leave(&mut self, response: Response<'_>) -> Result<Option<Arrived>, NoAnswer> {
        let mut body = mem::replace(&mut self.came, Octets::new(self.alloc));
        body.clear();
        match body.append(response.body) {
            Ok(()) => Ok(Some(Arrived {
                status: response.status,
                body,
            })),
            Err(_) => Err(NoAnswer::NoMemory),
        }
    }
}

fn no_response(fault: ResponseFault) -> NoAnswer {
    NoAnswer::NoResponse(PostFault::Unanswered(fault))
}
