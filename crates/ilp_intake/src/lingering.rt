//! A connection that was answered, and whose client may still send.

use crate::limits::{LINGER_MS, MOST_DROPPED, PIECE};
use mio::net::TcpStream;
use std::io::{ErrorKind, Read};
use std::net::Shutdown;
use std::time::Duration;

/// Ends this side of a connection that was answered, and reads and drops a piece of what has come of it:
/// so the client gets its answer, and no reset. Whether more may come.
pub(crate) fn end_writing(stream: &TcpStream) -> bool {
    let _ = stream.shutdown(Shutdown::Write);
    let mut stream = stream;
    match stream.read(&mut [0; PIECE]) {
        Ok(count) => count > 0,
        Err(error) => matches!(error.kind(), ErrorKind::WouldBlock | ErrorKind::Interrupted),
    }
}

/// A connection that was answered, and whose client may still send (RFC 9112, section 9.6). What
/// comes is read and dropped: were it closed with octets unread, or did some come behind that, the system
/// would send a reset, which may destroy the answer on its way. It keeps no octets.
#[derive(Drop)]
pub(crate) struct Lingering {
    // The number by which an event names it.
    number: usize,
    stream: TcpStream,
    // By when it is closed.
    until: Duration,
    // How many octets may still come.
    left: usize,
}

impl Lingering {
    /// A connection that was handed back at this time.
    pub(crate) fn new(number: usize, stream: TcpStream, now: Duration) -> Lingering {
        Lingering {
            number,
            stream,
            until: now.saturating_add(Duration::from_millis(LINGER_MS)),
            left: MOST_DROPPED,
        }
    }

    /// The number by which an event names it.
    pub(crate) fn number(&self) -> usize {
        self.number
    }

    /// By when it is closed.
    pub(crate) fn until(&self) -> Duration {
        self.until
    }

    /// Reads and drops what has come. False where it is to be closed: the client sends nothing more, a
    /// read failed, or as many octets came as may.
    pub(crate) fn drain(&mut self) -> bool {
        let mut piece = [0; PIECE];
        for _ in 0..=MOST_DROPPED {
            match self.stream.read(&mut piece) {
                Ok(0) => return false,
                Ok(count) if count < self.left => self.left -= count,
                Ok(_) => return false,
                Err(error) if error.kind() == ErrorKind::Interrupted => {}
                Err(error) => return error.kind() == ErrorKind::WouldBlock,
            }
        }
        false
    }
}
