//! Writes that go on where an earlier try ended.
ghost use Rattle.std.specs.Io.{WritesAtMost};

use mio::net::TcpStream;
use std::io;
use std::io::{ErrorKind, Write};

// How often a write is tried again that a signal interrupted.
const MOST_TRIES: usize = 16;

/// Where a message is written to a connection whose writes don't wait. It is written whole in each try,
/// and what earlier tries got rid of is left out. So a message that waits for its connection needs no
/// memory.
#[derive(Drop)]
pub struct Resumed<'s> {
    stream: &'s TcpStream,
    // How many octets of the message the connection has taken, in all tries.
    taken: usize,
    // How many of those are still to be left out of what is written.
    left_out: usize,
    failure: Option<ErrorKind>,
}

impl<'s> Resumed<'s> {
    /// Writes of a message of which the connection has taken so many octets.
    pub fn new(stream: &'s TcpStream, taken: usize) -> Resumed<'s> {
        Resumed {
            stream,
            taken,
            left_out: taken,
            failure: None,
        }
    }

    /// How many octets of the message the connection has taken.
    pub fn taken(&self) -> usize {
        self.taken
    }

    /// Why the last write failed, if it did: `WouldBlock` where the connection takes more later.
    pub fn failure(&self) -> Option<ErrorKind> {
        self.failure
    }

    // Writes to the connection.
    fn write_on(&mut self, octets: &[u8]) -> io::Result<usize>
        ensures { WritesAtMost result octets.now }
    {
        for _ in 0..MOST_TRIES {
            let mut stream = self.stream;
            match stream.write(octets) {
                Err(error) if error.kind() == ErrorKind::Interrupted => {}
                written => return written,
            }
        }
        Err(io::Error::from(ErrorKind::Interrupted))
    }
}

impl Write for Resumed<'_> {
    fn write(&mut self, octets: &[u8]) -> io::Result<usize> {
        if self.left_out > 0 {
            let count = self.left_out.min(octets.len());
            self.left_out -= count;
            return Ok(count);
        }
        match self.write_on(octets) {
            Ok(count) => {
                self.taken = self.taken.saturating_add(count);
                Ok(count)
            }
            Err(error) => {
                self.failure = Some(error.kind());
                Err(error)
            }
        }
    }

    fn flush(&mut self) -> io::Result<()> {
        Ok(())
    }
}
