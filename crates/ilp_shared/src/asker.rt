//! Who waits until the configuration was read again, or the connector accepts nobody any more.

use crate::intakes::Intakes;
use ilp_http::{Kind, Status, write_response};
use ilp_links::Resumed;
use ilp_server::Side;
use mio::net;
use std::net::TcpStream;
use std::sync::Wait;

/// The connection of who asks that the configuration be read again, or that the connector close. It is
/// answered in one write that does not wait, and lingers then as any does.
#[derive(Drop)]
pub struct Asker {
    side: Side,
    stream: TcpStream,
}

/// What is told of a configuration that is not taken where there is no memory to say why.
pub const MEMORY_IS_SHORT: &str = "memory is short\n";

/// A line that somebody is told, without its end.
pub fn without_end(line: &str) -> &str {
    line.strip_suffix("\n").unwrap_or(line)
}

impl Asker {
    /// Whose connection this is, of this side. Its reads and writes don't wait.
    pub fn new(side: Side, stream: TcpStream) -> Asker {
        Asker { side, stream }
    }

    /// It is in force, as this line says.
    pub fn taken(self, rt: &impl Wait, intakes: &Intakes, line: &str) {
        self.answer(rt, intakes, Status::Ok, line);
    }

    /// It is not taken, as this line says.
    pub fn refused(self, rt: &impl Wait, intakes: &Intakes, line: &str) {
        self.answer(rt, intakes, Status::Conflict, line);
    }

    /// The connector ends.
    pub fn turned_away(self, rt: &impl Wait, intakes: &Intakes) {
        self.answer(rt, intakes, Status::Unavailable, "");
    }

    /// The connector accepts nobody any more, as was asked for.
    pub fn closed(self, rt: &impl Wait, intakes: &Intakes) {
        self.answer(rt, intakes, Status::Ok, "");
    }

    fn answer(self, rt: &impl Wait, intakes: &Intakes, status: Status, line: &str) {
        let Asker { side, stream } = self;
        let stream = net::TcpStream::from_std(stream);
        let mut sink = Resumed::new(&stream, 0);
        let _ = write_response(&mut sink, status, Kind::Text, line.as_bytes());
        intakes.linger(rt, side, TcpStream::from(stream));
    }
}
