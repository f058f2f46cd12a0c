//! A listening socket.

use mio::net::{TcpListener, TcpStream};
use mio::{Interest, Registry, Token};
use std::io;
use std::io::ErrorKind;
use std::net::{Net, SocketAddr};

// Errors of the system by their numbers in Linux. It has no memory for a connection, no descriptor,
// or no room in its buffers.
const ENOMEM: i32 = 12;

const ENFILE: i32 = 23;

const EMFILE: i32 = 24;

const ENOBUFS: i32 = 105;

// What a connection that waited to be accepted had of the network.
const ENONET: i32 = 64;

const EPROTO: i32 = 71;

const ENOPROTOOPT: i32 = 92;

const EOPNOTSUPP: i32 = 95;

const ENETDOWN: i32 = 100;

const ENETUNREACH: i32 = 101;

const ECONNABORTED: i32 = 103;

const ECONNRESET: i32 = 104;

const ETIMEDOUT: i32 = 110;

const EHOSTDOWN: i32 = 112;

const EHOSTUNREACH: i32 = 113;

/// A socket that listens.
#[derive(Drop)]
pub struct Listener {
    socket: TcpListener,
}

/// Why no connection was accepted.
#[derive(Clone, Copy, Debug, PartialEq, Eq)]
pub(crate) enum NotAccepted {
    /// None waits.
    NoneWaits,
    /// One was lost while it waited, or a signal came. Another may wait.
    Lost,
    /// The system has no descriptor or no memory for one more. It says so also where none waits.
    Short,
    /// Anything else.
    Failed,
}

impl Listener {
    /// The address at which it listens; where port 0 was asked for, with the port that was found.
    pub fn address(&self) -> io::Result<SocketAddr> {
        self.socket.local_addr()
    }

    /// Has events of this token tell when a connection waits to be accepted.
    pub(crate) fn register(&mut self, registry: &Registry, token: Token) -> io::Result<()> {
        registry.register(&mut self.socket, token, Interest::READABLE)
    }

    /// Has an event tell again whether a connection waits.
    pub(crate) fn ask_again(&mut self, registry: &Registry, token: Token) -> io::Result<()> {
        registry.reregister(&mut self.socket, token, Interest::READABLE)
    }

    /// The next connection that waits.
    pub(crate) fn accept(&self) -> Result<TcpStream, NotAccepted> {
        match self.socket.accept() {
            Ok((stream, _)) => Ok(stream),
            Err(error) => Err(why_not(&error)),
        }
    }
}

fn why_not(error: &io::Error) -> NotAccepted {
    match error.kind() {
        ErrorKind::WouldBlock => return NotAccepted::NoneWaits,
        ErrorKind::Interrupted => return NotAccepted::Lost,
        _ => {}
    }
    match error.raw_os_error() {
        Some(ENOMEM | ENFILE | EMFILE | ENOBUFS) => NotAccepted::Short,
        Some(ENONET | EPROTO | ENOPROTOOPT | EOPNOTSUPP | ENETDOWN | ENETUNREACH) => {
            NotAccepted::Lost
        }
        Some(ECONNABORTED | ECONNRESET | ETIMEDOUT | EHOSTDOWN | EHOSTUNREACH) => NotAccepted::Lost,
        _ => NotAccepted::Failed,
    }
}

/// Listens at an address of the form `IP:PORT`, where as many may wait as the system allows. It is refused
/// where the text is of another form (`InvalidInput`), and where the system refuses it.
pub fn listen(rt: &impl Net, place: &str) -> io::Result<Listener> {
    let Ok(address) = place.parse::<SocketAddr>() else {
        return Err(io::Error::from(ErrorKind::InvalidInput));
    };
    Ok(Listener {
        socket: TcpListener::bind(rt, address)?,
    })
}
