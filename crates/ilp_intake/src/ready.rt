//! A connection that is given on.

use std::net::TcpStream;

/// A connection whose request has come whole or is refused as it stands, or whose client sends
/// nothing more. Once it is answered it is to be handed back (`IntakeHandle::linger`).
#[derive(Drop)]
pub struct ReadyConnection<K> {
    /// Reads and writes of it don't wait: they fail with `WouldBlock` where they would.
    pub stream: TcpStream,
    /// The octets that were read of it.
    pub octets: Vec<u8>,
    /// Of which kind it is.
    pub kind: K,
}
