//! What is told whoever is turned away since too many wait.

use ilp_accounts::Config;
use ilp_flow::Passage;
use ilp_http::{Kind, Status, write_response};
use ilp_links::Resumed;
use ilp_oer::Octets;
use ilp_replies::{LONGEST_LOCAL_REJECT, LocalReject, put_local_reject};
use mio::net::TcpStream;
use std::alloc::{AllocError, Global};

/// What is told whoever is turned away since too many wait: T03 for a packet, and 503 for a message.
#[derive(Drop)]
pub(crate) struct Busy {
    reject: Octets,
    // How many peers there are; their engines have the numbers behind.
    peers: u32,
}

impl Busy {
    /// With the Reject of this connector.
    pub(crate) fn new(alloc: Global, config: &Config) -> Result<Busy, AllocError> {
        let mut reject = Octets::new(alloc);
        reject.reserve(LONGEST_LOCAL_REJECT)?;
        put_local_reject(&mut reject, config, LocalReject::ConnectorBusy);
        Ok(Busy {
            reject,
            peers: config.peers(),
        })
    }

    /// Tells it, where that can be written without waiting. Gives the peer whose packet was answered.
    pub(crate) fn tell(&self, passage: Passage, stream: &TcpStream) -> Option<u32> {
        let mut sink = Resumed::new(stream, 0);
        if passage.sender >= self.peers {
            let _ = write_response(&mut sink, Status::Unavailable, Kind::Text, &[]);
            return None;
        }
        let reject = self.reject.as_slice();
        write_response(&mut sink, Status::Ok, Kind::OctetStream, reject).ok()?;
        Some(passage.sender)
    }
}
