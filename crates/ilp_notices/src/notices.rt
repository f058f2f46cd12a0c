//! All that is told of one running connector.

use crate::gone_log::GoneLog;
use crate::journal::Fullness;
use crate::late::SlowDisk;
use crate::peers::OfPeer;
use crate::rejects::Rejects;
use crate::repeated::Repeated;
use crate::unkept::Unkept;
use crate::work::WaitingWork;
use crate::wrong_tokens::WrongTokens;
use ilp_accounts::Config;
use std::alloc::{AllocError, Global};
use std::io::Eprint;
use std::net::IpAddr;
use std::sync::Wait;
use std::time::Clock;

/// What an operator is told on standard error of a running connector with one configuration. Threads
/// share it by reference. A peer that the configuration does not have is passed over in each call.
///
/// What fails again and again is told at once, and then 1, 2, 4 and up to 60 seconds after the last
/// line on it, with how many failures were left out since; and once more when it is over, with how
/// many there were. What was well for 60 seconds begins at 1 second again. Who finds that it is over
/// is `look`.
#[derive(Drop)]
pub struct Notices {
    pub(crate) peers: Vec<OfPeer>,
    pub(crate) work: WaitingWork,
    pub(crate) fullness: Fullness,
    pub(crate) clock: Repeated,
    pub(crate) unkept: Unkept,
    pub(crate) slow_disk: SlowDisk,
    pub(crate) gone_log: GoneLog,
    rejects: Rejects,
    wrong_tokens: WrongTokens,
}

impl Notices {
    /// Nothing was told yet. This takes all the memory that there is need of; `AllocError` tells that
    /// memory is short.
    pub fn new(alloc: Global, config: &Config) -> Result<Notices, AllocError> {
        let mut peers = Vec::new(alloc);
        for _peer in 0..config.peers() {
            peers.push(OfPeer::new())?;
        }
        Ok(Notices {
            peers,
            work: WaitingWork::new(),
            fullness: Fullness::new(),
            clock: Repeated::new(),
            unkept: Unkept::new(),
            slow_disk: SlowDisk::new(),
            gone_log: GoneLog::new(),
            rejects: Rejects::new(alloc, config.peers())?,
            wrong_tokens: WrongTokens::new(),
        })
    }

    /// Counts a Reject with this code that went to this peer.
    pub fn rejected(&self, rt: &impl Wait, peer: u32, code: [u8; 3]) {
        if (peer as usize) < self.peers.len() {
            self.rejects.count(rt, peer, code);
        }
    }

    /// Counts a request from this address that got 401, since it shows no peer's token.
    pub fn wrong_token(&self, rt: &impl Wait, address: Option<IpAddr>) {
        self.wrong_tokens.count(rt, address);
    }

    /// Tells what is over, how many requests got 401, and once a minute how many Rejects went to each peer. Somebody calls it each
    /// second.
    pub fn look<R: Clock + Eprint + Wait>(&self, rt: &R, config: &Config) {
        self.tell_over(rt, config);
        self.wrong_tokens.tell_due(rt);
        if self.rejects.are_due(rt) {
            self.rejects.tell(rt, config);
        }
    }

    /// Tells what is over, and at once of the Rejects and of requests with 401 that no line told of, since
    /// the connector ends.
    pub fn last_look<R: Clock + Eprint + Wait>(&self, rt: &R, config: &Config) {
        self.tell_over(rt, config);
        self.wrong_tokens.tell(rt);
        self.rejects.tell(rt, config);
    }

    fn tell_over<R: Clock + Eprint>(&self, rt: &R, config: &Config) {
        for peer in 0..config.peers() {
            self.tell_reached(rt, config, peer);
        }
        self.work.tell_over(rt);
        self.tell_clock_right(rt);
        self.unkept.tell_over(rt);
    }
}
