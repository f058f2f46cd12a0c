//! What is told of peers and of their engines.
ghost use Rattle.std.specs.Prelude.{◌<◌, length, IfSome};

use crate::line::{Level, tell};
use crate::notices::Notices;
use crate::repeated::Repeated;
use crate::sent_hold::SentHold;
use crate::waiting::Waiters;
use ilp_accounts::Config;
use std::fmt;
use std::fmt::Display;
use std::io::Eprint;
use std::time::Clock;

/// What was told of one peer. Threads share it by reference.
#[derive(Drop)]
pub(crate) struct OfPeer {
    itself: Repeated,
    unreadable: Repeated,
    engine: Repeated,
    pub(crate) settlements: Repeated,
    pub(crate) refused_credits: Repeated,
    pub(crate) refused_corrections: Repeated,
    pub(crate) wait_for_peer: Waiters,
    pub(crate) wait_for_engine: Waiters,
}

impl OfPeer {
    /// Nothing yet.
    pub(crate) fn new() -> OfPeer {
        OfPeer {
            itself: Repeated::new(),
            unreadable: Repeated::new(),
            engine: Repeated::new(),
            settlements: Repeated::new(),
            refused_credits: Repeated::new(),
            refused_corrections: Repeated::new(),
            wait_for_peer: Waiters::new(),
            wait_for_engine: Waiters::new(),
        }
    }
}

impl Notices {
    /// Tells why a peer gave no answer that can be used.
    pub fn peer_failed<R: Clock + Eprint, T: Display + Drop>(
        &self,
        rt: &R,
        config: &Config,
        peer: u32,
        why: T,
    ) {
        let Some(of_peer) = self.of_peer(config, peer) else {
            return;
        };
        if let Some(left_out) = of_peer.itself.failed(rt) {
            let (name, host) = (config.name(peer), config.host(peer));
            let text = format_args!("peer {name} at {host}: {why}{left_out}");
            tell(rt, Level::Warn, text);
        }
    }

    /// Tells that a peer answered with a 200 whose body is no Fulfill and no Reject. For `peer_failed`
    /// it has answered. The line names the hold of the packet, if it is of one.
    pub fn peer_unreadable<R: Clock + Eprint>(
        &self,
        rt: &R,
        config: &Config,
        peer: u32,
        hold: Option<SentHold>,
    ) {
        let Some(of_peer) = self.of_peer(config, peer) else {
            return;
        };
        of_peer.itself.answered();
        if let Some(left_out) = of_peer.unreadable.failed(rt) {
            let (name, host) = (config.name(peer), config.host(peer));
            let packet = Packet(hold);
            let text = format_args!(
                "peer {name} at {host}: a 200 without a Fulfill or a Reject that can be read: it may have fulfilled the packet, at the connector's cost{packet}{left_out}"
            );
            tell(rt, Level::Error, text);
        }
    }

    /// Notes that a peer gave an answer that can be used.
    pub fn peer_answered(&self, peer: u32) {
        if let Some(of_peer) = self.peers.get(peer as usize) {
            of_peer.itself.answered();
        }
    }

    /// Tells why the engine of a peer gave no answer that can be used.
    pub fn engine_failed<R: Clock + Eprint, T: Display + Drop>(
        &self,
        rt: &R,
        config: &Config,
        peer: u32,
        why: T,
    ) {
        let Some(of_peer) = self.of_peer(config, peer) else {
            return;
        };
        if let Some(left_out) = of_peer.engine.failed(rt) {
            let (name, engine) = (config.name(peer), config.engine(peer).unwrap_or(""));
            let text = format_args!("engine of {name} at {engine}: {why}{left_out}");
            tell(rt, Level::Warn, text);
        }
    }

    /// Notes that the engine of a peer gave an answer that can be used.
    pub fn engine_answered(&self, peer: u32) {
        if let Some(of_peer) = self.peers.get(peer as usize) {
            of_peer.engine.answered();
        }
    }

    // Tells where a peer, or its engine, is reached again.
    pub(crate) fn tell_reached<R: Clock + Eprint>(&self, rt: &R, config: &Config, peer: u32) {
        let Some(of_peer) = self.of_peer(config, peer) else {
            return;
        };
        let (name, host) = (config.name(peer), config.host(peer));
        if let Some(failures) = of_peer.itself.over(rt) {
            let text = format_args!("peer {name} at {host}: reached again, after {failures}");
            tell(rt, Level::Info, text);
        }
        if let Some(failures) = of_peer.engine.over(rt) {
            let engine = config.engine(peer).unwrap_or("");
            let text = format_args!(
                "engine of {name} at {engine}: reached again, after {failures}"
            );
            tell(rt, Level::Info, text);
        }
    }

    // What was told of a peer, if the configuration has it.
    pub(crate) fn of_peer(&self, config: &Config, peer: u32) -> Option<&OfPeer>
        ensures { IfSome result (λ _. peer < length config.now.peers) }
    {
        if peer < config.peers() {
            self.peers.get(peer as usize)
        } else {
            None
        }
    }
}

// Which hold a packet is of, if it is of one.
#[derive(Clone, Copy)]
struct Packet(Option<SentHold>);

impl Display for Packet {
    fn fmt<W: fmt::Write>(&self, f: &mut fmt::Formatter<W>) -> fmt::Result {
        match self.0 {
            Some(hold) => write!(f, " ({hold})"),
            None => Ok(()),
        }
    }
}
