//! A way to peers and engines that goes on with one call until it is over.

use crate::tests::START;
use ilp_http::Buffer;
use ilp_link_traits::{EngineLink, EngineReply, LinkFault, Uplink};
use ilp_links::{Call, Came, EngineCall, Outside, ReplyRoom};
use ilp_oer::Octets;
use mio::{Events, Poll, Token};
use std::alloc::{Allocator, Global};
use std::io;
use std::io::Eprint;
use std::net::Net;
use std::time::{Clock, Duration};

// How often a call may go on until it is over.
const TURNS: u32 = 100_000;

/// A way to peers and engines by calls, of which it waits for each.
#[derive(Drop)]
pub(super) struct Driven<'a, R> {
    outside: Outside<'a, R>,
    poll: Poll,
    events: Events,
    buffer: Buffer,
    room: ReplyRoom,
    /// Whether the connector ends.
    pub(super) hurries: bool,
}

impl<'a, R: Net + Clock + Eprint> Driven<'a, R> {
    pub(super) fn new(outside: Outside<'a, R>, alloc: Global) -> io::Result<Driven<'a, R>> {
        Ok(Driven {
            poll: Poll::new(outside.rt)?,
            events: Events::with_capacity(alloc, 16)?,
            buffer: Buffer::new(alloc)?,
            room: ReplyRoom::new(alloc)?,
            hurries: false,
            outside,
        })
    }

    // Goes on with a call until it is over.
    fn drive(&mut self, call: Call, packet: &[u8]) -> Option<Octets> {
        let mut call = call;
        for _ in 0..TURNS {
            match call.go_on(
                &self.outside,
                self.poll.registry(),
                Token(0),
                packet,
                &mut self.buffer,
                &mut self.room,
            ) {
                Came::Over(came) => return came,
                Came::NotYet => {}
            }
            let now = self.now();
            if call.give_up(&self.outside, now) {
                return None;
            }
            let left = call.due().saturating_sub(now);
            self.poll.poll(&mut self.events, Some(left)).ok()?;
            let now = self.now();
            if call.give_up(&self.outside, now) {
                return None;
            }
        }
        None
    }

    // Waits until events tell of a call of an engine, or it is due. Whether it is given up.
    fn wait_for(&mut self, call: &EngineCall) -> bool {
        let left = call.due().saturating_sub(self.now());
        let _ = self.poll.poll(&mut self.events, Some(left));
        call.give_up(&self.outside, self.now())
    }

    // Whether the engine has the account.
    fn account_by(&mut self, call: EngineCall) -> bool {
        let mut call = call;
        for _ in 0..TURNS {
            let registry = self.poll.registry();
            let buffer = &mut self.buffer;
            if let Some(has) = call.go_on_for_account(&self.outside, registry, Token(0), buffer) {
                return has;
            }
            if self.wait_for(&call) {
                return false;
            }
        }
        false
    }

    // What the engine says of the settlement under this key.
    fn settled_by(&mut self, call: EngineCall, key: &[u8]) -> EngineReply {
        let mut call = call;
        for _ in 0..TURNS {
            let registry = self.poll.registry();
            let buffer = &mut self.buffer;
            if let Some(said) = call.go_on_for_settlement(
                &self.outside,
                registry,
                Token(0),
                key,
                buffer,
            ) {
                return said;
            }
            if self.wait_for(&call) {
                return EngineReply::Unknown { status: None };
            }
        }
        EngineReply::Unknown { status: None }
    }

    fn now(&self) -> Duration {
        self.outside.rt.monotonic().unwrap_or(Duration::ZERO)
    }
}

impl<R: Net + Clock + Eprint> Uplink for Driven<'_, R> {
    fn send<A: Allocator>(
        &mut self,
        to: u32,
        packet: &[u8],
        deadline: i64,
        reply: &mut Octets<A>,
    ) -> Result<(), LinkFault> {
        let now = self.now();
        let Some(call) = self.outside.call_peer(to, None, deadline, START, now) else {
            return Err(LinkFault);
        };
        match self.drive(call, packet) {
            Some(octets) => reply.append(octets.as_slice()).map_err(|_| LinkFault),
            None => Err(LinkFault),
        }
    }
}

impl<R: Net + Clock + Eprint> EngineLink for Driven<'_, R> {
    fn account(&mut self, peer: u32) -> bool {
        let now = self.now();
        let Some(call) = self.outside.ask_for_account(peer, now) else {
            return false;
        };
        let mut call = call;
        if self.hurries {
            call.hurry(now);
        }
        self.account_by(call)
    }

    fn settle(&mut self, peer: u32, key: &[u8], amount: u64, scale: u8) -> EngineReply {
        let now = self.now();
        match self.outside.ask_for_settlement(peer, amount, scale, now) {
            Some(call) => self.settled_by(call, key),
            None => EngineReply::Unknown { status: None },
        }
    }

    fn message<A: Allocator>(
        &mut self,
        peer: u32,
        octets: &[u8],
        reply: &mut Octets<A>,
    ) -> Result<(), LinkFault> {
        let now = self.now();
        let Some(call) = self.outside.call_engine(peer, now) else {
            return Err(LinkFault);
        };
        match self.drive(call, octets) {
            Some(answer) => reply.append(answer.as_slice()).map_err(|_| LinkFault),
            None => Err(LinkFault),
        }
    }
}
