//! A call of a peer or of a settlement engine that is under way, while others are.
ghost use Rattle.std.specs.Prelude.{◌<◌, length};

use crate::exchange::{Arrived, Exchange};
use crate::no_answer::{Failure, NoAnswer};
use crate::reply_room::ReplyRoom;
use crate::time_left::time_left;
use ilp_accounts::Config;
use ilp_client::{message_head, message_reply, messages_target, packet_head, packet_reply};
use ilp_http::{Buffer, Response};
use ilp_notices::{Notices, SentHold};
use ilp_oer::Octets;
use ilp_packet::Packet;
use mio::{Registry, Token};
use std::io::Eprint;
use std::net::Net;
use std::time::{Clock, Duration};

/// How many milliseconds a call of an engine may take in all.
pub(crate) const ENGINE_WAIT: u64 = 10_000;

/// What calls of peers and engines work with, and whom they tell what comes of them.
#[derive(Drop)]
pub struct Outside<'c, R> {
    pub rt: &'c R,
    pub config: &'c Config,
    pub notices: &'c Notices,
}

/// A call of a peer (RFC 0035), or of a settlement engine with a message (RFC 0038), over TCP: one
/// connection for it, which is closed after. Nobody waits for it: whoever has it is told by events when it goes on.
///
/// A peer is called until the deadline, of which what is left is found once, by the clock, and counts
/// for an hour at most; an engine for 10 seconds. Connecting has a second of it. Why nothing came that
/// can be used is told to the notices: a `host` that is no `IP:PORT`; a peer that isn't reached, gives
/// no answer in time, none that is a response of HTTP, or another status than 200. A line on a packet that the peer may have fulfilled names its hold. What a 200 of a peer
/// has is handed on, whatever it is, and the notices are told whether it is a Fulfill or a Reject.
#[derive(Drop)]
pub struct Call {
    whom: Whom,
    exchange: Exchange,
}

// Who is called.
#[derive(Clone, Copy)]
enum Whom {
    // This peer, with the packet of this hold, or with one that has none.
    Peer { to: u32, hold: Option<SentHold> },
    // The engine of this peer.
    EngineOf(u32),
}

/// What came of a call.
#[derive(Drop)]
pub enum Came {
    /// Nothing yet that is whole.
    NotYet,
    /// It is over, with these octets, or with none that can be used.
    Over(Option<Octets>),
}

impl<R: Net + Clock + Eprint> Outside<'_, R> {
    /// Begins to call a peer, with the packet of this hold or with one that has none. The reply counts
    /// before the deadline, and it is so late now, both in milliseconds since 1970. None where nothing
    /// is begun: there is no such peer, no time is left, or the system refuses a connection.
    pub fn call_peer(
        &self,
        to: u32,
        hold: Option<SentHold>,
        deadline: i64,
        late: i64,
        now: Duration,
    ) -> Option<Call> {
        let left = time_left(deadline, late);
        if to >= self.config.peers() || left == 0 {
            return None;
        }
        let whom = Whom::Peer { to, hold };
        self.begin(whom, self.config.host(to), now, left)
    }

    /// Begins to call the engine of a peer with a message. None where nothing is begun: the peer has no
    /// engine, or the system refuses a connection.
    pub fn call_engine(&self, of: u32, now: Duration) -> Option<Call> {
        if of >= self.config.peers() {
            return None;
        }
        let engine = self.config.engine(of)?;
        self.begin(Whom::EngineOf(of), engine, now, ENGINE_WAIT)
    }

    fn begin(&self, whom: Whom, place: &str, now: Duration, left: u64) -> Option<Call> {
        let alloc = self.config.allocator();
        match Exchange::connect(self.rt, alloc, place, now, left) {
            Ok(exchange) => {
                self.wait_for(whom);
                Some(Call { whom, exchange })
            }
            Err(why) => {
                self.tell(whom, why);
                None
            }
        }
    }

    fn wait_for(&self, whom: Whom) {
        match whom {
            Whom::Peer { to, hold: _ } => self.notices.waits_for_peer(to),
            Whom::EngineOf(peer) => self.notices.waits_for_engine(peer),
        }
    }

    fn wait_no_more(&self, whom: Whom) {
        match whom {
            Whom::Peer { to, hold: _ } => self.notices.peer_is_over(to),
            Whom::EngineOf(peer) => self.notices.engine_is_over(peer),
        }
    }

    // Tells why nothing came that can be used.
    fn tell(&self, whom: Whom, why: NoAnswer) {
        let (rt, config) = (self.rt, self.config);
        match whom {
            Whom::Peer { to, hold } => {
                self.notices
                    .peer_failed(rt, config, to, Failure::new(why, hold));
            }
            Whom::EngineOf(peer) => self.notices.engine_failed(rt, config, peer, why),
        }
    }

    // What a response has that can be used.
    fn taken_in(&self, whom: Whom, arrived: Arrived) -> Option<Octets> {
        let Arrived { status, body } = arrived;
        let response = Response {
            status,
            body: body.as_slice(),
        };
        let usable = match whom {
            Whom::Peer { .. } => packet_reply(Ok(response)).is_ok(),
            Whom::EngineOf(_) => message_reply(Ok(response)).is_ok(),
        };
        if !usable {
            self.tell(whom, NoAnswer::Status(status));
            return None;
        }
        self.note(whom, body.as_slice());
        Some(body)
    }

    // Notes what was answered.
    fn note(&self, whom: Whom, octets: &[u8]) {
        match whom {
            Whom::Peer { to, hold: _ } if is_answer(octets) => self.notices.peer_answered(to),
            Whom::Peer { to, hold } => {
                self.notices.peer_unreadable(self.rt, self.config, to, hold);
            }
            Whom::EngineOf(peer) => self.notices.engine_answered(peer),
        }
    }
}

// Whether octets are a Fulfill or a Reject (RFC 0027).
fn is_answer(octets: &[u8]) -> bool {
    matches!(
        Packet::read(octets),
        Ok(Packet::Fulfill(_) | Packet::Reject(_))
    )
}

impl Call {
    /// By when it is to be looked at, by the clock that never goes back.
    pub fn due(&self) -> Duration {
        self.exchange.due()
    }

    /// Gives it up where its time is over. Tells whether it was.
    pub fn give_up<R: Net + Clock + Eprint>(
        &self,
        outside: &Outside<'_, R>,
        now: Duration,
    ) -> bool {
        match self.exchange.late(now) {
            Some(why) => {
                outside.wait_no_more(self.whom);
                outside.tell(self.whom, why);
                true
            }
            None => false,
        }
    }

    /// Whether what comes stays unread, since there was no memory for it and no room. No event tells when
    /// there is: it is to go on when memory or the room may be there again.
    pub fn is_unread(&self) -> bool {
        self.exchange.is_unread()
    }

    /// Goes on as far as it can without waiting: these octets are handed over, and what comes is read, in
    /// the room where memory for it is denied. Where more has to come, events of the token tell when. Once
    /// it is over it is not to go on.
    pub fn go_on<R: Net + Clock + Eprint>(
        &mut self,
        outside: &Outside<'_, R>,
        registry: &Registry,
        token: Token,
        octets: &[u8],
        buffer: &mut Buffer,
        room: &mut ReplyRoom,
    ) -> Came {
        let config = outside.config;
        let Some(came) = self.advance(config, registry, token, octets, buffer, room) else {
            return Came::NotYet;
        };
        outside.wait_no_more(self.whom);
        match came {
            Ok(arrived) => Came::Over(outside.taken_in(self.whom, arrived)),
            Err(why) => {
                outside.tell(self.whom, why);
                Came::Over(None)
            }
        }
    }

    fn advance(
        &mut self,
        config: &Config,
        registry: &Registry,
        token: Token,
        octets: &[u8],
        buffer: &mut Buffer,
        room: &mut ReplyRoom,
    ) -> Option<Result<Arrived, NoAnswer>> {
        match self.whom {
            Whom::Peer { to, hold: _ } if to < config.peers() => {
                let head = packet_head(config, to);
                self.exchange
                    .advance(registry, token, &head, octets, buffer, room)
            }
            Whom::EngineOf(peer) if peer < config.peers() => {
                let engine = config.engine(peer).unwrap_or("");
                let target = messages_target(config, peer);
                let head = message_head(engine, &target);
                self.exchange
                    .advance(registry, token, &head, octets, buffer, room)
            }
            _ => Some(Err(NoAnswer::NoPlace)),
        }
    }
}
