//! A call of a settlement engine for the settler that is under way, while others are.
ghost use Rattle.std.specs.Prelude.{◌<◌, length, IfSome};

use crate::call::{ENGINE_WAIT, Outside};
use crate::exchange::Exchange;
use crate::no_answer::NoAnswer;
use crate::reply_room::ReplyRoom;
use ilp_accounts::Config;
use ilp_client::{
    account_head, account_text, has_account, settlement_head, settlement_reply, settlements_target,
};
use ilp_http::{Buffer, Outgoing, Response};
use ilp_link_traits::EngineReply;
use ilp_oer::Octets;
use ilp_settlement::{LONGEST_QUANTITY, put_quantity};
use mio::{Registry, Token};
use std::alloc::AllocError;
use std::io::Eprint;
use std::net::Net;
use std::time::{Clock, Duration};

// How many milliseconds an engine still has once the connector begins to end.
const HURRY_MS: u64 = 1_000;

/// A call of a peer's settlement engine (RFC 0038) over TCP, for its account or for a settlement: one
/// connection for it, which is closed after, for which there are 10 seconds in all, and a second of them
/// for connecting. Nobody waits for it: whoever has it is told by events when it goes on.
///
/// The notices are told why nothing came that can be used, or that something did.
#[derive(Drop)]
pub struct EngineCall {
    of: u32,
    exchange: Exchange,
    // The JSON of the request.
    body: Octets,
}

impl<R: Net + Clock + Eprint> Outside<'_, R> {
    /// Begins to ask the engine of a peer whether it has an account of the peer. None where nothing is
    /// begun: the peer has no engine, the system refuses a connection, or memory for the request is denied.
    pub fn ask_for_account(&self, of: u32, now: Duration) -> Option<EngineCall> {
        let engine = engine_of(self.config, of)?;
        self.ask_engine(of, engine, account_body(self.config, of), now)
    }

    /// Begins to ask the engine of a peer for a settlement of this amount at this scale. None where nothing
    /// is begun, as above.
    pub fn ask_for_settlement(
        &self,
        of: u32,
        amount: u64,
        scale: u8,
        now: Duration,
    ) -> Option<EngineCall> {
        let engine = engine_of(self.config, of)?;
        self.ask_engine(of, engine, quantity_body(self.config, amount, scale), now)
    }

    // Begins a request with this body to the engine at this place.
    fn ask_engine(
        &self,
        of: u32,
        engine: &str,
        body: Result<Octets, AllocError>,
        now: Duration,
    ) -> Option<EngineCall> {
        let begun = match body {
            Ok(body) => self.connect_engine(engine, body, now),
            Err(_) => Err(NoAnswer::NoMemory),
        };
        match begun {
            Ok((exchange, body)) => {
                self.notices.waits_for_engine(of);
                Some(EngineCall { of, exchange, body })
            }
            Err(why) => {
                self.notices.engine_failed(self.rt, self.config, of, why);
                None
            }
        }
    }

    fn connect_engine(
        &self,
        engine: &str,
        body: Octets,
        now: Duration,
    ) -> Result<(Exchange, Octets), NoAnswer> {
        let alloc = self.config.allocator();
        let exchange = Exchange::connect(self.rt, alloc, engine, now, ENGINE_WAIT)?;
        Ok((exchange, body))
    }
}

impl EngineCall {
    /// By when it is to be looked at, by the clock that never goes back.
    pub fn due(&self) -> Duration {
        self.exchange.due()
    }

    /// The connector ends: a second from now on the call is late.
    pub fn hurry(&mut self, now: Duration) {
        self.exchange
            .hurry(now.saturating_add(Duration::from_millis(HURRY_MS)));
    }

    /// Gives it up where its time is over. Tells whether it was.
    pub fn give_up<R: Net + Clock + Eprint>(
        &self,
        outside: &Outside<'_, R>,
        now: Duration,
    ) -> bool {
        let Some(why) = self.exchange.late(now) else {
            return false;
        };
        outside.notices.engine_is_over(self.of);
        self.tell(outside, why);
        true
    }

    /// Goes on with the question for an account, as far as it can without waiting. Whether the engine has
    /// it; none where more has to come, and then events of the token tell when. Once it is over it is not
    /// to go on.
    pub fn go_on_for_account<R: Net + Clock + Eprint>(
        &mut self,
        outside: &Outside<'_, R>,
        registry: &Registry,
        token: Token,
        buffer: &mut Buffer,
    ) -> Option<bool> {
        let Some(engine) = engine_of(outside.config, self.of) else {
            return Some(false);
        };
        let head = account_head(engine);
        let came = self.go_on(outside, registry, token, &head, buffer)?;
        Some(self.has_account(outside, came))
    }

    /// Goes on with the question for a settlement under this key, as above. What the engine says.
    pub fn go_on_for_settlement<R: Net + Clock + Eprint>(
        &mut self,
        outside: &Outside<'_, R>,
        registry: &Registry,
        token: Token,
        key: &[u8],
        buffer: &mut Buffer,
    ) -> Option<EngineReply> {
        let Some(engine) = engine_of(outside.config, self.of) else {
            return Some(EngineReply::Unknown { status: None });
        };
        let target = settlements_target(outside.config, self.of);
        let head = settlement_head(engine, &target, key);
        let came = self.go_on(outside, registry, token, &head, buffer)?;
        Some(self.said(outside, came))
    }

    // The status of the response, once it is whole, or why none comes. There is no room for one that finds
    // no memory: the engine is asked again under the same key, so nothing is lost.
    fn go_on<R: Net + Clock + Eprint>(
        &mut self,
        outside: &Outside<'_, R>,
        registry: &Registry,
        token: Token,
        head: &Outgoing<'_>,
        buffer: &mut Buffer,
    ) -> Option<Result<u16, NoAnswer>> {
        let body = self.body.as_slice();
        let exchange = &mut self.exchange;
        let mut room = ReplyRoom::none(outside.config.allocator());
        let came = match exchange.advance(registry, token, head, body, buffer, &mut room) {
            Some(came) => came,
            None if exchange.is_unread() => Err(NoAnswer::NoMemory),
            None => return None,
        };
        outside.notices.engine_is_over(self.of);
        Some(came.map(|arrived| arrived.status))
    }

    // Nothing came that can be used, and this is why.
    fn tell<R: Clock + Eprint>(&self, outside: &Outside<'_, R>, why: NoAnswer) {
        outside
            .notices
            .engine_failed(outside.rt, outside.config, self.of, why);
    }

    // Whether the engine has the account, by the status that came.
    fn has_account<R: Clock + Eprint>(
        &self,
        outside: &Outside<'_, R>,
        came: Result<u16, NoAnswer>,
    ) -> bool {
        let why = match came {
            Ok(status) if has_account(Ok(bare(status))) => {
                outside.notices.engine_answered(self.of);
                return true;
            }
            Ok(status) => NoAnswer::Status(status),
            Err(why) => why,
        };
        self.tell(outside, why);
        false
    }

    // What the engine says of the settlement, by the status that came.
    fn said<R: Clock + Eprint>(
        &self,
        outside: &Outside<'_, R>,
        came: Result<u16, NoAnswer>,
    ) -> EngineReply {
        let said = match came {
            Ok(status) => settlement_reply(Ok(bare(status))),
            Err(why) => {
                self.tell(outside, why);
                return EngineReply::Unknown { status: None };
            }
        };
        match said {
            EngineReply::Unknown {
                status: Some(status),
            } => self.tell(outside, NoAnswer::Status(status)),
            _ => outside.notices.engine_answered(self.of),
        }
        said
    }
}

// A response of this status. What else it has says nothing of accounts and settlements.
fn bare(status: u16) -> Response<'static> {
    Response { status, body: &[] }
}

// Where the engine of a peer is, if there is such a peer and it has one.
fn engine_of(config: &Config, peer: u32) -> Option<&str>
    ensures { IfSome result (λ _. peer < length config.now.peers) }
{
    if peer < config.peers() {
        config.engine(peer)
    } else {
        None
    }
}

// The JSON that names the peer's account.
fn account_body(config: &Config, of: u32) -> Result<Octets, AllocError>
    requires { of < length config.now.peers }
{
    let text = account_text(config, of);
    let mut body = Octets::new(config.allocator());
    match body.append(text.as_slice()) {
        Ok(()) => Ok(body),
        Err(_) => Err(AllocError),
    }
}

// The JSON of a quantity.
fn quantity_body(config: &Config, amount: u64, scale: u8) -> Result<Octets, AllocError> {
    let mut body = Octets::new(config.allocator());
    let Ok(()) = body.reserve(LONGEST_QUANTITY) else {
        return Err(AllocError);
    };
    put_quantity(&mut body, amount, scale);
    Ok(body)
}
