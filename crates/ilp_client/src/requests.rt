//! The requests that go to peers and to settlement engines: their heads, and the texts that name an
//! account in them.
ghost use Rattle.std.specs.Prelude.{◌≡◌, ◌+◌, ◌<◌, ◌≤◌, [], ◌++◌, length, codes};
ghost use Rattle.ilp_accounts.specs.Configuration.{peer_at};
ghost use Rattle.ilp_http.specs.declared.status.Kind.TheVariants as kind;
ghost use Rattle.ilp_settlement.specs.Targets as targets;
ghost use Rattle.ilp_client.specs.Requests.{IsHead, token_line, key_line, account_text};

use crate::short_text::ShortText;
use ilp_accounts::Config;
use ilp_http::{Kind, Outgoing, OwnField};

/// The head of a request that hands a packet to a peer (RFC 0035).
pub fn packet_head(config: &Config, peer: u32) -> Outgoing<'_>
    requires { peer < length config.now.peers }
    ensures { IsHead result (peer_at config.now peer).host (peer_at config.now peer).out_path
        kind.OctetStream (token_line (peer_at config.now peer).out_token) }
{
    Outgoing {
        target: config.out_path(peer).as_bytes(),
        host: config.host(peer).as_bytes(),
        kind: Kind::OctetStream,
        own: OwnField::Bearer(config.out_token(peer).as_bytes()),
    }
}

/// The head of a request that sets up an account at an engine (RFC 0038). Its body is the account's
/// JSON.
pub fn account_head(engine: &str) -> Outgoing<'_>
    ensures { IsHead result engine.now (codes "/accounts") kind.Json [] }
{
    Outgoing {
        target: b"/accounts",
        host: engine.as_bytes(),
        kind: Kind::Json,
        own: OwnField::Absent,
    }
}

/// The head of a request that asks an engine for a settlement under a key (RFC 0038). Its body is
/// the JSON of a quantity.
pub fn settlement_head<'a>(engine: &'a str, target: &'a ShortText, key: &'a [u8]) -> Outgoing<'a>
    ensures { IsHead result engine.now target.now kind.Json (key_line key.now) }
{
    Outgoing {
        target: target.as_slice(),
        host: engine.as_bytes(),
        kind: Kind::Json,
        own: OwnField::IdempotencyKey(key),
    }
}

/// The head of a request that hands an engine a message of a peer's engine (RFC 0038).
pub fn message_head<'a>(engine: &'a str, target: &'a ShortText) -> Outgoing<'a>
    ensures { IsHead result engine.now target.now kind.OctetStream [] }
{
    Outgoing {
        target: target.as_slice(),
        host: engine.as_bytes(),
        kind: Kind::OctetStream,
        own: OwnField::Absent,
    }
}

/// The JSON by which an engine is told of a peer's account.
pub fn account_text(config: &Config, peer: u32) -> ShortText
    requires { peer < length config.now.peers }
    ensures { result ≡ account_text (peer_at config.now peer).name }
{
    named(config, peer, b"{\"id\":\"", b"\"}")
}

/// The target of a settlement with a peer: `/accounts/NAME/settlements`.
pub fn settlements_target(config: &Config, peer: u32) -> ShortText
    requires { peer < length config.now.peers }
    ensures { result ≡ targets.settlements_target (peer_at config.now peer).name }
{
    named(config, peer, b"/accounts/", b"/settlements")
}

/// The target of a message of a peer's engine: `/accounts/NAME/messages`.
pub fn messages_target(config: &Config, peer: u32) -> ShortText
    requires { peer < length config.now.peers }
    ensures { result ≡ targets.messages_target (peer_at config.now peer).name }
{
    named(config, peer, b"/accounts/", b"/messages")
}

// The most octets of two texts round a peer's name, by which all three fit a short text.
const ROUND_A_NAME: usize = 48;

// A peer's name between two texts.
fn named(config: &Config, peer: u32, before: &[u8], after: &[u8]) -> ShortText
    requires peer { peer < length config.now.peers }
    requires room { length before.now + length after.now ≤ ROUND_A_NAME }
    ensures { result ≡ before.now ++ ((peer_at config.now peer).name ++ after.now) }
{
    // Called for what its contract tells: the configuration is valid, so a name is short.
    let _ = config.peers();
    ShortText::joined(before, config.name(peer).as_bytes(), after)
}
