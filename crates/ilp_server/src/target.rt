//! What the target of a request asks for.
ghost use Rattle.std.specs.Prelude.{◌≡◌, ℕ, ◌≢◌, ◌++◌, List, MatchOption};
ghost use Rattle.ilp_order.specs.Found.{Finds};
ghost use Rattle.ilp_settlement.specs.Targets.{account_target};
ghost use Rattle.ilp_server.specs.Targets.{IsOfPeer, AsksFor};

use ilp_accounts::Config;

/// Who connects: each side has a listener of its own.
#[derive(Clone, Copy, Debug, PartialEq, Eq)]
pub enum Side {
    /// Peers, which send packets (RFC 0035).
    Ilp,
    /// Settlement engines, and the operator (RFC 0038).
    Engine,
}

/// What a request asks for. Peers are named by their places in the configuration.
#[derive(Clone, Copy, Debug, PartialEq, Eq)]
pub enum Target {
    /// Forward a packet.
    Packet,
    /// Credit a settlement that came in from the peer.
    Settlement { peer: u32 },
    /// Correct the balance of the peer.
    Correction { peer: u32 },
    /// Hand a message to the peer's settlement engine.
    Message { peer: u32 },
    /// Tell the balances.
    Report,
    /// Close the connector.
    Close,
    /// Read the configuration again.
    Reload,
    /// Ask the peer's settlement engine for no new settlement.
    Pause { peer: u32 },
    /// Ask it for new ones again.
    Resume { peer: u32 },
}

/// What a path asks for at a side; none where it asks for nothing there.
///
/// Paths are compared octet for octet: one with a query, in absolute form (RFC 9112, section 3.2.2),
/// in another case or with octets in hexadecimal asks for nothing, and so does one with a name that
/// no peer has.
pub fn target_of(config: &Config, side: Side, path: &[u8]) -> Option<Target>
    ensures { Finds (AsksFor config.now side path.now) result }
{
    match side {
        Side::Ilp if path == config.path().as_bytes() => Some(Target::Packet),
        Side::Ilp => None,
        Side::Engine => engine_target(config, path),
    }
}

// What a path asks for at the side of the engines.
fn engine_target(config: &Config, path: &[u8]) -> Option<Target>
    ensures { Finds (AsksFor config.now Side.Engine path.now) result }
{
    if path == b"/close".as_slice() {
        return Some(Target::Close);
    }
    if path == b"/report".as_slice() {
        return Some(Target::Report);
    }
    if path == b"/reload".as_slice() {
        return Some(Target::Reload);
    }
    if let Some(peer) = peer_in(config, path, b"/settlements") {
        return Some(Target::Settlement { peer });
    }
    if let Some(peer) = peer_in(config, path, b"/corrections") {
        return Some(Target::Correction { peer });
    }
    if let Some(peer) = peer_in(config, path, b"/messages") {
        return Some(Target::Message { peer });
    }
    if let Some(peer) = peer_in(config, path, b"/pause") {
        return Some(Target::Pause { peer });
    }
    let peer = peer_in(config, path, b"/resume")?;
    Some(Target::Resume { peer })
}

// The peer of whose account a path is that ends so.
#[tactic(auto, using(crate::proofs::TargetLemmas::peer_of_path))]
fn peer_in(config: &Config, path: &[u8], call: &[u8]) -> Option<u32>
    ensures { Finds (IsOfPeer config.now (account_target call.now) path.now) result }
{
    let name = between(path, b"/accounts/", call)?;
    config.peer_by_name(name)
}

// What stands between two texts that octets begin and end with.
fn between<'a>(octets: &'a [u8], before: &[u8], after: &[u8]) -> Option<&'a [u8]>
    ensures { MatchOption result
        ((middle : List ℕ) → octets.now ≢ before.now ++ (middle ++ after.now))
        (λ middle. octets.now ≡ before.now ++ (middle.now ++ after.now)) }
{
    let rest = octets.strip_prefix(before)?;
    rest.strip_suffix(after)
}
