//! What is told of peers.
ghost use Rattle.std.specs.Prelude.{ℕ, pos, int_le, ◌+ℤ◌, ◌≤ℤ◌, Contains, ◌≡◌, ◌≢◌, ◌↔◌, ◌<◌, length, Some, IfSome, IfNone, OnOk, IsTrue};
ghost use Rattle.ilp_assets.specs.Quote.{quote, most};
ghost use Rattle.ilp_accounts.specs.Configuration.{peer_at};
ghost use Rattle.ilp_warnings.specs.Complete.{KeepsAll, Names, IsPeerTold, AreTokensTold, AreAddressesTold};
ghost use Rattle.ilp_warnings.specs.Meaning.{IsSocketAddress, IsShort, IsExample, HaveSameHost, ReachesAtOnce, IsTooLargeFor};
ghost use Rattle.ilp_warnings.specs.Told.{AreWarranted, token_at};

use crate::examined::Examined;
use crate::routes::is_unreached;
use crate::telling::{tell, tell_address};
use crate::tokens::{is_example, is_short};
use crate::warning::{ConfigTable, Warning};
use ilp_accounts::{Config, Field, Levels};
use ilp_assets::{Quote, QuoteFault};
use std::alloc::AllocError;

/// Tells of a peer.
pub(crate) fn tell_peer(
    examined: Examined<'_>,
    told: &mut Vec<Warning>,
    peer: u32,
) -> Result<(), AllocError>
    requires known { peer < length examined.config.now.peers }
    requires sound { AreWarranted examined told.old.items }
    ensures sound { OnOk result (AreWarranted examined.entry told.new.items) }
    ensures kept { OnOk result (KeepsAll told.old.items told.new.items) }
    ensures peer { OnOk result (IsPeerTold examined.entry.config.now examined.entry.targets.now
        peer told.new.items) }
{
    tell_tokens(examined, told, peer)?;
    tell_addresses(examined, told, peer)?;
    tell_same_host(examined, told, peer)?;
    tell_one_packet(examined, told, peer)?;
    tell_too_large(examined, told, peer)?;
    let unreached = is_unreached(examined.targets, peer);
    tell(examined, told, unreached, Warning::Unreached { peer })
}

// Tells of the tokens of a peer.
fn tell_tokens(examined: Examined<'_>, told: &mut Vec<Warning>, peer: u32) -> Result<(), AllocError>
    requires known { peer < length examined.config.now.peers }
    requires sound { AreWarranted examined told.old.items }
    ensures sound { OnOk result (AreWarranted examined.entry told.new.items) }
    ensures kept { OnOk result (KeepsAll told.old.items told.new.items) }
    ensures tokens { OnOk result (AreTokensTold examined.entry.config.now peer told.new.items) }
{
    let token = examined.config.token(peer);
    let out_token = examined.config.out_token(peer);
    tell_token(examined, told, peer, Field::Token, token)?;
    tell_token(examined, told, peer, Field::OutToken, out_token)?;
    tell(
        examined,
        told,
        token == out_token,
        Warning::SameTokens { peer },
    )
}

// Tells of one of the tokens of a peer.
fn tell_token(
    examined: Examined<'_>,
    told: &mut Vec<Warning>,
    peer: u32,
    field: Field,
    token: &str,
) -> Result<(), AllocError>
    requires token { token_at examined.config.now peer field ≡ Some token.now }
    requires sound { AreWarranted examined told.old.items }
    ensures sound { OnOk result (AreWarranted examined.entry told.new.items) }
    ensures kept { OnOk result (KeepsAll told.old.items told.new.items) }
    ensures short { OnOk result (IsShort token.now
        → Contains told.new.items (Warning.ShortToken peer field)) }
    ensures example { OnOk result (IsExample token.now
        → Contains told.new.items (Warning.ExampleToken peer field)) }
{
    let is_short = is_short(token);
    tell(
        examined,
        told,
        is_short,
        Warning::ShortToken { peer, field },
    )?;
    let is_example = is_example(token);
    tell(
        examined,
        told,
        is_example,
        Warning::ExampleToken { peer, field },
    )
}

// Tells of the places where a peer and its engine are to be reached.
fn tell_addresses(
    examined: Examined<'_>,
    told: &mut Vec<Warning>,
    peer: u32,
) -> Result<(), AllocError>
    requires known { peer < length examined.config.now.peers }
    requires sound { AreWarranted examined told.old.items }
    ensures sound { OnOk result (AreWarranted examined.entry told.new.items) }
    ensures kept { OnOk result (KeepsAll told.old.items told.new.items) }
    ensures addresses { OnOk result (AreAddressesTold examined.entry.config.now
        peer told.new.items) }
{
    let host = examined.config.host(peer);
    tell_address(examined, told, ConfigTable::Peer(peer), Field::Host, host)?;
    tell_engine(examined, told, peer)
}

// Tells of the place where the engine of a peer is to be reached.
fn tell_engine(examined: Examined<'_>, told: &mut Vec<Warning>, peer: u32) -> Result<(), AllocError>
    requires known { peer < length examined.config.now.peers }
    requires sound { AreWarranted examined told.old.items }
    ensures sound { OnOk result (AreWarranted examined.entry told.new.items) }
    ensures kept { OnOk result (KeepsAll told.old.items told.new.items) }
    ensures engine { OnOk result (IfSome (peer_at examined.entry.config.now peer).engine
        (λ text. ¬ IsSocketAddress text
        → Contains told.new.items (Warning.NoAddress (ConfigTable.Peer peer) Field.Engine))) }
{
    match examined.config.engine(peer) {
        Some(engine) => tell_address(
            examined,
            told,
            ConfigTable::Peer(peer),
            Field::Engine,
            engine,
        ),
        None => Ok(()),
    }
}

// Tells of another peer at the same place.
fn tell_same_host(
    examined: Examined<'_>,
    told: &mut Vec<Warning>,
    peer: u32,
) -> Result<(), AllocError>
    requires known { peer < length examined.config.now.peers }
    requires sound { AreWarranted examined told.old.items }
    ensures sound { OnOk result (AreWarranted examined.entry told.new.items) }
    ensures kept { OnOk result (KeepsAll told.old.items told.new.items) }
    ensures same_host { OnOk result ((other : ℕ) → other < peer
        → HaveSameHost examined.entry.config.now peer other
        → Names told.new.items (Warning.SharedHost peer)) }
{
    match same_host_before(examined.config, peer) {
        Some(other) => tell(examined, told, true, Warning::SharedHost { peer, other }),
        None => Ok(()),
    }
}

// Tells of another peer of which one packet reaches the threshold of this one.
fn tell_one_packet(
    examined: Examined<'_>,
    told: &mut Vec<Warning>,
    peer: u32,
) -> Result<(), AllocError>
    requires known { peer < length examined.config.now.peers }
    requires sound { AreWarranted examined told.old.items }
    ensures sound { OnOk result (AreWarranted examined.entry told.new.items) }
    ensures kept { OnOk result (KeepsAll told.old.items told.new.items) }
    ensures one_packet { OnOk result ((sender : ℕ)
        → sender < length examined.entry.config.now.peers → sender ≢ peer
        → ReachesAtOnce examined.entry.config.now sender peer
        → Names told.new.items (Warning.OnePacket peer)) }
{
    match one_packet_of(examined.config, peer) {
        Some(sender) => tell(examined, told, true, Warning::OnePacket { peer, sender }),
        None => Ok(()),
    }
}

// Tells of another peer on the way to which the greatest packet of this one doesn't fit.
fn tell_too_large(
    examined: Examined<'_>,
    told: &mut Vec<Warning>,
    peer: u32,
) -> Result<(), AllocError>
    requires known { peer < length examined.config.now.peers }
    requires sound { AreWarranted examined told.old.items }
    ensures sound { OnOk result (AreWarranted examined.entry told.new.items) }
    ensures kept { OnOk result (KeepsAll told.old.items told.new.items) }
    ensures too_large { OnOk result ((other : ℕ)
        → other < length examined.entry.config.now.peers → other ≢ peer
        → IsTooLargeFor examined.entry.config.now peer other
        → Names told.new.items (Warning.TooLargeOut peer)) }
{
    match too_large_for(examined.config, peer) {
        Some(other) => tell(examined, told, true, Warning::TooLargeOut { peer, other }),
        None => Ok(()),
    }
}

// The first of the peers before that has the same host and the same path there.
fn same_host_before(config: &Config, peer: u32) -> Option<u32>
    requires { peer < length config.now.peers }
    ensures found { IfSome result (λ other. (other < peer) × HaveSameHost config.now peer other) }
    ensures none { IfNone result ((other : ℕ) → other < peer
        → ¬ HaveSameHost config.now peer other) }
{
    for other in 0..peer {
        if have_same_host(config, peer, other) {
            return Some(other);
        }
    }
    None
}

// Whether packets for both peers are sent to one place.
fn have_same_host(config: &Config, peer: u32, other: u32) -> bool
    requires peer { peer < length config.now.peers }
    requires other { other < length config.now.peers }
    ensures { IsTrue result ↔ HaveSameHost config.now peer other }
{
    config.host(peer) == config.host(other) && config.out_path(peer) == config.out_path(other)
}

// The first of the other peers of which one packet reaches the threshold of the peer.
fn one_packet_of(config: &Config, peer: u32) -> Option<u32>
    requires { peer < length config.now.peers }
    ensures found { IfSome result (λ sender.
        (sender ≢ peer) × ReachesAtOnce config.now sender peer) }
    ensures none { IfNone result ((sender : ℕ) → sender < length config.now.peers → sender ≢ peer
        → ¬ ReachesAtOnce config.now sender peer) }
{
    for sender in 0..config.peers() {
        if sender != peer && does_one_packet(config, sender, peer) {
            return Some(sender);
        }
    }
    None
}

// The first of the other peers on the way to which the greatest packet of the peer doesn't fit.
fn too_large_for(config: &Config, peer: u32) -> Option<u32>
    requires { peer < length config.now.peers }
    ensures found { IfSome result (λ other. (other ≢ peer) × IsTooLargeFor config.now peer other) }
    ensures none { IfNone result ((other : ℕ) → other < length config.now.peers → other ≢ peer
        → ¬ IsTooLargeFor config.now peer other) }
{
    for other in 0..config.peers() {
        if other != peer && is_too_large(config, peer, other) {
            return Some(other);
        }
    }
    None
}

// Whether the greatest packet of the sender, where a greatest one is configured, takes the balance of
// the peer from the level to settle to up to its threshold.
fn does_one_packet(config: &Config, sender: u32, peer: u32) -> bool
    requires sender { sender < length config.now.peers }
    requires peer { peer < length config.now.peers }
    ensures { IsTrue result ↔ ReachesAtOnce config.now sender peer }
{
    let Some(levels) = config.levels(peer) else {
        return false;
    };
    match greatest_quote(config, sender, peer) {
        Some(Ok(quote)) => reaches(levels, quote.out),
        _ => false,
    }
}

// Whether an amount takes a balance from the level to settle to up to the threshold.
fn reaches(levels: Levels, amount: u64) -> bool
    ensures { IsTrue result ↔ (levels.threshold ≤ℤ (levels.settle_to +ℤ pos amount)) }
{
    is_reached(levels, amount)
}

// The same as a number is compared with another.
fn is_reached(levels: Levels, amount: u64) -> bool
    ensures { result ≡ int_le levels.threshold (levels.settle_to +ℤ pos amount) }
{
    i128::from(levels.threshold) <= i128::from(levels.settle_to) + i128::from(amount)
}

// Whether the greatest packet of the sender, where a greatest one is configured, doesn't fit on its way
// to the peer.
fn is_too_large(config: &Config, sender: u32, peer: u32) -> bool
    requires sender { sender < length config.now.peers }
    requires peer { peer < length config.now.peers }
    ensures { IsTrue result ↔ IsTooLargeFor config.now sender peer }
{
    matches!(
        greatest_quote(config, sender, peer),
        Some(Err(QuoteFault::OutTooLarge))
    )
}

// What the greatest packet of the sender becomes on its way to the peer, where a greatest one is
// configured.
fn greatest_quote(config: &Config, sender: u32, peer: u32) -> Option<Result<Quote, QuoteFault>>
    requires sender { sender < length config.now.peers }
    requires peer { peer < length config.now.peers }
    ensures quoted { IfSome result (λ q. ((peer_at config.now sender).max_packet ≢ most)
        × (quote config.now.table (peer_at config.now sender).asset (peer_at config.now peer).asset
        (peer_at config.now sender).fee_ppm (peer_at config.now sender).max_packet ≡ q)) }
    ensures unlimited { IfNone result ((peer_at config.now sender).max_packet ≡ most) }
{
    let greatest = config.max_packet(sender);
    if greatest == u64::MAX {
        return None;
    }
    let from = config.asset(sender);
    let to = config.asset(peer);
    Some(
        config
            .assets()
            .quote(from, to, config.fee_ppm(sender), greatest),
    )
}
