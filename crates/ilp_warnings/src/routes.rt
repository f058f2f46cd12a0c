//! What is told of routes.
ghost use Rattle.std.specs.Prelude.{◌≡◌, ◌↔◌, ◌<◌, All, length, map, slice_get, Some, IfOk, OnOk, IfSome, IsTrue, IsSome};
ghost use Rattle.toml.specs.View.{view, table_view};
ghost use Rattle.ilp_assets.specs.Quote.{price_of};
ghost use Rattle.ilp_fields.specs.Fields.{tables, text_of};
ghost use Rattle.ilp_accounts.specs.Configuration.{peer_names, route_of, place_named};
ghost use Rattle.ilp_warnings.specs.Complete.{KeepsAll, IsRouteTold};
ghost use Rattle.ilp_warnings.specs.Told.{AreWarranted};
ghost use Rattle.ilp_warnings.specs.Meaning.{IsUnreached, IsUnpriced, CanSend};

use crate::examined::Examined;
use crate::telling::tell;
use crate::values::text_of;
use crate::warning::Warning;
use ilp_accounts::{Config, Field};
use ilp_assets::{AssetTable, QuoteFault};
use std::alloc::{AllocError, Global};
use toml::{Table, Value};

/// The peers to which the routes lead, route by route.
pub(crate) fn targets_of(
    alloc: Global,
    config: &Config,
    values: &[Value],
) -> Result<Vec<u32>, AllocError>
    ensures known { IfOk result (λ targets. All (λ peer. peer < length config.now.peers) targets.items) }
    ensures are { IfOk result (λ targets. targets.items ≡ map
        (λ t. (route_of (peer_names config.now.peers) t).peer) (tables (map view values.now))) }
{
    let mut targets = Vec::new(alloc);
    for value in values {
        if let Some(table) = value.as_table() {
            targets.push(target_of(config, table))?;
        }
    }
    Ok(targets)
}

// The peer to which a route leads.
fn target_of(config: &Config, table: &Table) -> u32
    ensures known { result < length config.now.peers }
    ensures is { result ≡ (route_of (peer_names config.now.peers) (table_view table.now)).peer }
{
    // That there is a peer at all is known where they are counted.
    let _peers = config.peers();
    place_of(config, text_of(table, Field::Peer)).unwrap_or(0)
}

// The place of the peer of a name.
fn place_of(config: &Config, name: &str) -> Option<u32>
    ensures known { IfSome result (λ peer. peer < length config.now.peers) }
    ensures is { result ≡ place_named (peer_names config.now.peers) name.now }
{
    config.peer_by_name(name.as_bytes())
}

/// Whether no route leads to a peer, where there are any.
pub(crate) fn is_unreached(targets: &[u32], peer: u32) -> bool
    ensures { IsTrue result ↔ IsUnreached targets.now peer }
{
    !targets.is_empty() && !targets.contains(&peer)
}

/// Tells of a route to this peer.
pub(crate) fn tell_route(
    examined: Examined<'_>,
    told: &mut Vec<Warning>,
    route: u32,
    peer: u32,
) -> Result<(), AllocError>
    requires known { peer < length examined.config.now.peers }
    requires leads { slice_get examined.targets.now route ≡ Some peer }
    requires sound { AreWarranted examined told.old.items }
    ensures sound { OnOk result (AreWarranted examined.entry told.new.items) }
    ensures kept { OnOk result (KeepsAll told.old.items told.new.items) }
    ensures route { OnOk result (IsRouteTold examined.entry.config.now examined.entry.targets.now
        route told.new.items) }
{
    tell(
        examined,
        told,
        is_unpriced(examined.config, peer),
        Warning::Unpriced { route, peer },
    )
}

// Whether no other peer can send to a peer.
fn is_unpriced(config: &Config, peer: u32) -> bool
    requires { peer < length config.now.peers }
    ensures { IsTrue result ↔ IsUnpriced config.now peer }
{
    for sender in 0..config.peers() {
        if sender != peer && can_send(config, sender, peer) {
            return false;
        }
    }
    true
}

// Whether the asset of the one peer has a price in that of the other.
fn can_send(config: &Config, sender: u32, peer: u32) -> bool
    requires sender { sender < length config.now.peers }
    requires peer { peer < length config.now.peers }
    ensures { IsTrue result ↔ CanSend config.now sender peer }
{
    has_price(config.assets(), config.asset(sender), config.asset(peer))
}

// Whether an asset has a price in another, which is told for each amount.
#[tactic(auto, unfolding(ilp_assets::specs::Quote::quote))]
fn has_price(assets: &AssetTable, from: u32, to: u32) -> bool
    requires from { from < length assets.now.assets }
    requires to { to < length assets.now.assets }
    ensures { IsTrue result ↔ IsSome (price_of assets.now from to) }
{
    !matches!(assets.quote(from, to, 0, 0), Err(QuoteFault::NoPrice))
}
