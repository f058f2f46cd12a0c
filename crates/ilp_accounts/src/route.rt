//! The routes of a configuration, each looked at beside those before it.
ghost use Rattle.std.specs.Prelude.{◌≡◌, ◌≢◌, [], ◌∷◌, ◌++◌, map, Some, None, false, true, OnOk, IfErr};
ghost use Rattle.toml.specs.View.{view, table_view};
ghost use Rattle.ilp_fields.specs.Checks.{Reads, first_beside};
ghost use Rattle.ilp_fields.specs.Fields.{tables};
ghost use Rattle.ilp_lookup.specs.Route.{prefixes};
ghost use Rattle.ilp_accounts.specs.Configuration.{peer_names, route_of, place_named};
ghost use Rattle.ilp_accounts.specs.Faults.{is_among, route_fault};

use crate::peers::Peers;
use ilp_fields::{ConfigFault, Field, Form, required_text};
use ilp_lookup::{LookupFault, RouteIndex, TextIndex};
use std::alloc::Global;
use toml::{Table, Value};

/// Reads all routes, to these peers.
pub(crate) fn routes_of(
    alloc: Global,
    peers: &Peers,
    values: &[Value],
) -> Result<RouteIndex, ConfigFault>
    ensures { let names = peer_names peers.now in
        let ts = tables (map view values.now) in
        Reads (λ routes. routes) result
        (first_beside (route_fault names) (route_of names) [] ts) (map (route_of names) ts) }
{
    routes_among(alloc, peers.names(), values)
}

// Reads all routes, to the peers of these names.
fn routes_among(
    alloc: Global,
    names: &TextIndex,
    values: &[Value],
) -> Result<RouteIndex, ConfigFault>
    ensures { let ts = tables (map view values.now) in
        Reads (λ routes. routes) result
        (first_beside (route_fault names.now) (route_of names.now) [] ts)
        (map (route_of names.now) ts) }
{
    let mut routes = RouteIndex::new(alloc);
    for value in values {
        if let Some(table) = value.as_table() {
            add_route(names, &mut routes, table)?;
        }
    }
    Ok(routes)
}

// Reads one route, and adds it to those before it.
#[tactic(auto, unfolding(crate::specs::Faults::route_fault))]
fn add_route(names: &TextIndex, routes: &mut RouteIndex, table: &Table) -> Result<(), ConfigFault>
    ensures none { OnOk result (route_fault names.now routes.old (table_view table.now) ≡ None) }
    ensures ok { OnOk result
        (routes.new ≡ routes.old ++ route_of names.now (table_view table.now) ∷ []) }
    ensures err { IfErr result (λ e. e ≢ ConfigFault.Memory
        → route_fault names.now routes.old (table_view table.now) ≡ Some e) }
{
    let prefix = required_text(table, Field::Prefix, Form::Prefix)?;
    let name = required_text(table, Field::Peer, Form::Name)?;
    let Some(peer) = peer_named(names, name) else {
        return Err(ConfigFault::BadValue { field: Field::Peer });
    };
    insert(routes, prefix, peer)
}

// The place of the peer of a name.
fn peer_named(names: &TextIndex, name: &str) -> Option<u32>
    ensures { result ≡ place_named names.now name.now }
{
    names.find(name.as_bytes())
}

// Adds a route, or answers that its prefix is there already.
fn insert(routes: &mut RouteIndex, prefix: &str, peer: u32) -> Result<(), ConfigFault>
    ensures ok { OnOk result ((is_among prefix.now (prefixes routes.old) ≡ false)
        × (routes.new ≡ routes.old ++ record { prefix = prefix.now; peer = peer } ∷ [])) }
    ensures err { IfErr result (λ e. e ≢ ConfigFault.Memory
        → (is_among prefix.now (prefixes routes.old) ≡ true) × (e ≡ ConfigFault.DoubleRoute)) }
{
    match routes.insert(prefix.as_bytes(), peer) {
        Ok(()) => Ok(()),
        Err(LookupFault::Double) => Err(ConfigFault::DoubleRoute),
        Err(LookupFault::Memory) => Err(ConfigFault::Memory),
    }
}
