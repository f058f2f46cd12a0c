//! The arrays of a configuration.
ghost use Rattle.std.specs.Prelude.{◌≡◌, ◌≤◌, length, map, IfOk};
ghost use Rattle.toml.specs.View.{view, table_view};
ghost use Rattle.ilp_fields.specs.Checks.{Reads};
ghost use Rattle.ilp_accounts.specs.Limits.{most_peers};
ghost use Rattle.ilp_accounts.specs.Views.{plain_arrays};
ghost use Rattle.ilp_accounts.specs.Configuration.{arrays_of};
ghost use Rattle.ilp_accounts.specs.Faults.{arrays_fault};

use ilp_fields::{ConfigFault, Field, tables_at};
use toml::{Table, Value};

const MAX_ASSETS: usize = 64;

// Each of 64 assets has a price in each other.
const MAX_PRICES: usize = 4032;

const MAX_PEERS: usize = 256;

const MAX_ROUTES: usize = 4096;

/// The elements of the arrays, all of which are tables.
#[derive(Clone, Copy)]
pub(crate) struct Arrays<'a> {
    pub(crate) assets: &'a [Value],
    pub(crate) prices: &'a [Value],
    pub(crate) peers: &'a [Value],
    pub(crate) routes: &'a [Value],
}

/// Reads the arrays: at least one asset and one peer.
#[tactic(auto, unfolding(crate::specs::Faults::arrays_fault, crate::specs::Configuration::arrays_of), using(ilp_fields::proofs::Elements::length_seen))]
pub(crate) fn arrays_of(table: &Table) -> Result<Arrays<'_>, ConfigFault>
    ensures reads { Reads plain_arrays result
        (arrays_fault (table_view table.now)) (arrays_of (table_view table.now)) }
    ensures few { IfOk result (λ arrays. length arrays.peers.now ≤ most_peers) }
{
    let assets = tables_at(table, Field::Asset, MAX_ASSETS)?;
    if assets.is_empty() {
        return Err(ConfigFault::Missing {
            field: Field::Asset,
        });
    }
    let prices = tables_at(table, Field::Price, MAX_PRICES)?;
    let peers = tables_at(table, Field::Peer, MAX_PEERS)?;
    if peers.is_empty() {
        return Err(ConfigFault::Missing { field: Field::Peer });
    }
    let routes = tables_at(table, Field::Route, MAX_ROUTES)?;
    Ok(Arrays {
        assets,
        prices,
        peers,
        routes,
    })
}
