//! All that is told of a configuration, in order.
ghost use Rattle.std.specs.Prelude.{ℕ, Contains, ◌≡◌, ◌<◌, ◌≤◌, ◌⊎◌, All, length, Some, IfOk, OnOk, IsTrue};
ghost use Rattle.toml.specs.Data.{Members};
ghost use Rattle.toml.specs.View.{table_view};
ghost use Rattle.ilp_accounts.specs.Configuration.{configuration};
ghost use Rattle.ilp_accounts.specs.Faults.{IsToml};
ghost use Rattle.ilp_accounts.specs.Limits.{most_routes};
ghost use Rattle.ilp_warnings.specs.Complete.{KeepsAll, IsTableTold, AreTablesTold, ArePeersTold, AreRoutesTold, IsComplete};
ghost use Rattle.ilp_warnings.specs.Meaning.{IsSocketAddress, targets_of};
ghost use Rattle.ilp_warnings.specs.Told.{Warrants, IsWarranted, AreWarranted, IsAt, address_at};

use crate::addresses::is_address;
use crate::examined::Examined;
use crate::fields::tell_fields;
use crate::peers::tell_peer;
use crate::routes::{targets_of, tell_route};
use crate::top::tell_top;
use crate::values::tables_in;
use crate::warning::{ConfigTable, Warning};
use ilp_accounts::{Config, Field};
use std::alloc::{AllocError, Global};
use toml::{Table, Value};

// No array of a configuration has more tables.
const MAX_TABLES: usize = 4096;

/// What the configuration that was read from these octets allows and probably doesn't mean: first at
/// the top, then table by table of the assets, the prices, the peers and the routes.
///
/// Of each table the fields that are not known there come first. `AllocError` tells that memory is
/// short.
pub fn warnings(alloc: Global, octets: &[u8], config: &Config) -> Result<Vec<Warning>, AllocError>
    ensures sound { (t : Members) → IsToml octets.now t → configuration t ≡ config.now
        → IfOk result (λ told. All (Warrants t config.now (targets_of config.now)) told.items) }
    ensures complete { (t : Members) → IsToml octets.now t → configuration t ≡ config.now
        → IfOk result (λ told. IsComplete t config.now (targets_of config.now) told.items) }
{
    match toml::table_from_slice(alloc, octets) {
        Ok(table) => warnings_of(alloc, &table, config),
        Err(fault) => {
            if fault.is_memory() {
                return Err(AllocError);
            }
            Ok(Vec::new(alloc))
        }
    }
}

// What is told of the configuration that this table stands for.
fn warnings_of(alloc: Global, table: &Table, config: &Config) -> Result<Vec<Warning>, AllocError>
    ensures sound { configuration (table_view table.now) ≡ config.now
        → IfOk result (λ told.
        All (Warrants (table_view table.now) config.now (targets_of config.now)) told.items) }
    ensures complete { configuration (table_view table.now) ≡ config.now
        → IfOk result (λ told.
        IsComplete (table_view table.now) config.now (targets_of config.now) told.items) }
{
    let targets = targets_of(alloc, config, tables_in(table, Field::Route))?;
    let examined = Examined {
        alloc,
        table,
        config,
        targets: &targets,
    };
    all_told(examined)
}

// All that is told.
fn all_told(examined: Examined<'_>) -> Result<Vec<Warning>, AllocError>
    requires { All (λ peer. peer < length examined.config.now.peers) examined.targets.now }
    ensures sound { IfOk result (λ told. AreWarranted examined.entry told.items) }
    ensures complete { IfOk result (λ told. IsComplete (table_view examined.entry.table.now)
        examined.entry.config.now examined.entry.targets.now told.items) }
{
    let mut told = Vec::new(examined.alloc);
    tell_fields(examined, &mut told, ConfigTable::Top, examined.table)?;
    tell_top(examined, &mut told)?;
    tell_assets(examined, &mut told)?;
    tell_prices(examined, &mut told)?;
    tell_peers(examined, &mut told)?;
    tell_routes(examined, &mut told)?;
    Ok(told)
}

// Tells of all assets.
fn tell_assets(examined: Examined<'_>, told: &mut Vec<Warning>) -> Result<(), AllocError>
    requires { AreWarranted examined told.old.items }
    ensures sound { OnOk result (AreWarranted examined.entry told.new.items) }
    ensures kept { OnOk result (KeepsAll told.old.items told.new.items) }
    ensures fields { OnOk result (AreTablesTold (table_view examined.entry.table.now)
        ConfigTable.Asset most_routes told.new.items) }
{
    let values = tables_in(examined.table, Field::Asset);
    for asset in 0..count_of(values) {
        tell_table(
            examined,
            told,
            ConfigTable::Asset(asset),
            values.get(asset as usize),
        )?;
    }
    Ok(())
}

// Tells of all prices.
fn tell_prices(examined: Examined<'_>, told: &mut Vec<Warning>) -> Result<(), AllocError>
    requires { AreWarranted examined told.old.items }
    ensures sound { OnOk result (AreWarranted examined.entry told.new.items) }
    ensures kept { OnOk result (KeepsAll told.old.items told.new.items) }
    ensures fields { OnOk result (AreTablesTold (table_view examined.entry.table.now)
        ConfigTable.Price most_routes told.new.items) }
{
    let values = tables_in(examined.table, Field::Price);
    for price in 0..count_of(values) {
        tell_table(
            examined,
            told,
            ConfigTable::Price(price),
            values.get(price as usize),
        )?;
    }
    Ok(())
}

// Tells of all peers.
fn tell_peers(examined: Examined<'_>, told: &mut Vec<Warning>) -> Result<(), AllocError>
    requires { AreWarranted examined told.old.items }
    ensures sound { OnOk result (AreWarranted examined.entry told.new.items) }
    ensures kept { OnOk result (KeepsAll told.old.items told.new.items) }
    ensures fields { OnOk result (AreTablesTold (table_view examined.entry.table.now)
        ConfigTable.Peer (length examined.entry.config.now.peers) told.new.items) }
    ensures peers { OnOk result (ArePeersTold examined.entry.config.now examined.entry.targets.now
        (length examined.entry.config.now.peers) told.new.items) }
{
    let values = tables_in(examined.table, Field::Peer);
    for peer in 0..examined.config.peers() {
        tell_table(
            examined,
            told,
            ConfigTable::Peer(peer),
            values.get(peer as usize),
        )?;
        tell_peer(examined, told, peer)?;
    }
    Ok(())
}

// Tells of all routes.
fn tell_routes(examined: Examined<'_>, told: &mut Vec<Warning>) -> Result<(), AllocError>
    requires known { All (λ peer. peer < length examined.config.now.peers) examined.targets.now }
    requires sound { AreWarranted examined told.old.items }
    ensures sound { OnOk result (AreWarranted examined.entry told.new.items) }
    ensures kept { OnOk result (KeepsAll told.old.items told.new.items) }
    ensures fields { OnOk result ((n : ℕ) → n < length examined.entry.targets.now → n < most_routes
        → IsTableTold (table_view examined.entry.table.now) (ConfigTable.Route n) told.new.items) }
    ensures routes { OnOk result (AreRoutesTold examined.entry.config.now examined.entry.targets.now
        most_routes told.new.items) }
{
    let values = tables_in(examined.table, Field::Route);
    for route in 0..examined.targets.len().min(MAX_TABLES) as u32 {
        tell_table(
            examined,
            told,
            ConfigTable::Route(route),
            values.get(route as usize),
        )?;
        tell_route(examined, told, route, examined.targets[route as usize])?;
    }
    Ok(())
}

// How many tables an array has.
fn count_of(values: &[Value]) -> u32
    ensures all { length values.now ≤ result ⊎ (result ≡ most_routes) }
{
    values.len().min(MAX_TABLES) as u32
}

// Tells of the fields of a table, if it is there.
fn tell_table(
    examined: Examined<'_>,
    told: &mut Vec<Warning>,
    within: ConfigTable,
    value: Option<&Value>,
) -> Result<(), AllocError>
    requires within { IsAt examined within value }
    requires sound { AreWarranted examined told.old.items }
    ensures sound { OnOk result (AreWarranted examined.entry told.new.items) }
    ensures kept { OnOk result (KeepsAll told.old.items told.new.items) }
    ensures fields { OnOk result
        (IsTableTold (table_view examined.entry.table.now) within told.new.items) }
{
    let Some(value) = value else {
        return Ok(());
    };
    match value.as_table() {
        Some(table) => tell_fields(examined, told, within, table),
        None => Ok(()),
    }
}

/// Tells something where it is so.
pub(crate) fn tell(
    examined: Examined<'_>,
    told: &mut Vec<Warning>,
    is_so: bool,
    warning: Warning,
) -> Result<(), AllocError>
    requires so { IsTrue is_so → IsWarranted examined warning }
    requires sound { AreWarranted examined told.old.items }
    ensures sound { OnOk result (AreWarranted examined.entry told.new.items) }
    ensures kept { OnOk result (KeepsAll told.old.items told.new.items) }
    ensures told { OnOk result (IsTrue is_so → Contains told.new.items warning) }
{
    let _source = examined;
    if is_so {
        told.push(warning)?;
    }
    Ok(())
}

/// Tells of the text of a field that is to be an address, where it is none.
pub(crate) fn tell_address(
    examined: Examined<'_>,
    told: &mut Vec<Warning>,
    within: ConfigTable,
    field: Field,
    text: &str,
) -> Result<(), AllocError>
    requires text { address_at examined.config.now within field ≡ Some text.now }
    requires sound { AreWarranted examined told.old.items }
    ensures sound { OnOk result (AreWarranted examined.entry told.new.items) }
    ensures kept { OnOk result (KeepsAll told.old.items told.new.items) }
    ensures told { OnOk result (¬ IsSocketAddress text.now
        → Contains told.new.items (Warning.NoAddress within field)) }
{
    let is_wrong = !is_address(text);
    tell(
        examined,
        told,
        is_wrong,
        Warning::NoAddress { within, field },
    )
}
