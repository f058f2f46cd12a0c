//! The assets of a configuration, and their prices.
ghost use Rattle.std.specs.Prelude.{◌≡◌, map};
ghost use Rattle.toml.specs.View.{view, table_view};
ghost use Rattle.ilp_order.specs.Checks.{first_of};
ghost use Rattle.ilp_assets.specs.Assets.{plain_asset, plain_price};
ghost use Rattle.ilp_fields.specs.Checks.{Reads};
ghost use Rattle.ilp_fields.specs.Fields.{tables};
ghost use Rattle.ilp_accounts.specs.Views.{plain_arrays};
ghost use Rattle.ilp_accounts.specs.Configuration.{asset_from, price_from, table_of};
ghost use Rattle.ilp_accounts.specs.Faults.{asset_fault, price_fault, assets_fault};

use crate::arrays::Arrays;
use ilp_assets::{Asset, AssetTable, Price};
use ilp_fields::{ConfigFault, Field, Form, required_asset, required_number, required_text};
use std::alloc::Global;
use toml::{Table, Value};

/// The table of all assets and prices.
#[tactic(auto, unfolding(crate::specs::Faults::assets_fault))]
pub(crate) fn table_of(alloc: Global, arrays: Arrays<'_>) -> Result<AssetTable, ConfigFault>
    ensures { Reads (λ table. table) result
        (assets_fault (plain_arrays arrays.entry)) (table_of (plain_arrays arrays.entry)) }
{
    let assets = assets_of(alloc, arrays.assets)?;
    let prices = prices_of(alloc, arrays.prices)?;
    let table = AssetTable::new(alloc, &assets, &prices)?;
    Ok(table)
}

// Reads all assets.
fn assets_of<'a>(alloc: Global, values: &'a [Value]) -> Result<Vec<Asset<'a>>, ConfigFault>
    ensures { let ts = tables (map view values.now) in
        Reads (λ assets. map plain_asset assets.items) result
        (first_of (map asset_fault ts)) (map asset_from ts) }
{
    let mut assets = Vec::new(alloc);
    for value in values {
        if let Some(table) = value.as_table() {
            let asset = asset_from(table)?;
            assets.push(asset)?;
        }
    }
    Ok(assets)
}

/// Reads one asset.
pub(crate) fn asset_from(table: &Table) -> Result<Asset<'_>, ConfigFault>
    ensures { Reads plain_asset result
        (asset_fault (table_view table.now)) (asset_from (table_view table.now)) }
{
    let code = required_text(table, Field::Code, Form::Code)?;
    let scale = required_number(table, Field::Scale, 0, 255)?;
    Ok(Asset {
        code,
        scale: scale as u8,
    })
}

// Reads all prices.
fn prices_of<'a>(alloc: Global, values: &'a [Value]) -> Result<Vec<Price<'a>>, ConfigFault>
    ensures { let ts = tables (map view values.now) in
        Reads (λ prices. map plain_price prices.items) result
        (first_of (map price_fault ts)) (map price_from ts) }
{
    let mut prices = Vec::new(alloc);
    for value in values {
        if let Some(table) = value.as_table() {
            let price = price_from(table)?;
            prices.push(price)?;
        }
    }
    Ok(prices)
}

// Reads one price.
#[tactic(auto, unfolding(crate::specs::Faults::price_fault, crate::specs::Configuration::price_from))]
fn price_from(table: &Table) -> Result<Price<'_>, ConfigFault>
    ensures { Reads plain_price result
        (price_fault (table_view table.now)) (price_from (table_view table.now)) }
{
    let from = required_asset(table, Field::From)?;
    let to = required_asset(table, Field::To)?;
    let p = required_number(table, Field::P, 0, u32::MAX)?;
    let q = required_number(table, Field::Q, 0, u32::MAX)?;
    Ok(Price { from, to, p, q })
}
