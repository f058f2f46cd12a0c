//! Where in a configuration a fault lies.
ghost use Rattle.std.specs.Prelude.{◌≤◌, length};
ghost use Rattle.ilp_accounts.specs.Limits.{most_peers};

use crate::arrays::{Arrays, arrays_of};
use crate::assets::{asset_from, table_of};
use crate::peers::peers_of;
use crate::route::routes_of;
use ilp_assets::AssetTable;
use ilp_fields::{ConfigFault, Field, Form, required_text};
use std::alloc::{AllocError, Global};
use std::fmt;
use toml::{Table, Value};

/// The arrays of a configuration, in the order in which they are read.
#[derive(Clone, Copy, Debug, PartialEq, Eq)]
pub(crate) enum Array {
    Asset,
    Price,
    Peer,
    Route,
}

/// A place in a configuration.
#[derive(Clone, Copy)]
pub(crate) enum FaultPlace<'a> {
    /// Outside of the tables of all arrays.
    Top,
    /// The table of this number, counted from 1.
    Table {
        array: Array,
        number: usize,
        table: &'a Table,
    },
}

impl FaultPlace<'_> {
    /// The array that it lies in, unless it is at the top.
    pub(crate) fn array(self) -> Option<Array> {
        match self {
            FaultPlace::Top => None,
            FaultPlace::Table { array, .. } => Some(array),
        }
    }
}

impl fmt::Display for Array {
    fn fmt<W: fmt::Write>(&self, f: &mut fmt::Formatter<W>) -> fmt::Result {
        f.write_str(match self {
            Array::Asset => "[[asset]]",
            Array::Price => "[[price]]",
            Array::Peer => "[[peer]]",
            Array::Route => "[[route]]",
        })
    }
}

impl fmt::Display for FaultPlace<'_> {
    fn fmt<W: fmt::Write>(&self, f: &mut fmt::Formatter<W>) -> fmt::Result {
        match self {
            FaultPlace::Top => f.write_str("at the top"),
            FaultPlace::Table {
                array,
                number,
                table,
            } => {
                write!(f, "{array} {number}")?;
                write_name(f, *array, table)
            }
        }
    }
}

// Writes the name of an asset or of a peer, only where it has the form of one. So no octet of a
// configuration gets into the line that could spoil it.
fn write_name<W: fmt::Write>(
    f: &mut fmt::Formatter<W>,
    array: Array,
    table: &Table,
) -> fmt::Result {
    match array {
        Array::Asset => match asset_from(table) {
            Ok(asset) => write!(f, " \"{}/{}\"", asset.code, asset.scale),
            Err(_) => Ok(()),
        },
        Array::Peer => match required_text(table, Field::Name, Form::Name) {
            Ok(name) => write!(f, " \"{name}\""),
            Err(_) => Ok(()),
        },
        Array::Price | Array::Route => Ok(()),
    }
}

/// The place of the first fault of a configuration.
///
/// The tables are read in one order, array after array. Their fault is this one from the first table
/// on that has it, and with fewer tables it is none or another one: so a bisection finds the table.
pub(crate) fn place_of(
    alloc: Global,
    table: &Table,
    fault: ConfigFault,
) -> Result<FaultPlace<'_>, AllocError> {
    let Ok(arrays) = arrays_of(table) else {
        return Ok(FaultPlace::Top);
    };
    if fault_of(alloc, arrays)? != Some(fault) {
        return Ok(FaultPlace::Top);
    }
    let count = least_count(alloc, arrays, fault)?;
    Ok(last_of(front_of(arrays, count)))
}

// How many tables, from the first one on, have this fault at least, which all of them have.
fn least_count(alloc: Global, arrays: Arrays<'_>, fault: ConfigFault) -> Result<usize, AllocError>
    requires { length arrays.peers.now ≤ most_peers }
{
    let mut too_few = 0;
    let mut enough = count_of(arrays);
    while enough - too_few > 1 {
        let middle = too_few + (enough - too_few) / 2;
        if fault_of(alloc, front_of(arrays, middle))? == Some(fault) {
            enough = middle;
        } else {
            too_few = middle;
        }
    }
    Ok(enough)
}

// The first fault of the tables.
fn fault_of(alloc: Global, arrays: Arrays<'_>) -> Result<Option<ConfigFault>, AllocError>
    requires { length arrays.peers.now ≤ most_peers }
{
    match read(alloc, arrays) {
        Ok(()) => Ok(None),
        Err(ConfigFault::Memory) => Err(AllocError),
        Err(fault) => Ok(Some(fault)),
    }
}

// Reads the tables of the arrays, and gives up what they make.
fn read(alloc: Global, arrays: Arrays<'_>) -> Result<(), ConfigFault>
    requires { length arrays.peers.now ≤ most_peers }
{
    let assets = table_of(alloc, arrays)?;
    read_peers(alloc, &assets, arrays)
}

// Reads peers and routes beside the assets, and gives up what they make.
fn read_peers(alloc: Global, assets: &AssetTable, arrays: Arrays<'_>) -> Result<(), ConfigFault>
    requires { length arrays.peers.now ≤ most_peers }
{
    let peers = peers_of(alloc, assets, arrays.peers)?;
    match routes_of(alloc, &peers, arrays.routes) {
        Ok(_) => Ok(()),
        Err(fault) => Err(fault),
    }
}

// How many tables the arrays have.
fn count_of(arrays: Arrays<'_>) -> usize {
    arrays
        .assets
        .len()
        .saturating_add(arrays.prices.len())
        .saturating_add(arrays.peers.len())
        .saturating_add(arrays.routes.len())
}

// The arrays with only the first so many tables, counted over all arrays.
fn front_of(arrays: Arrays<'_>, count: usize) -> Arrays<'_>
    ensures { length result.peers.now ≤ length arrays.entry.peers.now }
{
    let (assets, left) = first_of(arrays.assets, count);
    let (prices, left) = first_of(arrays.prices, left);
    let (peers, left) = first_of(arrays.peers, left);
    let (routes, _) = first_of(arrays.routes, left);
    Arrays {
        assets,
        prices,
        peers,
        routes,
    }
}

// At most so many of the values, and how many there are still to take from others.
fn first_of(values: &[Value], count: usize) -> (&[Value], usize)
    ensures { length result.0.now ≤ length values.now }
{
    match values.get(..count) {
        Some(front) => (front, 0),
        None => (values, count.saturating_sub(values.len())),
    }
}

// The place of the last table.
fn last_of(arrays: Arrays<'_>) -> FaultPlace<'_> {
    last_in(Array::Route, arrays.routes)
        .or(last_in(Array::Peer, arrays.peers))
        .or(last_in(Array::Price, arrays.prices))
        .or(last_in(Array::Asset, arrays.assets))
        .unwrap_or(FaultPlace::Top)
}

// The place of an array's last table.
fn last_in(array: Array, values: &[Value]) -> Option<FaultPlace<'_>> {
    let table = values.last()?.as_table()?;
    Some(FaultPlace::Table {
        array,
        number: values.len(),
        table,
    })
}
