//! A peer of a configuration.
ghost use Rattle.std.specs.Prelude.{◌≡◌, map, option_map, string_bytes, IfOk};
ghost use Rattle.toml.specs.View.{table_view};
ghost use Rattle.ilp_fields.specs.Checks.{Reads};
ghost use Rattle.ilp_accounts.specs.Views.{plain_peer, plain_fields};
ghost use Rattle.ilp_accounts.specs.Configuration.{fields_of, levels_from, peer_with};
ghost use Rattle.ilp_accounts.specs.Faults.{fields_fault};

use ilp_assets::Asset;
use ilp_fields::{
    ConfigFault, Field, Form, defaulted_amount, defaulted_number, defaulted_text, optional_amount,
    optional_integer, optional_number, optional_text, required_asset, required_integer,
    required_text,
};
use std::alloc::{AllocError, Global};
use toml::Table;

// The greatest amount that TOML can write.
const MAX_WRITTEN: u64 = i64::MAX as u64;

// The longest time in milliseconds for which a settlement may wait: a week.
const LONGEST_WAIT_MS: u32 = 604_800_000;

/// The levels between which the connector settles with a peer, in units of the peer's asset.
#[derive(Clone, Copy, Debug, PartialEq, Eq)]
pub struct Levels {
    /// A settlement is due where the balance reaches this.
    pub threshold: i64,
    /// A settlement brings the balance down to this, which is below the threshold.
    pub settle_to: i64,
    /// No settlement is of more: at least 1. Where the configuration has none it is as much as a
    /// packet can carry.
    pub settle_max: u64,
}

/// A peer. Its asset is a place in the table of assets.
#[derive(Debug, Drop)]
pub(crate) struct Peer {
    pub(crate) name: String,
    pub(crate) asset: u32,
    pub(crate) token: String,
    pub(crate) out_token: String,
    pub(crate) host: String,
    pub(crate) out_path: String,
    pub(crate) least: i64,
    pub(crate) fee_ppm: u32,
    pub(crate) max_packet: u64,
    pub(crate) engine: Option<String>,
    pub(crate) levels: Option<Levels>,
    pub(crate) settle_after_ms: u32,
}

/// What stands in the fields of a peer's table.
#[derive(Clone, Copy)]
pub(crate) struct PeerFields<'a> {
    pub(crate) name: &'a str,
    pub(crate) asset: Asset<'a>,
    pub(crate) token: &'a str,
    out_token: &'a str,
    host: &'a str,
    out_path: &'a str,
    pub(crate) least: i64,
    fee_ppm: u32,
    max_packet: u64,
    pub(crate) engine: Option<&'a str>,
    pub(crate) threshold: Option<i64>,
    pub(crate) settle_to: Option<i64>,
    pub(crate) settle_max: Option<u64>,
    pub(crate) settle_after_ms: Option<u32>,
}

/// Reads the fields of a peer's table.
#[tactic(auto, unfolding(crate::specs::Faults::fields_fault, crate::specs::Configuration::fields_of))]
pub(crate) fn fields_of(table: &Table) -> Result<PeerFields<'_>, ConfigFault>
    ensures { Reads plain_fields result
        (fields_fault (table_view table.now)) (fields_of (table_view table.now)) }
{
    let name = required_text(table, Field::Name, Form::Name)?;
    let asset = required_asset(table, Field::Asset)?;
    let token = required_text(table, Field::Token, Form::Token)?;
    let out_token = required_text(table, Field::OutToken, Form::Token)?;
    let host = required_text(table, Field::Host, Form::SocketAddress)?;
    let out_path = defaulted_text(table, Field::OutPath, Form::Path, "/ilp")?;
    let least = required_integer(table, Field::Least)?;
    let fee_ppm = defaulted_number(table, Field::FeePpm, 0, 1_000_000, 0)?;
    let max_packet = defaulted_amount(table, Field::MaxPacket, MAX_WRITTEN, u64::MAX)?;
    let engine = optional_text(table, Field::Engine, Form::SocketAddress)?;
    let threshold = optional_integer(table, Field::Threshold)?;
    let settle_to = optional_integer(table, Field::SettleTo)?;
    let settle_max = optional_amount(table, Field::SettleMax, 1, MAX_WRITTEN)?;
    let settle_after_ms = optional_number(table, Field::SettleAfterMs, 0, LONGEST_WAIT_MS)?;
    Ok(PeerFields {
        name,
        asset,
        token,
        out_token,
        host,
        out_path,
        least,
        fee_ppm,
        max_packet,
        engine,
        threshold,
        settle_to,
        settle_max,
        settle_after_ms,
    })
}

impl PeerFields<'_> {
    // The levels, where both are given.
    fn levels(&self) -> Option<Levels>
        ensures { result ≡ levels_from self.now.threshold self.now.settle_to self.now.settle_max }
    {
        match (self.threshold, self.settle_to) {
            (Some(threshold), Some(settle_to)) => Some(Levels {
                threshold,
                settle_to,
                settle_max: self.settle_max.unwrap_or(u64::MAX),
            }),
            _ => None,
        }
    }

    /// The peer of these fields, whose asset has this place, with texts of its own.
    pub(crate) fn owned(&self, alloc: Global, asset: u32) -> Result<Peer, AllocError>
        ensures { IfOk result (λ peer. plain_peer peer ≡ peer_with asset (plain_fields self.now)) }
    {
        Ok(Peer {
            name: String::from_str(alloc, self.name)?,
            asset,
            token: String::from_str(alloc, self.token)?,
            out_token: String::from_str(alloc, self.out_token)?,
            host: String::from_str(alloc, self.host)?,
            out_path: String::from_str(alloc, self.out_path)?,
            least: self.least,
            fee_ppm: self.fee_ppm,
            max_packet: self.max_packet,
            engine: owned_text(alloc, self.engine)?,
            levels: self.levels(),
            settle_after_ms: self.settle_after_ms.unwrap_or(0),
        })
    }
}

impl Peer {
    /// An equal peer, with texts of its own.
    pub(crate) fn copy(&self, alloc: Global) -> Result<Peer, AllocError>
        ensures { IfOk result (λ peer. plain_peer peer ≡ plain_peer self.now) }
    {
        Ok(Peer {
            name: String::from_str(alloc, &self.name)?,
            asset: self.asset,
            token: String::from_str(alloc, &self.token)?,
            out_token: String::from_str(alloc, &self.out_token)?,
            host: String::from_str(alloc, &self.host)?,
            out_path: String::from_str(alloc, &self.out_path)?,
            least: self.least,
            fee_ppm: self.fee_ppm,
            max_packet: self.max_packet,
            engine: owned_text(alloc, self.engine())?,
            levels: self.levels,
            settle_after_ms: self.settle_after_ms,
        })
    }

    /// The place of the peer's settlement engine.
    pub(crate) fn engine(&self) -> Option<&str>
        ensures { option_map (λ text. text.now) result ≡ option_map string_bytes self.now.engine }
    {
        match &self.engine {
            None => None,
            Some(engine) => Some(engine.as_str()),
        }
    }
}

// A text of its own, where there is one.
fn owned_text(alloc: Global, text: Option<&str>) -> Result<Option<String>, AllocError>
    ensures { IfOk result
        (λ owned. option_map string_bytes owned ≡ option_map (λ t. t.now) text.entry) }
{
    match text {
        None => Ok(None),
        Some(text) => Ok(Some(String::from_str(alloc, text)?)),
    }
}

/// Equal peers in the same order.
pub(crate) fn copies_of_peers(alloc: Global, peers: &[Peer]) -> Result<Vec<Peer>, AllocError>
    ensures { IfOk result (λ copies. map plain_peer copies.items ≡ map plain_peer peers.now) }
{
    let mut copies = Vec::with_capacity(alloc, peers.len())?;
    for peer in peers {
        copies.push(peer.copy(alloc)?)?;
    }
    Ok(copies)
}
