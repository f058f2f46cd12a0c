//! The peers of a configuration: as they are kept, and as they are read, each beside those before it.
ghost use Rattle.std.specs.Prelude.{◌≡◌, ◌≢◌, ◌≤◌, ◌<◌, ◌+◌, ◌^◌, [], ◌∷◌, ◌++◌, length, map, Some, None, false, true, IfOk, OnOk, IfErr};
ghost use Rattle.toml.specs.View.{view, table_view};
ghost use Rattle.ilp_fields.specs.Checks.{Reads, first_beside};
ghost use Rattle.ilp_fields.specs.Fields.{tables};
ghost use Rattle.ilp_accounts.specs.Limits.{most_peers};
ghost use Rattle.ilp_accounts.specs.Views.{plain_peer, plain_fields};
ghost use Rattle.ilp_accounts.specs.Configuration.{peer_of, peer_from, peer_names, peer_tokens};
ghost use Rattle.ilp_accounts.specs.Faults.{is_among, peer_fault, peer_rules_fault, levels_fault, are_ordered};

use crate::peer::{Peer, PeerFields, copies_of_peers, fields_of};
use ilp_assets::AssetTable;
use ilp_fields::{ConfigFault, Field};
use ilp_lookup::{LookupFault, TextIndex};
use std::alloc::{AllocError, Global};
use std::marker::Model;
use toml::{Table, Value};

/// Peers, with their names and tokens for look-ups.
#[derive(Drop)]
pub(crate) struct Peers {
    list: Vec<Peer>,
    names: TextIndex,
    tokens: TextIndex,
}

impl Model for Peers {
    ghost use Rattle.std.specs.Prelude.{List, map};
    ghost use Rattle.ilp_accounts.specs.Configuration.{PlainPeer};
    ghost use Rattle.ilp_accounts.specs.Views.{plain_peer, AreKept};

    ghost Value = { List PlainPeer };

    ghost view = { λ p. map plain_peer p.list.items };

    ghost invariant = { λ p. AreKept p.names p.tokens (map plain_peer p.list.items) };
}

impl Peers {
    // No peer: it takes no memory.
    fn new(alloc: Global) -> Peers
        ensures { result ≡ [] }
    {
        Peers {
            list: Vec::new(alloc),
            names: TextIndex::new(alloc),
            tokens: TextIndex::new(alloc),
        }
    }

    /// How many peers there are.
    pub(crate) fn len(&self) -> usize
        ensures { result ≡ length self.now }
    {
        self.list.len()
    }

    /// What the peers' memory comes from.
    pub(crate) fn allocator(&self) -> Global {
        *self.list.allocator()
    }

    /// The peers in order.
    pub(crate) fn as_slice(&self) -> &[Peer]
        ensures { map plain_peer result.now ≡ self.now }
    {
        self.list.as_slice()
    }

    /// The names, each at its peer's place.
    pub(crate) fn names(&self) -> &TextIndex
        ensures { result.now ≡ peer_names self.now }
    {
        let _list = &self.list;
        &self.names
    }

    /// The tokens, each at its peer's place.
    pub(crate) fn tokens(&self) -> &TextIndex
        ensures { result.now ≡ peer_tokens self.now }
    {
        let _list = &self.list;
        &self.tokens
    }

    /// Equal peers, with memory of their own.
    pub(crate) fn copy(&self) -> Result<Peers, AllocError>
        ensures { IfOk result (λ copy. copy ≡ self.now) }
    {
        let list = copies_of_peers(self.allocator(), &self.list)?;
        Ok(Peers {
            list,
            names: self.names.copy()?,
            tokens: self.tokens.copy()?,
        })
    }
}

/// Reads all peers, each beside those before it.
pub(crate) fn peers_of(
    alloc: Global,
    assets: &AssetTable,
    values: &[Value],
) -> Result<Peers, ConfigFault>
    requires { length values.now ≤ most_peers }
    ensures { let known = assets.now.assets in
        let ts = tables (map view values.now) in
        Reads (λ peers. peers) result
        (first_beside (peer_fault known) (peer_of known) [] ts) (map (peer_of known) ts) }
{
    let mut peers = Peers::new(alloc);
    for value in values {
        if let Some(table) = value.as_table() {
            peers = with_peer(alloc, assets, peers, table)?;
        }
    }
    Ok(peers)
}

// The peers with one more, which is read from a table.
#[tactic(auto, unfolding(crate::specs::Faults::peer_fault))]
fn with_peer(
    alloc: Global,
    assets: &AssetTable,
    peers: Peers,
    table: &Table,
) -> Result<Peers, ConfigFault>
    requires { length peers + 1 < 2 ^ 32 }
    ensures none { OnOk result
        (peer_fault assets.now.assets peers (table_view table.now) ≡ None) }
    ensures ok { IfOk result (λ more.
        more ≡ peers ++ peer_of assets.now.assets (table_view table.now) ∷ []) }
    ensures err { IfErr result (λ e. e ≢ ConfigFault.Memory
        → peer_fault assets.now.assets peers (table_view table.now) ≡ Some e) }
{
    let Peers {
        mut list,
        mut names,
        mut tokens,
    } = peers;
    let fields = fields_of(table)?;
    let peer = peer_from(alloc, assets, &mut names, &mut tokens, &fields)?;
    list.push(peer)?;
    Ok(Peers {
        list,
        names,
        tokens,
    })
}

// The peer of these fields, by the rules. Its name and its token join those of the peers before it.
#[tactic(auto, unfolding(crate::specs::Faults::peer_rules_fault, crate::specs::Configuration::peer_from))]
fn peer_from(
    alloc: Global,
    assets: &AssetTable,
    names: &mut TextIndex,
    tokens: &mut TextIndex,
    fields: &PeerFields<'_>,
) -> Result<Peer, ConfigFault>
    requires names { length names.old + 1 < 2 ^ 32 }
    requires tokens { length tokens.old + 1 < 2 ^ 32 }
    ensures reads { let known = assets.now.assets in
        Reads plain_peer result
        (peer_rules_fault known names.old tokens.old (plain_fields fields.now))
        (peer_from known (plain_fields fields.now)) }
    ensures kept { IfOk result (λ peer.
        (names.new ≡ names.old ++ (plain_peer peer).name ∷ [])
        × (tokens.new ≡ tokens.old ++ (plain_peer peer).token ∷ [])) }
{
    let Some(asset) = assets.find(fields.asset.code, fields.asset.scale) else {
        return Err(ConfigFault::NoSuchAsset);
    };
    add_text(names, fields.name, ConfigFault::DoublePeer)?;
    add_text(tokens, fields.token, ConfigFault::DoubleToken)?;
    check_levels(fields)?;
    let peer = fields.owned(alloc, asset)?;
    Ok(peer)
}

// Adds a text, or answers this fault where it is there already.
fn add_text(texts: &mut TextIndex, text: &str, double: ConfigFault) -> Result<(), ConfigFault>
    requires { length texts.old + 1 < 2 ^ 32 }
    ensures ok { OnOk result ((is_among text.now texts.old ≡ false)
        × (texts.new ≡ texts.old ++ text.now ∷ [])) }
    ensures err { IfErr result (λ e. e ≢ ConfigFault.Memory
        → (is_among text.now texts.old ≡ true) × (e ≡ double)) }
{
    match texts.insert(text.as_bytes()) {
        Ok(()) => Ok(()),
        Err(LookupFault::Double) => Err(double),
        Err(LookupFault::Memory) => Err(ConfigFault::Memory),
    }
}

// Looks at the levels of a peer, and at what a threshold needs.
#[tactic(auto, unfolding(crate::specs::Faults::levels_fault))]
fn check_levels(fields: &PeerFields<'_>) -> Result<(), ConfigFault>
    ensures ok { OnOk result (levels_fault (plain_fields fields.now) ≡ None) }
    ensures err { IfErr result (λ e. levels_fault (plain_fields fields.now) ≡ Some e) }
{
    if fields.threshold.is_some() && fields.settle_to.is_none() {
        return Err(ConfigFault::Missing {
            field: Field::SettleTo,
        });
    }
    if fields.threshold.is_some() && fields.engine.is_none() {
        return Err(ConfigFault::Missing {
            field: Field::Engine,
        });
    }
    if fields.least > 0 {
        return Err(ConfigFault::BadLevels);
    }
    if !are_ordered(fields.least, fields.threshold, fields.settle_to) {
        return Err(ConfigFault::BadLevels);
    }
    if fields.settle_max.is_some() && fields.threshold.is_none() {
        return Err(ConfigFault::BadLevels);
    }
    if fields.settle_after_ms.is_some() && fields.threshold.is_none() {
        return Err(ConfigFault::Missing {
            field: Field::Threshold,
        });
    }
    Ok(())
}

// Whether the levels are in order, where all of them are given.
fn are_ordered(least: i64, threshold: Option<i64>, settle_to: Option<i64>) -> bool
    ensures { result ≡ are_ordered least threshold settle_to }
{
    match (threshold, settle_to) {
        (None, settle_to) => settle_to.is_none(),
        (Some(_), None) => true,
        (Some(threshold), Some(settle_to)) => least <= settle_to && settle_to < threshold,
    }
}
