//! What is told of each peer and of each asset.
ghost use Rattle.std.specs.Prelude.{◌≡◌, ◌<◌, length, map, ◌≤ℤ◌, IfOk, string_bytes};
ghost use Rattle.std.specs.List.{range_with_len};
ghost use Rattle.ilp_assets.specs.Assets.{plain_asset};
ghost use Rattle.ilp_report.specs.Report.{peer_account, asset_books, asset_name};
ghost use Rattle.ilp_report.specs.Columns.{IsShort, IsNarrow};
ghost use Rattle.ilp_report.specs.Sound.{AreNarrow};

use ilp_assets::Asset;
use ilp_book::{Book, Sums};
use std::alloc::{AllocError, Allocator, Global};
use std::marker::Model;

/// What is told of a peer. Its balance is no less than its least.
#[derive(Drop)]
pub struct PeerAccount<A: Allocator = Global> {
    name: String<A>,
    asset: u32,
    least: i64,
    balance: i128,
    open_holds: u32,
}

impl<A: Allocator> Model for PeerAccount<A> {
    ghost use Rattle.std.specs.Prelude.{string_bytes};
    ghost use Rattle.ilp_report.specs.Report.{PlainPeerAccount};
    ghost use Rattle.ilp_report.specs.Sound.{IsPeerAccount};

    ghost Value = { PlainPeerAccount };

    ghost view = { λ p. record {
      name = string_bytes p.name;
      asset = p.asset;
      least = p.least;
      balance = p.balance;
      open_holds = p.open_holds;
    } };

    ghost invariant = { λ p. IsPeerAccount (record {
      name = string_bytes p.name;
      asset = p.asset;
      least = p.least;
      balance = p.balance;
      open_holds = p.open_holds;
    }) };
}

impl<A: Allocator> PeerAccount<A> {
    /// Its name: 1 to 16 small letters, digits, `_` and `-`.
    pub fn name(&self) -> &str
        ensures value { result.now ≡ self.now.name }
        ensures short { IsShort result.now }
    {
        &self.name
    }

    /// The place of its asset among those of the configuration.
    pub fn asset(&self) -> u32
        ensures { result ≡ self.now.asset }
    {
        self.asset
    }

    /// What the connector owes it, in units of its asset.
    pub fn balance(&self) -> i128
        ensures value { result ≡ self.now.balance }
        ensures narrow { IsNarrow result }
        ensures least { self.now.least ≤ℤ self.now.balance }
    {
        self.balance
    }

    /// The least that its balance may be, in units of its asset.
    pub fn least(&self) -> i64
        ensures { result ≡ self.now.least }
    {
        self.least
    }

    /// How many of the open holds it sent.
    pub fn open_holds(&self) -> u32
        ensures { result ≡ self.now.open_holds }
    {
        self.open_holds
    }
}

/// What is told of an asset.
#[derive(Drop)]
pub struct AssetBooks<A: Allocator = Global> {
    name: String<A>,
    sums: Sums,
}

impl<A: Allocator> Model for AssetBooks<A> {
    ghost use Rattle.std.specs.Prelude.{string_bytes};
    ghost use Rattle.ilp_report.specs.Report.{PlainAssetBooks};
    ghost use Rattle.ilp_report.specs.Sound.{AreAssetBooks};

    ghost Value = { PlainAssetBooks };

    ghost view = { λ a. record {
      name = string_bytes a.name;
      sums = a.sums;
    } };

    ghost invariant = { λ a. AreAssetBooks (record {
      name = string_bytes a.name;
      sums = a.sums;
    }) };
}

impl<A: Allocator> AssetBooks<A> {
    /// Its name: `CODE/SCALE`.
    pub fn name(&self) -> &str
        ensures value { result.now ≡ self.now.name }
        ensures short { IsShort result.now }
    {
        &self.name
    }

    /// What its books come to, in its units.
    pub fn sums(&self) -> Sums
        ensures value { result ≡ self.now.sums }
        ensures narrow { AreNarrow result }
    {
        self.sums
    }
}

/// What is told of each peer of a book, in the configuration's order.
pub(crate) fn peer_accounts<A: Allocator + Copy, B: Allocator>(
    alloc: A,
    book: &Book<B>,
) -> Result<Vec<PeerAccount<A>, A>, AllocError>
    ensures { IfOk result (λ peers. peers.items
        ≡ map (peer_account book.now) (range_with_len 0 (length book.now.config.peers))) }
{
    let count = book.config().peers();
    let mut peers = Vec::with_capacity(alloc, count as usize)?;
    for peer in 0..count {
        peers.push(peer_account(alloc, book, peer)?)?;
    }
    Ok(peers)
}

/// What is told of each asset of a book, in the configuration's order.
pub(crate) fn all_asset_books<A: Allocator + Copy, B: Allocator>(
    alloc: A,
    book: &Book<B>,
) -> Result<Vec<AssetBooks<A>, A>, AllocError>
    ensures { IfOk result (λ assets. assets.items
        ≡ map (asset_books book.now) (range_with_len 0 (length book.now.config.table.assets))) }
{
    let count = book.config().assets().asset_count();
    let mut assets = Vec::with_capacity(alloc, count as usize)?;
    for asset in 0..count {
        assets.push(asset_books(alloc, book, asset)?)?;
    }
    Ok(assets)
}

// What is told of the peer at a place.
#[tactic(auto, unfolding(crate::specs::Report::peer_account))]
fn peer_account<A: Allocator, B: Allocator>(
    alloc: A,
    book: &Book<B>,
    peer: u32,
) -> Result<PeerAccount<A>, AllocError>
    requires { peer < length book.now.config.peers }
    ensures { IfOk result (λ account. account ≡ peer_account book.now peer) }
{
    let config = book.config();
    Ok(PeerAccount {
        name: String::from_str(alloc, config.name(peer))?,
        asset: config.asset(peer),
        least: config.least(peer),
        balance: book.balance(peer),
        open_holds: book.open_holds(peer),
    })
}

// What is told of the asset at a place.
#[tactic(auto, unfolding(crate::specs::Report::asset_books))]
fn asset_books<A: Allocator, B: Allocator>(
    alloc: A,
    book: &Book<B>,
    place: u32,
) -> Result<AssetBooks<A>, AllocError>
    requires { place < length book.now.config.table.assets }
    ensures { IfOk result (λ books. books ≡ asset_books book.now place) }
{
    let Some(asset) = book.config().assets().asset(place) else {
        unreachable!();
    };
    Ok(AssetBooks {
        name: name_of(alloc, asset)?,
        sums: book.sums(place),
    })
}

// The name of an asset.
fn name_of<A: Allocator>(alloc: A, asset: Asset<'_>) -> Result<String<A>, AllocError>
    ensures { IfOk result (λ name. string_bytes name ≡ asset_name (plain_asset asset.entry)) }
{
    let code = asset.code;
    let scale = asset.scale;
    format!(in alloc; "{code}/{scale}")
}
