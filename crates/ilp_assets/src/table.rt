//! The table of a connector's assets and their prices.
ghost use Rattle.std.specs.Prelude.{◌≡◌, ◌≢◌, ℕ, ◌+◌, ◌*◌, ◌<◌, ◌≤◌, ◌^◌, [], ◌∷◌, ◌++◌, Some, None, length, map, replicate, option_map, slice_get, is_some, IfOk, IfErr, IfNone, IfSome, OnOk, OnErr};
ghost use Rattle.std.specs.List.{position_from};
ghost use Rattle.ilp_assets.specs.Assets.{plain_asset, plain_price, asset_at, place_of};
ghost use Rattle.ilp_assets.specs.Faults.{is_among, fault_of, fault_of_assets, price_fault};
ghost use Rattle.ilp_assets.specs.Quote.{million, price_of, scale_of, quote};
ghost use Rattle.ilp_assets.specs.Table.{plain_listed, plain_placed, place_of_price, IsPrice, IsNamed, IsNext};

use crate::asset::{Asset, Price};
use crate::fault::AssetFault;
use crate::given::fault_of_assets;
use crate::listed::{Listed, clones_of, copies_of, place_of};
use crate::quote::{Quote, QuoteFault, Rate, converted, fee_of};
use std::alloc::{AllocError, Allocator, Global};
use std::marker::Model;

// By how much the scales of a price's assets may differ at most.
const MAX_SCALE_GAP: u8 = 9;

// A price of a table, whose assets are told by their places.
#[derive(Clone, Copy)]
struct Placed {
    from: usize,
    to: usize,
    p: u32,
    q: u32,
}

/// Assets and their prices. They have no fault: each asset and each price stands once, and a price
/// is of two different assets of the table. An asset is named by its place, from 0.
#[derive(Drop)]
pub struct AssetTable<A: Allocator = Global> {
    assets: Vec<Listed<A>, A>,
    prices: Vec<Placed, A>,
    // Row by row, for each asset and each other: the place of the one's price in the other.
    index: Vec<Option<usize>, A>,
}

impl<A: Allocator> Model for AssetTable<A> {
    ghost use Rattle.ilp_assets.specs.Assets.{PlainTable};

    ghost Value = { PlainTable };

    ghost use Rattle.ilp_assets.specs.Table.{plain_table, IsIndexed};

    ghost view = { λ t. plain_table t.assets.items t.prices.items };

    ghost invariant = { λ t. IsIndexed (plain_table t.assets.items t.prices.items) t.index.items };
}

impl<A: Allocator + Copy> AssetTable<A> {
    /// The table of these assets and their prices.
    ///
    /// The first fault is answered: `DoubleAsset` over the assets, and then for each price in order
    /// `NoSuchAsset`, `ZeroPrice`, `DoublePrice`, `ScaleGap`. `Memory` may come in place of any
    /// answer, where memory was denied.
    #[tactic(auto, unfolding(crate::specs::Faults::fault_of))]
    pub fn new(
        alloc: A,
        assets: &[Asset<'_>],
        prices: &[Price<'_>],
    ) -> Result<AssetTable<A>, AssetFault>
        ensures sound { OnOk result
            (fault_of (map plain_asset assets.now) (map plain_price prices.now) ≡ None) }
        ensures assets { IfOk result (λ t. t.assets ≡ map plain_asset assets.now) }
        ensures prices { IfOk result (λ t. t.prices ≡ map plain_price prices.now) }
        ensures err { IfErr result (λ e. e ≢ AssetFault.Memory
            → fault_of (map plain_asset assets.now) (map plain_price prices.now) ≡ Some e) }
    {
        if let Some(fault) = fault_of_assets(assets) {
            return Err(fault);
        }
        let mut table = AssetTable::unpriced(alloc, assets)?;
        for price in prices {
            table.add(*price)?;
        }
        Ok(table)
    }

    /// An equal table. `AllocError` tells that memory is short.
    pub fn copy(&self) -> Result<AssetTable<A>, AllocError>
        ensures { IfOk result (λ t. t ≡ self.now) }
    {
        let alloc = *self.assets.allocator();
        let assets = clones_of(alloc, &self.assets)?;
        let prices = Vec::from_slice(alloc, &self.prices)?;
        let index = Vec::from_slice(alloc, &self.index)?;
        Ok(AssetTable {
            assets,
            prices,
            index,
        })
    }

    // The table of assets that have no prices yet.
    fn unpriced(alloc: A, assets: &[Asset<'_>]) -> Result<AssetTable<A>, AllocError>
        requires { fault_of_assets (map plain_asset assets.now) ≡ None }
        ensures assets { IfOk result (λ t. t.assets ≡ map plain_asset assets.now) }
        ensures prices { IfOk result (λ t. t.prices ≡ []) }
    {
        let index = empty_index(alloc, assets.len())?;
        let assets = copies_of(alloc, assets)?;
        Ok(AssetTable {
            assets,
            prices: Vec::new(alloc),
            index,
        })
    }

    // Adds a price.
    fn add(&mut self, price: Price<'_>) -> Result<(), AssetFault>
        ensures assets { self.new.assets ≡ self.old.assets }
        ensures sound { OnOk result
            (price_fault self.old.assets self.old.prices (plain_price price.entry) ≡ None) }
        ensures added { OnOk result
            (self.new.prices ≡ self.old.prices ++ plain_price price.entry ∷ []) }
        ensures err { IfErr result (λ e. e ≢ AssetFault.Memory
            → price_fault self.old.assets self.old.prices (plain_price price.entry) ≡ Some e) }
    {
        let placed = self.placed(price)?;
        self.append(placed)?;
        Ok(())
    }

    // Appends a price that has no fault.
    fn append(&mut self, price: Placed) -> Result<(), AllocError>
        requires { IsNext self.old price }
        ensures assets { self.new.assets ≡ self.old.assets }
        ensures ok { OnOk result
            (self.new.prices ≡ self.old.prices ++ plain_placed self.old.assets price ∷ []) }
    {
        let pair = price.from * self.assets.len() + price.to;
        self.prices.push(price)?;
        self.index[pair] = Some(self.prices.len() - 1);
        Ok(())
    }

    // A price with the places of its assets, unless it has a fault.
    fn placed(&self, price: Price<'_>) -> Result<Placed, AssetFault>
        ensures placed { IfOk result
            (λ placed. plain_placed self.now.assets placed ≡ plain_price price.entry) }
        ensures next { IfOk result (λ placed. IsNext self.now placed) }
        ensures err { IfErr result (λ e.
            price_fault self.now.assets self.now.prices (plain_price price.entry) ≡ Some e) }
    {
        let named = self.named(price)?;
        if self.place_of_price(named.from, named.to).is_some() {
            return Err(AssetFault::DoublePrice);
        }
        if price.from.scale.abs_diff(price.to.scale) > MAX_SCALE_GAP {
            return Err(AssetFault::ScaleGap);
        }
        Ok(named)
    }

    // A price of two different assets with their places, if it has no 0.
    #[tactic(auto, unfolding(crate::specs::Faults::price_fault))]
    fn named(&self, price: Price<'_>) -> Result<Placed, AssetFault>
        ensures named { IfOk result (λ placed. IsNamed self.now (plain_price price.entry) placed) }
        ensures err { IfErr result (λ e.
            price_fault self.now.assets self.now.prices (plain_price price.entry) ≡ Some e) }
    {
        let Some(from) = self.known(price.from) else {
            return Err(AssetFault::NoSuchAsset);
        };
        let Some(to) = self.known(price.to) else {
            return Err(AssetFault::NoSuchAsset);
        };
        if price.p == 0 || price.q == 0 {
            return Err(AssetFault::ZeroPrice);
        }
        if price.from.is(price.to) {
            return Err(AssetFault::DoublePrice);
        }
        Ok(Placed {
            from,
            to,
            p: price.p,
            q: price.q,
        })
    }
}

impl<A: Allocator> AssetTable<A> {
    /// How many assets there are. Their places are those below this.
    pub fn asset_count(&self) -> u32
        ensures count { result ≡ length self.now.assets }
        ensures sound { fault_of self.now.assets self.now.prices ≡ None }
    {
        self.assets.len() as u32
    }

    /// The asset at a place; none past the last.
    pub fn asset(&self, place: u32) -> Option<Asset<'_>>
        ensures { option_map plain_asset result ≡ slice_get self.now.assets place }
    {
        let listed = self.assets.get(place as usize)?;
        Some(listed.asset())
    }

    /// The scale of the asset at a place.
    pub fn scale(&self, place: u32) -> u8
        requires { place < length self.now.assets }
        ensures { result ≡ scale_of self.now place }
    {
        self.assets[place as usize].scale
    }

    /// The place of the asset of this code and scale, if it stands in the table.
    pub fn find(&self, code: &str, scale: u8) -> Option<u32>
        ensures { result ≡ place_of self.now.assets (record { code = code.now; scale = scale }) }
    {
        let place = place_of(&self.assets, Asset { code, scale })?;
        Some(place as u32)
    }

    /// What an amount becomes on its way from the asset at one place to that at another. The sender
    /// pays `ppm` millionths of it, rounded up; what goes out for the rest is rounded down. Within
    /// one asset it is the rest itself. `amount` is in units of the one asset at its scale, `out`
    /// in units of the other at its own. RFC 0027 leaves prices and fees to the connector.
    ///
    /// It is refused in this order: without a price of this pair, `NoPrice`; where more than
    /// 18446744073709551615 would go out, `OutTooLarge`; where nothing would go out of an amount
    /// that is not 0, `RoundsToNothing`.
    #[tactic(auto, unfolding(crate::specs::Quote::quote))]
    pub fn quote(&self, from: u32, to: u32, ppm: u32, amount: u64) -> Result<Quote, QuoteFault>
        requires from { from < length self.now.assets }
        requires to { to < length self.now.assets }
        requires ppm { ppm ≤ million }
        ensures { result ≡ quote self.now from to ppm amount }
    {
        let Some(rate) = self.rate(from, to) else {
            return Err(QuoteFault::NoPrice);
        };
        let fee = fee_of(ppm, amount);
        let net = amount - fee;
        let out = converted(rate, net);
        if out > u128::from(u64::MAX) {
            return Err(QuoteFault::OutTooLarge);
        }
        if amount > 0 && out == 0 {
            return Err(QuoteFault::RoundsToNothing);
        }
        Ok(Quote {
            fee,
            net,
            out: out as u64,
        })
    }

    // The place of an asset that a price names.
    fn known(&self, asset: Asset<'_>) -> Option<usize>
        ensures within { IfSome result (λ place. place < length self.now.assets) }
        ensures found { IfSome result
            (λ place. asset_at self.now.assets place ≡ plain_asset asset.entry) }
        ensures among { is_some result ≡ is_among self.now.assets (plain_asset asset.entry) }
    {
        place_of(&self.assets, asset)
    }

    // The price of the one asset in the other, with their scales.
    fn rate(&self, from: u32, to: u32) -> Option<Rate>
        requires from { from < length self.now.assets }
        requires to { to < length self.now.assets }
        ensures none { IfNone result (price_of self.now from to ≡ None) }
        ensures priced { IfSome result (λ rate. IsPrice self.now from to rate.p rate.q) }
        ensures from_scale { IfSome result (λ rate. rate.from_scale ≡ scale_of self.now from) }
        ensures to_scale { IfSome result (λ rate. rate.to_scale ≡ scale_of self.now to) }
    {
        let from_scale = self.scale(from);
        let to_scale = self.scale(to);
        if from == to {
            return Some(Rate {
                p: 1,
                q: 1,
                from_scale,
                to_scale,
            });
        }
        let price = self.price(from as usize, to as usize)?;
        Some(Rate {
            p: price.p,
            q: price.q,
            from_scale,
            to_scale,
        })
    }

    // The price of two different assets.
    fn price(&self, from: usize, to: usize) -> Option<Placed>
        requires from { from < length self.now.assets }
        requires to { to < length self.now.assets }
        requires two { from ≢ to }
        ensures none { IfNone result (price_of self.now from to ≡ None) }
        ensures priced { IfSome result (λ price. IsPrice self.now from to price.p price.q) }
    {
        let Some(place) = self.place_of_price(from, to) else {
            return None;
        };
        Some(self.prices[place])
    }

    // The place of the price of an ordered pair of assets.
    fn place_of_price(&self, from: usize, to: usize) -> Option<usize>
        requires from { from < length self.now.assets }
        requires to { to < length self.now.assets }
        ensures { result ≡ place_of_price self.now from to }
    {
        self.index[from * self.assets.len() + to]
    }
}

// An index of so many assets, none of which has a price. Memory holds it only if there are fewer
// than 2^32 of them.
fn empty_index<A: Allocator>(alloc: A, count: usize) -> Result<Vec<Option<usize>, A>, AllocError>
    ensures items { IfOk result (λ index. index.items ≡ replicate (count * count) None) }
    ensures few { OnOk result (count < 2 ^ 32) }
{
    let index = Vec::from_elem(alloc, None, count.saturating_mul(count))?;
    Ok(index)
}
