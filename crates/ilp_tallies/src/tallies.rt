//! The tallies of a journal: what its entries come to, kept entry by entry.
ghost use Rattle.std.specs.Prelude.{◌≡◌, ◌+◌, ◌<◌, ◌≤◌, ◌^◌, pos, ◌+ℤ◌, ◌-ℤ◌, ◌≤ℤ◌, [], length, All, IfOk, slice_index};
ghost use Rattle.ilp_order.specs.Places.{Each};
ghost use Rattle.ilp_journal.specs.Booked.{most_sum};
ghost use Rattle.ilp_journal.specs.Journal.{AnswersOnce, ClosesOnce, open_holds, open_asks, open_count, next_open_number, fulfilled_since};
ghost use Rattle.ilp_journal.specs.Balance.{balance};
ghost use Rattle.ilp_journal.specs.TrialBalance.{held, fees, bought, sold, settled, total_in, total_out};
ghost use Rattle.ilp_tallies.specs.Rows as rows;
ghost use Rattle.ilp_tallies.specs.Rows.{FitsPeer, FitsAsset};
ghost use Rattle.ilp_tallies.specs.OpenAsks.{AreOpenAsks, HasRoomToAsk, asks_after};
ghost use Rattle.ilp_tallies.specs.Steps.{FitsStep};
ghost use Rattle.ilp_tallies.specs.Tallies.{AreTallies, MovesBase, EndsTotals, IsOfEach, KnowsPeers, GrowsBy, with_step};

use crate::asks::{count_asks, next_ask, no_asks, update_asks};
use crate::open_asks::OpenAsks;
use crate::rows::{
    AssetRow, PeerRow, add_asset, add_peer, asset_row, clear_totals, no_assets, no_peers, peer_row,
};
use crate::step::{Step, step_of};
use ilp_journal::{Entry, Journal, What};
use std::alloc::{AllocError, Allocator, Global};
use std::marker::Model;

/// What the entries of a journal come to: for each peer, for each asset, and in all. Peers and
/// assets are named by their places. A reader goes over no entries, and one more entry changes the
/// rows of at most two peers and two assets.
#[derive(Drop)]
pub struct Tallies<A: Allocator = Global> {
    base: u32,
    assets: Vec<u32, A>,
    peers: Vec<PeerRow, A>,
    asks: Vec<OpenAsks, A>,
    sums: Vec<AssetRow, A>,
    entries: u32,
    opened: u64,
    closed: u64,
    fulfilled: u64,
}

impl<A: Allocator> Model for Tallies<A> {
    ghost use Rattle.ilp_tallies.specs.Tallies.{PlainTallies, AreBounded};

    ghost Value = { PlainTallies };

    ghost view = { λ t. record {
      base = t.base;
      assets = t.assets.items;
      peers = t.peers.items;
      asks = t.asks.items;
      sums = t.sums.items;
      entries = t.entries;
      opened = t.opened;
      closed = t.closed;
      fulfilled = t.fulfilled;
    } };

    ghost invariant = { λ t.
        AreBounded t.peers.items t.sums.items t.entries t.opened t.closed t.fulfilled };
}

impl<A: Allocator + Clone> Tallies<A> {
    /// The tallies of a journal of no entries. `assets` lists each peer's asset, one of
    /// `asset_count`; the totals are of the holds whose number is `base` or greater. `AllocError`
    /// tells that memory is short.
    pub fn new(
        alloc: A,
        assets: Vec<u32, A>,
        asset_count: u32,
        base: u32,
    ) -> Result<Tallies<A>, AllocError>
        requires { All (λ asset. asset < asset_count) assets.items }
        ensures { IfOk result (λ t. AreTallies assets.items base [] t) }
    {
        let count = assets.len();
        let peers = no_peers(alloc.clone()?, count)?;
        let asks = no_asks(alloc.clone()?, count)?;
        Ok(Tallies {
            base,
            assets,
            peers,
            asks,
            sums: no_assets(alloc, asset_count as usize)?,
            entries: 0,
            opened: 0,
            closed: 0,
            fulfilled: 0,
        })
    }
}

impl<A: Allocator> Tallies<A> {
    /// How many entries there are.
    pub fn len(&self) -> u32
        ensures { IsOfEach self.now (λ _ _ j. length j) result }
    {
        self.entries
    }

    /// Each peer's asset.
    pub fn assets(&self) -> &[u32]
        ensures { result.now ≡ self.now.assets }
    {
        &self.assets
    }

    /// What the connector owes the peer, in units of the peer's asset.
    pub fn balance(&self, peer: u32) -> i128
        ensures value { IsOfEach self.now (λ _ _ j. balance j peer) result }
        ensures low { pos 0 ≤ℤ (result +ℤ pos most_sum) }
        ensures high { result ≤ℤ pos most_sum }
    {
        let row = self.peer(peer);
        difference(row.raised, row.lowered)
    }

    /// How many of the open holds the peer sent.
    pub fn open_holds(&self, peer: u32) -> u32
        ensures { IsOfEach self.now (λ _ _ j. open_holds j peer) result }
    {
        let row = self.peer(peer);
        row.sent.saturating_sub(row.answered) as u32
    }

    /// How many of the open settlements are to the peer.
    pub fn open_asks(&self, peer: u32) -> u32
        ensures { IsOfEach self.now (λ _ _ j. open_asks j peer) result }
    {
        count_asks(&self.asks, peer)
    }

    /// The least number of an open settlement to the peer behind this one, or of all.
    pub fn next_open_ask(&self, peer: u32, after: Option<u32>) -> Option<u32>
        ensures { IsOfEach self.now (λ _ _ j. next_open_number j peer after) result }
    {
        next_ask(&self.asks, peer, after)
    }

    /// The amounts of the open holds whose senders pay in the asset, in its units.
    pub fn held(&self, asset: u32) -> i128
        ensures value { IsOfEach self.now (λ assets _ j. pos (held assets j asset)) result }
        ensures low { pos 0 ≤ℤ result }
        ensures high { result ≤ℤ pos most_sum }
    {
        let row = self.asset(asset);
        row.begun.saturating_sub(row.ended) as i128
    }

    /// The fees of the fulfilled holds whose senders pay in the asset, in its units.
    pub fn fees(&self, asset: u32) -> i128
        ensures value { IsOfEach self.now (λ assets _ j. pos (fees assets j asset)) result }
        ensures low { pos 0 ≤ℤ result }
        ensures high { result ≤ℤ pos most_sum }
    {
        self.asset(asset).fees as i128
    }

    /// What was bought of the asset, in its units: the amounts of the fulfilled holds whose senders
    /// pay in it, less their fees.
    pub fn bought(&self, asset: u32) -> i128
        ensures value { IsOfEach self.now (λ assets _ j. bought assets j asset) result }
        ensures low { pos 0 ≤ℤ (result +ℤ pos most_sum) }
        ensures high { result ≤ℤ pos most_sum }
    {
        let row = self.asset(asset);
        difference(row.taken, row.fees)
    }

    /// What was sold of the asset, in its units: the amounts out of the fulfilled holds whose
    /// receivers are paid in it.
    pub fn sold(&self, asset: u32) -> i128
        ensures value { IsOfEach self.now (λ assets _ j. pos (sold assets j asset)) result }
        ensures low { pos 0 ≤ℤ result }
        ensures high { result ≤ℤ pos most_sum }
    {
        self.asset(asset).sold as i128
    }

    /// What was settled in the asset, in its units: the credits of its peers, less the settlements
    /// to them that weren't undone.
    pub fn settled(&self, asset: u32) -> i128
        ensures value { IsOfEach self.now (λ assets _ j. settled assets j asset) result }
        ensures low { pos 0 ≤ℤ (result +ℤ pos most_sum) }
        ensures high { result ≤ℤ pos most_sum }
    {
        let row = self.asset(asset);
        difference(row.paid_in, row.paid_out)
    }

    /// The amounts of the open and the fulfilled holds since the base whose senders pay in the
    /// asset, in its units.
    pub fn total_in(&self, asset: u32) -> u128
        ensures value { IsOfEach self.now (λ assets base j. total_in assets base j asset) result }
        ensures bound { result ≤ most_sum }
    {
        let row = self.asset(asset);
        row.in_begun.saturating_sub(row.in_released)
    }

    /// The amounts out of the open and the fulfilled holds since the base whose receivers are paid
    /// in the asset, in its units.
    pub fn total_out(&self, asset: u32) -> u128
        ensures value { IsOfEach self.now (λ assets base j. total_out assets base j asset) result }
        ensures bound { result ≤ most_sum }
    {
        let row = self.asset(asset);
        row.out_begun.saturating_sub(row.out_released)
    }

    /// How many holds and settlements are open.
    pub fn open_count(&self) -> u32
        ensures { IsOfEach self.now (λ _ _ j. open_count j) result }
    {
        let _entries = self.entries;
        self.opened.saturating_sub(self.closed) as u32
    }

    /// How many holds are fulfilled.
    pub fn fulfilled(&self) -> u32
        ensures { IsOfEach self.now (λ _ _ j. fulfilled_since 0 j) result }
    {
        let _entries = self.entries;
        self.fulfilled as u32
    }

    /// Adds an entry that comes next in the journal of these tallies, and is not in it yet. Takes no
    /// memory.
    pub fn apply<B: Allocator>(&mut self, journal: &Journal<B>, entry: &Entry)
        requires tallies { AreTallies self.old.assets self.old.base journal.now.entries self.old }
        requires room { length journal.now.entries + 1 < 2 ^ 32 }
        requires few { HasRoomToAsk journal.now.entries entry.now.what }
        requires known { KnowsPeers (length self.old.assets) entry.now.what }
        requires answers { Each AnswersOnce journal.now.entries }
        requires closings { Each ClosesOnce journal.now.entries }
        requires answer { AnswersOnce journal.now.entries entry.now }
        requires closing { ClosesOnce journal.now.entries entry.now }
        ensures { GrowsBy journal.now.entries entry.now self.old self.new }
    {
        let step = step_of(self.base, journal, &entry.what);
        self.add_step(&step);
        self.update_asks(journal, &entry.what);
    }

    /// Has the totals be of the holds whose number is `base` or greater. It is for a journal all of
    /// whose entries lie below both bases, so that its totals are nothing by either.
    pub fn set_base(&mut self, base: u32)
        ensures { MovesBase self.old base self.new }
    {
        self.base = base;
    }

    /// Has the totals be of the holds whose number is `base` or greater, for a journal all of whose entries lie
    /// below that: they are nothing then.
    pub fn end_totals(&mut self, base: u32)
        ensures { EndsTotals self.old base self.new }
    {
        clear_totals(&mut self.sums);
        self.base = base;
    }

    // The row of a peer: zeros, where there is no such peer.
    fn peer(&self, peer: u32) -> PeerRow
        ensures row { result ≡ rows.peer_row self.now.peers peer }
        ensures fits { FitsPeer self.now.entries result }
        ensures few { self.now.entries < 2 ^ 32 }
    {
        let _entries = self.entries;
        peer_row(&self.peers, peer)
    }

    // The row of an asset: zeros, where there is no such asset.
    fn asset(&self, asset: u32) -> AssetRow
        ensures row { result ≡ rows.asset_row self.now.sums asset }
        ensures fits { FitsAsset self.now.entries result }
        ensures few { self.now.entries < 2 ^ 32 }
    {
        let _entries = self.entries;
        asset_row(&self.sums, asset)
    }

    // Adds the settlement that an entry asks for, or removes the one that it closes.
    fn update_asks<B: Allocator>(&mut self, journal: &Journal<B>, what: &What)
        requires asks { AreOpenAsks journal.now.entries self.old.asks }
        requires few { HasRoomToAsk journal.now.entries what.now }
        ensures { self.new ≡ record self.old {
          asks = asks_after self.old.asks journal.now.entries what.now;
        } }
    {
        update_asks(&mut self.asks, journal, what);
    }

    // Adds what an entry adds to rows and counts.
    fn add_step(&mut self, step: &Step)
        requires room { self.old.entries + 1 < 2 ^ 32 }
        requires step { FitsStep step.now }
        ensures { self.new ≡ with_step self.old step.now }
    {
        let from = asset_of(&self.assets, step.from);
        let to = asset_of(&self.assets, step.to);
        add_peer(&mut self.peers, step.from, step.from_row);
        add_peer(&mut self.peers, step.to, step.to_row);
        add_asset(&mut self.sums, from, step.from_sums);
        add_asset(&mut self.sums, to, step.to_sums);
        self.entries += 1;
        self.opened += step.opened;
        self.closed += step.closed;
        self.fulfilled += step.fulfilled;
    }
}

// The asset of a peer; 0, where there is no such peer.
fn asset_of<A: Allocator>(assets: &Vec<u32, A>, peer: u32) -> u32
    ensures { result ≡ slice_index assets.now.items peer }
{
    match assets.get(peer as usize) {
        Some(asset) => *asset,
        None => 0,
    }
}

// One sum less another.
fn difference(raised: u128, lowered: u128) -> i128
    requires raised { raised ≤ most_sum }
    requires lowered { lowered ≤ most_sum }
    ensures value { result ≡ pos raised -ℤ pos lowered }
    ensures low { pos 0 ≤ℤ (result +ℤ pos most_sum) }
    ensures high { result ≤ℤ pos most_sum }
{
    raised as i128 - lowered as i128
}
