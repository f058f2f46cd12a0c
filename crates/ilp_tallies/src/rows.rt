//! Rows of sums, one for each peer and one for each asset. Each number of a row only grows, so that
//! adding an entry never subtracts: a reader takes the difference of two.
ghost use Rattle.std.specs.Prelude.{◌≡◌, ℕ, IfOk, length, replicate};
ghost use Rattle.ilp_tallies.specs.Rows.{zero_peer, zero_asset, peer_plus, asset_plus, peer_row, asset_row, add_peer, add_asset, without_totals, FitsPeer, FitsAsset, most_entries};

use std::alloc::{AllocError, Allocator};

/// The sums of a peer, amounts in units of the peer's asset.
#[derive(Clone, Copy)]
pub(crate) struct PeerRow {
    /// All that its balance rose by.
    pub(crate) raised: u128,
    /// All that its balance fell by.
    pub(crate) lowered: u128,
    /// How many holds it sent.
    pub(crate) sent: u64,
    /// How many of these are answered.
    pub(crate) answered: u64,
}

/// The sums of an asset, in its units.
#[derive(Clone, Copy)]
pub(crate) struct AssetRow {
    /// The amounts of the holds whose senders pay in it.
    pub(crate) begun: u128,
    /// The amounts of those that are answered.
    pub(crate) ended: u128,
    /// The amounts of those that are fulfilled.
    pub(crate) taken: u128,
    /// The fees of those that are fulfilled.
    pub(crate) fees: u128,
    /// The amounts out of the fulfilled holds whose receivers are paid in it.
    pub(crate) sold: u128,
    /// The amounts of the credits, and of the undone settlements.
    pub(crate) paid_in: u128,
    /// The amounts of the settlements that were asked for.
    pub(crate) paid_out: u128,
    /// The amounts of the holds since the base whose senders pay in it.
    pub(crate) in_begun: u128,
    /// The amounts of those that are released.
    pub(crate) in_released: u128,
    /// The amounts out of the holds since the base whose receivers are paid in it.
    pub(crate) out_begun: u128,
    /// The amounts out of those that are released.
    pub(crate) out_released: u128,
}

impl PeerRow {
    /// The sums of a peer that no entry names.
    pub(crate) fn zero() -> PeerRow
        ensures { result ≡ zero_peer }
    {
        PeerRow {
            raised: 0,
            lowered: 0,
            sent: 0,
            answered: 0,
        }
    }

    // Both rows, added number by number.
    fn plus(self, more: PeerRow) -> PeerRow
        requires this { FitsPeer most_entries self }
        requires more { FitsPeer most_entries more }
        ensures { result ≡ peer_plus self more }
    {
        PeerRow {
            raised: self.raised + more.raised,
            lowered: self.lowered + more.lowered,
            sent: self.sent + more.sent,
            answered: self.answered + more.answered,
        }
    }
}

impl AssetRow {
    /// The sums of an asset that no entry's peers have.
    pub(crate) fn zero() -> AssetRow
        ensures { result ≡ zero_asset }
    {
        AssetRow {
            begun: 0,
            ended: 0,
            taken: 0,
            fees: 0,
            sold: 0,
            paid_in: 0,
            paid_out: 0,
            in_begun: 0,
            in_released: 0,
            out_begun: 0,
            out_released: 0,
        }
    }

    // Has the totals be nothing.
    fn clear_totals(&mut self)
        ensures { self.new ≡ without_totals self.old }
    {
        self.in_begun = 0;
        self.in_released = 0;
        self.out_begun = 0;
        self.out_released = 0;
    }

    // Both rows, added number by number.
    fn plus(self, more: AssetRow) -> AssetRow
        requires this { FitsAsset most_entries self }
        requires more { FitsAsset most_entries more }
        ensures { result ≡ asset_plus self more }
    {
        AssetRow {
            begun: self.begun + more.begun,
            ended: self.ended + more.ended,
            taken: self.taken + more.taken,
            fees: self.fees + more.fees,
            sold: self.sold + more.sold,
            paid_in: self.paid_in + more.paid_in,
            paid_out: self.paid_out + more.paid_out,
            in_begun: self.in_begun + more.in_begun,
            in_released: self.in_released + more.in_released,
            out_begun: self.out_begun + more.out_begun,
            out_released: self.out_released + more.out_released,
        }
    }
}

/// A row of zeros for each of `count` peers. `AllocError` tells that memory is short.
pub(crate) fn no_peers<A: Allocator>(alloc: A, count: usize) -> Result<Vec<PeerRow, A>, AllocError>
    ensures { IfOk result (λ rows. rows.items ≡ replicate count zero_peer) }
{
    vec![in alloc; PeerRow::zero(); count]
}

/// A row of zeros for each of `count` assets. `AllocError` tells that memory is short.
pub(crate) fn no_assets<A: Allocator>(
    alloc: A,
    count: usize,
) -> Result<Vec<AssetRow, A>, AllocError>
    ensures { IfOk result (λ rows. rows.items ≡ replicate count zero_asset) }
{
    vec![in alloc; AssetRow::zero(); count]
}

/// The row of a peer: zeros, where there is no such peer.
pub(crate) fn peer_row<A: Allocator>(rows: &Vec<PeerRow, A>, peer: u32) -> PeerRow
    ensures { result ≡ peer_row rows.now.items peer }
{
    match rows.get(peer as usize) {
        Some(row) => *row,
        None => PeerRow::zero(),
    }
}

/// The row of an asset: zeros, where there is no such asset.
pub(crate) fn asset_row<A: Allocator>(rows: &Vec<AssetRow, A>, asset: u32) -> AssetRow
    ensures { result ≡ asset_row rows.now.items asset }
{
    match rows.get(asset as usize) {
        Some(row) => *row,
        None => AssetRow::zero(),
    }
}

/// Adds to the row of a peer, if there is such a peer.
pub(crate) fn add_peer<A: Allocator>(rows: &mut Vec<PeerRow, A>, peer: u32, more: PeerRow)
    requires rows { (p : ℕ) → FitsPeer most_entries (peer_row rows.old.items p) }
    requires more { FitsPeer most_entries more }
    ensures { rows.new.items ≡ add_peer rows.old.items peer more }
{
    let row = peer_row(rows, peer).plus(more);
    if (peer as usize) < rows.len() {
        rows[peer as usize] = row;
    }
}

/// Adds to the row of an asset, if there is such an asset.
pub(crate) fn add_asset<A: Allocator>(rows: &mut Vec<AssetRow, A>, asset: u32, more: AssetRow)
    requires rows { (x : ℕ) → FitsAsset most_entries (asset_row rows.old.items x) }
    requires more { FitsAsset most_entries more }
    ensures { rows.new.items ≡ add_asset rows.old.items asset more }
{
    let row = asset_row(rows, asset).plus(more);
    if (asset as usize) < rows.len() {
        rows[asset as usize] = row;
    }
}

/// Has the totals of each asset be nothing.
pub(crate) fn clear_totals<A: Allocator>(rows: &mut Vec<AssetRow, A>)
    ensures rows { (x : ℕ) → asset_row rows.new.items x ≡ without_totals (asset_row rows.old.items x) }
    ensures count { length rows.new.items ≡ length rows.old.items }
{
    for row in rows.iter_mut() {
        row.clear_totals();
    }
}
