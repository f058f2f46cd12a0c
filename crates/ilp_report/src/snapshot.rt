//! What the report of a book tells, apart from the book.
ghost use Rattle.std.specs.Prelude.{◌≡◌, IfOk};
ghost use Rattle.ilp_report.specs.Report.{snapshot_of, text_of, report_text};
ghost use Rattle.ilp_report.specs.Sound.{AreBalanced};

use crate::accounts::{AssetBooks, PeerAccount, all_asset_books, peer_accounts};
use ilp_book::Book;
use std::alloc::{AllocError, Allocator, Global};
use std::marker::Model;

/// What the report of a book tells: what peers are owed, and what the books of each asset come to.
/// The books of each asset balance, and no balance lies below its peer's least.
#[derive(Drop)]
pub struct Snapshot<A: Allocator = Global> {
    peers: Vec<PeerAccount<A>, A>,
    assets: Vec<AssetBooks<A>, A>,
    entries: u32,
    fulfilled: u32,
    period: u32,
}

impl<A: Allocator> Model for Snapshot<A> {
    ghost use Rattle.ilp_report.specs.Report.{PlainSnapshot};
    ghost use Rattle.ilp_report.specs.Sound.{AreBalanced};

    ghost Value = { PlainSnapshot };

    ghost view = { λ s. record {
      peers = s.peers.items;
      assets = s.assets.items;
      entries = s.entries;
      fulfilled = s.fulfilled;
      period = s.period;
    } };

    ghost invariant = { λ s. AreBalanced s.peers.items s.assets.items };
}

impl<A: Allocator + Copy> Snapshot<A> {
    /// What the report of a book tells now. It takes as long as there are peers and assets, however
    /// many entries there are. `AllocError` tells that memory is short.
    #[tactic(auto, unfolding(crate::specs::Report::snapshot_of))]
    pub fn of<B: Allocator>(alloc: A, book: &Book<B>) -> Result<Snapshot<A>, AllocError>
        ensures value { IfOk result (λ s. s ≡ snapshot_of book.now) }
        ensures report { IfOk result (λ s. text_of s ≡ report_text book.now) }
    {
        // Called for what its contract tells: that the journal is lawful, and so its books balance.
        let _ = book.entry(0);
        Ok(Snapshot {
            peers: peer_accounts(alloc, book)?,
            assets: all_asset_books(alloc, book)?,
            entries: book.len(),
            fulfilled: book.fulfilled(),
            period: book.period(),
        })
    }
}

impl<A: Allocator> Snapshot<A> {
    /// What is told of each peer, in the configuration's order.
    pub fn peers(&self) -> &[PeerAccount<A>]
        ensures { result.now ≡ self.now.peers }
    {
        &self.peers
    }

    /// What is told of each asset, in the configuration's order: its books balance.
    pub fn assets(&self) -> &[AssetBooks<A>]
        ensures value { result.now ≡ self.now.assets }
        ensures balanced { AreBalanced self.now.peers self.now.assets }
    {
        &self.assets
    }

    /// How many entries there were.
    pub fn entries(&self) -> u32
        ensures { result ≡ self.now.entries }
    {
        self.entries
    }

    /// How many of them fulfill a hold.
    pub fn fulfilled(&self) -> u32
        ensures { result ≡ self.now.fulfilled }
    {
        self.fulfilled
    }

    /// The number of the book's period, from 0.
    pub fn period(&self) -> u32
        ensures { result ≡ self.now.period }
    {
        self.period
    }
}
