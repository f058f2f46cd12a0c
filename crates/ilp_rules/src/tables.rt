//! What a book keeps beside its journal, so that no call goes over the entries.
ghost use Rattle.std.specs.Prelude.{◌≡◌, ◌+◌, ◌<◌, ◌≤◌, ◌^◌, [], length, None, IsSome, IfOk, OnOk, OnErr};
ghost use Rattle.std.specs.FinMap as fin_map;
ghost use Rattle.ilp_order.specs.Places.{Each};
ghost use Rattle.ilp_journal.specs.Journal.{AnswersOnce, ClosesOnce, as_hold};
ghost use Rattle.ilp_tallies.specs.OpenAsks.{HasRoomToAsk};
ghost use Rattle.ilp_tallies.specs.Tallies.{AreTallies, GrowsBy, KnowsPeers};
ghost use Rattle.ilp_rules.specs.Configured.{peer_assets};
ghost use Rattle.ilp_rules.specs.CreditTables.{KeepsKey};
ghost use Rattle.ilp_rules.specs.Tables.{AreTables, FollowsHolds};

use crate::credits::CreditTable;
use ilp_accounts::Config;
use ilp_holds::HoldTable;
use ilp_journal::{Entry, Journal, What};
use ilp_tallies::Tallies;
use std::alloc::{AllocError, Allocator};

/// The sums of a journal, its open holds by their deadlines, and its credits by their keys.
#[derive(Drop)]
pub struct Tables<A: Allocator> {
    /// What the entries come to: for each peer, for each asset, and in all.
    pub tallies: Tallies<A>,
    /// The open holds by their deadlines.
    pub holds: HoldTable<A>,
    /// The numbers of the credits, by their peers and keys and in order.
    pub keys: CreditTable<A>,
}

impl<A: Allocator + Clone> Tables<A> {
    /// The tables of a journal of no entries, for a book with this base. `AllocError` tells that memory
    /// is short.
    pub fn new(alloc: A, config: &Config, base: u32) -> Result<Tables<A>, AllocError>
        ensures { IfOk result (λ t. AreTables (peer_assets config.now) base [] t.tallies t.holds t.keys) }
    {
        let assets = peer_assets(alloc.clone()?, config)?;
        let asset_count = config.assets().asset_count();
        Ok(Tables {
            tallies: Tallies::new(alloc.clone()?, assets, asset_count, base)?,
            holds: HoldTable::new(alloc.clone()?)?,
            keys: CreditTable::new(alloc)?,
        })
    }

    /// Makes the room that an entry of this number takes in the tables, and keeps the key of a
    /// credit, also of one that is brought forward. `AllocError` tells that memory is short, and
    /// leaves all as it was.
    pub fn prepare(&mut self, number: u32, what: &What) -> Result<(), AllocError>
        ensures tallies { self.new.tallies ≡ self.old.tallies }
        ensures holds { self.new.holds.map ≡ self.old.holds.map }
        ensures room { OnOk result (IsSome (as_hold what.now) → 1 ≤ self.new.holds.spare) }
        ensures keys { OnOk result (KeepsKey self.old.keys self.new.keys number what.now) }
        ensures err { OnErr result (self.new.keys ≡ self.old.keys) }
    {
        match what {
            What::Hold(_) => self.holds.reserve(1),
            What::Credited(credited) | What::Known(credited) => {
                self.keys
                    .keep(credited.peer, credited.key.as_slice(), number)
            }
            _ => Ok(()),
        }
    }
}

impl<A: Allocator> Tables<A> {
    /// Adds what the next entry of the journal does to its sums and to its open holds. It takes no
    /// memory: `prepare` has made the room.
    pub fn apply<B: Allocator>(&mut self, journal: &Journal<B>, entry: &Entry)
        requires tallies { AreTallies self.old.tallies.assets self.old.tallies.base journal.now.entries self.old.tallies }
        requires length { length journal.now.entries + 1 < 2 ^ 32 }
        requires few { HasRoomToAsk journal.now.entries entry.now.what }
        requires known { KnowsPeers (length self.old.tallies.assets) entry.now.what }
        requires answers { Each AnswersOnce journal.now.entries }
        requires closings { Each ClosesOnce journal.now.entries }
        requires answer { AnswersOnce journal.now.entries entry.now }
        requires closing { ClosesOnce journal.now.entries entry.now }
        requires room { IsSome (as_hold entry.now.what) → 1 ≤ self.old.holds.spare }
        requires absent { fin_map.get self.old.holds.map (length journal.now.entries) ≡ None }
        ensures tallies { GrowsBy journal.now.entries entry.now self.old.tallies self.new.tallies }
        ensures holds { FollowsHolds self.old.holds.map self.new.holds.map (length journal.now.entries) entry.now.what }
        ensures keys { self.new.keys ≡ self.old.keys }
    {
        self.tallies.apply(journal, entry);
        follow(&mut self.holds, journal.len(), &entry.what);
    }
}

// Adds the hold that an entry of this number opens, and takes out the one that it answers.
fn follow<A: Allocator>(holds: &mut HoldTable<A>, number: u32, what: &What)
    requires room { IsSome (as_hold what.now) → 1 ≤ holds.old.spare }
    requires absent { fin_map.get holds.old.map number ≡ None }
    ensures { FollowsHolds holds.old.map holds.new.map number what.now }
{
    match what {
        What::Hold(hold) => holds.insert(number, hold.deadline),
        What::Fulfilled { hold, .. } | What::Released { hold, .. } => {
            let _ = holds.take(*hold);
        }
        _ => {}
    }
}

// The asset of each peer, in the peers' order.
fn peer_assets<A: Allocator>(alloc: A, config: &Config) -> Result<Vec<u32, A>, AllocError>
    ensures { IfOk result (λ assets. assets.items ≡ peer_assets config.now) }
{
    let mut assets = Vec::new(alloc);
    for peer in 0..config.peers() {
        assets.push(config.asset(peer))?;
    }
    Ok(assets)
}
