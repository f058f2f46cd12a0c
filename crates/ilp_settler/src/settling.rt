//! Of what a settler consists, and how it has a peer's engine settle.
ghost use Rattle.std.specs.Prelude.{◌≡◌, ◌+◌, ◌<◌, ◌≤◌, true, false, OnOk, vec_len, vec_capacity};
ghost use Rattle.ilp_accounts.specs.Limits.{most_peers};
ghost use Rattle.ilp_book.specs.Configured.{IsKnown};
ghost use Rattle.ilp_desk.specs.Portion.{holding};
ghost use Rattle.ilp_link_traits.specs.Links.{Tells};
ghost use Rattle.ilp_settler.specs.Settler.{settler, knows_account, with_account, account_told, HasAccount, Turns};
ghost use Rattle.ilp_settler.specs.Halves.{asking_told};

use crate::asking::{Asking, BegunTurn};
use crate::turn::Turn;
use ilp_accounts::Config;
use ilp_desk::{Desk, End, JournalReceipt, Naming, Record, Share};
use ilp_keeping::Keeper;
use ilp_link_traits::{Clock, EngineLink, EngineReply};
use std::alloc::{AllocError, Allocator, Global};
use std::sync::Wait;

// The most peers that a desk has.
pub(crate) const MOST_PEERS: usize = 256;

// What a settler has: its share and its records, and its links.
#[derive(Drop)]
pub(crate) struct SettlerParts<
    J: Naming,
    C: Clock + Drop,
    E: EngineLink + Drop,
    K: Keeper<J> + Drop,
    A: Allocator,
> {
    pub(crate) share: Share<J>,
    pub(crate) records: Vec<Record, A>,
    // What was seen of the journal.
    pub(crate) receipt: JournalReceipt<J>,
    pub(crate) clock: C,
    pub(crate) engine: E,
    pub(crate) keeper: K,
    // By peers' places: whether the engine said that it has the account.
    pub(crate) accounts: [bool; MOST_PEERS],
    // By peers' places: the settlement that the engine was asked for last.
    pub(crate) tried: [Option<u32>; MOST_PEERS],
    // How many settlements that it gave out are not finished. Room for a record of each is kept.
    pub(crate) pending: usize,
    ghost kept: { vec_len records + pending ≤ vec_capacity records },
}

impl<
    J: Naming,
    C: Clock + Drop,
    E: EngineLink + Drop,
    K: Keeper<J> + Drop,
    A: Allocator,
> SettlerParts<J, C, E, K, A> {
    // A turn for a peer: both halves, and the engine between them.
    pub(crate) fn turn(
        &mut self,
        rt: &impl Wait,
        desk: &Desk<J>,
        peer: u32,
    ) -> Result<Turn, AllocError>
    where
        A: Copy,
        requires known { IsKnown J.desk.config peer }
        ensures turns { Turns J.desk peer
            (settler self.old.share self.old.records.items (C.told self.old.clock)
            (E.told self.old.engine) self.old.accounts self.old.tried self.old.receipt
            (K.told self.old.keeper) self.old.pending)
            (settler self.new.share self.new.records.items (C.told self.new.clock)
            (E.told self.new.engine) self.new.accounts self.new.tried self.new.receipt
            (K.told self.new.keeper) self.new.pending)
            result }
        ensures pending { self.new.pending ≡ self.old.pending }
    {
        if !self.has_account(desk.config(), peer) {
            return Ok(Turn::NoAccount);
        }
        match self.begin(rt, desk, peer) {
            Ok(BegunTurn::Asks(asking)) => {
                let said = self.settle(&asking);
                Ok(self.finish(rt, desk, asking, said))
            }
            Ok(BegunTurn::Over(turn)) => Ok(turn),
            Ok(BegunTurn::NeedsAccount) => unreachable!(),
            Err(fault) => Err(fault),
        }
    }

    // Whether the peer's engine has the account: where it did not say so before, it is asked now.
    fn has_account(&mut self, config: &Config, peer: u32) -> bool
        requires known { IsKnown config.now peer }
        ensures unknown { result ≡ false → knows_account self.old.accounts peer ≡ false }
        ensures no { result ≡ false
            → Tells (E.told self.old.engine) (account_told peer false) (E.told self.new.engine) }
        ensures stays { result ≡ false → self.new.accounts ≡ self.old.accounts }
        ensures yes { result ≡ true → HasAccount (knows_account self.old.accounts peer) peer
            (E.told self.old.engine) (E.told self.new.engine) }
        ensures kept { result ≡ true → self.new.accounts ≡ with_account self.old.accounts peer }
        ensures knows { result ≡ true → knows_account self.new.accounts peer ≡ true }
        ensures others { settler self.new.share self.new.records.items (C.told self.new.clock)
            (E.told self.new.engine) self.new.accounts self.new.tried self.new.receipt
            (K.told self.new.keeper) self.new.pending
            ≡ settler self.old.share self.old.records.items (C.told self.old.clock)
            (E.told self.new.engine) self.new.accounts self.old.tried self.old.receipt
            (K.told self.old.keeper) self.old.pending }
    {
        if !self.knows_account(config, peer) {
            if !self.engine.account(peer) {
                return false;
            }
            self.note_account(config, peer);
        }
        true
    }

    // Whether the peer's engine said that it has the account.
    pub(crate) fn knows_account(&self, config: &Config, peer: u32) -> bool
        requires known { IsKnown config.now peer }
        ensures { result ≡ knows_account self.now.accounts peer }
    {
        self.accounts[place_of(config, peer)]
    }

    // The peer's engine said that it has the account.
    pub(crate) fn note_account(&mut self, config: &Config, peer: u32)
        requires known { IsKnown config.now peer }
        ensures noted { self.new.accounts ≡ with_account self.old.accounts peer }
        ensures knows { knows_account self.new.accounts peer ≡ true }
        ensures books { (self.new.share ≡ self.old.share) × (self.new.records ≡ self.old.records)
            × (self.new.clock ≡ self.old.clock) × (self.new.pending ≡ self.old.pending) }
        ensures others { (self.new.engine ≡ self.old.engine) × (self.new.keeper ≡ self.old.keeper)
            × (self.new.tried ≡ self.old.tried) × (self.new.receipt ≡ self.old.receipt) }
    {
        self.accounts[place_of(config, peer)] = true;
    }

    // Asks the peer's engine for the settlement, under its key. No lock is held meanwhile.
    fn settle(&mut self, asking: &Asking<A>) -> EngineReply
        ensures handed { Tells (E.told self.old.engine) (asking_told asking.now result)
            (E.told self.new.engine) }
        ensures books { (self.new.share ≡ self.old.share) × (self.new.records ≡ self.old.records)
            × (self.new.clock ≡ self.old.clock) × (self.new.accounts ≡ self.old.accounts)
            × (self.new.pending ≡ self.old.pending) }
        ensures keeping { (self.new.keeper ≡ self.old.keeper)
            × (self.new.tried ≡ self.old.tried) × (self.new.receipt ≡ self.old.receipt) }
    {
        self.engine.settle(asking.peer(), asking.key(), asking.amount(), asking.scale())
    }
}

impl<J: Naming, C: Clock + Drop, E: EngineLink + Drop, K: Keeper<J> + Drop> SettlerParts<
    J,
    C,
    E,
    K,
    Global,
> {
    // The share and the records; the rest ends here.
    pub(crate) fn into_end(self) -> End<J>
        ensures { result ≡ holding self.share self.records.items }
    {
        let SettlerParts { share, records, .. } = self;
        End::new(share, records)
    }
}

// Where what is known of a peer stands.
pub(crate) fn place_of(config: &Config, peer: u32) -> usize
    requires known { IsKnown config.now peer }
    ensures place { result ≡ peer }
    ensures within { result < most_peers }
{
    // Called for what its contract tells: there are at most as many peers as places.
    let _ = config.peers();
    peer as usize
}

// Room for a record more, beside that of so many settlements that are not finished.
pub(crate) fn reserve_beside<A: Allocator>(
    records: &mut Vec<Record, A>,
    pending: usize,
) -> Result<(), AllocError>
    ensures items { records.new.items ≡ records.old.items }
    ensures len { vec_len records.new ≡ vec_len records.old }
    ensures capacity { vec_capacity records.old ≤ vec_capacity records.new }
    ensures ok { OnOk result (vec_len records.new + pending < vec_capacity records.new) }
{
    let Some(more) = pending.checked_add(1) else {
        return Err(AllocError);
    };
    records.reserve(more)
}
