//! Whether a period of another configuration may follow a book.
ghost use Rattle.std.specs.Prelude.{◌≡◌, ◌≢◌, ◌+◌, ◌<◌, ◌^◌, ◌≤ℤ◌, ◌↔◌, ℕ, ℤ, Some, None, option_map, IsTrue, IfSome, IfErr, OnOk};
ghost use Rattle.std.specs.Option.{option_copied};
ghost use Rattle.ilp_assets.specs.Assets.{plain_asset};
ghost use Rattle.ilp_accounts.specs.Configuration.{Configuration, peer_at};
ghost use Rattle.ilp_accounts.specs.Valid.{IsValid};
ghost use Rattle.ilp_journal.specs.Journal.{open_asks, open_hold_at};
ghost use Rattle.ilp_journal.specs.Balance.{balance};
ghost use Rattle.ilp_journal.specs.Credits.{credit_at};
ghost use Rattle.ilp_rules.specs.Configured.{IsKnown};
ghost use Rattle.ilp_rules.specs.CreditTables.{credit_numbers};
ghost use Rattle.ilp_next_period.specs.NextPeriod.{peer_asset, place_in_next, IsSettled, KeepsNoOtherKeys, MayFollow, MayKeep, IsWhyNotClosed};

use crate::ending_period::EndingPeriod;
use crate::forward_fault::ForwardFault;
use ilp_accounts::Config;
use ilp_assets::Asset;
use ilp_journal::Credited;
use std::alloc::Allocator;

// The greatest balance that can be brought forward.
const GREATEST: i128 = 9223372036854775807;

impl<'b, A: Allocator> EndingPeriod<'b, A> {
    /// Whether a period of the configuration may follow.
    pub(super) fn judge_next(&self, config: &Config) -> Result<(), ForwardFault>
        ensures ok { OnOk result (MayFollow self.now config.now) }
        ensures err { (now : ℤ) → IfErr result (IsWhyNotClosed self.now config.now now) }
        ensures valid { IsValid config.now }
    {
        // Tells that the configuration is valid.
        let _ = config.peers();
        self.judge_turn(config)?;
        self.judge_holds()?;
        self.judge_peers(config)?;
        self.judge_keys(config)
    }

    // Whether its run is the book's, and there is a greater number of a period.
    fn judge_turn(&self, config: &Config) -> Result<(), ForwardFault>
        ensures run { OnOk result (config.now.settings.run ≡ self.now.config.settings.run) }
        ensures numbered { OnOk result (self.now.period + 1 < 2 ^ 32) }
        ensures err { (now : ℤ) → IfErr result (IsWhyNotClosed self.now config.now now) }
    {
        if !self.has_run_of(config) {
            return Err(ForwardFault::OtherRun);
        }
        if self.period() == u32::MAX {
            return Err(ForwardFault::LastPeriod);
        }
        Ok(())
    }

    // Whether the run is that of the configuration.
    fn has_run_of(&self, config: &Config) -> bool
        ensures { IsTrue result ↔ (config.now.settings.run ≡ self.now.config.settings.run) }
    {
        config.run() == self.config().run()
    }

    // Whether no hold is open.
    fn judge_holds(&self) -> Result<(), ForwardFault>
        ensures closed { OnOk result ((n : ℕ) → open_hold_at self.now.entries n ≡ None) }
        ensures err { (next : Configuration) (now : ℤ)
            → IfErr result (IsWhyNotClosed self.now next now) }
    {
        match self.tables.holds.earliest() {
            Some((_, hold)) => Err(ForwardFault::HoldOpen { hold }),
            None => Ok(()),
        }
    }

    // Whether it may of what each peer has, but for kept keys.
    fn judge_peers(&self, config: &Config) -> Result<(), ForwardFault>
        ensures ok { OnOk result ((p : ℕ) → IsKnown self.now.config p → MayKeep self.now config.now p) }
        ensures err { (now : ℤ) → IfErr result (IsWhyNotClosed self.now config.now now) }
    {
        for peer in 0..self.config().peers() {
            self.judge_peer(config, peer)?;
        }
        Ok(())
    }

    // Whether it may of what this peer has.
    fn judge_peer(&self, config: &Config, peer: u32) -> Result<(), ForwardFault>
        requires known { IsKnown self.now.config peer }
        ensures ok { OnOk result (MayKeep self.now config.now peer) }
        ensures err { (now : ℤ) → IfErr result (IsWhyNotClosed self.now config.now now) }
    {
        let balance = self.balance(peer);
        if balance > GREATEST {
            return Err(ForwardFault::BalanceTooLarge { peer, balance });
        }
        match self.place_in(config, peer) {
            Some(place) => self.judge_kept(config, peer, place),
            None => {
                if !self.is_settled(peer) {
                    return Err(ForwardFault::PeerRemoved { peer, balance });
                }
                Ok(())
            }
        }
    }

    // Whether it may of what a peer has that has this place in the configuration.
    fn judge_kept(&self, config: &Config, peer: u32, place: u32) -> Result<(), ForwardFault>
        requires known { IsKnown self.now.config peer }
        requires stays { place_in_next self.now.config config.now peer ≡ Some place }
        requires there { IsKnown config.now place }
        ensures least { OnOk result ((peer_at config.now place).least ≤ℤ balance self.now.entries peer) }
        ensures asset { OnOk result (peer_asset self.now.config peer ≢ peer_asset config.now place
            → IsSettled self.now.entries peer) }
        ensures err { (now : ℤ) → IfErr result (IsWhyNotClosed self.now config.now now) }
    {
        let balance = self.balance(peer);
        if balance < i128::from(config.least(place)) {
            return Err(ForwardFault::BelowLeast { peer, balance });
        }
        if !has_same_asset(self.config(), peer, config, place) && !self.is_settled(peer) {
            return Err(ForwardFault::OtherAsset { peer, balance });
        }
        Ok(())
    }

    // Whether no key is kept of a peer whose asset differs.
    fn judge_keys(&self, config: &Config) -> Result<(), ForwardFault>
        ensures ok { OnOk result ((p : ℕ) → IsKnown self.now.config p
            → KeepsNoOtherKeys self.now config.now p) }
        ensures err { (now : ℤ) → IfErr result (IsWhyNotClosed self.now config.now now) }
    {
        for number in self.credit_numbers() {
            self.judge_key(config, *number)?;
        }
        Ok(())
    }

    // Whether the credit of this number is of no peer whose asset differs.
    fn judge_key(&self, config: &Config, number: u32) -> Result<(), ForwardFault>
        ensures ok { OnOk result (IfSome (credit_at self.now.entries number) (λ credit.
            (q : ℕ) → place_in_next self.now.config config.now credit.peer ≡ Some q
            → peer_asset self.now.config credit.peer ≡ peer_asset config.now q)) }
        ensures err { (now : ℤ) → IfErr result (IsWhyNotClosed self.now config.now now) }
    {
        let Some(credit) = self.credit_of(number) else {
            return Ok(());
        };
        let peer = credit.peer;
        match self.place_in(config, peer) {
            Some(place) => {
                if !has_same_asset(self.config(), peer, config, place) {
                    let balance = self.balance(peer);
                    return Err(ForwardFault::OtherAsset { peer, balance });
                }
                Ok(())
            }
            None => Ok(()),
        }
    }

    // Whether nothing is owed to the peer or by it, and no settlement to it is open.
    fn is_settled(&self, peer: u32) -> bool
        ensures { IsTrue result ↔ IsSettled self.now.entries peer }
    {
        self.balance(peer) == 0 && self.open_asks(peer) == 0
    }

    // How many settlements to the peer are open.
    fn open_asks(&self, peer: u32) -> u32
        ensures { result ≡ open_asks self.now.entries peer }
    {
        self.tables.tallies.open_asks(peer)
    }

    /// The credit of this number, of this period or of an earlier one.
    pub(super) fn credit_of(&self, number: u32) -> Option<&Credited>
        ensures value { option_copied result ≡ credit_at self.now.entries number }
        ensures known { IfSome (credit_at self.now.entries number)
            (λ credit. IsKnown self.now.config credit.peer) }
    {
        self.journal.credit(number)
    }

    /// The numbers of all credits, in order.
    pub(super) fn credit_numbers(&self) -> &[u32]
        ensures { result.now ≡ credit_numbers self.now.entries }
    {
        self.tables.keys.numbers()
    }

    /// The place that a peer has in another configuration, where it has one.
    pub(super) fn place_in(&self, config: &Config, peer: u32) -> Option<u32>
        requires { IsKnown self.now.config peer }
        ensures place { result ≡ place_in_next self.now.config config.now peer }
        ensures known { IfSome result (IsKnown config.now) }
    {
        // They tell that both configurations are valid.
        let _ = config.peers();
        let _ = self.config().peers();
        config.peer_by_name(self.config().name(peer).as_bytes())
    }
}

// Whether a peer of one configuration and one of another have the same asset.
fn has_same_asset(one: &Config, peer: u32, other: &Config, place: u32) -> bool
    requires known { IsKnown one.now peer }
    requires there { IsKnown other.now place }
    ensures { IsTrue result ↔ (peer_asset one.now peer ≡ peer_asset other.now place) }
{
    match (asset_of(one, peer), asset_of(other, place)) {
        (Some(asset), Some(same)) => asset.is(same),
        _ => false,
    }
}

// The asset of a peer.
fn asset_of(config: &Config, peer: u32) -> Option<Asset<'_>>
    requires { IsKnown config.now peer }
    ensures { option_map plain_asset result ≡ Some (peer_asset config.now peer) }
{
    config.assets().asset(config.asset(peer))
}
