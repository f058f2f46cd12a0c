//! Whether what a period has may be brought forward to other peers.
ghost use Rattle.std.specs.Prelude.{◌≡◌, ◌≢◌, ◌+◌, ◌<◌, ◌^◌, ◌↔◌, ℕ, Some, None, pos, ◌+ℤ◌, ◌≤ℤ◌, IsTrue, IfErr, OnOk};
ghost use Rattle.ilp_accounts.specs.Configuration.{Configuration};
ghost use Rattle.ilp_journal.specs.Balance.{balance};
ghost use Rattle.ilp_journal.specs.Journal.{open_asks, open_hold_at};
ghost use Rattle.ilp_rules.specs.Configured.{IsKnown};
ghost use Rattle.ilp_next_period.specs.NextPeriod.{peer_asset, place_in_next, IsSettled, KeepsNoOtherKeys, IsWhyNotClosed};
ghost use Rattle.ilp_follows.specs.Follows.{KeepsAsset, MayHandOn, MayTell, is_unpaid_at};

use crate::ended::{EndedPeriod, has_same_asset};
use ilp_accounts::Config;
use ilp_next_period::ForwardFault;

// The greatest and the least balance that can be brought forward.
const GREATEST: i128 = 9223372036854775807;

const LEAST: i128 = -9223372036854775808;

impl<'k> EndedPeriod<'k> {
    /// Whether what the period has may be brought forward to the peers of the configuration.
    pub(crate) fn judge_next(&self, config: &Config) -> Result<(), ForwardFault>
        ensures ok { OnOk result (MayHandOn self.now config.now) }
        ensures err { IfErr result (IsWhyNotClosed self.now config.now (pos 0)) }
    {
        self.judge_turn(config)?;
        self.judge_holds()?;
        self.judge_peers(config)?;
        self.judge_keys(config)
    }

    // Whether its run is the period's, and there is a greater number of a period.
    fn judge_turn(&self, config: &Config) -> Result<(), ForwardFault>
        ensures run { OnOk result (config.now.settings.run ≡ self.now.config.settings.run) }
        ensures numbered { OnOk result (self.now.period + 1 < 2 ^ 32) }
        ensures err { IfErr result (IsWhyNotClosed self.now config.now (pos 0)) }
    {
        if !self.has_run_of(config) {
            return Err(ForwardFault::OtherRun);
        }
        if self.period() == u32::MAX {
            return Err(ForwardFault::LastPeriod);
        }
        Ok(())
    }

    // Whether the run is that of the configuration.
    fn has_run_of(&self, config: &Config) -> bool
        ensures { IsTrue result ↔ (config.now.settings.run ≡ self.now.config.settings.run) }
    {
        config.run() == self.config().run()
    }

    // Whether no hold is open.
    fn judge_holds(&self) -> Result<(), ForwardFault>
        ensures closed { OnOk result ((n : ℕ) → open_hold_at self.now.entries n ≡ None) }
        ensures err { (next : Configuration) → IfErr result (IsWhyNotClosed self.now next (pos 0)) }
    {
        for number in 0..self.len() {
            if self.open_hold(number).is_some() {
                return Err(ForwardFault::HoldOpen { hold: number });
            }
        }
        Ok(())
    }

    // Whether it may of what each peer has, but for kept keys.
    fn judge_peers(&self, config: &Config) -> Result<(), ForwardFault>
        ensures ok { OnOk result ((p : ℕ) → IsKnown self.now.config p → MayTell self.now config.now p) }
        ensures err { IfErr result (IsWhyNotClosed self.now config.now (pos 0)) }
    {
        for peer in 0..self.config().peers() {
            self.judge_peer(config, peer)?;
        }
        Ok(())
    }

    // Whether it may of what this peer has.
    fn judge_peer(&self, config: &Config, peer: u32) -> Result<(), ForwardFault>
        requires known { IsKnown self.now.config peer }
        ensures ok { OnOk result (MayTell self.now config.now peer) }
        ensures err { IfErr result (IsWhyNotClosed self.now config.now (pos 0)) }
    {
        let balance = self.balance(peer);
        if balance > GREATEST {
            return Err(ForwardFault::BalanceTooLarge { peer, balance });
        }
        match self.place_in(config, peer) {
            Some(place) => self.judge_kept(config, peer, place),
            None => {
                if !self.is_settled(peer) {
                    return Err(ForwardFault::PeerRemoved { peer, balance });
                }
                Ok(())
            }
        }
    }

    // Whether it may of what a peer has that has this place in the configuration.
    fn judge_kept(&self, config: &Config, peer: u32, place: u32) -> Result<(), ForwardFault>
        requires known { IsKnown self.now.config peer }
        requires stays { place_in_next self.now.config config.now peer ≡ Some place }
        requires there { IsKnown config.now place }
        ensures low { OnOk result (pos 0 ≤ℤ (balance self.now.entries peer +ℤ pos (2 ^ 63))) }
        ensures asset { OnOk result (peer_asset self.now.config peer ≢ peer_asset config.now place
            → IsSettled self.now.entries peer) }
        ensures err { IfErr result (IsWhyNotClosed self.now config.now (pos 0)) }
    {
        let balance = self.balance(peer);
        if balance < LEAST && balance < i128::from(config.least(place)) {
            return Err(ForwardFault::BelowLeast { peer, balance });
        }
        if !has_same_asset(self.config(), peer, config, place) && !self.is_settled(peer) {
            return Err(ForwardFault::OtherAsset { peer, balance });
        }
        Ok(())
    }

    // Whether no key is kept of a peer whose asset differs.
    fn judge_keys(&self, config: &Config) -> Result<(), ForwardFault>
        ensures ok { OnOk result ((p : ℕ) → IsKnown self.now.config p
            → KeepsNoOtherKeys self.now config.now p) }
        ensures err { IfErr result (IsWhyNotClosed self.now config.now (pos 0)) }
    {
        for number in 0..self.len() {
            self.judge_key(config, number)?;
        }
        Ok(())
    }

    // Whether the credit of this number is of no peer whose asset differs.
    fn judge_key(&self, config: &Config, number: u32) -> Result<(), ForwardFault>
        ensures ok { OnOk result (KeepsAsset self.now config.now number) }
        ensures err { IfErr result (IsWhyNotClosed self.now config.now (pos 0)) }
    {
        let Some(credit) = self.credit_of(number) else {
            return Ok(());
        };
        let peer = credit.peer;
        match self.place_in(config, peer) {
            Some(place) => {
                if !has_same_asset(self.config(), peer, config, place) {
                    let balance = self.balance(peer);
                    return Err(ForwardFault::OtherAsset { peer, balance });
                }
                Ok(())
            }
            None => Ok(()),
        }
    }

    // Whether nothing is owed to the peer or by it, and no settlement to it is open.
    fn is_settled(&self, peer: u32) -> bool
        ensures { IsTrue result ↔ IsSettled self.now.entries peer }
    {
        self.balance(peer) == 0 && self.is_paid(peer)
    }

    // Whether no settlement to the peer is open.
    fn is_paid(&self, peer: u32) -> bool
        ensures { IsTrue result ↔ (open_asks self.now.entries peer ≡ 0) }
    {
        for number in 0..self.len() {
            if self.is_unpaid_by(peer, number) {
                return false;
            }
        }
        true
    }

    // Whether the settlement of this number is to the peer, and open.
    fn is_unpaid_by(&self, peer: u32, number: u32) -> bool
        ensures { result ≡ is_unpaid_at self.now.entries peer number }
    {
        match self.open_ask(number) {
            Some(ask) => ask.peer == peer,
            None => false,
        }
    }
}
