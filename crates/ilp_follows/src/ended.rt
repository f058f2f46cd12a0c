//! A period that has ended.
ghost use Rattle.std.specs.Prelude.{◌≡◌, ◌<◌, ◌^◌, pos, length, option_map, IfSome, IsTrue, ◌↔◌};
ghost use Rattle.std.specs.Option.{option_copied};
ghost use Rattle.ilp_assets.specs.Assets.{plain_asset};
ghost use Rattle.ilp_accounts.specs.Valid.{IsValid};
ghost use Rattle.ilp_journal.specs.Balance.{balance};
ghost use Rattle.ilp_journal.specs.BroughtForward.{earlier_key_at};
ghost use Rattle.ilp_journal.specs.Credits.{credit_at};
ghost use Rattle.ilp_journal.specs.Journal.{open_ask_at, open_hold_at};
ghost use Rattle.ilp_rules.specs.Book.{moment_at};
ghost use Rattle.ilp_rules.specs.Configured.{IsKnown};
ghost use Rattle.ilp_next_period.specs.NextPeriod.{peer_asset, place_in_next};

use ilp_accounts::Config;
use ilp_assets::Asset;
use ilp_journal::{Ask, Credited, Hold, Journal, Key};
use ilp_rules::moment_at;
use std::marker::Model;

// Books are closed at the moment of their last entry, which is no earlier than this.
const BEGINNING: i64 = 0;

/// A period that has ended: the configuration that names its peers, its number, and what was booked, all of peers of that.
#[derive(Drop)]
pub(crate) struct EndedPeriod<'k> {
    pub(crate) config: &'k Config,
    pub(crate) number: u32,
    pub(crate) journal: &'k Journal,
}

impl<'k> Model for EndedPeriod<'k> {
    ghost use Rattle.std.specs.Prelude.{All, ◌<◌, ◌^◌};
    ghost use Rattle.ilp_accounts.specs.Valid.{IsValid};
    ghost use Rattle.ilp_journal_text.specs.Reading.{StandsIn};
    ghost use Rattle.ilp_rules.specs.Book.{PlainBook};
    ghost use Rattle.ilp_rules.specs.Parts.{book_of};

    ghost Value = { PlainBook };

    ghost view = { λ b. book_of b.config.now b.number 0 b.journal.now };

    ghost invariant = { λ b. IsValid b.config.now × (b.number < 2 ^ 32)
        × All (StandsIn b.config.now b.number) b.journal.now.entries };
}

impl<'k> EndedPeriod<'k> {
    /// The configuration that names its peers.
    pub(crate) fn config(&self) -> &Config
        ensures value { result.now ≡ self.now.config }
        ensures valid { IsValid self.now.config }
    {
        self.config
    }

    /// Its number.
    pub(crate) fn period(&self) -> u32
        ensures value { result ≡ self.now.period }
        ensures fits { self.now.period < 2 ^ 32 }
    {
        self.number
    }

    /// How many entries it has.
    pub(crate) fn len(&self) -> u32
        ensures { result ≡ length self.now.entries }
    {
        self.journal.len()
    }

    /// What the connector owes the peer. Each call adds up all entries.
    pub(crate) fn balance(&self, peer: u32) -> i128
        ensures value { result ≡ balance self.now.entries peer }
    {
        self.journal.balance(peer)
    }

    /// The moment at which its books are closed.
    pub(crate) fn moment(&self) -> i64
        ensures { result ≡ moment_at self.now.entries (pos 0) }
    {
        moment_at(self.journal, BEGINNING)
    }

    /// The credit of this number, of this period or of an earlier one.
    pub(crate) fn credit_of(&self, number: u32) -> Option<&Credited>
        ensures value { option_copied result ≡ credit_at self.now.entries number }
        ensures known { IfSome (credit_at self.now.entries number)
            (λ credit. IsKnown self.now.config credit.peer) }
    {
        self.journal.credit(number)
    }

    /// The hold of this number, if it is open.
    pub(crate) fn open_hold(&self, number: u32) -> Option<Hold>
        ensures { result ≡ open_hold_at self.now.entries number }
    {
        match self.journal.answer_of(number) {
            None => self.journal.hold(number),
            Some(_) => None,
        }
    }

    /// The settlement of this number, if it is open.
    pub(crate) fn open_ask(&self, number: u32) -> Option<Ask>
        ensures value { result ≡ open_ask_at self.now.entries number }
        ensures known { IfSome (open_ask_at self.now.entries number)
            (λ ask. IsKnown self.now.config ask.peer) }
    {
        match self.journal.closing_of(number) {
            None => self.journal.ask(number),
            Some(_) => None,
        }
    }

    /// The key that the settlement of this number had in an earlier period, if it is of one.
    pub(crate) fn earlier_key(&self, number: u32) -> Option<&Key>
        ensures { option_copied result ≡ earlier_key_at self.now.entries number }
    {
        self.journal.earlier_key(number)
    }

    /// The place that a peer has in another configuration, where it has one.
    pub(crate) fn place_in(&self, config: &Config, peer: u32) -> Option<u32>
        requires { IsKnown self.now.config peer }
        ensures place { result ≡ place_in_next self.now.config config.now peer }
        ensures known { IfSome result (IsKnown config.now) }
    {
        // They tell that both configurations are valid.
        let _ = config.peers();
        let _ = self.config().peers();
        config.peer_by_name(self.config().name(peer).as_bytes())
    }
}

/// Whether a peer of one configuration and one of another have the same asset.
pub(crate) fn has_same_asset(one: &Config, peer: u32, other: &Config, place: u32) -> bool
    requires known { IsKnown one.now peer }
    requires there { IsKnown other.now place }
    ensures { IsTrue result ↔ (peer_asset one.now peer ≡ peer_asset other.now place) }
{
    match (asset_of(one, peer), asset_of(other, place)) {
        (Some(asset), Some(same)) => asset.is(same),
        _ => false,
    }
}

// The asset of a peer.
fn asset_of(config: &Config, peer: u32) -> Option<Asset<'_>>
    requires { IsKnown config.now peer }
    ensures { option_map plain_asset result ≡ Some (peer_asset config.now peer) }
{
    config.assets().asset(config.asset(peer))
}
