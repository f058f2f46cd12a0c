//! What is told of settlements, credits and corrections.

use crate::line::{Level, tell};
use crate::notices::Notices;
use crate::seconds::Seconds;
use crate::shown_key::ShownKey;
use crate::shown_reason::ShownReason;
use crate::told_payment::ToldPayment;
use ilp_accounts::Config;
use std::io::Eprint;
use std::time::{Clock, Duration};

impl Notices {
    /// Tells that the engine of a peer has taken on a settlement of this amount, in units of the peer's
    /// asset.
    pub fn settlement_confirmed<R: Clock + Eprint>(
        &self,
        rt: &R,
        config: &Config,
        peer: u32,
        number: u32,
        amount: u64,
    ) {
        if self.of_peer(config, peer).is_some() {
            let name = config.name(peer);
            let text = format_args!("settlement {number} with {name} of {amount}: confirmed");
            tell(rt, Level::Info, text);
        }
    }

    /// Tells that the engine of a peer refused a settlement of this amount, in units of the peer's
    /// asset, with which status, and for how long none is tried.
    pub fn settlement_refused<R: Clock + Eprint>(
        &self,
        rt: &R,
        config: &Config,
        peer: u32,
        number: u32,
        amount: u64,
        status: u16,
        rest: Duration,
    ) {
        if self.of_peer(config, peer).is_some() {
            let name = config.name(peer);
            let rest = Seconds(rest);
            let text = format_args!(
                "settlement {number} with {name} of {amount}: refused with the status {status}, and the amount is back; the next one waits {rest}"
            );
            tell(rt, Level::Warn, text);
        }
    }

    /// Tells that a settlement is tried again, since the engine of the peer said neither yes nor no.
    pub fn settlement_kept_open<R: Clock + Eprint>(
        &self,
        rt: &R,
        config: &Config,
        peer: u32,
        number: u32,
    ) {
        let Some(of_peer) = self.of_peer(config, peer) else {
            return;
        };
        if let Some(left_out) = of_peer.settlements.failed(rt) {
            let name = config.name(peer);
            let text = format_args!(
                "settlement {number} with {name}: kept open, since its engine said neither yes nor no{left_out}"
            );
            tell(rt, Level::Warn, text);
        }
    }

    /// Tells that the payouts of a peer are paused.
    pub fn payouts_paused<R: Clock + Eprint>(&self, rt: &R, config: &Config, peer: u32) {
        if self.of_peer(config, peer).is_some() {
            let name = config.name(peer);
            let text = format_args!(
                "payouts: {name}'s are paused, until the next start or /accounts/{name}/resume"
            );
            tell(rt, Level::Info, text);
        }
    }

    /// Tells that the payouts of a peer go on.
    pub fn payouts_resumed<R: Clock + Eprint>(&self, rt: &R, config: &Config, peer: u32) {
        if self.of_peer(config, peer).is_some() {
            let name = config.name(peer);
            tell(rt, Level::Info, format_args!("payouts: {name}'s go on"));
        }
    }

    /// Tells that this amount, in units of the peer's asset, came from a peer as a settlement, under
    /// this key.
    pub fn credited<R: Clock + Eprint>(
        &self,
        rt: &R,
        config: &Config,
        peer: u32,
        number: u32,
        amount: u64,
        key: ShownKey,
    ) {
        if self.of_peer(config, peer).is_some() {
            let name = config.name(peer);
            let text = format_args!("credit {number} of {name}: {amount}, key {key}");
            tell(rt, Level::Info, text);
        }
    }

    /// Tells that the operator corrected the balance of a peer by this, in units of the peer's asset, under
    /// this key and for this reason.
    pub fn corrected<R: Clock + Eprint>(
        &self,
        rt: &R,
        config: &Config,
        peer: u32,
        number: u32,
        change: i128,
        key: ShownKey,
        reason: ShownReason,
    ) {
        if self.of_peer(config, peer).is_some() {
            let name = config.name(peer);
            let text = format_args!("correction {number} of {name}: {change}, key {key}: {reason}");
            tell(rt, Level::Info, text);
        }
    }

    /// Tells that a settlement of a peer, or a correction of its balance, was refused, since the entry of
    /// this number has its key as another one.
    pub fn key_taken<R: Clock + Eprint>(
        &self,
        rt: &R,
        config: &Config,
        peer: u32,
        number: u32,
        key: ShownKey,
        kept: ToldPayment,
        told: ToldPayment,
    ) {
        let Some(of_peer) = self.of_peer(config, peer) else {
            return;
        };
        // Apart, so that a correction which is refused hides no settlement that isn't credited.
        let refusals = match told {
            ToldPayment::Settlement(_) => &of_peer.refused_credits,
            ToldPayment::Rise(_) | ToldPayment::Fall(_) => &of_peer.refused_corrections,
        };
        if let Some(left_out) = refusals.failed(rt) {
            let name = config.name(peer);
            let (refused, undone) = (told.refused(), told.undone());
            let (entry, advice) = (kept.entry(), told.advice());
            let text = format_args!(
                "{refused} of {name} refused, and not {undone}: {told} under the key {key}, which {entry} {number} has with {kept}: {advice}{left_out}"
            );
            tell(rt, Level::Error, text);
        }
    }
}
