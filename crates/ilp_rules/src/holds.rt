//! Holds: which are open, what their amounts become, and whether a balance has room for one.
ghost use Rattle.std.specs.Prelude.{◌≡◌, pos, ◌≤ℤ◌, ◌+ℤ◌, ◌-ℤ◌, int_lt};
ghost use Rattle.ilp_journal.specs.Booked.{most_sum};
ghost use Rattle.ilp_journal.specs.Journal.{open_hold_at};
ghost use Rattle.ilp_rules.specs.Configured.{IsKnown, quote_between};

use ilp_accounts::Config;
use ilp_assets::{Quote, QuoteFault};
use ilp_journal::{Hold, Journal};
use std::alloc::Allocator;

/// The hold that the entry of this number opens, if it is one that nothing answered.
pub fn open_hold_at<A: Allocator>(journal: &Journal<A>, number: u32) -> Option<Hold>
    ensures { result ≡ open_hold_at journal.now.entries number }
{
    let hold = journal.hold(number)?;
    if journal.answer_of(number).is_some() {
        return None;
    }
    Some(hold)
}

/// What an amount of the sender's asset becomes on its way from one peer to another, by the prices and
/// the sender's fee. The refusals come in the order of `QuoteFault`.
pub fn quote_between(config: &Config, from: u32, to: u32, amount: u64) -> Result<Quote, QuoteFault>
    requires from { IsKnown config.now from }
    requires to { IsKnown config.now to }
    ensures { result ≡ quote_between config.now from to amount }
{
    let assets = config.assets();
    assets.quote(
        config.asset(from),
        config.asset(to),
        config.fee_ppm(from),
        amount,
    )
}

/// Whether a balance less an amount lies below the least that its peer may come to, in units of the
/// peer's asset.
pub fn is_short(balance: i128, amount: u64, least: i64) -> bool
    requires low { pos 0 ≤ℤ (balance +ℤ pos (most_sum)) }
    requires high { balance ≤ℤ pos (most_sum) }
    ensures { result ≡ int_lt (balance -ℤ pos amount) least }
{
    balance - i128::from(amount) < i128::from(least)
}
