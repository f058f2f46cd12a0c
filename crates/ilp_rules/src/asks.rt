//! Settlements to peers: which are open, and what is asked for.
ghost use Rattle.std.specs.Prelude.{◌≡◌, ◌≤ℤ◌, ◌<ℤ◌, nat_lt, pos, IfSome};
ghost use Rattle.ilp_accounts.specs.declared.peer.Levels.{Levels};
ghost use Rattle.ilp_journal.specs.Booked.{most_sum};
ghost use Rattle.ilp_journal.specs.Journal.{open_ask_at, open_asks};
ghost use Rattle.ilp_rules.specs.Lawful.{most_open_asks, owed_above, due_amount};
ghost use Rattle.ilp_tallies.specs.Tallies.{IsOfEach};

use ilp_accounts::Levels;
use ilp_journal::{Ask, Journal};
use ilp_tallies::{MOST_OPEN, Tallies};
use std::alloc::Allocator;

/// The settlement that the entry of this number asks for, if it is one that nothing closed.
pub fn open_ask_at<A: Allocator>(journal: &Journal<A>, number: u32) -> Option<Ask>
    ensures { result ≡ open_ask_at journal.now.entries number }
{
    let ask = journal.ask(number)?;
    if journal.closing_of(number).is_some() {
        return None;
    }
    Some(ask)
}

/// Whether fewer settlements to the peer are open than may be.
pub fn are_few_open<A: Allocator>(tallies: &Tallies<A>, peer: u32) -> bool
    ensures { IsOfEach tallies.now (λ _ _ j. nat_lt (open_asks j peer) most_open_asks) result }
{
    (tallies.open_asks(peer) as usize) < MOST_OPEN
}

/// What is asked for at this balance of a peer, in units of its asset: what lies above `settle_to`, as
/// far as one settlement may go. It is nothing below the threshold, and where the peer has no levels.
pub fn due_amount(balance: i128, levels: Option<Levels>) -> Option<u64>
    requires high { balance ≤ℤ pos most_sum }
    requires ordered { IfSome levels (λ (l : Levels). l.settle_to <ℤ l.threshold) }
    ensures { result ≡ due_amount balance levels }
{
    let levels = levels?;
    if balance < i128::from(levels.threshold) {
        return None;
    }
    Some(owed_above(balance, levels))
}

// What lies above the level to settle to, as far as one settlement may go.
fn owed_above(balance: i128, levels: Levels) -> u64
    requires above { levels.settle_to ≤ℤ balance }
    requires high { balance ≤ℤ pos most_sum }
    ensures { pos result ≡ owed_above balance levels }
{
    match u64::try_from(balance - i128::from(levels.settle_to)) {
        Ok(amount) => amount.min(levels.settle_max),
        Err(_) => levels.settle_max,
    }
}
