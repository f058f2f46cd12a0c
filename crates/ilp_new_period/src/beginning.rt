//! The book of the next period, or why there is none.
ghost use Rattle.std.specs.Prelude.{◌≡◌, IfOk, IfErr, pos};
ghost use Rattle.ilp_next_period.specs.NextPeriod.{MayFollow, next_book};
ghost use Rattle.ilp_new_period.specs.Beginning.{IsWhyNoNext, IsOfAPeer};

use ilp_accounts::Config;
use ilp_book::{Book, ForwardFault};
use ilp_refusals::Refusal;
use ilp_starting::Refused;
use std::alloc::{AllocError, Global};

// Books are closed at the moment of their last entry, which is no earlier than this.
const BEGINNING: i64 = 0;

/// The book of the period behind this one, by a configuration that may be another one. It begins with the balances,
/// keys and open settlements of this book, at the moment of its last entry.
///
/// It is refused as `Book::bring_forward` is, with a line that names the peer and its balance.
pub fn next_of(alloc: Global, book: &Book, next: &Config) -> Result<Book, Refused>
    ensures may { IfOk result (λ _. MayFollow book.now next.now) }
    ensures next { IfOk result (λ b. b ≡ next_book book.now next.now (pos 0)) }
    ensures refused { IfErr result (λ r. IsWhyNoNext book.now next.now r.refusal) }
{
    match book.bring_forward(alloc, next, BEGINNING) {
        Ok(next) => Ok(next),
        Err(fault) => {
            let why = why_closed(alloc, book.config(), next, fault);
            Err(Refused::because(Refusal::from(fault), why))
        }
    }
}

/// Why books of peers of a configuration can't be closed for a period of the next one, for a person.
pub(crate) fn why_closed(
    alloc: Global,
    config: &Config,
    next: &Config,
    fault: ForwardFault,
) -> Result<String, AllocError>
    requires { IsOfAPeer config.now fault }
{
    match fault {
        ForwardFault::OtherRun => {
            let (run, other) = (config.run(), next.run());
            format!(in alloc;
                "the next configuration has the run {other:?}, and the journal is of {run:?}: keep it, since engines know settlements by it"
            )
        }
        ForwardFault::LastPeriod => format!(in alloc; "no period has a greater number"),
        ForwardFault::HoldOpen { hold } => format!(in alloc; "the hold {hold} is open"),
        ForwardFault::BalanceTooLarge { peer, balance } => {
            let name = config.name(peer);
            format!(in alloc;
                "{name} has the balance {balance}, more than can be brought forward: give it a threshold, and have it paid first"
            )
        }
        ForwardFault::PeerRemoved { peer, balance } => {
            let name = config.name(peer);
            format!(in alloc;
                "{name} is left out, and has the balance {balance} or a settlement that is open: settle first"
            )
        }
        ForwardFault::OtherAsset { peer, balance } => {
            let name = config.name(peer);
            format!(in alloc;
                "{name} has another asset, but the balance {balance}, a settlement that is open or a kept key in its own: give the peer of the new asset a new name"
            )
        }
        ForwardFault::BelowLeast { peer, balance } => {
            let name = config.name(peer);
            format!(in alloc;
                "{name} has the balance {balance}, below its `least` in the next configuration"
            )
        }
        ForwardFault::Full => format!(in alloc;
            "`journal` of the next configuration has no room for what is brought forward"
        ),
        ForwardFault::Memory => Err(AllocError),
    }
}
