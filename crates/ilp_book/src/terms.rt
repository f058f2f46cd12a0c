//! The hold that a Prepare asks for.
ghost use Rattle.std.specs.Prelude.{◌≡◌, pos, ◌≤ℤ◌, ◌-ℤ◌, IfSome};
ghost use Rattle.std.specs.Int.{int_min};
ghost use Rattle.ilp_packet.specs.Packet.{plain_prepare};
ghost use Rattle.ilp_rules.specs.Configured.{IsKnown};
ghost use Rattle.ilp_terms.specs.Expiry.{last_of_all};
ghost use Rattle.ilp_book.specs.HoldStep.{given_route, hold_terms};

use crate::fault::HoldFault;
use ilp_accounts::Config;
use ilp_journal::Hold;
use ilp_packet::Prepare;
use ilp_rules::{after, quote_between};

/// The hold that a Prepare asks for, or the first refusal of its terms.
#[tactic(auto, unfolding(crate::specs::HoldStep::hold_terms))]
pub(crate) fn hold_terms(
    config: &Config,
    moment: i64,
    from: u32,
    prepare: &Prepare<'_>,
    route: Option<u32>,
) -> Result<Hold, HoldFault>
    requires known { IsKnown config.now from }
    requires route { IfSome route (IsKnown config.now) }
    requires first { pos 0 ≤ℤ moment }
    requires last { moment ≤ℤ last_of_all }
    ensures terms { result ≡ hold_terms config.now moment
        (given_route from (plain_prepare prepare.now) route) }
{
    let max = config.max_packet(from);
    if prepare.amount > max {
        return Err(HoldFault::AmountTooLarge { max });
    }
    let Some(to) = route else {
        return Err(HoldFault::NoRoute);
    };
    if to == from {
        return Err(HoldFault::BackToSender);
    }
    if prepare.expires <= moment {
        return Err(HoldFault::Expired);
    }
    let latest = before(prepare.expires, config.window_ms());
    if latest <= moment {
        return Err(HoldFault::TooShort);
    }
    let quote = quote_between(config, from, to, prepare.amount)?;
    Ok(Hold {
        from,
        to,
        amount: prepare.amount,
        fee: quote.fee,
        out: quote.out,
        deadline: sooner(latest, after(moment, config.max_hold_ms())),
        condition: *prepare.condition,
    })
}

// The moment that lies some milliseconds before another.
fn before(moment: i64, span: u32) -> i64
    requires { pos 0 ≤ℤ moment }
    ensures { result ≡ moment -ℤ pos span }
{
    moment - i64::from(span)
}

// The sooner of two moments.
fn sooner(one: i64, other: i64) -> i64
    ensures { result ≡ int_min one other }
{
    one.min(other)
}
