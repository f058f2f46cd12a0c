//! What a Prepare asks for, by the rules.

use crate::calls::Sent;
use crate::configured::{MAX_HOLD_MS, PEERS, WINDOW_MS, account_of, asset_of, exchanged};
use ilp_assets::QuoteFault;
use ilp_book::HoldFault;
use ilp_journal::Hold;

const MILLION: u128 = 1_000_000;

/// The hold that a Prepare asks for, or the first refusal of its terms.
pub(crate) fn terms(moment: i64, sent: &Sent) -> Result<Hold, HoldFault> {
    let sender = account_of(sent.from);
    let max = sender.max_packet;
    if sent.amount > max {
        return Err(HoldFault::AmountTooLarge { max });
    }
    if sent.to >= PEERS {
        return Err(HoldFault::NoRoute);
    }
    if sent.to == sent.from {
        return Err(HoldFault::BackToSender);
    }
    if sent.expires <= moment {
        return Err(HoldFault::Expired);
    }
    let latest = sent.expires.wrapping_sub(WINDOW_MS);
    if latest <= moment {
        return Err(HoldFault::TooShort);
    }
    let fee = fee(sender.fee_ppm, sent.amount);
    Ok(Hold {
        from: sent.from,
        to: sent.to,
        amount: sent.amount,
        fee,
        out: out(sent, fee)?,
        deadline: latest.min(moment.wrapping_add(MAX_HOLD_MS)),
        condition: sent.condition,
    })
}

// So many millionths of an amount, rounded up.
fn fee(fee_ppm: u128, amount: u64) -> u64 {
    let millionths = u128::from(amount).wrapping_mul(fee_ppm);
    let fee = millionths.wrapping_add(MILLION - 1) / MILLION;
    u64::try_from(fee).unwrap_or(u64::MAX)
}

// What goes out.
fn out(sent: &Sent, fee: u64) -> Result<u64, HoldFault> {
    let net = u128::from(sent.amount.wrapping_sub(fee));
    let gone = exchanged(asset_of(sent.from), asset_of(sent.to), net);
    let Ok(out) = u64::try_from(gone) else {
        return Err(HoldFault::Quote(QuoteFault::OutTooLarge));
    };
    if out == 0 && sent.amount > 0 {
        return Err(HoldFault::Quote(QuoteFault::RoundsToNothing));
    }
    Ok(out)
}
