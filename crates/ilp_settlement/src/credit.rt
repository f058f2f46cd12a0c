//! A quantity in the units of an account.
ghost use Rattle.std.specs.Prelude.{◌≡◌, ◌<◌, ◌*◌, ◌/◌, ◌^◌, SomeIff, OkIff};
ghost use Rattle.ilp_settlement.specs.Quantity.{credited_at};

use crate::quantity::Quantity;
use thiserror::Error;

// The greatest power of ten that 64 bits hold.
const MOST_RAISED: u8 = 19;

// The greatest power of ten that 128 bits hold.
const MOST_LOWERED: u8 = 38;

/// A quantity comes to more than 18,446,744,073,709,551,615 units of the account.
#[derive(Clone, Copy, Debug, PartialEq, Eq, Error)]
#[error("the quantity comes to more than 64 bits hold")]
pub struct TooLarge;

/// What a quantity comes to in units of the account's asset, whose scale is `scale` (RFC 0038,
/// "Units and Quantities"): amount times 10 to the power of `scale` less the quantity's own,
/// rounded down, exact for every scale from 0 to 255 on both sides.
///
/// It is refused exactly where that has more than 64 bits.
pub fn credited(quantity: &Quantity, scale: u8) -> Result<u64, TooLarge>
    ensures { OkIff result (credited_at quantity.now scale < 2 ^ 64) (credited_at quantity.now scale) }
{
    if quantity.scale <= scale {
        let Ok(amount) = u64::try_from(quantity.amount) else {
            return Err(TooLarge);
        };
        raised(amount, scale - quantity.scale).ok_or(TooLarge)
    } else {
        let Ok(amount) = u64::try_from(lowered(quantity.amount, quantity.scale - scale)) else {
            return Err(TooLarge);
        };
        Ok(amount)
    }
}

// The amount times a power of ten, if 64 bits hold it.
fn raised(amount: u64, places: u8) -> Option<u64>
    ensures { SomeIff result (amount * 10 ^ places < 2 ^ 64) (amount * 10 ^ places) }
{
    if amount == 0 {
        return Some(0);
    }
    if places > MOST_RAISED {
        return None;
    }
    amount.checked_mul(10u64.pow(u32::from(places)))
}

// The amount divided by a power of ten, rounded down.
fn lowered(amount: u128, places: u8) -> u128
    ensures { result ≡ amount / 10 ^ places }
{
    if places > MOST_LOWERED {
        return 0;
    }
    amount / 10u128.pow(u32::from(places))
}
