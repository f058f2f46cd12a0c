//! What an amount becomes on its way from one asset to another.
ghost use Rattle.std.specs.Prelude.{◌≡◌, ◌<◌, ◌≤◌};
ghost use Rattle.std.specs.Int.{abs_diff};
ghost use Rattle.ilp_assets.specs.Faults.{most_scale_gap};
ghost use Rattle.ilp_assets.specs.Quote.{million, fee_of, converted};

use std::error::Error;
use std::fmt;

// A fee is told in millionths.
const MILLION: u128 = 1_000_000;

/// What an amount becomes.
#[derive(Clone, Copy, Debug, PartialEq, Eq)]
pub struct Quote {
    /// What the connector keeps, in units of the sender's asset. It is rounded up.
    pub fee: u64,
    /// The amount without the fee, in units of the sender's asset.
    pub net: u64,
    /// What goes out, in units of the receiver's asset. It is rounded down.
    pub out: u64,
}

/// Why an amount can't pass.
#[derive(Clone, Copy, Debug, PartialEq, Eq)]
pub enum QuoteFault {
    /// The pair of assets has no price in this direction.
    NoPrice,
    /// More would go out than 18446744073709551615.
    OutTooLarge,
    /// Nothing would go out of an amount that is not 0.
    RoundsToNothing,
}

impl fmt::Display for QuoteFault {
    fn fmt<W: fmt::Write>(&self, f: &mut fmt::Formatter<W>) -> fmt::Result {
        match self {
            QuoteFault::NoPrice => write!(f, "the assets have no price in this direction"),
            QuoteFault::OutTooLarge => write!(f, "more would go out than a packet carries"),
            QuoteFault::RoundsToNothing => write!(f, "nothing would go out"),
        }
    }
}

impl Error for QuoteFault {}

/// The fee of an amount: so many millionths of it, rounded up.
pub(crate) fn fee_of(ppm: u32, amount: u64) -> u64
    requires { ppm ≤ million }
    ensures value { result ≡ fee_of ppm amount }
    ensures within { result ≤ amount }
{
    ((u128::from(amount) * u128::from(ppm) + (MILLION - 1)) / MILLION) as u64
}

/// A price, and the scales of its two assets.
#[derive(Clone, Copy)]
pub(crate) struct Rate {
    pub(crate) p: u32,
    pub(crate) q: u32,
    pub(crate) from_scale: u8,
    pub(crate) to_scale: u8,
}

/// What so many units of the one asset come to in the other, rounded down. The power of ten that
/// both scales have in common is left out, so the numbers stay below 2^126.
pub(crate) fn converted(rate: Rate, net: u64) -> u128
    requires whole { 0 < rate.q }
    requires near { abs_diff rate.from_scale rate.to_scale ≤ most_scale_gap }
    ensures { result ≡ converted rate.p rate.q rate.from_scale rate.to_scale net }
{
    let priced = u128::from(net) * u128::from(rate.p);
    let power = u128::from(10u64.pow(u32::from(rate.from_scale.abs_diff(rate.to_scale))));
    if rate.from_scale <= rate.to_scale {
        priced * power / u128::from(rate.q)
    } else {
        priced / (u128::from(rate.q) * power)
    }
}
