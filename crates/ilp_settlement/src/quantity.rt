//! A quantity, read from JSON.
ghost use Rattle.std.specs.Prelude.{◌≡◌, ◌<◌, ◌^◌, ◌⊎◌, IfOk, IfErr};

use crate::json;
use std::alloc::Global;
use thiserror::Error;

/// What a settlement is said to be: `amount` times 10 to the power of minus `scale`, in wholes of an
/// asset (RFC 0038, "Units and Quantities").
#[derive(Clone, Copy, Debug, PartialEq, Eq)]
pub struct Quantity {
    /// How many units, of which 10 to the power of `scale` make one whole.
    pub amount: u128,
    /// The scale that the amount is told in, which need not be the account's.
    pub scale: u8,
}

/// Why octets are no quantity, in the order in which these are looked for.
#[derive(Clone, Copy, Debug, PartialEq, Eq, Error)]
pub enum QuantityFault {
    /// They are no JSON object.
    #[error("no JSON object")]
    NotJson,
    /// The member `amount` is absent, or is neither a text of 1 to 38 decimal digits nor a number
    /// that is whole, not negative and of at most 64 bits.
    #[error("no amount")]
    BadAmount,
    /// The member `scale` is absent, or is no whole number from 0 to 255.
    #[error("no scale")]
    BadScale,
    /// Memory was denied.
    #[error("memory is short")]
    Memory,
}

impl Quantity {
    ghost use Rattle.ilp_settlement.specs.Quantity.{most_digits, quantity_in};

    /// Reads a quantity from the octets of a JSON object (RFC 0038, "Units and Quantities"). Members
    /// other than `amount` and `scale` are ignored, and of members of one name the last counts. A
    /// number counts where it is written as a whole one, so `5.0` and `1e3` are refused; a text may
    /// begin with zeros.
    ///
    /// The first fault is answered, in the order of `QuantityFault`. `Memory` may come in place of
    /// any answer, where a growth of memory was denied.
    pub fn read(alloc: Global, octets: &[u8]) -> Result<Quantity, QuantityFault>
        ensures ok { IfOk result (λ quantity. quantity_in octets.now ≡ Ok quantity) }
        ensures err { IfErr result
            (λ fault. (fault ≡ QuantityFault.Memory) ⊎ (quantity_in octets.now ≡ Err fault)) }
        ensures bound { IfOk result (λ quantity. quantity.amount < 10 ^ most_digits) }
    {
        let value = json::parse(alloc, octets)?;
        json::quantity_of(&value)
    }
}
