//! A correction of a balance, read from JSON.
ghost use Rattle.std.specs.Prelude.{◌≡◌, ◌<◌, ◌^◌, ◌⊎◌, IfOk, IfErr};
ghost use Rattle.ilp_settlement.specs.declared.correction.CorrectionFault.TheVariants as correction_fault;

use crate::json;
use crate::quantity::{Quantity, QuantityFault};
use std::alloc::{AllocError, Global};
use std::marker::Model;
use thiserror::Error;

/// What an operator says that a balance is to be corrected by: a quantity, which way, and why.
#[derive(Drop)]
pub struct Correction {
    pub quantity: Quantity,
    /// Whether the balance falls by that; else it rises.
    pub lowers: bool,
    /// Why, in the operator's words: 1 to 128 octets of text without control characters.
    pub reason: String,
}

/// Why octets are no correction, in the order in which these are looked for.
#[derive(Clone, Copy, Debug, PartialEq, Eq, Error)]
pub enum CorrectionFault {
    /// They are no JSON object.
    #[error("no JSON object")]
    NotJson,
    /// The member `amount` is absent, or is no text of 1 to 38 decimal digits, which may have a minus
    /// before them.
    #[error("no amount")]
    BadAmount,
    /// The member `scale` is absent, or is no whole number from 0 to 255.
    #[error("no scale")]
    BadScale,
    /// The member `reason` is absent, or is no text of 1 to 128 octets without control characters.
    #[error("no reason")]
    BadReason,
    /// Memory was denied.
    #[error("memory is short")]
    Memory,
}

impl Model for Correction {
    ghost use Rattle.std.specs.Prelude.{string_bytes};
    ghost use Rattle.ilp_settlement.specs.Correction.{PlainCorrection};

    ghost Value = { PlainCorrection };

    ghost view = { λ c. record {
      quantity = c.quantity;
      lowers = c.lowers;
      reason = string_bytes c.reason;
    } };
}

impl Correction {
    ghost use Rattle.ilp_settlement.specs.Quantity.{most_digits};
    ghost use Rattle.ilp_settlement.specs.Correction.{correction_in};

    /// Reads a correction from the octets of a JSON object: `{"amount":"-500","scale":2,"reason":"charged
    /// back"}` lowers a balance by 5 wholes. Other members are ignored, and of members of one name the last
    /// counts.
    ///
    /// The first fault is answered, in the order of `CorrectionFault`. `Memory` may come in place of any
    /// answer, where a growth of memory was denied.
    pub fn read(alloc: Global, octets: &[u8]) -> Result<Correction, CorrectionFault>
        ensures ok { IfOk result (λ correction. correction_in octets.now ≡ Ok correction) }
        ensures err { IfErr result
            (λ fault. (fault ≡ CorrectionFault.Memory) ⊎ (correction_in octets.now ≡ Err fault)) }
        ensures bound { IfOk result (λ correction. correction.quantity.amount < 10 ^ most_digits) }
    {
        match json::parse(alloc, octets) {
            Ok(value) => json::correction_of(alloc, &value),
            Err(QuantityFault::Memory) => Err(CorrectionFault::Memory),
            Err(_) => Err(CorrectionFault::NotJson),
        }
    }
}

impl From<AllocError> for CorrectionFault {
    ghost from_gives = { λ _ e. e ≡ correction_fault.Memory };

    fn from(_e: AllocError) -> CorrectionFault {
        CorrectionFault::Memory
    }
}
