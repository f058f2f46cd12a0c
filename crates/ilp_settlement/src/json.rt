//! The JSON of a quantity, and of a correction.
ghost use Rattle.std.specs.Prelude.{◌≡◌, ◌<◌, ◌^◌, ◌⊎◌, Some, None, IfSome, IfOk, IfErr, option_map, option_and_then, if◌then◌else◌};
ghost use Rattle.std.specs.Char.{is_ascii_digit};
ghost use Rattle.std.specs.List.{list_all};
ghost use Rattle.std.specs.Str.Parse.{digits_value};
ghost use Rattle.serde_json.specs.View.{view};
ghost use Rattle.serde_json.specs.Find.{as_str};
ghost use Rattle.ilp_settlement.specs.Correction as corrections;
ghost use Rattle.ilp_settlement.specs.Correction.{behind_minus, change_in_text, reason_of_text};
ghost use Rattle.ilp_settlement.specs.Quantity as quantity;
ghost use Rattle.ilp_settlement.specs.Quantity.{most_digits, value_in, amount_in, scale_in, is_amount_text};

use crate::correction::{Correction, CorrectionFault};
use crate::quantity::{Quantity, QuantityFault};
use serde_json::Value;
use std::alloc::Global;

// The most digits of an amount that is a text.
const MOST_DIGITS: usize = 38;

// The most octets of a reason.
const LONGEST_REASON: usize = 128;

/// The JSON value that octets are.
pub(crate) fn parse(alloc: Global, octets: &[u8]) -> Result<Value, QuantityFault>
    ensures ok { IfOk result (λ value. value_in octets.now ≡ Some (view value)) }
    ensures err { IfErr result (λ fault. (fault ≡ QuantityFault.Memory)
        ⊎ ((fault ≡ QuantityFault.NotJson) × (value_in octets.now ≡ None))) }
{
    match Value::from_slice(alloc, octets) {
        Ok(value) => Ok(value),
        Err(error) => {
            if error.is_memory() {
                return Err(QuantityFault::Memory);
            }
            Err(QuantityFault::NotJson)
        }
    }
}

/// The quantity that a JSON value is.
pub(crate) fn quantity_of(value: &Value) -> Result<Quantity, QuantityFault>
    ensures value { result ≡ quantity.quantity_of (view value.now) }
    ensures bound { IfOk result (λ quantity. quantity.amount < 10 ^ most_digits) }
{
    if !value.is_object() {
        return Err(QuantityFault::NotJson);
    }
    let Some(amount) = value.get("amount").and_then(amount_of) else {
        return Err(QuantityFault::BadAmount);
    };
    let Some(scale) = value.get("scale").and_then(scale_of) else {
        return Err(QuantityFault::BadScale);
    };
    Ok(Quantity { amount, scale })
}

/// The correction that a JSON value is.
pub(crate) fn correction_of(alloc: Global, value: &Value) -> Result<Correction, CorrectionFault>
    ensures ok { IfOk result (λ c. corrections.correction_of (view value.now) ≡ Ok c) }
    ensures err { IfErr result (λ fault. (fault ≡ CorrectionFault.Memory)
        ⊎ (corrections.correction_of (view value.now) ≡ Err fault)) }
    ensures bound { IfOk result (λ c. c.quantity.amount < 10 ^ most_digits) }
{
    if !value.is_object() {
        return Err(CorrectionFault::NotJson);
    }
    let Some((lowers, amount)) = value.get("amount").and_then(change_of) else {
        return Err(CorrectionFault::BadAmount);
    };
    let Some(scale) = value.get("scale").and_then(scale_of) else {
        return Err(CorrectionFault::BadScale);
    };
    let Some(reason) = value.get("reason").and_then(reason_of) else {
        return Err(CorrectionFault::BadReason);
    };
    Ok(Correction {
        quantity: Quantity { amount, scale },
        lowers,
        reason: String::from_str(alloc, reason)?,
    })
}

// Whether a member's amount has a minus, and the amount.
fn change_of(value: &Value) -> Option<(bool, u128)>
    ensures value { result ≡ option_and_then change_in_text (as_str (view value.now)) }
    ensures bound { IfSome result (λ change. change.1 < 10 ^ most_digits) }
{
    let text = value.as_str()?;
    match behind_minus(text) {
        Some(digits) => Some((true, amount_of_text(digits)?)),
        None => Some((false, amount_of_text(text)?)),
    }
}

// What stands behind the minus that a text begins with.
fn behind_minus(text: &str) -> Option<&str>
    ensures { option_map (λ rest. rest.now) result ≡ behind_minus text.now }
{
    text.strip_prefix('-')
}

// The reason that a member has.
fn reason_of(value: &Value) -> Option<&str>
    ensures { option_map (λ reason. reason.now) result
        ≡ option_and_then reason_of_text (as_str (view value.now)) }
{
    let text = value.as_str()?;
    if is_reason(text) { Some(text) } else { None }
}

// Whether a text is 1 to 128 octets, of which none is a control character.
fn is_reason(text: &str) -> bool
    ensures { result ≡ corrections.is_reason text.now }
{
    1 <= text.len() && text.len() <= LONGEST_REASON && is_printed(text)
}

// Whether no octet is a control character.
fn is_printed(text: &str) -> bool
    ensures { result ≡ list_all corrections.is_printed text.now }
{
    text.as_bytes()
        .iter()
        .all(|octet| 32 <= *octet && *octet != 127)
}

// The amount that a member has.
fn amount_of(value: &Value) -> Option<u128>
    ensures value { result ≡ amount_in (view value.now) }
    ensures bound { IfSome result (λ amount. amount < 10 ^ most_digits) }
{
    match value {
        Value::String(text) => amount_of_text(text.as_str()),
        other => other.as_u64().map(u128::from),
    }
}

// The number of a text of 1 to 38 decimal digits.
fn amount_of_text(text: &str) -> Option<u128>
    ensures value { result
        ≡ (if is_amount_text text.now then Some (digits_value 10 text.now) else None) }
    ensures bound { IfSome result (λ amount. amount < 10 ^ most_digits) }
{
    if !is_amount_text(text) {
        return None;
    }
    text.parse().ok()
}

// Whether a text is 1 to 38 decimal digits.
fn is_amount_text(text: &str) -> bool
    ensures { result ≡ quantity.is_amount_text text.now }
{
    1 <= text.len() && text.len() <= MOST_DIGITS && is_all_digits(text)
}

// Whether each character is a decimal digit.
fn is_all_digits(text: &str) -> bool
    ensures { result ≡ list_all is_ascii_digit text.now }
{
    text.as_bytes().iter().all(|octet| octet.is_ascii_digit())
}

// The scale that a member has.
fn scale_of(value: &Value) -> Option<u8>
    ensures { result ≡ scale_in (view value.now) }
{
    let scale = value.as_u64()?;
    u8::try_from(scale).ok()
}
