//! The fields of a line, and what one field says.
ghost use Rattle.std.specs.Prelude.{◌≡◌, ◌<◌, ◌^◌, ℕ, ℤ, List, length, IfOk, OnErr, FitsSigned};
ghost use Rattle.std.specs.Int.{w64};
ghost use Rattle.std.specs.List.{slice_split};
ghost use Rattle.std.specs.Fmt.{decimal, signed_decimal};
ghost use Rattle.std.specs.Str.{IsUtf8};
ghost use Rattle.hex.specs.Hex.{IsBytes, encode_lower};
ghost use Rattle.ilp_accounts.specs.Valid.{IsValid};
ghost use Rattle.ilp_journal.specs.Keys.{IsKey};
ghost use Rattle.ilp_journal_text.specs.Text.{name_at};
ghost use Rattle.ilp_journal_text.specs.Reading.{IsPeer, IsMoment, AreOctets};
ghost use Rattle.ilp_journal_text.specs.Fields.{is_space, octets_of, Gives};

use arrayvec::ArrayVec;
use ilp_accounts::Config;
use ilp_journal::Key;
use std::str;

// The most fields of a line: those of a hold.
const MOST_FIELDS: usize = 10;

// The most octets of a key.
const LONGEST_KEY: usize = 128;

/// The fields of a line, in order.
pub(crate) type Fields<'a> = ArrayVec<&'a [u8], MOST_FIELDS>;

/// Why the line of an entry was not read.
#[derive(Clone, Copy, Debug, PartialEq, Eq)]
pub(crate) enum LineFault {
    /// It is no such line.
    Bad,
    /// Memory for a key was denied.
    Memory,
}

/// Cuts a line at its spaces. It is refused where there are more fields than a line can have.
pub(crate) fn fields_of(line: &[u8]) -> Result<Fields<'_>, LineFault>
    ensures ok { IfOk result (λ fields. octets_of fields.items ≡ slice_split is_space line.now) }
    ensures err { OnErr result (MOST_FIELDS < length (slice_split is_space line.now)) }
{
    let mut fields = ArrayVec::new();
    for field in line.split(|octet| *octet == b' ') {
        let Ok(()) = fields.try_push(field) else {
            return Err(LineFault::Bad);
        };
    }
    Ok(fields)
}

/// The number of an entry, or an actor.
pub(crate) fn number_in(field: &[u8]) -> Result<u32, LineFault>
    ensures { (n : ℕ) → n < 2 ^ 32 → field.now ≡ decimal n → result ≡ Ok n }
{
    let Ok(number) = text_in(field)?.parse::<u32>() else {
        return Err(LineFault::Bad);
    };
    Ok(number)
}

/// An amount.
pub(crate) fn amount_in(field: &[u8]) -> Result<u64, LineFault>
    ensures { (n : ℕ) → n < 2 ^ 64 → field.now ≡ decimal n → result ≡ Ok n }
{
    let Ok(amount) = text_in(field)?.parse::<u64>() else {
        return Err(LineFault::Bad);
    };
    Ok(amount)
}

/// The number of a quantity.
pub(crate) fn wide_amount_in(field: &[u8]) -> Result<u128, LineFault>
    ensures { (n : ℕ) → n < 2 ^ 128 → field.now ≡ decimal n → result ≡ Ok n }
{
    let Ok(amount) = text_in(field)?.parse::<u128>() else {
        return Err(LineFault::Bad);
    };
    Ok(amount)
}

/// A scale.
pub(crate) fn scale_in(field: &[u8]) -> Result<u8, LineFault>
    ensures { (n : ℕ) → n < 2 ^ 8 → field.now ≡ decimal n → result ≡ Ok n }
{
    let Ok(scale) = text_in(field)?.parse::<u8>() else {
        return Err(LineFault::Bad);
    };
    Ok(scale)
}

/// A moment.
pub(crate) fn moment_in(field: &[u8]) -> Result<i64, LineFault>
    ensures read { (m : ℤ) → IsMoment m → field.now ≡ signed_decimal m → result ≡ Ok m }
    ensures stands { IfOk result IsMoment }
{
    let Ok(moment) = text_in(field)?.parse::<i64>() else {
        return Err(LineFault::Bad);
    };
    if moment < 0 {
        return Err(LineFault::Bad);
    }
    Ok(moment)
}

/// A balance.
pub(crate) fn balance_in(field: &[u8]) -> Result<i64, LineFault>
    ensures read { (b : ℤ) → FitsSigned w64 b → field.now ≡ signed_decimal b → result ≡ Ok b }
    ensures stands { IfOk result (FitsSigned w64) }
{
    let Ok(balance) = text_in(field)?.parse::<i64>() else {
        return Err(LineFault::Bad);
    };
    Ok(balance)
}

// A field as a text.
fn text_in(field: &[u8]) -> Result<&str, LineFault>
    ensures ok { IfOk result (λ text. text.now ≡ field.now) }
    ensures err { OnErr result (¬ IsUtf8 field.now) }
{
    match str::from_utf8(field) {
        Ok(text) => Ok(text),
        Err(_) => Err(LineFault::Bad),
    }
}

/// The peer of a name.
pub(crate) fn peer_in(config: &Config, field: &[u8]) -> Result<u32, LineFault>
    ensures read { (p : ℕ) → IsPeer config.now p → field.now ≡ name_at config.now p → result ≡ Ok p }
    ensures stands { IfOk result (IsPeer config.now) }
{
    match config.peer_by_name(field) {
        Some(peer) => Ok(peer),
        None => Err(LineFault::Bad),
    }
}

/// So many octets.
pub(crate) fn octets_in<const N: usize>(field: &[u8]) -> Result<[u8; N], LineFault>
    ensures read { (octets : List ℕ) → AreOctets N octets → field.now ≡ encode_lower octets
        → result ≡ Ok octets }
    ensures stands { IfOk result (AreOctets N) }
{
    let mut octets = [0; N];
    match hex::decode_to_slice(field, &mut octets) {
        Ok(()) => Ok(octets),
        Err(_) => Err(LineFault::Bad),
    }
}

/// A key, which lies on the heap of the configuration.
pub(crate) fn key_in(config: &Config, field: &[u8]) -> Result<Key, LineFault>
    ensures read { (k : List ℕ) → IsKey k → IsBytes k → field.now ≡ encode_lower k → Gives result k }
    ensures stands { IfOk result IsBytes }
{
    let mut octets = [0; LONGEST_KEY];
    let digits = field.len();
    if digits > 2 * LONGEST_KEY {
        return Err(LineFault::Bad);
    }
    let octets = &mut octets[..digits / 2];
    let Ok(()) = hex::decode_to_slice(field, octets) else {
        return Err(LineFault::Bad);
    };
    match Key::new(config.allocator(), octets) {
        Ok(Some(key)) => Ok(key),
        Ok(None) => Err(LineFault::Bad),
        Err(_) => Err(LineFault::Memory),
    }
}
