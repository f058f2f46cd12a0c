//! The fields of a packet. Each function reads one field at the front of the input, and gives its
//! value and the rest of the input.
ghost use Rattle.std.specs.Prelude.{◌≡◌, Ok, Err};
ghost use Rattle.ilp_packet.specs.Reading.{Gives, chunk_at, expiry_at, string_at, string_within, address_at, last_of};

use crate::address::is_address;
use crate::fault::PacketFault;
use ilp_oer::read_octets;
use ilp_terms::expiry_read;

/// A field of a fixed number of octets.
#[tactic(auto, unfolding(crate::specs::Reading::chunk_at))]
pub(crate) fn take_chunk<const N: usize>(input: &[u8]) -> Result<(&[u8; N], &[u8]), PacketFault>
    ensures { Gives (λ field. (field.0.now, field.1.now)) result (chunk_at N input.now) }
{
    match input.split_first_chunk::<N>() {
        Some(field) => Ok(field),
        None => Err(PacketFault::Truncated),
    }
}

/// An expiry, as the moment that it names.
#[tactic(auto, unfolding(crate::specs::Reading::expiry_at))]
pub(crate) fn take_expiry(input: &[u8]) -> Result<(i64, &[u8]), PacketFault>
    ensures { Gives (λ field. (field.0, field.1.now)) result (expiry_at input.now) }
{
    let (text, rest) = take_chunk::<17>(input)?;
    match expiry_read(text) {
        Some(moment) => Ok((moment, rest)),
        None => Err(PacketFault::BadExpiry),
    }
}

/// An octet string, as its content.
#[inline(always)]
#[tactic(auto, unfolding(crate::specs::Reading::string_at))]
pub(crate) fn take_string(input: &[u8]) -> Result<(&[u8], &[u8]), PacketFault>
    ensures { Gives (λ field. (field.0.now, field.1.now)) result (string_at input.now) }
{
    Ok(read_octets(input)?)
}

/// An octet string whose content has at most so many octets.
#[inline(always)]
#[tactic(auto, unfolding(crate::specs::Reading::string_within))]
pub(crate) fn take_string_within(limit: usize, input: &[u8]) -> Result<(&[u8], &[u8]), PacketFault>
    ensures { Gives (λ field. (field.0.now, field.1.now)) result (string_within limit input.now) }
{
    let (content, rest) = take_string(input)?;
    if content.len() > limit {
        return Err(PacketFault::FieldTooLong);
    }
    Ok((content, rest))
}

/// An address as an octet string.
#[tactic(auto, unfolding(crate::specs::Reading::address_at))]
pub(crate) fn take_address(input: &[u8]) -> Result<(&[u8], &[u8]), PacketFault>
    ensures { Gives (λ field. (field.0.now, field.1.now)) result (address_at input.now) }
{
    let (address, rest) = take_string(input)?;
    if !is_address(address) {
        return Err(PacketFault::BadAddress);
    }
    Ok((address, rest))
}

/// The value of a last field, which nothing may follow.
#[tactic(auto, unfolding(crate::specs::Reading::last_of))]
pub(crate) fn take_last<'a>(value: &'a [u8], rest: &[u8]) -> Result<&'a [u8], PacketFault>
    ensures { Gives (λ field. field.now) result (last_of (value.now, rest.now)) }
{
    if !rest.is_empty() {
        return Err(PacketFault::Trailing);
    }
    Ok(value)
}
