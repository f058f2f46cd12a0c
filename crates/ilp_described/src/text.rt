//! Octets as text: those of hexadecimal digits, and those that are printed as they are.
ghost use Rattle.std.specs.Prelude.{◌≡◌, IfOk, MatchOption, IsErr, Ok};
ghost use Rattle.std.specs.List.{list_all};
ghost use Rattle.hex.specs.Hex.{decode_of};
ghost use Rattle.ilp_described.specs.Printable.{is_printable};

use hex::FromHexError;
use std::alloc::{AllocError, Allocator};

/// The octets of a hexadecimal text, in digits of either case; none where it is no such text.
/// `AllocError` tells that memory is short.
pub fn decode<A: Allocator>(alloc: A, text: &[u8]) -> Result<Option<Vec<u8, A>>, AllocError>
    ensures { IfOk result (λ decoded. MatchOption decoded (IsErr (decode_of text.now))
        (λ octets. decode_of text.now ≡ Ok octets.items)) }
{
    match hex::decode(alloc, text) {
        Ok(octets) => Ok(Some(octets)),
        Err(FromHexError::OutOfMemory) => Err(AllocError),
        Err(_) => Ok(None),
    }
}

/// Whether each octet is a space or visible ASCII.
pub fn is_printable(text: &[u8]) -> bool
    ensures { result ≡ list_all is_printable text.now }
{
    text.iter().all(|octet| 32 <= *octet && *octet <= 126)
}
