//! Conditions, and the preimages that meet them.
ghost use Rattle.std.specs.Prelude.{◌≡◌};
ghost use Rattle.ilp_terms.specs.Condition.{meets};

use sha2::{Digest, Sha256};

/// Whether the preimage meets the condition (RFC 0027): the condition is the SHA-256 digest
/// (FIPS 180-4) of the preimage's 32 octets.
pub fn meets(condition: &[u8; 32], preimage: &[u8; 32]) -> bool
    ensures { result ≡ meets condition.now preimage.now }
{
    let digest = Sha256::digest(preimage.as_slice());
    digest.as_slice() == condition.as_slice()
}
