//! Conditions of holds, and the preimages that meet them (by Python's hashlib).

// The SHA-256 digest of 32 octets 00.
const OF_ZEROS: [u8; 32] = [
    0x66, 0x68, 0x7a, 0xad, 0xf8, 0x62, 0xbd, 0x77, 0x6c, 0x8f, 0xc1, 0x8b, 0x8e, 0x9f, 0x8e, 0x20,
    0x08, 0x97, 0x14, 0x85, 0x6e, 0xe2, 0x33, 0xb3, 0x90, 0x2a, 0x59, 0x1d, 0x0d, 0x5f, 0x29, 0x25,
];

// The SHA-256 digest of 32 octets 01.
const OF_ONES: [u8; 32] = [
    0x72, 0xcd, 0x6e, 0x84, 0x22, 0xc4, 0x07, 0xfb, 0x6d, 0x09, 0x86, 0x90, 0xf1, 0x13, 0x0b, 0x7d,
    0xed, 0x7e, 0xc2, 0xf7, 0xf5, 0xe1, 0xd3, 0x0b, 0xd9, 0xd5, 0x21, 0xf0, 0x15, 0x36, 0x37, 0x93,
];

const ZEROS: [u8; 32] = [0; 32];

const ONES: [u8; 32] = [1; 32];

/// One of the two conditions.
pub(crate) fn condition(is_first: bool) -> [u8; 32] {
    if is_first { OF_ZEROS } else { OF_ONES }
}

/// The preimage that meets that condition, and not the other.
pub(crate) fn preimage(is_first: bool) -> [u8; 32] {
    if is_first { ZEROS } else { ONES }
}

/// Whether one of these preimages meets one of these conditions.
pub(crate) fn meets(condition: &[u8; 32], preimage: &[u8; 32]) -> bool {
    if condition.as_slice() == OF_ZEROS.as_slice() {
        preimage.as_slice() == ZEROS.as_slice()
    } else {
        preimage.as_slice() == ONES.as_slice()
    }
}
