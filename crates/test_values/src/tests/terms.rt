//! Expiries and conditions. Digests were computed by Python's `hashlib`.
ghost use Rattle.std.specs.Prelude.{◌≡◌, Some, SomeIff};
ghost use Rattle.ilp_terms.specs.Expiry.{IsExpiry, IsMoment};

use ilp_terms::{expiry_read, expiry_write, meets};
use sha2::{Digest, Sha256};
use std::test::Fail;

// What was written is read as the moment that was written.
fn read_back(moment: i64) -> Option<i64>
    requires { IsMoment moment }
    ensures { result ≡ Some moment }
{
    expiry_read(&expiry_write(moment))
}

// What was read is written as the text that was read.
fn written_back(text: &[u8; 17]) -> Option<[u8; 17]>
    ensures { SomeIff result (IsExpiry text.now) text.now }
{
    let moment = expiry_read(text)?;
    Some(expiry_write(moment))
}

#[test]
fn the_two_calls_are_inverse(rt: HostRuntime) {
    assert_eq!(rt; read_back(-1), Some(-1));
    assert_eq!(rt;
        written_back(b"20240229235959999"),
        Some(*b"20240229235959999")
    );
    assert_eq!(rt; written_back(b"20230229000000000"), None);
}

// The digest of 32 zero octets.
const ZEROS_DIGEST: [u8; 32] = [
    0x66, 0x68, 0x7a, 0xad, 0xf8, 0x62, 0xbd, 0x77, 0x6c, 0x8f, 0xc1, 0x8b, 0x8e, 0x9f, 0x8e, 0x20,
    0x08, 0x97, 0x14, 0x85, 0x6e, 0xe2, 0x33, 0xb3, 0x90, 0x2a, 0x59, 0x1d, 0x0d, 0x5f, 0x29, 0x25,
];

// The digest of the octets 0 to 31.
const COUNT_DIGEST: [u8; 32] = [
    0x63, 0x0d, 0xcd, 0x29, 0x66, 0xc4, 0x33, 0x66, 0x91, 0x12, 0x54, 0x48, 0xbb, 0xb2, 0x5b, 0x4f,
    0xf4, 0x12, 0xa4, 0x9c, 0x73, 0x2d, 0xb2, 0xc8, 0xab, 0xc1, 0xb8, 0x58, 0x1b, 0xd7, 0x10, 0xdd,
];

#[test]
fn meets_known_conditions(rt: HostRuntime) {
    let zeros = [0u8; 32];
    let count = [
        0, 1, 2, 3, 4, 5, 6, 7, 8, 9, 10, 11, 12, 13, 14, 15, 16, 17, 18, 19, 20, 21, 22, 23, 24,
        25, 26, 27, 28, 29, 30, 31,
    ];
    assert!(rt; meets(&ZEROS_DIGEST, &zeros));
    assert!(rt; meets(&COUNT_DIGEST, &count));
    assert!(rt; !meets(&ZEROS_DIGEST, &count));
    assert!(rt; !meets(&zeros, &zeros));
}

// The examples of FIPS 180-4: a message of one block, the empty one, and one of two blocks.
#[test]
fn digests_the_standards_examples(rt: HostRuntime) -> Result<(), Fail> {
    let examples: [(&str, &str); 3] = [
        (
            "abc",
            "ba7816bf8f01cfea414140de5dae2223b00361a396177a9cb410ff61f20015ad",
        ),
        (
            "",
            "e3b0c44298fc1c149afbf4c8996fb92427ae41e4649b934ca495991b7852b855",
        ),
        (
            "abcdbcdecdefdefgefghfghighijhijkijkljklmklmnlmnomnopnopq",
            "248d6a61d20638b8e5c026930c3e6039a33ce45964ff2167f6ecedd419db06c1",
        ),
    ];
    for (message, digest) in examples {
        let found = hex::encode(rt.alloc(), Sha256::digest(message).as_slice())?;
        assert_eq!(rt; found.as_str(), digest);
    }
    Ok(())
}
