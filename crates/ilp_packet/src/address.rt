//! ILP addresses (RFC 0015).
ghost use Rattle.std.specs.Prelude.{◌≡◌, ◌↔◌, ◌&&◌, false, position, IsTrue};
ghost use Rattle.std.specs.List.{before_first, after_first};
ghost use Rattle.ilp_packet.specs.Address as address;
ghost use Rattle.ilp_packet.specs.Address.{IsAddress, is_dot, is_scheme, are_segments, is_segment_octet};

// The greatest number of octets of an address.
const MAX_ADDRESS: usize = 1023;

/// Whether octets are an address: a scheme, and then one or more segments, each a dot and one or
/// more of `A-Z a-z 0-9 _ ~ -`, in at most 1,023 octets (RFC 0015, "Address Requirements").
#[tactic(auto, unfolding(crate::specs::Address::is_address))]
pub fn is_address(octets: &[u8]) -> bool
    ensures address { IsTrue result ↔ IsAddress octets.now }
    ensures test { result ≡ address.is_address octets.now }
{
    octets.len() <= MAX_ADDRESS && is_scheme_with_segments(octets)
}

// Whether octets are a scheme, and then one or more segments, each behind a dot.
fn is_scheme_with_segments(octets: &[u8]) -> bool
    ensures { result ≡ (is_scheme (before_first is_dot octets.now)
        && are_segments false (after_first is_dot octets.now)) }
{
    match first_dot(octets) {
        None => false,
        Some(dot) => is_scheme(&octets[..dot]) && are_all_segments(&octets[dot + 1..]),
    }
}

// The place of the first dot.
fn first_dot(octets: &[u8]) -> Option<usize>
    ensures { result ≡ position is_dot octets.now }
{
    octets.iter().position(|octet| *octet == b'.')
}

/// Whether octets are one of the allocation schemes with which addresses begin (RFC 0015,
/// "Allocation Schemes").
#[tactic(auto, unfolding(crate::specs::Address::is_scheme))]
pub fn is_scheme(octets: &[u8]) -> bool
    ensures { result ≡ is_scheme octets.now }
{
    matches!(
        octets,
        b"g" | b"private"
            | b"example"
            | b"peer"
            | b"self"
            | b"test"
            | b"test1"
            | b"test2"
            | b"test3"
            | b"local"
    )
}

// Whether octets are segments with a dot between any two. It looks at every octet, since a loop
// that never ends early becomes vector code.
fn are_all_segments(octets: &[u8]) -> bool
    ensures { result ≡ are_segments false octets.now }
{
    let mut passed = true;
    let mut before = b'.';
    for octet in octets {
        passed &= is_allowed(*octet) | (*octet == b'.') & (before != b'.');
        before = *octet;
    }
    passed && before != b'.'
}

// Whether a segment may have this octet. The letters are looked for first, and both ranges of them
// at once.
fn is_allowed(octet: u8) -> bool
    ensures { result ≡ is_segment_octet octet }
{
    (b'A' <= octet) & (octet <= b'Z') | (b'a' <= octet) & (octet <= b'z')
        || octet.is_ascii_digit()
        || matches!(octet, b'_' | b'~' | b'-')
}
