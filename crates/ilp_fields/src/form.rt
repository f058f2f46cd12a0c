//! The forms that the texts of a configuration have.
ghost use Rattle.std.specs.Prelude.{◌≡◌, ◌≤◌, ◌&&◌, ◌==◌, length, slice_index, codes, bytes_eq};
ghost use Rattle.std.specs.List.{list_all};
ghost use Rattle.ilp_fields.specs.Forms.{admits, is_within, is_code_octet, is_name_octet, is_run_octet, is_visible_octet, is_prefix, scheme_of};

use ilp_packet::{is_address, is_scheme};

/// A form of text.
#[derive(Clone, Copy, Debug, PartialEq, Eq)]
pub enum Form {
    /// An ILP address (RFC 0015).
    Address,
    /// 1 to 32 letters, digits and `-`.
    Run,
    /// 1 to 64 octets; whether they name a place is found when it is used.
    SocketAddress,
    /// `/` and visible ASCII, at most 128 octets.
    Path,
    /// 1 to 12 capital letters and digits.
    Code,
    /// 1 to 16 small letters, digits, `_` and `-`.
    Name,
    /// 1 to 128 octets of visible ASCII.
    Token,
    /// Nothing, a scheme or an address, but not of the scheme `peer`.
    Prefix,
    /// `group` or `off`.
    Sync,
}

impl Form {
    /// Whether a text has this form.
    pub fn admits(self, text: &str) -> bool
        ensures { result ≡ admits self text.now }
    {
        let octets = text.as_bytes();
        match self {
            Form::Address => is_address(octets),
            Form::Run => has_length(octets, 1, 32) && are_run_octets(octets),
            Form::SocketAddress => has_length(octets, 1, 64),
            Form::Path => has_length(octets, 1, 128) && is_path(octets),
            Form::Code => has_length(octets, 1, 12) && are_code_octets(octets),
            Form::Name => has_length(octets, 1, 16) && are_name_octets(octets),
            Form::Token => has_length(octets, 1, 128) && are_visible_octets(octets),
            Form::Prefix => is_prefix(text),
            Form::Sync => text == "group" || text == "off",
        }
    }
}

// Whether there are so many octets, from the least to the most.
fn has_length(octets: &[u8], least: usize, most: usize) -> bool
    ensures { result ≡ is_within least most (length octets.now) }
{
    least <= octets.len() && octets.len() <= most
}

fn is_run_octet(octet: u8) -> bool
    ensures { result ≡ is_run_octet octet }
{
    octet.is_ascii_uppercase()
        || octet.is_ascii_lowercase()
        || octet.is_ascii_digit()
        || octet == b'-'
}

fn are_run_octets(octets: &[u8]) -> bool
    ensures { result ≡ list_all is_run_octet octets.now }
{
    octets.iter().all(|octet| is_run_octet(*octet))
}

fn is_visible_octet(octet: u8) -> bool
    ensures { result ≡ is_visible_octet octet }
{
    33 <= octet && octet <= 126
}

fn are_visible_octets(octets: &[u8]) -> bool
    ensures { result ≡ list_all is_visible_octet octets.now }
{
    octets.iter().all(|octet| is_visible_octet(*octet))
}

// Whether octets begin with a slash and are visible.
fn is_path(octets: &[u8]) -> bool
    requires { 1 ≤ length octets.now }
    ensures { result ≡ (slice_index octets.now 0 == 47 && list_all is_visible_octet octets.now) }
{
    octets[0] == b'/' && are_visible_octets(octets)
}

fn is_code_octet(octet: u8) -> bool
    ensures { result ≡ is_code_octet octet }
{
    octet.is_ascii_uppercase() || octet.is_ascii_digit()
}

fn are_code_octets(octets: &[u8]) -> bool
    ensures { result ≡ list_all is_code_octet octets.now }
{
    octets.iter().all(|octet| is_code_octet(*octet))
}

fn is_name_octet(octet: u8) -> bool
    ensures { result ≡ is_name_octet octet }
{
    octet.is_ascii_lowercase() || octet.is_ascii_digit() || octet == b'_' || octet == b'-'
}

fn are_name_octets(octets: &[u8]) -> bool
    ensures { result ≡ list_all is_name_octet octets.now }
{
    octets.iter().all(|octet| is_name_octet(*octet))
}

// Whether a route may have this prefix.
fn is_prefix(text: &str) -> bool
    ensures { result ≡ is_prefix text.now }
{
    let octets = text.as_bytes();
    (octets.is_empty() || is_scheme(octets) || is_address(octets)) && scheme_of(text) != "peer"
}

// What stands before the first dot.
fn scheme_of(text: &str) -> &str
    ensures { result.now ≡ scheme_of text.now }
{
    match text.split_once('.') {
        None => text,
        Some((scheme, _)) => scheme,
    }
}
