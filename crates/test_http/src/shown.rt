//! Octets as they are printed.

use percent_encoding::{CONTROLS, percent_encode};
use sha2::{Digest, Sha256};
use std::alloc::{AllocError, Global};

/// Adds octets to a text: one that is no visible ASCII, and `%`, `<` and `>`, as `%XX`.
pub(crate) fn push_escaped(text: &mut String, octets: &[u8]) -> Result<(), AllocError> {
    let escaped = CONTROLS.add(b'%').add(b'<').add(b'>');
    percent_encode(octets, escaped).append_to(text)
}

/// Octets between `<` and `>`, escaped. More than 64 are told by their number and their SHA-256.
pub(crate) fn shown(alloc: Global, octets: &[u8]) -> Result<String, AllocError> {
    if octets.len() > 64 {
        let digest = hex::encode(alloc, Sha256::digest(octets).as_slice())?;
        return format!(in alloc; "<{} octets, {digest}>", octets.len());
    }
    let mut text = String::from_str(alloc, "<")?;
    push_escaped(&mut text, octets)?;
    text.push('>')?;
    Ok(text)
}

/// What is printed behind an answer: whether it is the same where the next read fails, so that it
/// rests on no octet that follows.
pub(crate) fn ending(answer: &str, with_failed_read: &str) -> &'static str {
    if answer == with_failed_read {
        return ", whatever follows";
    }
    if with_failed_read == "a read failed" {
        return "";
    }
    ", and something else where a read fails"
}
