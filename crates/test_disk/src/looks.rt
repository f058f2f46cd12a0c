//! Looks at what a disk has.

use crate::disk::{Disk, When};
use ilp_line_file::end_of;
use std::io;

/// Whether a file is there with just this text.
pub fn has(disk: &Disk, name: &str, when: When, text: &[u8]) -> io::Result<bool> {
    Ok(match disk.text(name, when)? {
        Some(found) => found.as_slice() == text,
        None => false,
    })
}

/// Whether a file is as it was left: with this text, or not there where there is none.
pub fn is_as_left(disk: &Disk, name: &str, when: When, text: Option<&str>) -> io::Result<bool> {
    match text {
        Some(text) => has(disk, name, when, text.as_bytes()),
        None => Ok(!is_there(disk, name, when)?),
    }
}

/// Whether a file is there.
pub fn is_there(disk: &Disk, name: &str, when: When) -> io::Result<bool> {
    Ok(disk.text(name, when)?.is_some())
}

/// The whole lines that a file has.
pub fn lines_of(text: &[u8]) -> &[u8] {
    &text[..end_of(text)]
}
