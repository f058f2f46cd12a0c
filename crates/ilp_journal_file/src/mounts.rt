//! Whether a file is mounted by itself.

use crate::fault::FileFault;
use crate::system_text::system_text;
use std::alloc::Global;
use std::io::ErrorKind;
use std::rt::Files;

// Where Linux lists what is mounted for this process.
const MOUNTS: &str = "/proc/self/mountinfo";

// Which field of a line is the path at which something is mounted.
const PLACE: usize = 4;

/// Whether something is mounted at this path itself, as a single file into a container. Where the system
/// does not say, nothing is.
///
/// It is refused as `Memory` alone.
pub(crate) fn is_mount_point<R: Files>(
    rt: &R,
    alloc: Global,
    path: &str,
) -> Result<bool, FileFault> {
    let whole = match rt.canonicalize(alloc, path) {
        Ok(whole) => whole,
        Err(error) if error.kind() == ErrorKind::OutOfMemory => return Err(FileFault::Memory),
        Err(_) => return Ok(false),
    };
    let Some(table) = system_text(rt, alloc, MOUNTS)? else {
        return Ok(false);
    };
    Ok(is_listed(&table, whole.as_str().as_bytes()))
}

// Whether a line of the table has this path.
fn is_listed(table: &[u8], path: &[u8]) -> bool {
    table
        .split(|octet| *octet == b'\n')
        .any(|line| is_at(line, path))
}

fn is_at(line: &[u8], path: &[u8]) -> bool {
    match line.split(|octet| *octet == b' ').nth(PLACE) {
        Some(place) => is_spelled(place, path),
        None => false,
    }
}

// Whether a field spells this path: blanks, line feeds and backslashes stand in it as three digits of base 8 behind a
// backslash.
fn is_spelled(field: &[u8], path: &[u8]) -> bool {
    let mut rest = field;
    for octet in path {
        let spelling: &[u8] = match octet {
            b' ' => b"\\040",
            b'\t' => b"\\011",
            b'\n' => b"\\012",
            b'\\' => b"\\134",
            _ => std::slice::from_ref(octet),
        };
        match rest.strip_prefix(spelling) {
            Some(behind) => rest = behind,
            None => return false,
        }
    }
    rest.is_empty()
}
