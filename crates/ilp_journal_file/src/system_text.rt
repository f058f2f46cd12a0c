//! What the system says of a process in a text.

use crate::fault::FileFault;
use ilp_io::{ReadFault, read_to_limit};
use std::alloc::Global;
use std::fs;
use std::rt::Files;

// The most octets of such a text.
const LONGEST: usize = 16_777_216;

/// The text at this path, or nothing where it can't be read.
///
/// It is refused as `Memory` alone.
pub(crate) fn system_text<R: Files>(
    rt: &R,
    alloc: Global,
    path: &str,
) -> Result<Option<Vec<u8>>, FileFault> {
    let Ok(mut file) = fs::open(rt, path) else {
        return Ok(None);
    };
    match read_to_limit(alloc, &mut file, LONGEST) {
        Ok(text) => Ok(Some(text)),
        Err(ReadFault::Memory) => Err(FileFault::Memory),
        Err(_) => Ok(None),
    }
}
