//! What the second line of a log says, as it is kept beside a journal.
ghost use Rattle.std.specs.Prelude.{◌≡◌, ◌++◌, IfOk, OnOk};
ghost use Rattle.std.specs.List.{flat_map, slice_split};
ghost use Rattle.ilp_log_text.specs.Remembering.{is_semicolon, remembered_in, whole_line, unspaced};

use std::alloc::{AllocError, Global};

/// The text that `ilp_remembered::change_of` reads, of the second line of a log: a line of each
/// of its parts, which `; ` cuts, behind the first line of that form and before the last.
///
/// It is refused where memory is short alone.
pub fn remembered_in(alloc: Global, line: &[u8]) -> Result<Vec<u8>, AllocError>
    ensures { IfOk result (λ text. text.items ≡ remembered_in line.now) }
{
    let mut text = Vec::from_slice(alloc, b"ilp-remembered 1\n")?;
    put_parts(&mut text, line)?;
    text.extend_from_slice(b"end\n")?;
    Ok(text)
}

// Adds a line of each part.
fn put_parts(text: &mut Vec<u8>, line: &[u8]) -> Result<(), AllocError>
    ensures { OnOk result (text.new.items
        ≡ text.old.items ++ flat_map whole_line (slice_split is_semicolon line.now)) }
{
    for part in line.split(|octet| *octet == b';') {
        text.extend_from_slice(unspaced(part))?;
        text.extend_from_slice(b"\n")?;
    }
    Ok(())
}

// A part without the space that it begins with.
fn unspaced(part: &[u8]) -> &[u8]
    ensures { result.now ≡ unspaced part.now }
{
    part.strip_prefix(b" ").unwrap_or(part)
}
