//! Parts of a row that stand many times.

use crate::fault::RowFault;
use std::alloc::{AllocError, Global};

/// Adds a part as many times as words say, which are a number, a space and the part. In the part `\n`
/// is the end of a line and `#` the number of the part, from 0.
pub fn push_repeated(alloc: Global, text: &mut String, repeat: &str) -> Result<(), RowFault> {
    let Some((count, part)) = repeat.split_once(' ') else {
        return Err(RowFault::NotUnderstood);
    };
    let Ok(count) = count.parse::<u32>() else {
        return Err(RowFault::NotUnderstood);
    };
    let part = part.replace(alloc, "\\n", "\n")?;
    push_parts(alloc, text, count, part.as_str())?;
    Ok(())
}

fn push_parts(alloc: Global, text: &mut String, count: u32, part: &str) -> Result<(), AllocError> {
    for number in 0..count {
        let number = number.to_string(alloc)?;
        let numbered = part.replace(alloc, "#", number.as_str())?;
        text.push_str(numbered.as_str())?;
    }
    Ok(())
}
