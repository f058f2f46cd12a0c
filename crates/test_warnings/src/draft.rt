//! A text, in which the lines of a row replace some lines.

use std::alloc::{AllocError, Global};

/// The text that a row makes of another.
///
/// Lines that begin with `-` are replaced, where they first stand in the text, by the lines after
/// them that begin with `+`, and this as often as the row has such lines in turn. Where nothing is
/// to be replaced, those with `+` are added at the end. Other lines say nothing.
pub(crate) fn changed(alloc: Global, base: &str, lines: &str) -> Result<String, AllocError> {
    let mut text = String::from_str(alloc, base)?;
    let mut old = String::new(alloc);
    let mut new = String::new(alloc);
    for line in lines.lines() {
        match line.split_once(' ') {
            Some(("-", line)) => {
                if !new.is_empty() {
                    text = replaced(alloc, text.as_str(), old.as_str(), new.as_str())?;
                    old.clear();
                    new.clear();
                }
                push_line(&mut old, line)?;
            }
            Some(("+", line)) => push_line(&mut new, line)?,
            _ => {}
        }
    }
    replaced(alloc, text.as_str(), old.as_str(), new.as_str())
}

// The text with other lines in place of the old ones, or at its end where there are no old ones.
// Where the old ones don't stand in it, it is no configuration any more.
fn replaced(alloc: Global, text: &str, old: &str, new: &str) -> Result<String, AllocError> {
    match text.split_once(old) {
        Some((before, after)) if !old.is_empty() => format!(in alloc; "{before}{new}{after}"),
        Some(_) => format!(in alloc; "{text}{new}"),
        None => format!(in alloc; "the row replaces lines that are not there"),
    }
}

fn push_line(text: &mut String, line: &str) -> Result<(), AllocError> {
    text.push_str(line)?;
    text.push('\n')
}
