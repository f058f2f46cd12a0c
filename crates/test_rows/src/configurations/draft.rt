//! A text, in which the lines of a row replace some lines.

use std::alloc::Global;
use test_row_texts::{RowFault, push_repeated};

/// The text that a row makes of another.
///
/// Lines that begin with `-` are replaced, where they first stand in the text, by the lines after
/// them that begin with `+`, and this as often as the row has such lines in turn. Where nothing is
/// to be replaced, those with `+` are added at the end. Empty lines and those that begin with `#`
/// say nothing. In a line with `+`, `<N PART>` stands for N times the part, in which `\n` is the
/// end of a line and `#` the number of the part, from 0.
pub(crate) fn changed(alloc: Global, base: &str, lines: &str) -> Result<String, RowFault> {
    let mut draft = Draft {
        text: String::from_str(alloc, base)?,
        old: String::new(alloc),
        new: String::new(alloc),
    };
    for line in lines.lines() {
        draft.take(alloc, line)?;
    }
    draft.replace(alloc)?;
    let Draft {
        text,
        old: _,
        new: _,
    } = draft;
    Ok(text)
}

// A text, the lines that are to be replaced next, and those that are to stand in their place.
#[derive(Drop)]
struct Draft {
    text: String,
    old: String,
    new: String,
}

impl Draft {
    fn take(&mut self, alloc: Global, line: &str) -> Result<(), RowFault> {
        match line.split_once(' ') {
            Some(("-", old)) => self.take_old(alloc, old),
            Some(("+", new)) => push_line(alloc, &mut self.new, new),
            Some(("#", _)) => Ok(()),
            None if line.is_empty() => Ok(()),
            _ => Err(RowFault::NotUnderstood),
        }
    }

    // Lines that are replaced after others had been given their place begin a replacement.
    fn take_old(&mut self, alloc: Global, line: &str) -> Result<(), RowFault> {
        if !self.new.is_empty() {
            self.replace(alloc)?;
        }
        self.old.push_str(line)?;
        self.old.push('\n')?;
        Ok(())
    }

    fn replace(&mut self, alloc: Global) -> Result<(), RowFault> {
        if self.old.is_empty() {
            self.text.push_str(self.new.as_str())?;
        } else {
            self.text = self.replaced(alloc)?;
        }
        self.old.clear();
        self.new.clear();
        Ok(())
    }

    fn replaced(&self, alloc: Global) -> Result<String, RowFault> {
        let Some((before, after)) = self.text.split_once(self.old.as_str()) else {
            return Err(RowFault::NotUnderstood);
        };
        let new = self.new.as_str();
        Ok(format!(in alloc; "{before}{new}{after}")?)
    }
}

fn push_line(alloc: Global, text: &mut String, line: &str) -> Result<(), RowFault> {
    let Some((before, after)) = line.split_once('<') else {
        text.push_str(line)?;
        text.push('\n')?;
        return Ok(());
    };
    let Some((repeat, end)) = after.split_once('>') else {
        return Err(RowFault::NotUnderstood);
    };
    text.push_str(before)?;
    push_repeated(alloc, text, repeat)?;
    text.push_str(end)?;
    text.push('\n')?;
    Ok(())
}
