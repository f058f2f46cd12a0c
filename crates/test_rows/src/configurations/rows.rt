//! Files of rows, each of which replaces lines of a text.

use super::draft::changed;
use super::told::Telling;
use std::rt::Files;
use std::{fs, io};

/// Prints the name of a file of rows, and then of each row its name and what is told of the text
/// that it makes of the file `base`.
///
/// The file begins with remarks, and each row with a line `== NAME`. What the other lines of a row
/// say stands at `changed`.
pub(crate) fn print_rows<R: Files + Print + AllocGlobal>(
    rt: &R,
    file: &str,
    base: &str,
    telling: Telling,
) -> io::Result<()> {
    let path = format!(in rt.alloc(); "configurations/{base}")?;
    let base = fs::read_to_string(rt, path.as_str())?;
    let path = format!(in rt.alloc(); "configurations/{file}")?;
    let rows = fs::read_to_string(rt, path.as_str())?;
    println!(rt; "{file}")?;
    for row in rows.split("\n== ") {
        print_row(rt, base.as_str(), row, telling)?;
    }
    Ok(())
}

fn print_row<R: Print + AllocGlobal>(
    rt: &R,
    base: &str,
    row: &str,
    telling: Telling,
) -> io::Result<()> {
    let (name, lines) = row.split_once('\n').unwrap_or((row, ""));
    // What stands before the first row.
    if name.starts_with('#') {
        return Ok(());
    }
    match changed(rt.alloc(), base, lines) {
        Ok(text) => {
            let told = telling.told(rt.alloc(), text.as_bytes())?;
            println!(rt; "{name}: {told}")
        }
        Err(fault) => fault.print(rt, name),
    }
}
