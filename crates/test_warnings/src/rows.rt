//! Rows, each of which changes lines of a configuration.

use crate::draft::changed;
use ilp_accounts::Config;
use ilp_warnings::{Warning, warnings};
use std::rt::Files;
use std::{fs, io};

/// Prints of each row its name, and what is told of the configuration that it makes.
///
/// The file begins with remarks, and each row with a line `== NAME`. What the other lines of a row
/// say stands at `changed`.
pub(crate) fn print_rows<R: Files + Print + AllocGlobal>(rt: &R) -> io::Result<()> {
    let base = fs::read_to_string(rt, "base.toml")?;
    let rows = fs::read_to_string(rt, "rows.txt")?;
    for row in rows.split("\n== ").skip(1) {
        let (name, lines) = row.split_once('\n').unwrap_or((row, ""));
        println!(rt; "== {name}")?;
        let text = changed(rt.alloc(), base.as_str(), lines)?;
        print_told(rt, text.as_bytes())?;
    }
    Ok(())
}

/// Prints what is told of a configuration, a line each.
pub(crate) fn print_told<R: Print + AllocGlobal>(rt: &R, octets: &[u8]) -> io::Result<()> {
    match Config::read(rt.alloc(), octets) {
        Ok(config) => {
            let told = warnings(rt.alloc(), octets, &config)?;
            print_lines(rt, &config, &told)
        }
        Err(fault) => println!(rt; "refused: {fault}"),
    }
}

fn print_lines<R: Print + AllocGlobal>(
    rt: &R,
    config: &Config,
    told: &[Warning],
) -> io::Result<()> {
    for warning in told {
        let line = warning.line(rt.alloc(), config)?;
        println!(rt; "{line}")?;
    }
    Ok(())
}
