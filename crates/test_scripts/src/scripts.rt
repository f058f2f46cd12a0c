//! Small scripts, each replayed over a new book of its configuration.

use crate::configurations::configured;
use ilp_accounts::Config;
use ilp_offline::{BadLine, ReplayFault, bad_lines, replay};
use std::rt::Runtime;
use std::{fs, io};
use test_row_texts::in_hexadecimal;

// Configurations, and the file of scripts beside each.
const CONFIGURATIONS: [(&str, &str); 11] = [
    ("scripts/two_peers.toml", "scripts/two_peers.scripts"),
    ("scripts/dear_peer.toml", "scripts/dear_peer.scripts"),
    (
        "scripts/short_journal.toml",
        "scripts/short_journal.scripts",
    ),
    ("scripts/deep_credit.toml", "scripts/deep_credit.scripts"),
    (
        "scripts/deep_credit_short_journal.toml",
        "scripts/deep_credit_short_journal.scripts",
    ),
    (
        "scripts/small_packets.toml",
        "scripts/small_packets.scripts",
    ),
    ("scripts/three_assets.toml", "scripts/three_assets.scripts"),
    ("scripts/settlements.toml", "scripts/settlements.scripts"),
    (
        "scripts/settlements_short_journal.toml",
        "scripts/settlements_short_journal.scripts",
    ),
    (
        "scripts/settlements_scales.toml",
        "scripts/settlements_scales.scripts",
    ),
    (
        "scripts/settlements_in_parts.toml",
        "scripts/settlements_in_parts.scripts",
    ),
];

/// Prints what each script prints, under its name.
pub(crate) fn print_scripts<R: Runtime + AllocGlobal>(rt: &R) -> io::Result<()> {
    for (configuration, scripts) in CONFIGURATIONS {
        let config = configured(rt, configuration)?;
        print_over(rt, &config, scripts)?;
    }
    print_told(rt)?;
    print_faults(rt)
}

// Prints what is told of the lines of a script that are bad.
fn print_told<R: Runtime + AllocGlobal>(rt: &R) -> io::Result<()> {
    let config = configured(rt, "scripts/two_peers.toml")?;
    print_bad_lines(rt, &config)
}

fn print_bad_lines<R: Runtime + AllocGlobal>(rt: &R, config: &Config) -> io::Result<()> {
    let script = fs::read(rt, "scripts/bad_lines.txt")?;
    print_each(rt, &bad_lines(rt.alloc(), config, &script)?)
}

fn print_each(rt: &impl Runtime, lines: &[BadLine]) -> io::Result<()> {
    for line in lines {
        println!(rt; "{line}")?;
    }
    Ok(())
}

// Prints what the scripts of a file print over a configuration. Each begins with a line of `==` and its
// name. What stands before the first is no script.
fn print_over<R: Runtime + AllocGlobal>(rt: &R, config: &Config, path: &str) -> io::Result<()> {
    let scripts = fs::read_to_string(rt, path)?;
    for script in scripts.split("== ").skip(1) {
        print_script(rt, config, script)?;
    }
    Ok(())
}

// Prints what a script prints, whose name is its first line.
fn print_script<R: Runtime + AllocGlobal>(rt: &R, config: &Config, script: &str) -> io::Result<()> {
    match script.split_once('\n') {
        Some((name, lines)) => print_named(rt, config, name, lines),
        None => print_named(rt, config, script, ""),
    }
}

fn print_named<R: Runtime + AllocGlobal>(
    rt: &R,
    config: &Config,
    name: &str,
    lines: &str,
) -> io::Result<()> {
    match in_hexadecimal(rt.alloc(), lines) {
        Ok(lines) => print_under(rt, config, name, lines.as_str()),
        Err(fault) => fault.print(rt, name),
    }
}

fn print_under<R: Runtime + AllocGlobal>(
    rt: &R,
    config: &Config,
    name: &str,
    lines: &str,
) -> io::Result<()> {
    println!(rt; "== {name}")?;
    print_replayed(rt, config, lines)
}

/// Prints what a script prints over a new book.
pub(crate) fn print_replayed<R: Runtime + AllocGlobal>(
    rt: &R,
    config: &Config,
    script: &str,
) -> io::Result<()> {
    let mut reader = script.as_bytes();
    let mut writer = io::writer(rt);
    match replay(rt.alloc(), config, &mut reader, &mut writer) {
        Ok(()) => Ok(()),
        Err(fault) => println!(rt; "stopped by {fault}"),
    }
}

// The texts of the faults that stop a replay.
fn print_faults(rt: &impl Runtime) -> io::Result<()> {
    for fault in [
        ReplayFault::Memory,
        ReplayFault::ReadFault,
        ReplayFault::WriteFault,
        ReplayFault::ScriptTooLong,
    ] {
        println!(rt; "display of a fault of a replay: {fault}")?;
    }
    Ok(())
}
