//! The examples: what each configuration has, or why it is none, and what each script prints over its
//! configuration.

use crate::configurations::configured;
use crate::scripts::print_replayed;
use ilp_accounts::{Config, ConfigFault, explain};
use ilp_described::check;
use std::alloc::{AllocError, Global};
use std::rt::Runtime;
use std::{fs, io};

// Configurations, and where they lie.
const CONFIGURATIONS: [(&str, &str); 3] = [
    ("two_peers.toml", "examples/two_peers.toml"),
    ("three_assets.toml", "examples/three_assets.toml"),
    ("settlement.toml", "examples/settlement.toml"),
];

// Scripts, where they lie, and the configuration that each runs over.
const SCRIPTS: [(&str, &str, &str); 3] = [
    (
        "two_peers.script",
        "examples/two_peers.script",
        "examples/two_peers.toml",
    ),
    (
        "three_assets.script",
        "examples/three_assets.script",
        "examples/three_assets.toml",
    ),
    (
        "settlement.script",
        "examples/settlement.script",
        "examples/settlement.toml",
    ),
];

/// Prints a line of each configuration, and then what each script prints.
pub(crate) fn print_examples<R: Runtime + AllocGlobal>(rt: &R) -> io::Result<()> {
    for (name, path) in CONFIGURATIONS {
        print_configuration(rt, name, path)?;
    }
    for (name, script, configuration) in SCRIPTS {
        println!(rt; "{name}:")?;
        print_script(rt, script, configuration)?;
    }
    Ok(())
}

fn print_configuration<R: Runtime + AllocGlobal>(rt: &R, name: &str, path: &str) -> io::Result<()> {
    let octets = fs::read(rt, path)?;
    let line = line_of(rt.alloc(), &octets)?;
    println!(rt; "{name}: {line}")
}

fn line_of(alloc: Global, octets: &[u8]) -> Result<String, AllocError> {
    match check(alloc, octets) {
        Ok(line) => Ok(line),
        Err(ConfigFault::Memory) => Err(AllocError),
        Err(fault) => explain(alloc, octets, fault),
    }
}

fn print_script<R: Runtime + AllocGlobal>(
    rt: &R,
    script: &str,
    configuration: &str,
) -> io::Result<()> {
    let config = configured(rt, configuration)?;
    print_over(rt, &config, script)
}

fn print_over<R: Runtime + AllocGlobal>(rt: &R, config: &Config, script: &str) -> io::Result<()> {
    let lines = fs::read_to_string(rt, script)?;
    print_replayed(rt, config, lines.as_str())
}
