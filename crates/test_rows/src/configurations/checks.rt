//! Whole configurations, and how much of what each has.

use ilp_accounts::Config;
use ilp_refusals::Refusal;
use std::rt::Files;
use std::{fs, io};

/// Prints how many peers, assets and routes each configuration of the file has, or why it is none, under
/// its name.
pub(crate) fn print_checks<R: Files + Print + AllocGlobal>(rt: &R) -> io::Result<()> {
    let texts = fs::read_to_string(rt, "configurations/checked.txt")?;
    for text in texts.split("== ").skip(1) {
        print_check(rt, text)?;
    }
    Ok(())
}

// The first line of a text is its name.
fn print_check<R: Print + AllocGlobal>(rt: &R, text: &str) -> io::Result<()> {
    let (name, toml) = text.split_once('\n').unwrap_or((text, ""));
    match Config::read(rt.alloc(), toml.as_bytes()) {
        Ok(config) => print_numbers(rt, name, &config),
        Err(fault) => {
            let refusal = Refusal::from(fault);
            println!(rt; "{name}: refused {refusal}")
        }
    }
}

fn print_numbers(rt: &impl Print, name: &str, config: &Config) -> io::Result<()> {
    let peers = config.peers();
    let assets = config.assets().asset_count();
    let routes = config.routes();
    println!(rt; "{name}: ok {peers} peers {assets} assets {routes} routes")
}
