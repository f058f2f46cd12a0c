//! Many small configurations, most of them a text with some lines replaced, and what is told of each;
//! what each reader gives of some; and how much others have.

mod checks;
mod draft;
mod readers;
mod rows;
mod told;

use checks::print_checks;
use ilp_accounts::{Config, ConfigFault, Field, explain};
use readers::{print_readers, print_route};
use rows::print_rows;
use std::rt::Files;
use std::{fs, io};
use told::Telling;

/// Prints what is told of each configuration.
pub(crate) fn print_configurations<R: Files + Print + AllocGlobal>(rt: &R) -> io::Result<()> {
    print_configuration(rt, "two_peers.toml")?;
    print_configuration(rt, "each_field.toml")?;
    print_longest_prefixes(rt)?;
    print_rows(rt, "ranges.rows", "two_peers.toml", Telling::Fault)?;
    print_rows(rt, "texts.rows", "priced.toml", Telling::Fault)?;
    print_rows(rt, "tables.rows", "two_peers.toml", Telling::Fault)?;
    print_rows(rt, "prices.rows", "priced.toml", Telling::Fault)?;
    print_rows(rt, "order.rows", "two_peers.toml", Telling::Fault)?;
    print_rows(rt, "arrays.rows", "top.toml", Telling::Fault)?;
    print_rows(rt, "explanations.rows", "two_peers.toml", Telling::Line)?;
    print_rows(rt, "many_routes.rows", "many_routes.toml", Telling::Line)?;
    print_files(rt)?;
    print_other_texts(rt)?;
    print_checks(rt)
}

// What the readers give of a configuration, and of its copy.
fn print_configuration<R: Files + Print + AllocGlobal>(rt: &R, name: &str) -> io::Result<()> {
    println!(rt; "{name}")?;
    let path = format!(in rt.alloc(); "configurations/{name}")?;
    let octets = fs::read(rt, path.as_str())?;
    match Config::read(rt.alloc(), &octets) {
        Ok(config) => print_with_copy(rt, &config, name),
        Err(fault) => println!(rt; "not read: {fault}"),
    }
}

fn print_with_copy(rt: &impl Print, config: &Config, name: &str) -> io::Result<()> {
    print_readers(rt, config)?;
    println!(rt; "copy of {name}")?;
    let copy = config.copy()?;
    print_readers(rt, &copy)
}

// Where octets go for which several prefixes match.
fn print_longest_prefixes<R: Files + Print + AllocGlobal>(rt: &R) -> io::Result<()> {
    println!(rt; "four_routes.toml")?;
    let octets = fs::read(rt, "configurations/four_routes.toml")?;
    match Config::read(rt.alloc(), &octets) {
        Ok(config) => print_four_routes(rt, &config),
        Err(fault) => println!(rt; "not read: {fault}"),
    }
}

fn print_four_routes(rt: &impl Print, config: &Config) -> io::Result<()> {
    println!(rt; "routes {}", config.routes())?;
    print_route(rt, config, "test.bob.carol.x")?;
    print_route(rt, config, "test.bob.carole")?;
    print_route(rt, config, "test.bobby")?;
    print_route(rt, config, "g.bob")?;
    print_route(rt, config, "peer.bob")
}

// Files that are read as they are, since a row has only whole lines of UTF-8.
fn print_files<R: Files + Print + AllocGlobal>(rt: &R) -> io::Result<()> {
    println!(rt; "other octets")?;
    print_file(rt, "empty.toml", Telling::Fault)?;
    print_file(rt, "word.toml", Telling::Fault)?;
    print_file(rt, "field_twice.toml", Telling::Fault)?;
    print_file(rt, "octet_ff.toml", Telling::Fault)?;
    print_file(rt, "octets_ff_fe.toml", Telling::Fault)?;
    print_file(rt, "cut_short.toml", Telling::Fault)?;
    print_file(rt, "no_value.toml", Telling::Line)?;
    print_file(rt, "octet_ff_in_line_3.toml", Telling::Line)
}

fn print_file<R: Files + Print + AllocGlobal>(
    rt: &R,
    name: &str,
    telling: Telling,
) -> io::Result<()> {
    let path = format!(in rt.alloc(); "configurations/{name}")?;
    let octets = fs::read(rt, path.as_str())?;
    let told = telling.told(rt.alloc(), &octets)?;
    println!(rt; "{name}: {told}")
}

// The texts of faults to which no file leads here.
fn print_other_texts<R: Print + AllocGlobal>(rt: &R) -> io::Result<()> {
    let line = explain(rt.alloc(), b"b\n", ConfigFault::Memory)?;
    println!(rt; "explained want of memory: {line}")?;
    let fault = ConfigFault::Missing {
        field: Field::SettleTo,
    };
    println!(rt; "display of a missing settle_to: {fault}")
}
