//! Where a configuration comes from.
ghost use Rattle.toml.specs.Data.{Members};
ghost use Rattle.ilp_accounts.specs.Faults.{IsToml};
ghost use Rattle.ilp_starting.specs.Configuring.{IsConfigured, IsNoConfiguration};

use crate::refused::Refused;
use crate::warning::{Telling, tell_warnings};
use ilp_accounts::Config;
use ilp_config_file::{BUILT_IN, CONFIG_LIMIT, read_config};
use ilp_journal_file::Noting;
use ilp_refusals::Refusal;
use std::alloc::{AllocError, Global};
use std::rt::Runtime;
use std::{fs, io};

/// The octets of a configuration: the built-in one where the path is `-`, and else those of a file.
///
/// Refusals: `ConfigUnread` where the file can't be read or has more than `CONFIG_LIMIT` octets, with why
/// as its line; `Memory`.
pub fn config_octets<R: Runtime + AllocGlobal>(rt: &R, path: &str) -> Result<Vec<u8>, Refused> {
    match path {
        "-" => {
            let octets = Vec::from_slice(rt.alloc(), BUILT_IN.as_bytes())?;
            Ok(octets)
        }
        _ => read_file(rt, path),
    }
}

/// The configuration that a path names, refused as `config_octets` and `config_of` do.
pub fn configured<R: Runtime + AllocGlobal>(rt: &R, path: &str) -> Result<Config, Refused> {
    let octets = config_octets(rt, path)?;
    config_of(rt.alloc(), &octets)
}

/// The same, with a notice of each thing that is to be looked at.
pub fn noticed<R: Runtime + AllocGlobal>(rt: &R, path: &str) -> Result<Config, Refused> {
    let octets = config_octets(rt, path)?;
    tell_warnings(rt, path, &octets, Telling::Notice);
    config_of(rt.alloc(), &octets)
}

/// The configuration of these octets. It is refused by its first fault, with where that is and what was
/// expected there as its line: `NotToml` where TOML does not read them. `Memory` may come in place of any
/// answer, where a growth was denied.
pub fn config_of(alloc: Global, octets: &[u8]) -> Result<Config, Refused>
    ensures toml { (t : Members) → IsToml octets.now t → IsConfigured t result }
    ensures other { ((t : Members) → ¬ IsToml octets.now t) → IsNoConfiguration result }
{
    match Config::read(alloc, octets) {
        Ok(config) => Ok(config),
        Err(fault) => Err(Refused::of_config(alloc, octets, fault)),
    }
}

// The octets of a configuration's file.
fn read_file<R: Runtime + AllocGlobal>(rt: &R, path: &str) -> Result<Vec<u8>, Refused> {
    let file = match fs::open(rt, path) {
        Ok(file) => file,
        Err(error) => {
            let why = format!(in rt.alloc(); "{path:?}: {error}");
            return Err(Refused::because(Refusal::ConfigUnread, why));
        }
    };
    let mut reader = Noting::new(file);
    match read_config(rt.alloc(), &mut reader) {
        Ok(octets) => Ok(octets),
        Err(Refusal::ConfigUnread) => {
            let why = why_unread(rt.alloc(), path, reader.error);
            Err(Refused::because(Refusal::ConfigUnread, why))
        }
        Err(refusal) => Err(Refused::from(refusal)),
    }
}

// Why a file that was opened is no configuration: the error of a read, or its length.
fn why_unread(alloc: Global, path: &str, error: Option<io::Error>) -> Result<String, AllocError> {
    match error {
        Some(error) => format!(in alloc; "{path:?}: {error}"),
        None => format!(in alloc; "{path:?}: more than {CONFIG_LIMIT} octets"),
    }
}
