//! The configurations that scripts run over.

use ilp_accounts::Config;
use ilp_refusals::Refusal;
use std::io::ErrorKind;
use std::rt::Runtime;
use std::{fs, io};

/// The configuration in a file. Where it is none its refusal is printed, which ends the program.
pub(crate) fn configured<R: Runtime + AllocGlobal>(rt: &R, path: &str) -> io::Result<Config> {
    let octets = fs::read(rt, path)?;
    config_of(rt, path, &octets)
}

fn config_of<R: Runtime + AllocGlobal>(rt: &R, path: &str, octets: &[u8]) -> io::Result<Config> {
    match Config::read(rt.alloc(), octets) {
        Ok(config) => Ok(config),
        Err(fault) => {
            let refusal = Refusal::from(fault);
            println!(rt; "{path}: refused {refusal}")?;
            Err(io::Error::from(ErrorKind::InvalidData))
        }
    }
}
