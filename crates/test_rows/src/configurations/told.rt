//! What is told of octets.

use ilp_accounts::{Config, ConfigFault, explain};
use std::alloc::{AllocError, Global};

/// What is told of octets that are no configuration.
#[derive(Clone, Copy)]
pub(crate) enum Telling {
    /// The fault, in a word or two.
    Fault,
    /// The line for people.
    Line,
}

impl Telling {
    /// What is told of these octets: `reads` where they are a configuration.
    pub(crate) fn told(self, alloc: Global, octets: &[u8]) -> Result<String, AllocError> {
        match (self, Config::read(alloc, octets)) {
            (_, Ok(_)) => String::from_str(alloc, "reads"),
            (_, Err(ConfigFault::Memory)) => Err(AllocError),
            (Telling::Fault, Err(fault)) => words_of(alloc, fault),
            (Telling::Line, Err(fault)) => explain(alloc, octets, fault),
        }
    }
}

fn words_of(alloc: Global, fault: ConfigFault) -> Result<String, AllocError> {
    match fault {
        ConfigFault::Missing { field } => format!(in alloc; "Missing {field}"),
        ConfigFault::BadValue { field } => format!(in alloc; "BadValue {field}"),
        other => format!(in alloc; "{other:?}"),
    }
}
