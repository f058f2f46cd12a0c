//! What is wrong with a configuration, as a line for a person.

use crate::expected::Complaint;
use crate::place::place_of;
use ilp_fields::ConfigFault;
use std::alloc::{AllocError, Global};
use toml::Table;

/// Says where in these octets the fault lies that `Config::read` answered for them, and what was
/// expected there: one line without its end.
///
/// A table of an array is named by its number, counted from 1, and an asset or a peer also by its
/// name, where it has one. The line has no other value of the configuration, since that may be a
/// token. The octets are read again for it; of a fault that is not theirs the line says nothing of
/// use. `AllocError` tells that memory is short.
pub fn explain(alloc: Global, octets: &[u8], fault: ConfigFault) -> Result<String, AllocError> {
    if fault == ConfigFault::Memory {
        return String::from_str(alloc, "memory was refused");
    }
    match toml::table_from_slice(alloc, octets) {
        Ok(table) => explain_table(alloc, &table, fault),
        Err(error) if error.is_memory() => Err(AllocError),
        Err(error) => {
            let line = line_at(octets, error.span().map_or(0, |span| span.start));
            let message = error.message();
            format!(in alloc; "line {line}: not TOML: {message}")
        }
    }
}

// Says where in a table the fault lies, and what was expected there.
fn explain_table(alloc: Global, table: &Table, fault: ConfigFault) -> Result<String, AllocError> {
    let place = place_of(alloc, table, fault)?;
    let array = place.array();
    let complaint = Complaint { array, fault };
    format!(in alloc; "{place}: {complaint}")
}

// The number of the line, counted from 1, in which an octet of this place lies.
fn line_at(octets: &[u8], place: usize) -> usize {
    let before = octets.iter().take(place);
    before
        .filter(|octet| **octet == b'\n')
        .count()
        .saturating_add(1)
}
