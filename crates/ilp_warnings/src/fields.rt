//! Fields that are not known where they stand.
ghost use Rattle.std.specs.Prelude.{◌≡◌, Some, Contains, IfOk, OnOk, IfSome};
ghost use Rattle.std.specs.List.{list_all};
ghost use Rattle.toml.specs.View.{table_view};
ghost use Rattle.ilp_warnings.specs.Complete.{KeepsAll, TellsOf, IsFieldTold, IsTableTold};
ghost use Rattle.ilp_warnings.specs.Told.{AreWarranted, IsWarranted, IsUnknown, IsNoneOf, table_at, keys_of, known_in, top_fields, is_plain, is_plain_octet, IsNear};

use crate::examined::Examined;
use crate::known::{known_in, named, top_fields};
use crate::telling::tell;
use crate::warning::{ConfigTable, Warning};
use ilp_accounts::Field;
use std::alloc::{AllocError, Global};
use strsim::levenshtein;
use toml::Table;

// A longer key is not told.
const MAX_KEY: usize = 64;

// How many edits lead to a near key at most.
const MAX_EDITS: usize = 2;

/// Tells each field of a table that is not known there.
pub(crate) fn tell_fields(
    examined: Examined<'_>,
    told: &mut Vec<Warning>,
    within: ConfigTable,
    table: &Table,
) -> Result<(), AllocError>
    requires there { table_at (table_view examined.table.now) within ≡ Some (table_view table.now) }
    requires sound { AreWarranted examined told.old.items }
    ensures sound { OnOk result (AreWarranted examined.entry told.new.items) }
    ensures kept { OnOk result (KeepsAll told.old.items told.new.items) }
    ensures fields { OnOk result
        (IsTableTold (table_view examined.entry.table.now) within told.new.items) }
{
    for (key, _) in table.iter() {
        tell_field(examined, told, within, table, key.as_str())?;
    }
    Ok(())
}

// Tells the field of this key, where it is not known in its table.
fn tell_field(
    examined: Examined<'_>,
    told: &mut Vec<Warning>,
    within: ConfigTable,
    table: &Table,
    key: &str,
) -> Result<(), AllocError>
    requires there { table_at (table_view examined.table.now) within ≡ Some (table_view table.now) }
    requires has { Contains (keys_of (table_view table.now)) key.now }
    requires sound { AreWarranted examined told.old.items }
    ensures sound { OnOk result (AreWarranted examined.entry told.new.items) }
    ensures kept { OnOk result (KeepsAll told.old.items told.new.items) }
    ensures told { OnOk result (IsNoneOf (known_in within) key.now
        → IsFieldTold within key.now told.new.items) }
{
    let _table = table;
    if named(known_in(within), key).is_some() {
        return Ok(());
    }
    let warning = unknown(examined, within, key)?;
    tell(examined, told, true, warning)
}

// What is told of a field that is not known in its table.
fn unknown(examined: Examined<'_>, within: ConfigTable, key: &str) -> Result<Warning, AllocError>
    requires { IsUnknown (table_view examined.table.now) within key.now }
    ensures so { IfOk result (IsWarranted examined.entry) }
    ensures tells { IfOk result (TellsOf within key.now) }
{
    if let Some(field) = named(top_fields(), key) {
        return Ok(Warning::Displaced { within, field });
    }
    if !is_plain(key.as_bytes()) {
        return Ok(Warning::Unknown {
            within,
            key: None,
            meant: None,
        });
    }
    let meant = nearest(examined.alloc, known_in(within), key)?;
    Ok(Warning::Unknown {
        within,
        key: Some(String::from_str(examined.alloc, key)?),
        meant,
    })
}

// Whether a key has nothing that could spoil a line.
fn is_plain(key: &[u8]) -> bool
    ensures { result ≡ is_plain key.now }
{
    key.len() <= MAX_KEY && are_plain_octets(key)
}

fn are_plain_octets(octets: &[u8]) -> bool
    ensures { result ≡ list_all is_plain_octet octets.now }
{
    octets.iter().all(|octet| is_plain_octet(*octet))
}

fn is_plain_octet(octet: u8) -> bool
    ensures { result ≡ is_plain_octet octet }
{
    octet.is_ascii_uppercase()
        || octet.is_ascii_lowercase()
        || octet.is_ascii_digit()
        || octet == b'_'
        || octet == b'-'
}

// The field whose key is nearest to this one, if it is near: a few edits lead to it, and they leave
// something of the key.
fn nearest(alloc: Global, fields: &[Field], key: &str) -> Result<Option<Field>, AllocError>
    ensures { IfOk result (λ nearest. IfSome nearest
        (λ f. Contains fields.now f × IsNear key.now f)) }
{
    let mut nearest = None;
    let mut enough = key.len().min(MAX_EDITS + 1);
    for field in fields {
        let edits = levenshtein(alloc, key, field.key())?;
        if edits < enough {
            enough = edits;
            nearest = Some(*field);
        }
    }
    Ok(nearest)
}
