//! The fields of one table of TOML, each read as its type. None of these calls takes memory.
ghost use Rattle.std.specs.Prelude.{◌≡◌, ◌≤◌, List, length, map, pos, Ok, Some, None, is_some, option_map, unwrap_or, IfOk, IfSome};
ghost use Rattle.std.specs.List.{list_all};
ghost use Rattle.toml.specs.Data.{Members, Data, as_integer, get_member};
ghost use Rattle.toml.specs.View.{view, table_view};
ghost use Rattle.ilp_assets.specs.Assets.{plain_asset};
ghost use Rattle.ilp_fields.specs.Keys.{key};
ghost use Rattle.ilp_fields.specs.Checks.{Gives, required, optional};
ghost use Rattle.ilp_fields.specs.Fields.{at, is_text, is_natural, is_integer, is_asset, is_table, are_tables, natural, asset, text_of, text_in, integer_of, integer_in, natural_of, natural_in, asset_of, elements_of};

use crate::fault::{ConfigFault, Field};
use crate::form::Form;
use crate::named::asset_named;
use ilp_assets::Asset;
use toml::{Table, Value};

// What stands under a field's key.
fn value_at<'a>(table: &'a Table, field: Field) -> Option<&'a Value>
    ensures { option_map (λ value. view value.now) result ≡ at field (table_view table.now) }
{
    table.get(field.key())
}

/// A text that has to be there.
///
/// It is refused with `Missing` where the field is absent, and with `BadValue` where its value is no
/// text or hasn't this form.
pub fn required_text<'a>(table: &'a Table, field: Field, form: Form) -> Result<&'a str, ConfigFault>
    ensures { Gives (λ text. text.now) result
        (required (is_text form) field (table_view table.now))
        (text_of field (table_view table.now)) }
{
    match value_at(table, field) {
        None => Err(ConfigFault::Missing { field }),
        Some(value) => match value.as_str() {
            Some(text) if form.admits(text) => Ok(text),
            _ => Err(ConfigFault::BadValue { field }),
        },
    }
}

/// A text that needn't be there. It is refused with `BadValue` where the value is no text or hasn't
/// this form.
pub fn optional_text<'a>(
    table: &'a Table,
    field: Field,
    form: Form,
) -> Result<Option<&'a str>, ConfigFault>
    ensures { Gives (option_map (λ text. text.now)) result
        (optional (is_text form) field (table_view table.now))
        (text_in field (table_view table.now)) }
{
    match value_at(table, field) {
        None => Ok(None),
        Some(value) => match value.as_str() {
            Some(text) if form.admits(text) => Ok(Some(text)),
            _ => Err(ConfigFault::BadValue { field }),
        },
    }
}

/// A text, or what stands for it where it is absent. It is refused with `BadValue` where the value
/// is no text or hasn't this form.
pub fn defaulted_text<'a>(
    table: &'a Table,
    field: Field,
    form: Form,
    default: &'static str,
) -> Result<&'a str, ConfigFault>
    ensures { Gives (λ text. text.now) result
        (optional (is_text form) field (table_view table.now))
        (unwrap_or (text_in field (table_view table.now)) default.now) }
{
    match optional_text(table, field, form)? {
        None => Ok(default),
        Some(text) => Ok(text),
    }
}

/// An asset that has to be there, named by its code and scale as `CODE/SCALE`.
///
/// It is refused with `Missing` where the field is absent, and with `BadValue` where its value is no
/// text that names an asset.
pub fn required_asset(table: &Table, field: Field) -> Result<Asset<'_>, ConfigFault>
    ensures { Gives plain_asset result
        (required is_asset field (table_view table.now))
        (asset_of field (table_view table.now)) }
{
    match value_at(table, field) {
        None => Err(ConfigFault::Missing { field }),
        Some(value) => match asset_in(value) {
            Some(asset) => Ok(asset),
            None => Err(ConfigFault::BadValue { field }),
        },
    }
}

// The asset that a value names.
fn asset_in(value: &Value) -> Option<Asset<'_>>
    ensures { option_map plain_asset result ≡ asset (view value.now) }
{
    match value.as_str() {
        Some(text) => asset_named(text),
        None => None,
    }
}

/// A number that has to be there, from the least to the most.
///
/// It is refused with `Missing` where the field is absent, and with `BadValue` where its value is no
/// integer or lies outside.
pub fn required_number(
    table: &Table,
    field: Field,
    least: u32,
    most: u32,
) -> Result<u32, ConfigFault>
    ensures read { Gives (λ number. number) result
        (required (is_natural least most) field (table_view table.now))
        (natural_of field (table_view table.now)) }
    ensures within { IfOk result (λ number. number ≤ most) }
{
    match value_at(table, field) {
        None => Err(ConfigFault::Missing { field }),
        Some(value) => match number_within(value, least, most) {
            Some(number) => Ok(number),
            None => Err(ConfigFault::BadValue { field }),
        },
    }
}

/// A number from the least to the most, or what stands for it where it is absent. It is refused with
/// `BadValue` where the value is no integer or lies outside.
pub fn defaulted_number(
    table: &Table,
    field: Field,
    least: u32,
    most: u32,
    default: u32,
) -> Result<u32, ConfigFault>
    ensures { Gives (λ number. number) result
        (optional (is_natural least most) field (table_view table.now))
        (unwrap_or (natural_in field (table_view table.now)) default) }
{
    match value_at(table, field) {
        None => Ok(default),
        Some(value) => match number_within(value, least, most) {
            Some(number) => Ok(number),
            None => Err(ConfigFault::BadValue { field }),
        },
    }
}

/// A number from the least to the most that needn't be there. It is refused with `BadValue` where the
/// value is no integer or lies outside.
pub fn optional_number(
    table: &Table,
    field: Field,
    least: u32,
    most: u32,
) -> Result<Option<u32>, ConfigFault>
    ensures { Gives (λ number. number) result
        (optional (is_natural least most) field (table_view table.now))
        (natural_in field (table_view table.now)) }
{
    match value_at(table, field) {
        None => Ok(None),
        Some(value) => match number_within(value, least, most) {
            Some(number) => Ok(Some(number)),
            None => Err(ConfigFault::BadValue { field }),
        },
    }
}

// A number from the least to the most.
fn number_within(value: &Value, least: u32, most: u32) -> Option<u32>
    ensures fits { is_some result ≡ is_natural least most (view value.now) }
    ensures is { IfSome result (λ number. natural (view value.now) ≡ Some number) }
    ensures within { IfSome result (λ number. number ≤ most) }
{
    match natural(value) {
        Some(number) if u64::from(least) <= number && number <= u64::from(most) => {
            Some(number as u32)
        }
        _ => None,
    }
}

// A number that isn't negative.
fn natural(value: &Value) -> Option<u64>
    ensures { result ≡ natural (view value.now) }
{
    match value.as_integer() {
        Some(number) if number >= 0 => Some(number as u64),
        _ => None,
    }
}

/// An amount from 0 to the most, or what stands for it where it is absent. It is refused with
/// `BadValue` where the value is no integer or lies outside.
pub fn defaulted_amount(
    table: &Table,
    field: Field,
    most: u64,
    default: u64,
) -> Result<u64, ConfigFault>
    ensures { Gives (λ amount. amount) result
        (optional (is_natural 0 most) field (table_view table.now))
        (unwrap_or (natural_in field (table_view table.now)) default) }
{
    match value_at(table, field) {
        None => Ok(default),
        Some(value) => match natural(value) {
            Some(amount) if amount <= most => Ok(amount),
            _ => Err(ConfigFault::BadValue { field }),
        },
    }
}

/// An amount from the least to the most, which needn't be there. It is refused with `BadValue` where
/// the value is no integer or lies outside.
pub fn optional_amount(
    table: &Table,
    field: Field,
    least: u64,
    most: u64,
) -> Result<Option<u64>, ConfigFault>
    ensures { Gives (λ amount. amount) result
        (optional (is_natural least most) field (table_view table.now))
        (natural_in field (table_view table.now)) }
{
    match value_at(table, field) {
        None => Ok(None),
        Some(value) => match natural(value) {
            Some(amount) if least <= amount && amount <= most => Ok(Some(amount)),
            _ => Err(ConfigFault::BadValue { field }),
        },
    }
}

/// An integer that has to be there.
///
/// It is refused with `Missing` where the field is absent, and with `BadValue` where its value is no
/// integer.
pub fn required_integer(table: &Table, field: Field) -> Result<i64, ConfigFault>
    ensures { Gives (λ number. number) result
        (required is_integer field (table_view table.now))
        (integer_of field (table_view table.now)) }
{
    match value_at(table, field) {
        None => Err(ConfigFault::Missing { field }),
        Some(value) => match value.as_integer() {
            Some(integer) => Ok(integer),
            None => Err(ConfigFault::BadValue { field }),
        },
    }
}

/// An integer that needn't be there. It is refused with `BadValue` where the value is no integer.
pub fn optional_integer(table: &Table, field: Field) -> Result<Option<i64>, ConfigFault>
    ensures { Gives (λ number. number) result
        (optional is_integer field (table_view table.now))
        (integer_in field (table_view table.now)) }
{
    match value_at(table, field) {
        None => Ok(None),
        Some(value) => match value.as_integer() {
            Some(number) => Ok(Some(number)),
            None => Err(ConfigFault::BadValue { field }),
        },
    }
}

/// The elements of an array of tables, at most so many; none where it is absent. It is refused with
/// `BadValue` where the value is no array, has an element that is no table, or has too many.
#[tactic(auto, using(crate::proofs::Elements::elements_seen, crate::proofs::Elements::length_seen))]
pub fn tables_at<'a>(
    table: &'a Table,
    field: Field,
    most: usize,
) -> Result<&'a [Value], ConfigFault>
    ensures gives { Gives (λ values. map view values.now) result
        (optional (are_tables most) field (table_view table.now))
        (elements_of field (table_view table.now)) }
    ensures few { IfOk result (λ values. length values.now ≤ most) }
{
    match value_at(table, field) {
        None => Ok(&[]),
        Some(value) => match value.as_array() {
            Some(values) if values.len() <= most && are_all_tables(values) => Ok(values.as_slice()),
            _ => Err(ConfigFault::BadValue { field }),
        },
    }
}

// Whether each value is a table.
fn are_all_tables(values: &[Value]) -> bool
    ensures { result ≡ list_all is_table (map view values.now) }
{
    for value in values {
        if !value.is_table() {
            return false;
        }
    }
    true
}
