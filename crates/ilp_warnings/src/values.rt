//! What stands in a table of TOML.
ghost use Rattle.std.specs.Prelude.{◌≡◌, map, option_map};
ghost use Rattle.toml.specs.View.{view, table_view};
ghost use Rattle.ilp_fields.specs.Fields.{at, text_of, elements_of};

use ilp_accounts::Field;
use toml::{Table, Value};

// What stands under a field's key.
fn value_at<'a>(table: &'a Table, field: Field) -> Option<&'a Value>
    ensures { option_map (λ value. view value.now) result ≡ at field (table_view table.now) }
{
    table.get(field.key())
}

/// The text of a field, and an empty one where there is none.
pub(crate) fn text_of(table: &Table, field: Field) -> &str
    ensures { result.now ≡ text_of field (table_view table.now) }
{
    match value_at(table, field) {
        None => "",
        Some(value) => match value.as_str() {
            None => "",
            Some(text) => text,
        },
    }
}

/// The elements of an array, and none where there is no array.
#[tactic(auto, using(ilp_fields::proofs::Elements::elements_seen))]
pub(crate) fn tables_in(table: &Table, field: Field) -> &[Value]
    ensures { map view result.now ≡ elements_of field (table_view table.now) }
{
    match value_at(table, field) {
        None => &[],
        Some(value) => match value.as_array() {
            None => &[],
            Some(values) => values.as_slice(),
        },
    }
}
