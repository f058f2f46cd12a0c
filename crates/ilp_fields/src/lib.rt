//! The fields of a configuration: how the texts, numbers and assets that stand in a table of TOML
//! are read, and what each refusal says.
//!
//! # What is proved
//!
//! - Each reader answers the value just where the field has its form and range, else `Missing` or
//!   `BadValue` with the field, and never `Memory`.
//! - `Field::key` is the table of keys; `Form::admits` says whether a text has a form.
#![tactic(auto)]

mod fault;
mod fields;
mod form;
mod named;

pub use fault::{ConfigFault, Field};
pub use fields::{
    defaulted_amount, defaulted_number, defaulted_text, optional_amount, optional_integer,
    optional_number, optional_text, required_asset, required_integer, required_number,
    required_text, tables_at,
};
pub use form::Form;
