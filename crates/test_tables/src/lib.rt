//! Tests of the tables beside a journal: rows computed from their rules, denied growths, and long
//! runs beside plain lists.
//!
//! Some thousand steps and some hundred keys stand beside plain lists that are searched whole.
//! `holds` and `keys` deny each growth of `HoldTable::reserve` and `KeyTable::keep`; a new table
//! takes no memory.
#![tactic(auto)]

#[cfg(test)]
mod tests;
