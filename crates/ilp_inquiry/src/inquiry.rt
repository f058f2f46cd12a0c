//! What is asked of a peer's account.

use ilp_statement_text::Sought;

/// As what a statement is printed.
#[derive(Clone, Copy, Debug, PartialEq, Eq)]
pub enum Form {
    /// Lines for a person.
    Lines,
    /// Comma-separated values for a spreadsheet.
    Records,
}

/// What is asked of a peer's account.
#[derive(Clone, Copy, Debug)]
pub struct Inquiry<'w> {
    /// The path of the configuration.
    pub config: &'w str,
    /// The path of the journal, or of a period that is kept.
    pub journal: &'w str,
    /// The peer's name.
    pub peer: &'w str,
    /// From when on its entries are listed, a day or a moment in UTC; from the first where it isn't said.
    pub from: Option<&'w str>,
    /// Before when they were booked, likewise; up to the last where it isn't said.
    pub to: Option<&'w str>,
    pub sought: Sought<'w>,
    pub form: Form,
}
