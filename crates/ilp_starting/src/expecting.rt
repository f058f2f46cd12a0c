//! What a journal's text was to have at a line that is bad.

use std::alloc::{AllocError, Global};

// What a line of an entry has behind its moment and its actor, by its first word.
type Form = (&'static str, &'static str);

// Lines of what is booked.
const FORMS: [Form; 8] = [
    ("hold", "hold FROM TO AMOUNT FEE OUT DEADLINE CONDITION"),
    ("fulfilled", "fulfilled HOLD PREIMAGE"),
    ("released", "released HOLD CAUSE"),
    ("credited", "credited PEER KEY AMOUNT SCALE CREDITED"),
    (
        "corrected",
        "corrected PEER KEY AMOUNT SCALE CREDITED WAY REASON",
    ),
    ("asked", "asked PEER AMOUNT"),
    ("confirmed", "confirmed ASK"),
    ("undone", "undone ASK"),
];

// Lines of what is brought forward, which only the text of a period above 0 has.
const HEAD_FORMS: [Form; 3] = [
    ("opened", "opened PEER BALANCE"),
    ("known", "known PEER KEY AMOUNT SCALE CREDITED [WAY REASON]"),
    ("pending", "pending PEER AMOUNT KEY"),
];

// What the text of a period above 0 begins with.
const LATER_FORM: &[u8] = b"ilp-journal 2 ";

/// What was expected at the line of this number, counted from 1, which is bad.
pub(crate) fn expected_at(alloc: Global, text: &[u8], number: u64) -> Result<String, AllocError> {
    let before = number.saturating_sub(1);
    if before == 0 {
        return format!(in alloc;
            "`ilp-journal 1`, or of a period above 0 `ilp-journal 2 PERIOD`, ended by LF"
        );
    }
    // The first line is none of an entry, and neither is the last.
    let entries = before - 1;
    let mut lines = text.split(|octet| *octet == b'\n').skip(entries as usize);
    let behind_last = match lines.next() {
        Some(line) => line.starts_with(b"end "),
        None => false,
    };
    if behind_last {
        return format!(in alloc;
            "nothing behind the last line, `end {}`",
            entries.saturating_sub(1)
        );
    }
    match lines.next() {
        None | Some([]) => format!(in alloc; "an entry, or `end {entries}` as the last line"),
        Some(line) => match form_in(text, line) {
            Some(form) => entry_of(alloc, form),
            None => {
                format!(in alloc; "an entry, or `end {entries}`, ended by LF, as the last line")
            }
        },
    }
}

/// What was expected at the line of this number, counted from 1, of a text that has lines of entries
/// alone.
pub(crate) fn expected_of_entry(
    alloc: Global,
    text: &[u8],
    number: u64,
) -> Result<String, AllocError> {
    let before = number.saturating_sub(1);
    let line = text
        .split(|octet| *octet == b'\n')
        .nth(before as usize)
        .unwrap_or(&[]);
    match form_of(&FORMS, line) {
        Some(form) => entry_of(alloc, form),
        None => format!(in alloc; "an entry, ended by LF"),
    }
}

// An entry of this form.
fn entry_of(alloc: Global, form: &str) -> Result<String, AllocError> {
    format!(in alloc; "`MOMENT ACTOR {form}` with peers of the configuration, ended by LF")
}

// The form of the entry that a line of this journal seems to be meant for.
fn form_in(text: &[u8], line: &[u8]) -> Option<&'static str> {
    match form_of(&FORMS, line) {
        None if text.starts_with(LATER_FORM) => form_of(&HEAD_FORMS, line),
        form => form,
    }
}

// The one of these forms that a line seems to be meant for.
fn form_of(forms: &[Form], line: &[u8]) -> Option<&'static str> {
    let word = line.split(|octet| *octet == b' ').nth(2)?;
    forms
        .iter()
        .find(|(name, _)| name.as_bytes() == word)
        .map(|(_, form)| *form)
}
