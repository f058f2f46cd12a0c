//! Which line of a text is its first bad one, by the rules of both forms and with no call of the reader.
//! Alice and bob are the peers. No text here has a hold.

const MOST_32: &str = "4294967295";

const MOST_63: &str = "9223372036854775807";

// The least balance, without its sign.
const LEAST_64: &str = "9223372036854775808";

const MOST_64: &str = "18446744073709551615";

const MOST_128: &str = "340282366920938463463374607431768211455";

/// The number of the first bad line of a text, and `None` where it stands for the journal of a period.
pub(crate) fn first_bad_line(text: &[u8]) -> Option<usize> {
    let ended = text.iter().filter(|octet| **octet == b'\n').count();
    let mut entries = 0;
    let mut form = None;
    let mut at_end = false;
    for (place, line) in text.split(|octet| *octet == b'\n').enumerate() {
        if at_end && place == ended && line.is_empty() {
            return None;
        }
        if at_end || place >= ended {
            return Some(place + 1);
        }
        match form {
            None => form = form_of(line),
            Some(_) if is_end(line, entries) => at_end = true,
            Some(form) if is_entry(form, line) => entries = entries.saturating_add(1),
            Some(_) => return Some(place + 1),
        }
        if form.is_none() {
            return Some(1);
        }
    }
    Some(1)
}

// The forms of a text.
#[derive(Clone, Copy, PartialEq, Eq)]
enum Form {
    // Of the first period.
    First,
    // Of a period above 0.
    Later,
}

// The form that a first line names.
fn form_of(line: &[u8]) -> Option<Form> {
    if line == b"ilp-journal 1".as_slice() {
        return Some(Form::First);
    }
    let period = line.strip_prefix(b"ilp-journal 2 ")?;
    if is_number(period, MOST_32) && period != b"0".as_slice() {
        return Some(Form::Later);
    }
    None
}

// Whether a line counts so many entries.
fn is_end(line: &[u8], entries: u32) -> bool {
    let Some(digits) = line.strip_prefix(b"end ") else {
        return false;
    };
    let mut value: u64 = 0;
    for digit in digits {
        value = value
            .saturating_mul(10)
            .saturating_add(u64::from(*digit).saturating_sub(48));
    }
    is_number(digits, MOST_32) && value == u64::from(entries)
}

// Whether a line is that of an entry.
fn is_entry(form: Form, line: &[u8]) -> bool {
    let Some((moment, rest)) = cut(line) else {
        return false;
    };
    let Some((actor, told)) = cut(rest) else {
        return false;
    };
    let is_begun = is_number(moment, MOST_63) && is_number(actor, MOST_32);
    is_begun && (is_booked(told) || form == Form::Later && is_brought(told))
}

// What stands before the first space, and what stands behind it.
fn cut(text: &[u8]) -> Option<(&[u8], &[u8])> {
    let place = text.iter().position(|octet| *octet == b' ')?;
    Some((&text[..place], &text[place + 1..]))
}

// Whether this says what a period books.
fn is_booked(text: &[u8]) -> bool {
    match cut(text) {
        Some((b"credited", told)) => is_credit(told),
        Some((b"asked", told)) => match cut(told) {
            Some((peer, amount)) => is_peer(peer) && is_number(amount, MOST_64),
            None => false,
        },
        Some((b"confirmed", ask)) => is_number(ask, MOST_32),
        Some((b"undone", ask)) => is_number(ask, MOST_32),
        _ => false,
    }
}

// Whether this says what an earlier period brings forward.
fn is_brought(text: &[u8]) -> bool {
    match cut(text) {
        Some((b"opened", told)) => match cut(told) {
            Some((peer, balance)) => is_peer(peer) && is_balance(balance),
            None => false,
        },
        Some((b"known", told)) => is_credit(told),
        Some((b"pending", told)) => is_pending(told),
        _ => false,
    }
}

fn is_credit(told: &[u8]) -> bool {
    let Some((peer, rest)) = cut(told) else {
        return false;
    };
    let Some((key, rest)) = cut(rest) else {
        return false;
    };
    let Some((named, rest)) = cut(rest) else {
        return false;
    };
    let Some((scale, credited)) = cut(rest) else {
        return false;
    };
    is_peer(peer)
        && is_key(key)
        && is_number(named, MOST_128)
        && is_number(scale, "255")
        && is_number(credited, MOST_64)
}

fn is_pending(told: &[u8]) -> bool {
    let Some((peer, rest)) = cut(told) else {
        return false;
    };
    let Some((amount, key)) = cut(rest) else {
        return false;
    };
    is_peer(peer) && is_number(amount, MOST_64) && is_key(key)
}

fn is_peer(text: &[u8]) -> bool {
    text == b"alice".as_slice() || text == b"bob".as_slice()
}

// Whether a text is a number of 64 bits with its sign: a `-` before one that isn't 0, and no `+`.
fn is_balance(text: &[u8]) -> bool {
    match text.strip_prefix(b"-") {
        Some(lowered) => is_number(lowered, LEAST_64) && lowered != b"0".as_slice(),
        None => is_number(text, MOST_63),
    }
}

// Whether a text is a decimal number up to the greatest, with no leading zero.
fn is_number(text: &[u8], most: &str) -> bool {
    let are_digits = text.iter().all(|octet| octet.is_ascii_digit());
    let is_shortest = match text {
        [] => false,
        [b'0', _, ..] => false,
        _ => true,
    };
    let most = most.as_bytes();
    let fits = text.len() < most.len() || text.len() == most.len() && text <= most;
    are_digits && is_shortest && fits
}

// Whether a text has the hexadecimal digits, in small letters, of 1 to 128 octets.
fn is_key(text: &[u8]) -> bool {
    let are_digits = text
        .iter()
        .all(|octet| matches!(*octet, b'0'..=b'9' | b'a'..=b'f'));
    let fits = 2 <= text.len() && text.len() <= 256;
    are_digits && fits && text.len() % 2 == 0
}
