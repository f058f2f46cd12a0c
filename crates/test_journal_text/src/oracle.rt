//! Which line of a text is its first bad one, by the rules of the text and with no call of the reader.
//! Alice and bob are the peers.

const MOST_32: &str = "4294967295";

const MOST_63: &str = "9223372036854775807";

const MOST_64: &str = "18446744073709551615";

const MOST_128: &str = "340282366920938463463374607431768211455";

/// The number of the first bad line of a text, and `None` where it stands for a journal.
pub(crate) fn first_bad_line(text: &[u8]) -> Option<usize> {
    let ended = text.iter().filter(|octet| **octet == b'\n').count();
    let mut entries = 0;
    let mut at_end = false;
    for (place, line) in text.split(|octet| *octet == b'\n').enumerate() {
        if at_end && place == ended && line.is_empty() {
            return None;
        }
        if at_end || place >= ended {
            return Some(place + 1);
        }
        if place == 0 {
            if line != b"ilp-journal 1".as_slice() {
                return Some(1);
            }
        } else if is_end(line, entries) {
            at_end = true;
        } else if is_entry(line) {
            entries = entries.saturating_add(1);
        } else {
            return Some(place + 1);
        }
    }
    Some(1)
}

// Whether a line counts so many entries.
fn is_end(line: &[u8], entries: u32) -> bool {
    let Some(digits) = line.strip_prefix(b"end ") else {
        return false;
    };
    let mut value: u64 = 0;
    for digit in digits {
        value = value
            .saturating_mul(10)
            .saturating_add(u64::from(*digit).saturating_sub(48));
    }
    is_number(digits, MOST_32) && value == u64::from(entries)
}

// Whether a line is that of an entry.
fn is_entry(line: &[u8]) -> bool {
    let Some((moment, rest)) = cut(line) else {
        return false;
    };
    let Some((actor, told)) = cut(rest) else {
        return false;
    };
    is_number(moment, MOST_63) && is_number(actor, MOST_32) && is_told(told)
}

// What stands before the first space, and what stands behind it.
fn cut(text: &[u8]) -> Option<(&[u8], &[u8])> {
    let place = text.iter().position(|octet| *octet == b' ')?;
    Some((&text[..place], &text[place + 1..]))
}

// Whether this says what happened.
fn is_told(text: &[u8]) -> bool {
    match cut(text) {
        Some((b"hold", told)) => is_hold(told),
        Some((b"fulfilled", told)) => match cut(told) {
            Some((hold, preimage)) => is_number(hold, MOST_32) && is_hex(preimage, 64, 64),
            None => false,
        },
        Some((b"released", told)) => match cut(told) {
            Some((hold, cause)) => is_number(hold, MOST_32) && is_cause(cause),
            None => false,
        },
        Some((b"credited", told)) => is_credited(told),
        Some((b"asked", told)) => match cut(told) {
            Some((peer, amount)) => is_peer(peer) && is_number(amount, MOST_64),
            None => false,
        },
        Some((b"confirmed", ask)) => is_number(ask, MOST_32),
        Some((b"undone", ask)) => is_number(ask, MOST_32),
        _ => false,
    }
}

fn is_hold(told: &[u8]) -> bool {
    let Some((from, rest)) = cut(told) else {
        return false;
    };
    let Some((to, rest)) = cut(rest) else {
        return false;
    };
    let Some((amount, rest)) = cut(rest) else {
        return false;
    };
    let Some((fee, rest)) = cut(rest) else {
        return false;
    };
    let Some((out, rest)) = cut(rest) else {
        return false;
    };
    let Some((deadline, condition)) = cut(rest) else {
        return false;
    };
    let are_peers = is_peer(from) && is_peer(to);
    let are_amounts = is_number(amount, MOST_64) && is_number(fee, MOST_64);
    are_peers
        && are_amounts
        && is_number(out, MOST_64)
        && is_number(deadline, MOST_63)
        && is_hex(condition, 64, 64)
}

fn is_credited(told: &[u8]) -> bool {
    let Some((peer, rest)) = cut(told) else {
        return false;
    };
    let Some((key, rest)) = cut(rest) else {
        return false;
    };
    let Some((named, rest)) = cut(rest) else {
        return false;
    };
    let Some((scale, credited)) = cut(rest) else {
        return false;
    };
    is_peer(peer)
        && is_hex(key, 2, 256)
        && is_number(named, MOST_128)
        && is_number(scale, "255")
        && is_number(credited, MOST_64)
}

fn is_cause(text: &[u8]) -> bool {
    match text {
        b"Late" | b"WrongPreimage" | b"NoReply" | b"Restart" => true,
        _ => match cut(text) {
            Some((b"Peer", code)) => is_hex(code, 6, 6),
            _ => false,
        },
    }
}

fn is_peer(text: &[u8]) -> bool {
    text == b"alice".as_slice() || text == b"bob".as_slice()
}

// Whether a text is a decimal number up to the greatest, with no leading zero.
fn is_number(text: &[u8], most: &str) -> bool {
    let are_digits = text.iter().all(|octet| octet.is_ascii_digit());
    let is_shortest = match text {
        [] => false,
        [b'0', _, ..] => false,
        _ => true,
    };
    let most = most.as_bytes();
    let fits = text.len() < most.len() || text.len() == most.len() && text <= most;
    are_digits && is_shortest && fits
}

// Whether a text has so many hexadecimal digits, in small letters.
fn is_hex(text: &[u8], least: usize, most: usize) -> bool {
    let are_digits = text
        .iter()
        .all(|octet| matches!(*octet, b'0'..=b'9' | b'a'..=b'f'));
    let fits = least <= text.len() && text.len() <= most;
    are_digits && fits && text.len() % 2 == 0
}
