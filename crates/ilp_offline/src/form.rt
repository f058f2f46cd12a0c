//! What a line of a script asks for.
ghost use Rattle.std.specs.Prelude.{◌≡◌, ◌<◌, ◌≤◌, ◌^◌, ◌∷◌, length, IfSome, option_map};
ghost use Rattle.std.specs.Char.{is_ascii_digit};
ghost use Rattle.std.specs.List.{list_all, slice_split};
ghost use Rattle.ilp_accounts.specs.Configuration.{peer_names, place_named};
ghost use Rattle.ilp_offline.specs.Script as script;
ghost use Rattle.ilp_offline.specs.Script.{moment_digits, form_of, form_of_fields, fields_of, is_space, number_in};
ghost use Rattle.ilp_offline.specs.Seen.{form_seen, IsOfPeers, fields_after, field_list};

use crate::lines::first_place;
use ilp_accounts::Config;
use ilp_described::is_printable;
use ilp_journal::Key;
use ilp_settlement::EngineVerdict;
use std::str;

/// The most digits of a moment.
pub(crate) const MOMENT_DIGITS: usize = 15;

/// The most digits of an entry's number.
pub(crate) const ENTRY_DIGITS: usize = 9;

/// What a line asks for. Packets are hexadecimal text, which is decoded later, and quantities are
/// JSON, which is read later.
#[derive(Clone, Copy)]
pub(crate) enum Form<'a> {
    Hold {
        now: i64,
        peer: u32,
        packet: &'a [u8],
    },
    Answer {
        now: i64,
        number: u32,
        packet: Option<&'a [u8]>,
    },
    Expire {
        now: i64,
    },
    Credit {
        now: i64,
        peer: u32,
        key: &'a [u8],
        json: &'a [u8],
    },
    Ask {
        now: i64,
        peer: u32,
    },
    Close {
        now: i64,
        number: u32,
        verdict: EngineVerdict,
    },
    Report,
    Silent,
    Bad,
}

/// The fields of a line, of which the fifth is the rest of the line.
#[derive(Clone, Copy)]
pub(crate) enum Fields<'a> {
    One(&'a [u8]),
    Two(&'a [u8], &'a [u8]),
    Three(&'a [u8], &'a [u8], &'a [u8]),
    Four(&'a [u8], &'a [u8], &'a [u8], &'a [u8]),
    Five(&'a [u8], &'a [u8], &'a [u8], &'a [u8], &'a [u8]),
}

impl<'a> Fields<'a> {
    /// The first field.
    pub(crate) fn first(self) -> &'a [u8] {
        match self {
            Fields::One(first)
            | Fields::Two(first, _)
            | Fields::Three(first, _, _)
            | Fields::Four(first, _, _, _)
            | Fields::Five(first, _, _, _, _) => first,
        }
    }
}

/// What a line asks for.
pub(crate) fn parse<'a>(config: &Config, line: &'a [u8]) -> Form<'a>
    ensures form { form_seen result ≡ form_of (peer_names config.now.peers) line.now }
    ensures known { IsOfPeers (length config.now.peers) result }
{
    match line {
        [] | [b'#', ..] => Form::Silent,
        _ => {
            if is_printable(line) {
                form_of_fields(config, line)
            } else {
                Form::Bad
            }
        }
    }
}

// What the fields of a line ask for.
fn form_of_fields<'a>(config: &Config, line: &'a [u8]) -> Form<'a>
    ensures form { form_seen result
        ≡ form_of_fields (peer_names config.now.peers) (fields_of line.now) }
    ensures known { IsOfPeers (length config.now.peers) result }
{
    match split_fields(line) {
        Fields::One(word) if word == b"report".as_slice() => Form::Report,
        Fields::Two(word, now) if word == b"expire".as_slice() => expire_form(now),
        Fields::Three(word, now, peer) if word == b"ask".as_slice() => ask_form(config, now, peer),
        Fields::Four(word, now, peer, packet) if word == b"hold".as_slice() => {
            hold_form(config, now, peer, packet)
        }
        Fields::Four(word, now, number, packet) if word == b"answer".as_slice() => {
            answer_form(now, number, packet)
        }
        Fields::Four(word, now, number, verdict) if word == b"close".as_slice() => {
            close_form(now, number, verdict)
        }
        Fields::Five(word, now, peer, key, json) if word == b"credit".as_slice() => {
            credit_form(config, now, peer, key, json)
        }
        _ => Form::Bad,
    }
}

// A Prepare of a peer.
fn hold_form<'a>(config: &Config, now: &[u8], peer: &[u8], packet: &'a [u8]) -> Form<'a>
    ensures form { form_seen result ≡ script.hold_form (script.moment_in now.now)
        (place_named (peer_names config.now.peers) peer.now) packet.now }
    ensures known { IsOfPeers (length config.now.peers) result }
{
    let Some(now) = number_in(now, MOMENT_DIGITS) else {
        return Form::Bad;
    };
    let Some(peer) = peer_named(config, peer) else {
        return Form::Bad;
    };
    if packet.is_empty() {
        return Form::Bad;
    }
    Form::Hold {
        now: now as i64,
        peer,
        packet,
    }
}

// The peer of a name.
fn peer_named(config: &Config, name: &[u8]) -> Option<u32>
    ensures place { result ≡ place_named (peer_names config.now.peers) name.now }
    ensures known { IfSome result (λ peer. peer < length config.now.peers) }
{
    config.peer_by_name(name)
}

// The release of a hold whose deadline has come.
fn expire_form<'a>(now: &[u8]) -> Form<'a>
    ensures { form_seen result ≡ script.expire_form (script.moment_in now.now) }
{
    match number_in(now, MOMENT_DIGITS) {
        Some(now) => Form::Expire { now: now as i64 },
        None => Form::Bad,
    }
}

// What came back for a hold.
fn answer_form<'a>(now: &[u8], number: &[u8], packet: &'a [u8]) -> Form<'a>
    ensures { form_seen result ≡ script.answer_form (script.moment_in now.now)
        (script.entry_in number.now) packet.now }
{
    let Some(now) = number_in(now, MOMENT_DIGITS) else {
        return Form::Bad;
    };
    let Some(number) = number_in(number, ENTRY_DIGITS) else {
        return Form::Bad;
    };
    if packet.is_empty() {
        return Form::Bad;
    }
    let packet = if packet == b"none".as_slice() {
        None
    } else {
        Some(packet)
    };
    Form::Answer {
        now: now as i64,
        number: number as u32,
        packet,
    }
}

// A settlement from a peer.
fn credit_form<'a>(
    config: &Config,
    now: &[u8],
    peer: &[u8],
    key: &'a [u8],
    json: &'a [u8],
) -> Form<'a>
    ensures form { form_seen result ≡ script.credit_form (script.moment_in now.now)
        (place_named (peer_names config.now.peers) peer.now) (script.key_in key.now) json.now }
    ensures known { IsOfPeers (length config.now.peers) result }
{
    let Some(now) = number_in(now, MOMENT_DIGITS) else {
        return Form::Bad;
    };
    let Some(peer) = peer_named(config, peer) else {
        return Form::Bad;
    };
    if !Key::is_key(key) {
        return Form::Bad;
    }
    Form::Credit {
        now: now as i64,
        peer,
        key,
        json,
    }
}

// A settlement to a peer.
fn ask_form<'a>(config: &Config, now: &[u8], peer: &[u8]) -> Form<'a>
    ensures form { form_seen result ≡ script.ask_form (script.moment_in now.now)
        (place_named (peer_names config.now.peers) peer.now) }
    ensures known { IsOfPeers (length config.now.peers) result }
{
    let Some(now) = number_in(now, MOMENT_DIGITS) else {
        return Form::Bad;
    };
    match peer_named(config, peer) {
        Some(peer) => Form::Ask {
            now: now as i64,
            peer,
        },
        None => Form::Bad,
    }
}

// What became of a settlement.
fn close_form<'a>(now: &[u8], number: &[u8], verdict: &[u8]) -> Form<'a>
    ensures { form_seen result ≡ script.close_form (script.moment_in now.now)
        (script.entry_in number.now) (script.verdict_in verdict.now) }
{
    let Some(now) = number_in(now, MOMENT_DIGITS) else {
        return Form::Bad;
    };
    let Some(number) = number_in(number, ENTRY_DIGITS) else {
        return Form::Bad;
    };
    match verdict_in(verdict) {
        Some(verdict) => Form::Close {
            now: now as i64,
            number: number as u32,
            verdict,
        },
        None => Form::Bad,
    }
}

// What an engine says of a settlement.
fn verdict_in(text: &[u8]) -> Option<EngineVerdict>
    ensures { result ≡ script.verdict_in text.now }
{
    if text == b"yes".as_slice() {
        Some(EngineVerdict::Accepted)
    } else if text == b"no".as_slice() {
        Some(EngineVerdict::Refused)
    } else {
        None
    }
}

/// Cuts a line at its first four spaces.
pub(crate) fn split_fields(line: &[u8]) -> Fields<'_>
    ensures { field_list (fields_of line.now) result }
{
    let (first, rest) = cut(line);
    let Some(rest) = rest else {
        return Fields::One(first);
    };
    let (second, rest) = cut(rest);
    let Some(rest) = rest else {
        return Fields::Two(first, second);
    };
    let (third, rest) = cut(rest);
    let Some(rest) = rest else {
        return Fields::Three(first, second, third);
    };
    let (fourth, rest) = cut(rest);
    match rest {
        None => Fields::Four(first, second, third, fourth),
        Some(rest) => Fields::Five(first, second, third, fourth, rest),
    }
}

// What stands before the first space, and what follows it.
fn cut(text: &[u8]) -> (&[u8], Option<&[u8]>)
    ensures { slice_split is_space text.now ≡ result.0.now ∷ fields_after result.1 }
{
    match first_place(text, b' ') {
        Some(end) => (&text[..end], Some(&text[end + 1..])),
        None => (text, None),
    }
}

/// The number that a text of at most so many decimal digits writes.
pub(crate) fn number_in(text: &[u8], most: usize) -> Option<u64>
    requires { most ≤ moment_digits }
    ensures value { result ≡ number_in most text.now }
    ensures bound { IfSome result (λ number. number < 10 ^ most) }
{
    if text.is_empty() || text.len() > most || !is_all_digits(text) {
        return None;
    }
    let Ok(text) = str::from_utf8(text) else {
        return None;
    };
    text.parse().ok()
}

// Whether each octet is a decimal digit.
fn is_all_digits(text: &[u8]) -> bool
    ensures { result ≡ list_all is_ascii_digit text.now }
{
    text.iter().all(|octet| octet.is_ascii_digit())
}
