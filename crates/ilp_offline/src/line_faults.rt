//! What is wrong with the lines of a script that are bad, for a person.
ghost use Rattle.std.specs.Prelude.{◌≡◌, is_some, IfOk};
ghost use Rattle.ilp_accounts.specs.Configuration.{peer_names};
ghost use Rattle.ilp_offline.specs.BadLines.{is_bad, bad_numbers, numbers};
ghost use Rattle.ilp_offline.specs.Script.{lines_of};

use crate::form::{ENTRY_DIGITS, Fields, Form, MOMENT_DIGITS, number_in, parse, split_fields};
use crate::lines::split_line;
use ilp_accounts::Config;
use ilp_described::{decode, is_printable};
use std::alloc::{AllocError, Allocator};
use std::fmt;

/// What a line of a script may ask for.
#[derive(Clone, Copy, Debug)]
pub enum Command {
    Hold,
    Answer,
    Expire,
    Credit,
    Ask,
    Close,
    Report,
}

impl Command {
    // The command of a line's first field.
    fn named(word: &[u8]) -> Option<Command> {
        match word {
            b"hold" => Some(Command::Hold),
            b"answer" => Some(Command::Answer),
            b"expire" => Some(Command::Expire),
            b"credit" => Some(Command::Credit),
            b"ask" => Some(Command::Ask),
            b"close" => Some(Command::Close),
            b"report" => Some(Command::Report),
            _ => None,
        }
    }
}

/// Its whole line.
impl fmt::Display for Command {
    fn fmt<W: fmt::Write>(&self, f: &mut fmt::Formatter<W>) -> fmt::Result {
        f.write_str(match self {
            Command::Hold => "hold AT PEER HEX",
            Command::Answer => "answer AT N HEX",
            Command::Expire => "expire AT",
            Command::Credit => "credit AT PEER KEY JSON",
            Command::Ask => "ask AT PEER",
            Command::Close => "close AT N yes",
            Command::Report => "report",
        })
    }
}

/// A field of a line, by its name in the line's form.
#[derive(Clone, Copy, Debug)]
pub enum Part {
    At,
    Peer,
    Number,
    Hex,
    Key,
    Verdict,
}

/// What it is to be.
impl fmt::Display for Part {
    fn fmt<W: fmt::Write>(&self, f: &mut fmt::Formatter<W>) -> fmt::Result {
        f.write_str(match self {
            Part::At => "AT is to be 1 to 15 digits",
            Part::Peer => "PEER is to be the name of a peer",
            Part::Number => "N is to be 1 to 9 digits",
            Part::Hex => "HEX is to be an even number, above 0, of hexadecimal digits",
            Part::Key => "KEY is to be 1 to 128 octets",
            Part::Verdict => "the last field is to be yes or no",
        })
    }
}

/// Why a line is bad.
#[derive(Clone, Copy, Debug)]
pub enum LineFault {
    /// It has an octet that is neither a space nor visible ASCII, as a tab or a CR is.
    Unprintable,
    /// Its first field is no command.
    NoCommand,
    /// It has fewer fields than its command, or more.
    Fields(Command),
    /// This field of it is wrong, and no field before it.
    Part(Command, Part),
}

/// What is wrong, without an octet of the line.
impl fmt::Display for LineFault {
    fn fmt<W: fmt::Write>(&self, f: &mut fmt::Formatter<W>) -> fmt::Result {
        match self {
            LineFault::Unprintable => {
                f.write_str("an octet is neither a space nor visible ASCII, as a tab or a CR")
            }
            LineFault::NoCommand => f.write_str(
                "it begins with none of `hold`, `answer`, `expire`, `credit`, `ask`, `close` and `report`",
            ),
            LineFault::Fields(command) => {
                write!(f, "it is to be `{command}`, with one space between fields")
            }
            LineFault::Part(command, part) => write!(f, "in `{command}`, {part}"),
        }
    }
}

/// A line of a script that is bad.
#[derive(Clone, Copy, Debug)]
pub struct BadLine {
    /// Its number, counted from 1.
    pub number: u64,
    /// Why it is bad.
    pub fault: LineFault,
}

/// `line NUMBER: FAULT`
impl fmt::Display for BadLine {
    fn fmt<W: fmt::Write>(&self, f: &mut fmt::Formatter<W>) -> fmt::Result {
        let BadLine { number, fault } = *self;
        write!(f, "line {number}: {fault}")
    }
}

/// The lines of a script that print `bad line` over this configuration, in order, and why each does.
/// `AllocError` tells that memory is short.
pub fn bad_lines<A: Allocator + Copy>(
    alloc: A,
    config: &Config,
    script: &[u8],
) -> Result<Vec<BadLine, A>, AllocError>
    ensures { IfOk result (λ found. numbers found.items
        ≡ bad_numbers (peer_names config.now.peers) 1 (lines_of script.now)) }
{
    let mut found = Vec::new(alloc);
    let mut number = 1;
    let mut rest = script;
    while !rest.is_empty() {
        let (line, more) = split_line(rest);
        if let Some(fault) = line_fault(alloc, config, line)? {
            found.push(BadLine { number, fault })?;
        }
        number += 1;
        rest = more;
    }
    Ok(found)
}

// What is wrong with a line; none where it isn't bad.
fn line_fault<A: Allocator>(
    alloc: A,
    config: &Config,
    line: &[u8],
) -> Result<Option<LineFault>, AllocError>
    ensures { IfOk result (λ fault. is_some fault ≡ is_bad (peer_names config.now.peers) line.now) }
{
    let (command, packet) = match parse(config, line) {
        Form::Bad => return Ok(Some(why_bad(config, line))),
        Form::Hold { packet, .. } => (Command::Hold, packet),
        Form::Answer {
            packet: Some(packet),
            ..
        } => (Command::Answer, packet),
        _ => return Ok(None),
    };
    match decode(alloc, packet)? {
        Some(_) => Ok(None),
        None => Ok(Some(LineFault::Part(command, Part::Hex))),
    }
}

// What is wrong with a line that asks for nothing that there is.
fn why_bad(config: &Config, line: &[u8]) -> LineFault {
    if !is_printable(line) {
        return LineFault::Unprintable;
    }
    let fields = split_fields(line);
    let Some(command) = Command::named(fields.first()) else {
        return LineFault::NoCommand;
    };
    match wrong_part(config, command, fields) {
        Some(part) => LineFault::Part(command, part),
        None => LineFault::Fields(command),
    }
}

// The first wrong field of a bad line; none where it has not the number of fields of its command. Where
// the other fields are right it is the last one that is wrong.
fn wrong_part(config: &Config, command: Command, fields: Fields<'_>) -> Option<Part> {
    match (command, fields) {
        (Command::Expire, Fields::Two(_, _)) => Some(Part::At),
        (Command::Ask, Fields::Three(_, at, _)) => Some(wrong_moment(at).unwrap_or(Part::Peer)),
        (Command::Hold, Fields::Four(_, at, peer, _)) => {
            Some(wrong_sender(config, at, peer).unwrap_or(Part::Hex))
        }
        (Command::Credit, Fields::Five(_, at, peer, _, _)) => {
            Some(wrong_sender(config, at, peer).unwrap_or(Part::Key))
        }
        (Command::Answer, Fields::Four(_, at, number, _)) => {
            Some(wrong_entry(at, number).unwrap_or(Part::Hex))
        }
        (Command::Close, Fields::Four(_, at, number, _)) => {
            Some(wrong_entry(at, number).unwrap_or(Part::Verdict))
        }
        _ => None,
    }
}

// Whether a moment is wrong.
fn wrong_moment(at: &[u8]) -> Option<Part> {
    match number_in(at, MOMENT_DIGITS) {
        Some(_) => None,
        None => Some(Part::At),
    }
}

// Which of a moment and a peer is wrong first.
fn wrong_sender(config: &Config, at: &[u8], peer: &[u8]) -> Option<Part> {
    let known = config.peer_by_name(peer).is_some();
    wrong_moment(at).or(if known { None } else { Some(Part::Peer) })
}

// Which of a moment and an entry's number is wrong first.
fn wrong_entry(at: &[u8], number: &[u8]) -> Option<Part> {
    let is_number = number_in(number, ENTRY_DIGITS).is_some();
    wrong_moment(at).or(if is_number { None } else { Some(Part::Number) })
}
