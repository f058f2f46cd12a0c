//! What happens in a scene, step by step.

use crate::row::{octets_of, said};
use ilp_server::Side;
use std::alloc::Global;
use std::io;

/// What happens next.
#[derive(Clone, Copy)]
pub(crate) enum Step<'a> {
    /// A connection comes in.
    Connection(Connection<'a>),
    /// The settler has a turn for a peer.
    Turn { peer: u32 },
}

/// What comes in over a connection, and how far it goes.
#[derive(Clone, Copy)]
pub(crate) struct Connection<'a> {
    pub(crate) side: Side,
    // The lines of the head, then an empty one, then the body.
    lines: &'a str,
    /// How many octets come before the read that fails.
    pub(crate) fails_after: Option<usize>,
    /// How many octets can be written.
    pub(crate) room: usize,
}

impl<'a> Step<'a> {
    /// The step that stands in these lines: `ilp`, `engine` or `turn`, and what belongs to it.
    pub(crate) fn of(text: &'a str) -> Option<Step<'a>> {
        let (first, lines) = text.split_once('\n')?;
        let (word, more) = first.split_once(' ').unwrap_or((first, ""));
        match word {
            "ilp" => Some(Step::Connection(Connection::of(Side::Ilp, lines, more))),
            "engine" => Some(Step::Connection(Connection::of(Side::Engine, lines, more))),
            "turn" => Some(Step::Turn {
                peer: more.parse::<u32>().ok()?,
            }),
            _ => None,
        }
    }
}

impl<'a> Connection<'a> {
    // A connection that is whole, unless it says `failing N` or `narrow N`.
    fn of(side: Side, lines: &'a str, more: &str) -> Connection<'a> {
        Connection {
            side,
            lines,
            fails_after: number_behind(more, "failing "),
            room: number_behind(more, "narrow ").unwrap_or(usize::MAX),
        }
    }

    /// The octets that come in. Lines of the head end in CR LF; the body stands behind `text`, or in
    /// hexadecimal digits behind `hex`.
    pub(crate) fn octets(&self, alloc: Global) -> io::Result<Vec<u8>> {
        let (head, body) = self.lines.split_once("\n\n").unwrap_or((self.lines, ""));
        let mut octets = octets_of(alloc, "")?;
        for line in head.lines() {
            octets.extend_from_slice(line.as_bytes())?;
            octets.extend_from_slice(b"\r\n")?;
        }
        octets.extend_from_slice(b"\r\n")?;
        octets.extend_from_slice(said(body, "text").unwrap_or("").as_bytes())?;
        let body = octets_of(alloc, said(body, "hex").unwrap_or(""))?;
        octets.extend_from_slice(&body)?;
        Ok(octets)
    }
}

fn number_behind(text: &str, word: &str) -> Option<usize> {
    text.strip_prefix(word)?.parse::<usize>().ok()
}
