//! What is told of a journal that goes on behind a sudden stop.

use crate::line::{Level, tell};
use std::fmt;
use std::fmt::Display;
use std::io::Eprint;
use std::time::Clock;

/// What is told of a journal beside which a log lies: the connector before stopped without saving it, or
/// without removing the log then.
#[derive(Clone, Copy, Debug, PartialEq, Eq)]
pub enum RecoveryNote<'n> {
    /// So many entries come from the log.
    Logged {
        entries: u32,
    },
    /// The log is of an older text, and the journal has all that it has.
    OlderLog,
    /// So many holds that went on to this peer were open at the stop, of so many units of the peer's
    /// asset in all.
    OpenHolds {
        peer: &'n str,
        holds: u32,
        out: u128,
    },
}

impl RecoveryNote<'_> {
    fn level(&self) -> Level {
        match self {
            RecoveryNote::OlderLog => Level::Info,
            RecoveryNote::Logged { .. } | RecoveryNote::OpenHolds { .. } => Level::Warn,
        }
    }
}

impl Display for RecoveryNote<'_> {
    fn fmt<W: fmt::Write>(&self, f: &mut fmt::Formatter<W>) -> fmt::Result {
        match self {
            RecoveryNote::Logged { entries } => write!(
                f,
                "a connector stopped without saving it, and {entries} entries come from its log"
            ),
            RecoveryNote::OlderLog => write!(
                f,
                "its log is of an older text, and the journal has all that it has: a start removes it"
            ),
            RecoveryNote::OpenHolds { peer, holds, out } => write!(
                f,
                "{holds} holds that went on to {peer} were open, of {out} in all: what {peer} fulfilled of them it may say that it is owed; the last that was handed on may be missing here"
            ),
        }
    }
}

/// Tells of the journal at this path.
pub fn recovery_note<R: Clock + Eprint>(rt: &R, path: &str, note: RecoveryNote<'_>) {
    tell(rt, note.level(), format_args!("journal {path:?}: {note}"));
}
