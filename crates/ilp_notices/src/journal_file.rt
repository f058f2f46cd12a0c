//! What is told of the file in which a journal is kept.

ghost use Rattle.std.specs.Prelude.{◌<◌, length};

use crate::line::{Level, tell};
use ilp_accounts::{Config, LogSync};
use std::fmt::Display;
use std::io;
use std::io::Eprint;
use std::time::Clock;

/// Who does again what could not be written.
#[derive(Clone, Copy, Debug, PartialEq, Eq)]
pub enum Again {
    /// Whoever gave the command, or starts the connector.
    ByCommand,
    /// The connector, which serves. What it has booked may be in its memory alone.
    ByItself,
}

// What an operator does meanwhile where a connector tries again by itself.
const WAITS: &str =
    "make room for it, and don't kill the connector: it tries again, and what was booked last may be in its memory alone";

/// Tells that no journal is kept, and what that asks of each start.
pub fn no_journal<R: Clock + Eprint>(rt: &R) {
    tell(
        rt,
        Level::Warn,
        "no journal is kept: balances and keys are forgotten at the end, so each start needs a `run` that no earlier one had",
    );
}

/// Tells with how many entries of its journal a connector begins.
pub fn journal_carried<R: Clock + Eprint>(rt: &R, path: &str, entries: u32) {
    let text = format_args!("journal {path:?}: begun with its {entries} entries");
    tell(rt, Level::Info, text);
}

/// Tells that the journal has no file yet, in case that its path is mistaken: what an earlier run of
/// that name booked would be forgotten, while engines know its keys.
pub fn journal_absent<R: Clock + Eprint>(rt: &R, path: &str) {
    let text = format_args!(
        "journal {path:?}: not there yet, so all balances begin at 0: see that this is its path, and that no earlier start had this `run`"
    );
    tell(rt, Level::Warn, text);
}

/// Tells that the journal is saved, with so many entries.
pub fn journal_saved<R: Clock + Eprint>(rt: &R, path: &str, entries: u32) {
    let text = format_args!("journal {path:?}: saved with {entries} entries");
    tell(rt, Level::Info, text);
}

/// Tells that the journal could not be saved, and that it is tried again.
pub fn not_saved_yet<R: Clock + Eprint>(rt: &R, path: &str, error: &io::Error) {
    let text = format_args!(
        "journal {path:?}: can't be saved: {error}: make room for it, it is tried again each second for a minute"
    );
    tell(rt, Level::Warn, text);
}

/// Tells that the journal was not saved, and where a part of it is, and what was booked.
pub fn not_saved<R: Clock + Eprint>(rt: &R, path: &str, new: &str, log: &str, error: &io::Error) {
    let text = format_args!(
        "journal {path:?}: not saved: {error}: it is as at the start, {new:?} has what could be written, and what was booked is in {log:?}, from which the next start goes on: keep all three and the report"
    );
    tell(rt, Level::Error, text);
}

/// Tells that the journal could not be saved before a log begins: a start is refused then, and a connector that
/// serves waits.
pub fn not_saved_at_start<R: Clock + Eprint>(rt: &R, path: &str, again: Again, error: &io::Error) {
    let advice = match again {
        Again::ByCommand => "make room for it, and start again: nothing is lost",
        Again::ByItself => WAITS,
    };
    let text = format_args!("journal {path:?}: can't be saved: {error}: {advice}");
    tell(rt, Level::Error, text);
}

/// Tells that the journal is the new one, but that the system may forget it where the machine stops, and
/// what to do.
pub fn not_synced<R: Clock + Eprint>(rt: &R, path: &str, log: &str, error: &io::Error) {
    let text = format_args!(
        "journal {path:?}: it is the new one, but its folder can't be synced: {error}: see to the disk, and keep {log:?}, from which the next start goes on, and the report"
    );
    tell(rt, Level::Error, text);
}

/// Tells that a connector ended in a way that leaves no journal to be saved, and where what it booked is.
pub fn nothing_to_save<R: Clock + Eprint>(rt: &R, path: &str, log: &str) {
    let text = format_args!(
        "journal {path:?}: not saved, since the connector was refused: it is as at the start, and what was booked is in {log:?}, from which the next start goes on"
    );
    tell(rt, Level::Error, text);
}

/// Tells that a log could not be removed, of which the journal has all.
pub fn log_left<R: Clock + Eprint>(rt: &R, log: &str, error: &io::Error) {
    let text = format_args!(
        "can't remove {log:?}: {error}: the journal has all that it has, and the next start removes it"
    );
    tell(rt, Level::Warn, text);
}

/// Tells that a log has begun, and when what is written to it is on the disk.
pub fn log_begun<R: Clock + Eprint>(rt: &R, path: &str, sync: LogSync) {
    match sync {
        LogSync::Group => {
            let text = format_args!("log {path:?}: begun, and synced before anybody is told");
            tell(rt, Level::Info, text);
        }
        LogSync::Off => {
            let text = format_args!(
                "log {path:?}: begun, and left to the system to sync: a power cut may take what was told"
            );
            tell(rt, Level::Warn, text);
        }
    }
}

/// Tells that a log can't be written, and what that means.
pub fn log_unwritten<R: Clock + Eprint>(rt: &R, path: &str, error: &io::Error) {
    let text = format_args!(
        "can't write {path:?}: {error}: what is booked from here on is not on the disk: it is tried anew each second"
    );
    tell(rt, Level::Error, text);
}

/// Tells that what stands at a path can't be a file of a journal, and why.
pub fn journal_unfit<R: Clock + Eprint, D: Display + Drop>(rt: &R, path: &str, why: D) {
    tell(rt, Level::Error, format_args!("can't use {path:?}: {why}"));
}

/// Tells that the configuration has another run than the journal was last run by, while a settlement with a
/// peer is open.
pub fn journal_of_another_run<R: Clock + Eprint>(rt: &R, path: &str, config: &Config, peer: u32)
    requires { peer < length config.now.peers }
{
    let (name, run) = (config.name(peer), config.run());
    let text = format_args!(
        "journal {path:?}: a settlement with {name} is open, and it was asked for by another run than {run:?}: give `run` the name that stands in its `.log`, or without one in its `.lock`, until nothing is open"
    );
    tell(rt, Level::Error, text);
}

/// Tells that a peer has another asset than the one in which the journal counts what it has of the peer.
pub fn journal_of_another_asset<R: Clock + Eprint>(rt: &R, path: &str, config: &Config, peer: u32)
    requires { peer < length config.now.peers }
{
    let name = config.name(peer);
    let text = format_args!(
        "journal {path:?}: what it counts of {name} is not in the asset of the configuration: give {name} the asset that stands in its `.log`, or without one in its `.lock`, and a peer of another asset a name of its own"
    );
    tell(rt, Level::Error, text);
}

/// Tells that the file that a connector has locked of a journal lies there no more, and what that means.
pub fn journal_lost<R: Clock + Eprint>(rt: &R, path: &str, lock: &str) {
    let text = format_args!(
        "journal {path:?}: {lock:?} was removed or replaced, so another connector may have it: nothing more is kept or told, none of its files is touched, and this connector ends: never remove {lock:?}"
    );
    tell(rt, Level::Error, text);
}

/// Tells that a log has changed since a start read it.
pub fn log_grows<R: Clock + Eprint>(rt: &R, path: &str, log: &str) {
    let text = format_args!(
        "journal {path:?}: {log:?} has changed since it was read, so another connector writes to it: close that one, and never remove its lock"
    );
    tell(rt, Level::Error, text);
}

/// Tells that another connector has the journal.
pub fn journal_in_use<R: Clock + Eprint>(rt: &R, path: &str) {
    let text = format_args!(
        "journal {path:?}: another connector has it: close that one, or give this one a journal of its own"
    );
    tell(rt, Level::Error, text);
}

/// Tells that a file can't be locked, and why.
pub fn journal_not_locked<R: Clock + Eprint>(rt: &R, lock: &str, error: &io::Error) {
    let text = format_args!(
        "can't lock {lock:?}: {error}: keep the journal where files can be locked"
    );
    tell(rt, Level::Error, text);
}

/// Tells that a file beside the journal can't be made, and why.
pub fn not_made<R: Clock + Eprint>(rt: &R, path: &str, error: &io::Error) {
    let text = format_args!(
        "can't make {path:?}: {error}: see that the journal's folder is there, may be written and has room"
    );
    tell(rt, Level::Error, text);
}

/// Tells that what a save began is still there.
pub fn left_unsaved<R: Clock + Eprint>(rt: &R, new: &str) {
    let text = format_args!(
        "{new:?} lies there, of a save that did not end: it is not read, and the next save writes over it, which may be this start's"
    );
    tell(rt, Level::Warn, text);
}

/// Tells that what the next period was to begin with is still there, and whether it goes now.
pub fn left_next<R: Clock + Eprint>(rt: &R, next: &str, goes: bool) {
    let what = if goes {
        "of a period's end that did not come about: it is removed"
    } else {
        "of the end of another period: nothing of it is read"
    };
    tell(rt, Level::Warn, format_args!("{next:?} lies there, {what}"));
}

/// Tells that the file can't be read, and why.
pub fn journal_unread<R: Clock + Eprint>(rt: &R, path: &str, error: &io::Error) {
    let text = format_args!("can't read {path:?}: {error}");
    tell(rt, Level::Error, text);
}

/// Tells that the journal has more octets than any can have.
pub fn journal_too_long<R: Clock + Eprint>(rt: &R, path: &str) {
    let text = format_args!("can't read {path:?}: more than 8589934592 octets");
    tell(rt, Level::Error, text);
}

/// Tells that a period has ended, and where its text is kept.
pub fn period_kept<R: Clock + Eprint>(rt: &R, path: &str, period: u32, kept: &str, entries: u32) {
    let text = format_args!(
        "journal {path:?}: the period {period} has ended, and its {entries} entries are kept as {kept:?}"
    );
    tell(rt, Level::Info, text);
}

/// Tells that the text of a period that has ended can't be kept where another text stands.
pub fn period_differs<R: Clock + Eprint>(rt: &R, kept: &str) {
    let text = format_args!(
        "{kept:?} has another text than the period that is to be kept there, and is never written again: move it away, if it is of another journal"
    );
    tell(rt, Level::Error, text);
}

/// Tells that a text of a period that has ended lies beside the journal, of which that and its log don't have all: the
/// last of those that do, and of which period the journal is.
pub fn journal_older<R: Clock + Eprint>(rt: &R, path: &str, last: u32, own: u32) {
    let text = format_args!(
        "journal {path:?}: the period {last} has ended beside it, and it lacks what that has: put back the journal and the log that were there last, or, to go on from this one and lose what came since, move the kept periods away from {own} on"
    );
    tell(rt, Level::Error, text);
}

/// Tells that there is no journal, though what was kept of one lies there.
pub fn journal_gone<R: Clock + Eprint>(rt: &R, path: &str) {
    let text = format_args!(
        "journal {path:?}: it isn't there, and what was kept beside it is: put it back, or move that away to begin with nothing"
    );
    tell(rt, Level::Error, text);
}

/// Tells that `new_period_at` says nothing, since there is no file in which a period could be kept.
pub fn no_periods<R: Clock + Eprint>(rt: &R) {
    tell(
        rt,
        Level::Warn,
        "`new_period_at` is passed over: no journal is kept, so no period ends by itself",
    );
}

/// Tells why no next period begins, and that this one goes on.
pub fn no_next_period<R: Clock + Eprint>(rt: &R, path: &str, refusal: &impl Display, why: &str) {
    let text = format_args!(
        "journal {path:?}: no next period can begin: refused {refusal} {why}: this one goes on, until the journal is full"
    );
    tell(rt, Level::Error, text);
}

/// Tells that the text of a period that has ended can't be written, or that of the next one.
pub fn period_unwritten<R: Clock + Eprint>(rt: &R, path: &str, again: Again, error: &io::Error) {
    let advice = match again {
        Again::ByCommand => "make room for it, and give the command again: nothing is lost",
        Again::ByItself => WAITS,
    };
    let text = format_args!("can't write {path:?}: {error}: {advice}");
    tell(rt, Level::Error, text);
}

/// Tells how many keys are forgotten with a peer that is left out.
pub fn keys_left_out<R: Clock + Eprint>(rt: &R, peer: &str, keys: u32) {
    let text = format_args!(
        "{peer} is left out with {keys} keys of its settlements: where a peer of this name is added again, what its engine tells again is credited again"
    );
    tell(rt, Level::Warn, text);
}

/// Tells that the journal has begun its next period.
pub fn period_begun<R: Clock + Eprint>(rt: &R, path: &str, period: u32, entries: u32) {
    let text = format_args!(
        "journal {path:?}: the period {period} begins with its {entries} entries"
    );
    tell(rt, Level::Info, text);
}

/// Tells in two lines that a connector that kept no log has stopped without saving the journal, of which its
/// mark says this: what that means, and what to do.
pub fn stopped_unsaved<R: Clock + Eprint>(rt: &R, path: &str, running: &str, said: &str) {
    let meant = format_args!(
        "journal {path:?}: a connector stopped without saving it ({running:?} says {said:?}): what it booked is lost, while engines know its keys and a start would use its numbers again"
    );
    tell(rt, Level::Error, meant);
    let to_do = format_args!(
        "compare with peers and engines what was booked since, move {path:?} and {running:?} away, and start with a `run` that no earlier start had"
    );
    tell(rt, Level::Error, to_do);
}
