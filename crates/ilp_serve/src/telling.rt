//! What is told whoever asks that the configuration be read again.

use crate::followed::Change;
use ilp_accounts::Config;
use ilp_notices::{not_reloaded, reloaded};
use ilp_running::{Asker, MEMORY_IS_SHORT, Sides, without_end};
use ilp_starting::Refused;
use std::alloc::Global;
use std::io::Eprint;
use std::sync::Wait;
use std::time::Clock;

/// Tells who asked for another configuration what became of that.
pub(crate) fn tell_asker<R: Clock + Eprint + Wait>(
    rt: &R,
    sides: &Sides,
    asker: Asker,
    change: Change,
    told: &Option<String>,
) {
    match change {
        Change::NewPeriod => {
            let line = line_or(told, "");
            reloaded(rt, without_end(line));
            sides.tell_taken(rt, asker, line);
        }
        Change::None => {
            let line = line_or(told, MEMORY_IS_SHORT);
            not_reloaded(rt, without_end(line));
            sides.tell_refused(rt, asker, line);
        }
    }
}

// What is told, or else this other line.
fn line_or<'t>(told: &'t Option<String>, other: &'t str) -> &'t str {
    match told {
        Some(line) => line.as_str(),
        None => other,
    }
}

/// Why it is refused, for a line that is told.
pub(crate) fn why_of(refused: &Refused) -> &str {
    match &refused.why {
        Some(why) => why.as_str(),
        None => "as the line above says",
    }
}

/// That the configuration is in force: the line of `check`. None where memory for it is short.
pub(crate) fn line_of_config(alloc: Global, config: &Config) -> Option<String> {
    let line = ilp_described::line_of(alloc, config).ok()?;
    format!(in alloc; "{line}\n").ok()
}

/// Why it is refused, and behind that what was told of it, in one line. None where memory for it is short.
pub(crate) fn line_of_refusal(alloc: Global, refused: &Refused) -> Option<String> {
    let line = match &refused.why {
        Some(why) => format!(in alloc; "refused {refused}: {why}\n"),
        None => format!(in alloc; "refused {refused}\n"),
    };
    line.ok()
}
