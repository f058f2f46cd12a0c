//! Faults of lines and replays with growths that are denied, and replays that a reader or a writer stops.

use crate::configurations::configured;
use ilp_accounts::Config;
use ilp_io::Recording;
use ilp_offline::ReplayFault;
use std::alloc::Allocator;
use std::io;
use std::io::ErrorKind;
use std::rt::Runtime;

mod replaying;
mod stopping;
mod telling;

use replaying::replay_each_script;
use stopping::stop_each_replay;
use telling::tell_each_bad_line;

// More growths than any of these calls makes.
const GROWTHS: u64 = 1_000;

/// Tries all of it, and prints what was tried. What differs ends the program as an error.
pub(crate) fn print_tried<R: Runtime + AllocGlobal>(rt: &R) -> io::Result<()> {
    let config = configured(rt, "denied/lending.toml")?;
    print_tried_over(rt, &config)
}

fn print_tried_over<R: Runtime + AllocGlobal>(rt: &R, config: &Config) -> io::Result<()> {
    tell_each_bad_line(rt.alloc(), config)?;
    println!(rt; "faults of lines, each growth denied")?;
    replay_each_script(rt.alloc(), config)?;
    println!(rt; "replays, each growth denied")?;
    stop_each_replay(rt.alloc(), config)?;
    println!(rt; "replays that a reader or a writer stops")
}

// What became of a replay and its writer.
#[derive(Clone, Copy, PartialEq, Eq)]
struct Replayed {
    outcome: Result<(), ReplayFault>,
    // How many octets were written; none where the text that is expected doesn't begin with them.
    written: Option<usize>,
    failed_writes: u64,
}

impl Replayed {
    // That of a replay that ended, after what was written of its text.
    fn of(
        outcome: Result<(), ReplayFault>,
        recording: &Recording<impl Allocator>,
        text: &str,
    ) -> Replayed {
        let octets = recording.octets.as_slice();
        let is_front = text.as_bytes().starts_with(octets);
        Replayed {
            outcome,
            written: is_front.then_some(octets.len()),
            failed_writes: recording.failures,
        }
    }

    // That of a replay that nothing stopped.
    fn whole(text: &str) -> Replayed {
        Replayed {
            outcome: Ok(()),
            written: Some(text.len()),
            failed_writes: 0,
        }
    }

    // That of a replay that a fault stopped after so many octets of its text.
    fn stopped(fault: ReplayFault, written: usize) -> Replayed {
        Replayed {
            outcome: Err(fault),
            written: Some(written),
            failed_writes: u64::from(fault == ReplayFault::WriteFault),
        }
    }
}

fn expect(is_so: bool) -> io::Result<()> {
    match is_so {
        true => Ok(()),
        false => Err(differs()),
    }
}

fn differs() -> io::Error {
    io::Error::from(ErrorKind::InvalidData)
}
