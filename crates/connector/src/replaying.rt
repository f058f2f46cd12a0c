//! The command `replay`.

use crate::Exit;
use ilp_accounts::Config;
use ilp_io::{ReadFault, read_to_limit};
use ilp_offline::{ReplayFault, SCRIPT_LIMIT, bad_lines, replay};
use ilp_refusals::Refusal;
use ilp_starting::configured;
use std::io;
use std::rt::Runtime;

/// Runs the script of standard input over a configuration.
pub(crate) fn run_replay<R: Runtime + AllocGlobal>(rt: &R, path: &str) -> Exit {
    match configured(rt, path) {
        Ok(config) => replay_over(rt, &config),
        Err(refused) => Exit::Refused(refused),
    }
}

// The same over a configuration that was read. The script is kept, since its bad lines are told behind it.
fn replay_over<R: Runtime + AllocGlobal>(rt: &R, config: &Config) -> Exit {
    match read_to_limit(rt.alloc(), &mut rt.reader(), SCRIPT_LIMIT) {
        Ok(script) => replay_script(rt, config, &script),
        Err(ReadFault::Failed) => Exit::from(Refusal::ReadFault),
        Err(ReadFault::TooLong) => Exit::from(Refusal::ScriptTooLong),
        Err(ReadFault::Memory) => Exit::from(Refusal::Memory),
    }
}

// Writes what the lines of a script print, and tells on standard error what is wrong with bad ones.
fn replay_script<R: Runtime + AllocGlobal>(rt: &R, config: &Config, script: &[u8]) -> Exit {
    let mut reader = script;
    let mut writer = io::writer(rt);
    match replay(rt.alloc(), config, &mut reader, &mut writer) {
        Ok(()) => {
            tell_bad_lines(rt, config, script);
            Exit::Done
        }
        Err(ReplayFault::WriteFault) => Exit::OutputFailed,
        Err(fault) => Exit::from(fault.refusal()),
    }
}

// Tells a person why lines are bad. Where memory is short they were printed as such all the same.
fn tell_bad_lines<R: Runtime + AllocGlobal>(rt: &R, config: &Config, script: &[u8]) {
    let Ok(found) = bad_lines(rt.alloc(), config, script) else {
        return;
    };
    for line in &found {
        let _ = rt.eprintln(format_args!("{line}"));
    }
}
