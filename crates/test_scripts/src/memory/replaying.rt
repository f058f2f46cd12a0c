//! Replaying scripts.

use super::{GROWTHS, Replayed, differs, expect};
use ilp_accounts::Config;
use ilp_io::{Pieces, Recording};
use ilp_offline::{ReplayFault, replay};
use std::alloc::Global;
use std::io;
use test_allocator::DenyingAllocator;
use test_row_texts::{RowFault, in_hexadecimal, push_repeated};

// The size of the pieces that a script is read in.
const PIECE: usize = 50;

// The most octets of a script.
const MAX_SCRIPT: usize = 1_048_576;

// A line of each form, and of each reply. The holds' deadline is 29 seconds after the first moment.
const EACH_FORM: &str = "# each form\n\
    \n\
    hold 1735689600000 alice {prepare 100 test.bob}\n\
    answer 1735689600500 0 {fulfill zeros}\n\
    hold 1735689600500 bob {prepare 100 test.alice}\n\
    answer 1735689600500 2 {reject F99}\n\
    hold 1735689601000 alice {prepare 100 test.bob}\n\
    answer 1735689601000 4 none\n\
    hold 1735689601000 alice {prepare 100 test.bob}\n\
    answer 1735689601000 6 {fulfill ones}\n\
    answer 1735689601000 6 {fulfill zeros}\n\
    answer 1735689601000 9 none\n\
    hold 1735689601000 alice 0c\n\
    hold 1735689601000 alice 0\n\
    expire\n\
    hold 1735689601000 alice {prepare 100 test.bob}\n\
    answer 1735689629000 8 {fulfill zeros}\n\
    hold 1735689629000 alice {prepare 100 test.bob}\n\
    expire 1735689629000\n\
    hold 1735689630000 alice {prepare 100 test.bob}\n\
    credit 1735689630000 bob k-1 {\"amount\":\"1000\",\"scale\":2}\n\
    credit 1735689630000 bob k-1 {\"scale\":2,\"amount\":1000}\n\
    credit 1735689630000 bob k-1 {\"amount\":\"10\",\"scale\":0}\n\
    credit 1735689630000 bob k-2 5\n\
    ask 1735689630000 bob\n\
    ask 1735689630000 bob\n\
    ask 1735689630000 alice\n\
    close 1735689630000 11 no\n\
    close 1735689630000 11 yes\n\
    close 1735689630000 0 yes\n\
    ask 1735689630000 bob\n\
    close 1735689630000 13 yes\n\
    report";

// What these lines print.
const EACH_TEXT: &str = "held 0 to bob out 100\n\
    entry 1 fulfilled 0\n\
    held 2 to alice out 100\n\
    entry 3 released 2 Peer 463939\n\
    held 4 to bob out 100\n\
    entry 5 released 4 NoReply\n\
    held 6 to bob out 100\n\
    entry 7 released 6 WrongPreimage\n\
    not open 6 by 7\n\
    not open 9\n\
    bad packet 1 Truncated\n\
    bad line\n\
    bad line\n\
    held 8 to bob out 100\n\
    entry 9 released 8 Late\n\
    reject R02 TooShort\n\
    none due\n\
    reject R00 Expired\n\
    entry 10 credited 1000\n\
    kept 10 credited 1000\n\
    refused 46 KeyTaken 10\n\
    refused 31 NotJson\n\
    entry 11 asked 900\n\
    refused 47 NotDue 200\n\
    refused 47 NotDue -100\n\
    entry 12 undone 11\n\
    not open 11 by 12\n\
    not open 0\n\
    entry 13 asked 900\n\
    entry 14 confirmed 13\n\
    balance   alice                                         -100\n\
    balance   bob                                            200\n\
    open      alice                                            0\n\
    open      bob                                              0\n\
    held      USD/2                                            0\n\
    fees      USD/2                                            0\n\
    bought    USD/2                                          100\n\
    sold      USD/2                                          100\n\
    settled   USD/2                                          100\n\
    entries                                                   15\n\
    fulfilled                                                  1\n";

// Twenty holds of 100 by alice, and the Fulfills of all of them.
const HOLDS: &str = "20 hold 1735689600000 alice {prepare 100 test.bob}\\n";

const FULFILLS: &str = "20 answer 1735689600000 # {fulfill zeros}\\n";

// What these lines and a report print.
const FULL_TEXT: &str = "held 0 to bob out 100\n\
    held 1 to bob out 100\n\
    held 2 to bob out 100\n\
    held 3 to bob out 100\n\
    held 4 to bob out 100\n\
    held 5 to bob out 100\n\
    held 6 to bob out 100\n\
    held 7 to bob out 100\n\
    held 8 to bob out 100\n\
    held 9 to bob out 100\n\
    held 10 to bob out 100\n\
    held 11 to bob out 100\n\
    held 12 to bob out 100\n\
    held 13 to bob out 100\n\
    held 14 to bob out 100\n\
    held 15 to bob out 100\n\
    held 16 to bob out 100\n\
    held 17 to bob out 100\n\
    held 18 to bob out 100\n\
    held 19 to bob out 100\n\
    entry 20 fulfilled 0\n\
    entry 21 fulfilled 1\n\
    entry 22 fulfilled 2\n\
    entry 23 fulfilled 3\n\
    entry 24 fulfilled 4\n\
    entry 25 fulfilled 5\n\
    entry 26 fulfilled 6\n\
    entry 27 fulfilled 7\n\
    entry 28 fulfilled 8\n\
    entry 29 fulfilled 9\n\
    entry 30 fulfilled 10\n\
    entry 31 fulfilled 11\n\
    entry 32 fulfilled 12\n\
    entry 33 fulfilled 13\n\
    entry 34 fulfilled 14\n\
    entry 35 fulfilled 15\n\
    entry 36 fulfilled 16\n\
    entry 37 fulfilled 17\n\
    entry 38 fulfilled 18\n\
    entry 39 fulfilled 19\n\
    balance   alice                                        -2000\n\
    balance   bob                                           2000\n\
    open      alice                                            0\n\
    open      bob                                              0\n\
    held      USD/2                                            0\n\
    fees      USD/2                                            0\n\
    bought    USD/2                                         2000\n\
    sold      USD/2                                         2000\n\
    settled   USD/2                                            0\n\
    entries                                                   40\n\
    fulfilled                                                 20\n";

/// Replays scripts with each growth denied in turn.
pub(super) fn replay_each_script(alloc: Global, config: &Config) -> io::Result<()> {
    lines_of_each_form(alloc, config)?;
    a_journal_that_fills(alloc, config)?;
    a_script_that_is_too_long(alloc, config)
}

fn lines_of_each_form(alloc: Global, config: &Config) -> io::Result<()> {
    match in_hexadecimal(alloc, EACH_FORM) {
        Ok(script) => each_form(alloc, config, script.as_str()),
        Err(_) => Err(differs()),
    }
}

fn each_form(alloc: Global, config: &Config, script: &str) -> io::Result<()> {
    writes_a_front(alloc, config, script, EACH_TEXT)?;
    fills_a_sink(alloc, config, script)?;
    stops_at_a_read(alloc, config, script)
}

fn a_journal_that_fills(alloc: Global, config: &Config) -> io::Result<()> {
    match twenty_payments(alloc) {
        Ok(script) => writes_a_front(alloc, config, script.as_str(), FULL_TEXT),
        Err(_) => Err(differs()),
    }
}

fn twenty_payments(alloc: Global) -> Result<String, RowFault> {
    let mut lines = String::new(alloc);
    push_repeated(alloc, &mut lines, HOLDS)?;
    push_repeated(alloc, &mut lines, FULFILLS)?;
    lines.push_str("report")?;
    in_hexadecimal(alloc, lines.as_str())
}

fn a_script_that_is_too_long(alloc: Global, config: &Config) -> io::Result<()> {
    let script = vec![in alloc; b'x'; MAX_SCRIPT + 1]?;
    is_not_run(alloc, config, &script)
}

// A replay of which one growth is denied: whether that was made, and what became of the replay and its reader.
#[derive(Clone, Copy)]
struct Attempt {
    is_denied: bool,
    replayed: Replayed,
    failed_reads: u64,
}

// Replays what a reader has, which is to print a text. The growth behind as many as are granted is denied.
fn attempt_replay(
    alloc: Global,
    config: &Config,
    mut reader: Pieces<'_>,
    text: &str,
    granted: u64,
) -> Attempt {
    let heap = DenyingAllocator::after(alloc, granted);
    let mut writer = Recording::new(alloc);
    let outcome = replay(&heap, config, &mut reader, &mut writer);
    Attempt {
        is_denied: heap.has_denied(),
        replayed: Replayed::of(outcome, &writer, text),
        failed_reads: reader.failures,
    }
}

// What is written until a growth is denied is a front of the text, of whole lines, and no shorter than where
// an earlier growth was denied.
fn writes_a_front(alloc: Global, config: &Config, script: &str, text: &str) -> io::Result<()> {
    let mut before = 0;
    for granted in 0..GROWTHS {
        let reader = Pieces::new(script.as_bytes(), PIECE);
        let attempt = attempt_replay(alloc, config, reader, text, granted);
        expect(attempt.failed_reads == 0)?;
        if !attempt.is_denied {
            return expect(granted > 1 && attempt.replayed == Replayed::whole(text));
        }
        let written = lines_written(&attempt.replayed, text);
        expect(before <= written && written < text.len())?;
        expect(attempt.replayed == Replayed::stopped(ReplayFault::Memory, written))?;
        before = written;
    }
    Err(differs())
}

// How many octets of a text were written, if they are whole lines.
fn lines_written(replayed: &Replayed, text: &str) -> usize {
    let written = replayed.written.unwrap_or(0);
    match text.get(..written) {
        Some(lines) if lines.is_empty() || lines.ends_with('\n') => written,
        _ => 0,
    }
}

// Replays lines of each form into a sink of the same memory. The growth behind as many as are granted is denied.
fn attempt_sink(alloc: Global, config: &Config, script: &str, granted: u64) -> Attempt {
    let heap = DenyingAllocator::after(alloc, granted);
    let mut reader = Pieces::new(script.as_bytes(), PIECE);
    let mut writer = Recording::new(&heap);
    let outcome = replay(&heap, config, &mut reader, &mut writer);
    Attempt {
        is_denied: heap.has_denied(),
        replayed: Replayed::of(outcome, &writer, EACH_TEXT),
        failed_reads: reader.failures,
    }
}

// Into such a sink the whole text is written, or a front of it where memory was denied to the replay or to a
// write, as it is to some.
fn fills_a_sink(alloc: Global, config: &Config, script: &str) -> io::Result<()> {
    let mut failed_writes = 0u64;
    for granted in 0..GROWTHS {
        let attempt = attempt_sink(alloc, config, script, granted);
        expect(attempt.is_denied == attempt.replayed.outcome.is_err())?;
        expect(is_filled(&attempt.replayed))?;
        if !attempt.is_denied {
            return expect(failed_writes > 1);
        }
        failed_writes = failed_writes.saturating_add(attempt.replayed.failed_writes);
    }
    Err(differs())
}

// Whether a sink has as much of the text as the replay's outcome says.
fn is_filled(replayed: &Replayed) -> bool {
    let written = replayed.written.unwrap_or(0);
    match replayed.outcome {
        Ok(()) => *replayed == Replayed::whole(EACH_TEXT),
        Err(fault) => {
            let is_known = fault == ReplayFault::Memory || fault == ReplayFault::WriteFault;
            is_known && written < EACH_TEXT.len() && *replayed == Replayed::stopped(fault, written)
        }
    }
}

// Nothing is written up to a read that fails.
fn stops_at_a_read(alloc: Global, config: &Config, script: &str) -> io::Result<()> {
    for granted in 0..GROWTHS {
        let reader = Pieces::failing(script.as_bytes(), PIECE, script.len());
        let attempt = attempt_replay(alloc, config, reader, "", granted);
        expect(is_unwritten(&attempt, ReplayFault::ReadFault))?;
        expect(attempt.failed_reads == u64::from(!attempt.is_denied))?;
        if !attempt.is_denied {
            return expect(granted > 1);
        }
    }
    Err(differs())
}

// Whether nothing was written by a replay that was denied memory, or else stopped by this.
fn is_unwritten(attempt: &Attempt, fault: ReplayFault) -> bool {
    let fault = if attempt.is_denied {
        ReplayFault::Memory
    } else {
        fault
    };
    attempt.replayed == Replayed::stopped(fault, 0)
}

// Nothing is written of a script that is too long.
fn is_not_run(alloc: Global, config: &Config, script: &[u8]) -> io::Result<()> {
    for granted in 0..GROWTHS {
        let reader = Pieces::new(script, 65_536);
        let attempt = attempt_replay(alloc, config, reader, "", granted);
        expect(is_unwritten(&attempt, ReplayFault::ScriptTooLong))?;
        if !attempt.is_denied {
            return expect(granted > 1);
        }
    }
    Err(differs())
}
