//! Replays whose reading or writing is cut short, and the greatest length of a script.

use super::{Replayed, expect};
use ilp_accounts::Config;
use ilp_io::{Counting, Narrow, Pieces, Recording, Source, WhenFull};
use ilp_offline::{ReplayFault, replay};
use std::alloc::Global;
use std::io;

// A Prepare of 100 by alice that bob fulfills, and a report. The moments are 2025-01-01T00:00:00Z
// and half a second later; the Prepare expires 30 seconds after the first, its condition is the
// SHA-256 digest of 32 zero octets (by Python's hashlib), and its destination is test.bob.
const SCRIPT: &str =
    "hold 1735689600000 alice 0c430000000000000064323032353031303130303030333030303066687aadf862bd776c8fc18b8e9f8e20089714856ee233b3902a591d0d5f292508746573742e626f6200
answer 1735689600500 0 0d21000000000000000000000000000000000000000000000000000000000000000000
report
";

const TEXT: &str = "held 0 to bob out 100
entry 1 fulfilled 0
balance   alice                                         -100
balance   bob                                            100
open      alice                                            0
open      bob                                              0
held      USD/2                                            0
fees      USD/2                                            0
bought    USD/2                                          100
sold      USD/2                                          100
settled   USD/2                                            0
entries                                                    2
fulfilled                                                  1
";

/// Replays a script up to a read or a write that fails, and scripts up to the greatest length.
pub(super) fn stop_each_replay(alloc: Global, config: &Config) -> io::Result<()> {
    stops_where_a_read_fails(alloc, config)?;
    stops_where_a_write_fails(alloc, config, WhenFull::TakesNone)?;
    stops_where_a_write_fails(alloc, config, WhenFull::Fails)?;
    reads_once_for_each_octet_and_the_end(alloc, config)?;
    reads_the_whole_at_once(alloc, config)?;
    is_read(alloc, config, 1_048_576, Replayed::whole(""))?;
    is_read(
        alloc,
        config,
        1_048_577,
        Replayed::stopped(ReplayFault::ScriptTooLong, 0),
    )
}

// Replays what a reader has, which is to print a text, into a writer with room for all.
fn replay_from(alloc: Global, config: &Config, reader: &mut impl Source, text: &str) -> Replayed {
    let mut writer = Recording::new(alloc);
    let outcome = replay(alloc, config, reader, &mut writer);
    Replayed::of(outcome, &writer, text)
}

fn stops_where_a_read_fails(alloc: Global, config: &Config) -> io::Result<()> {
    for place in 0..SCRIPT.len() {
        let mut reader = Pieces::failing(SCRIPT.as_bytes(), 50, place);
        let replayed = replay_from(alloc, config, &mut reader, TEXT);
        expect(reader.failures == 1)?;
        expect(replayed == Replayed::stopped(ReplayFault::ReadFault, 0))?;
    }
    Ok(())
}

fn stops_where_a_write_fails(
    alloc: Global,
    config: &Config,
    when_full: WhenFull,
) -> io::Result<()> {
    for room in 0..TEXT.len() {
        let replayed = replay_into(alloc, config, room, when_full);
        expect(replayed == Replayed::stopped(ReplayFault::WriteFault, room))?;
    }
    Ok(())
}

// Replays the script into a writer with so much room.
fn replay_into(alloc: Global, config: &Config, room: usize, when_full: WhenFull) -> Replayed {
    let mut reader = SCRIPT.as_bytes();
    let mut writer = Narrow::new(alloc, 7, room, when_full);
    let outcome = replay(alloc, config, &mut reader, &mut writer);
    Replayed::of(outcome, &writer.recording, TEXT)
}

fn reads_once_for_each_octet_and_the_end(alloc: Global, config: &Config) -> io::Result<()> {
    let mut reader = Pieces::new(SCRIPT.as_bytes(), 1);
    let replayed = replay_from(alloc, config, &mut reader, TEXT);
    expect(reader.reads == SCRIPT.len() as u64 + 1 && replayed == Replayed::whole(TEXT))
}

fn reads_the_whole_at_once(alloc: Global, config: &Config) -> io::Result<()> {
    let mut reader = Counting::new(SCRIPT.as_bytes());
    let replayed = replay_from(alloc, config, &mut reader, TEXT);
    expect(reader.reads == 2 && replayed == Replayed::whole(TEXT))
}

// A comment of so many octets.
fn is_read(alloc: Global, config: &Config, len: usize, replayed: Replayed) -> io::Result<()> {
    let script = vec![in alloc; b'#'; len]?;
    let mut reader = Pieces::new(&script, 4096);
    expect(replay_from(alloc, config, &mut reader, "") == replayed)
}
