//! Writing the text of a journal.
ghost use Rattle.std.specs.Prelude.{◌++◌, length, All, is_err, OnOk, OnErr, codes, if◌then◌else◌};
ghost use Rattle.std.specs.List.{flat_map};
ghost use Rattle.std.specs.Io.KnownBytes.{Appends};
ghost use Rattle.ilp_io.specs.Counts.{CountsUp};
ghost use Rattle.ilp_io.specs.Writing.{AppendsProperPrefix};
ghost use Rattle.ilp_journal_text.specs.Reading.{IsTyped};
ghost use Rattle.ilp_journal_text.specs.Text.{first_line, entry_line, end_line, journal_text};

use crate::entry::entry_line;
use crate::line::Line;
use ilp_accounts::Config;
use ilp_io::{Sink, WriteFault, put_all};
use ilp_journal::{Entry, Journal};
use std::alloc::Allocator;

/// Writes the text of a period with this journal, line by line, with the peers' names in the
/// configuration. No memory is taken.
///
/// It is refused only where a write fails or takes no octet. Then a front of the text was taken, and
/// not all of it. Once all is written it tells too that the numbers of the entries are of their types,
/// as those that a text may have (`specs/Reading.antt`, `IsTyped`).
pub fn put_journal<A: Allocator, W: Sink>(
    config: &Config,
    period: u32,
    journal: &Journal<A>,
    sink: &mut W,
) -> Result<(), WriteFault>
    ensures ok { OnOk result (Appends (W.contents sink.old) (W.contents sink.new)
        (journal_text config.now period journal.now.entries)) }
    ensures typed { OnOk result (All IsTyped journal.now.entries) }
    ensures err { OnErr result (AppendsProperPrefix (W.contents sink.old) (W.contents sink.new)
        (journal_text config.now period journal.now.entries)) }
    ensures failed { CountsUp (W.failures sink.old) (W.failures sink.new)
        (if is_err result then 1 else 0) }
{
    put_first_line(period, sink)?;
    put_entries(config, journal, sink)?;
    put_all(sink, Line::last(u64::from(journal.len())).as_slice())
}

// The first line of the text of a period.
fn put_first_line<W: Sink>(period: u32, sink: &mut W) -> Result<(), WriteFault>
    ensures ok { OnOk result (Appends (W.contents sink.old) (W.contents sink.new)
        (first_line period)) }
    ensures err { OnErr result (AppendsProperPrefix (W.contents sink.old) (W.contents sink.new)
        (first_line period)) }
    ensures failed { CountsUp (W.failures sink.old) (W.failures sink.new)
        (if is_err result then 1 else 0) }
{
    put_all(sink, Line::first(period).as_slice())
}

// The lines of the entries.
fn put_entries<A: Allocator, W: Sink>(
    config: &Config,
    journal: &Journal<A>,
    sink: &mut W,
) -> Result<(), WriteFault>
    ensures ok { OnOk result (Appends (W.contents sink.old) (W.contents sink.new)
        (flat_map (entry_line config.now) journal.now.entries)) }
    ensures typed { OnOk result (All IsTyped journal.now.entries) }
    ensures err { OnErr result (AppendsProperPrefix (W.contents sink.old) (W.contents sink.new)
        (flat_map (entry_line config.now) journal.now.entries)) }
    ensures failed { CountsUp (W.failures sink.old) (W.failures sink.new)
        (if is_err result then 1 else 0) }
{
    for number in 0..journal.len() {
        let Some(entry) = journal.get(number) else {
            unreachable!();
        };
        put_entry(config, entry, sink)?;
    }
    Ok(())
}

// The line of an entry.
fn put_entry<W: Sink>(config: &Config, entry: &Entry, sink: &mut W) -> Result<(), WriteFault>
    ensures ok { OnOk result (Appends (W.contents sink.old) (W.contents sink.new)
        (entry_line config.now entry.now)) }
    ensures typed { IsTyped entry.now }
    ensures err { OnErr result (AppendsProperPrefix (W.contents sink.old) (W.contents sink.new)
        (entry_line config.now entry.now)) }
    ensures failed { CountsUp (W.failures sink.old) (W.failures sink.new)
        (if is_err result then 1 else 0) }
{
    put_all(sink, entry_line(config, entry).as_slice())
}
