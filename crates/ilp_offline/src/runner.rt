//! A script of lines: read whole, run line by line, and what each line prints written.
ghost use Rattle.std.specs.Prelude.{◌≡◌, ◌≢◌, ◌≤◌, ◌+◌, OnOk, OnErr, IfSome, IsErrOf, [], length};
ghost use Rattle.std.specs.Io.KnownBytes.{Appends};
ghost use Rattle.ilp_io.specs.Counts.{TalliesUpTo, CountsUp};
ghost use Rattle.ilp_io.specs.Writing.{AppendsPrefix};
ghost use Rattle.ilp_io.specs.Reading.{ConsumesFirst};
ghost use Rattle.ilp_offline.specs.Script.{most_script, lines_of};
ghost use Rattle.ilp_offline.specs.Replay.{text_of, text_from, line_text, after_line};
ghost use Rattle.ilp_offline.specs.Replay.{Replays, Stops, failed_reads, failed_writes, fault_refusal};

use crate::line::run_line;
use crate::lines::split_line;
use crate::reply::reply_text;
use ilp_accounts::Config;
use ilp_book::Book;
use ilp_io::{ReadFault, Sink, Source, WriteFault, put_all, read_to_limit};
use ilp_refusals::Refusal;
use std::alloc::Allocator;
use std::error::Error;
use std::fmt;

/// The most octets of a script.
pub const SCRIPT_LIMIT: usize = 1_048_576;

/// Why a replay stopped before its end.
#[derive(Clone, Copy, Debug, PartialEq, Eq)]
pub enum ReplayFault {
    /// A growth of memory was denied.
    Memory,
    /// A read failed.
    ReadFault,
    /// A write failed, or took no octet.
    WriteFault,
    /// The script has more than 1,048,576 octets.
    ScriptTooLong,
}

impl ReplayFault {
    /// The refusal that it is printed as.
    pub fn refusal(self) -> Refusal
        ensures { result ≡ fault_refusal self }
    {
        match self {
            ReplayFault::Memory => Refusal::Memory,
            ReplayFault::ReadFault => Refusal::ReadFault,
            ReplayFault::WriteFault => Refusal::WriteFault,
            ReplayFault::ScriptTooLong => Refusal::ScriptTooLong,
        }
    }
}

/// `NUMBER NAME`, as its refusal.
impl fmt::Display for ReplayFault {
    ghost use Rattle.std.specs.Prelude.{Some};
    ghost use Rattle.ilp_refusals.specs.Refusals.{refusal_text};
    ghost use Rattle.ilp_offline.specs.Replay.{fault_refusal};

    ghost output = { λ fault. Some (refusal_text (fault_refusal fault)) };

    fn fmt<W: fmt::Write>(&self, f: &mut fmt::Formatter<W>) -> fmt::Result {
        let refusal = self.refusal();
        write!(f, "{refusal}")
    }
}

impl Error for ReplayFault {}

/// Reads a script to the reader's end, and writes what its lines print, over a new book of the
/// configuration.
///
/// The script is read whole before its first line runs, in at most 1,048,577 reads: each gives an
/// octet, the end or a failure.
///
/// Refusals: `ReadFault` where a read failed, `ScriptTooLong` where there are more than 1,048,576
/// octets; nothing is written then. `WriteFault` where a write failed or took no octet, `Memory`
/// where a growth of memory was denied; what was written is then a front of what the script prints.
pub fn replay<S: Source, W: Sink, A: Allocator + Copy>(
    alloc: A,
    config: &Config,
    reader: &mut S,
    writer: &mut W,
) -> Result<(), ReplayFault>
    ensures whole { OnOk result (Replays (text_of config.now)
        (S.remaining reader.old) (S.remaining reader.new)
        (W.contents writer.old) (W.contents writer.new)) }
    ensures part { OnErr result (Stops (text_of config.now)
        (S.remaining reader.old) (S.remaining reader.new)
        (W.contents writer.old) (W.contents writer.new)) }

    // A read fault comes just where a read failed, a write fault where a write failed or took nothing.
    ensures reads { TalliesUpTo (S.tally reader.old) (S.tally reader.new)
        (most_script + 1) (failed_reads result) }
    ensures writes { CountsUp (W.failures writer.old) (W.failures writer.new) (failed_writes result) }

    // Whether a script is too long depends on nothing but its length.
    ensures short { OnOk result (IfSome (S.remaining reader.old) (λ script. length script ≤ most_script)) }
    ensures long { IsErrOf result ReplayFault.ScriptTooLong
        → ConsumesFirst (S.remaining reader.old) (S.remaining reader.new) (most_script + 1) }
    ensures unread { IsErrOf result ReplayFault.ReadFault
        → Appends (W.contents writer.old) (W.contents writer.new) [] }
    ensures unrun { IsErrOf result ReplayFault.ScriptTooLong
        → Appends (W.contents writer.old) (W.contents writer.new) [] }
{
    let script = match read_to_limit(alloc, reader, SCRIPT_LIMIT) {
        Ok(script) => script,
        Err(ReadFault::Failed) => return Err(ReplayFault::ReadFault),
        Err(ReadFault::TooLong) => return Err(ReplayFault::ScriptTooLong),
        Err(ReadFault::Memory) => return Err(ReplayFault::Memory),
    };
    run(alloc, config, &script, writer)
}

// Writes what the lines of a script print.
fn run<W: Sink, A: Allocator + Copy>(
    alloc: A,
    config: &Config,
    script: &[u8],
    writer: &mut W,
) -> Result<(), ReplayFault>
    ensures whole { OnOk result
        (Appends (W.contents writer.old) (W.contents writer.new) (text_of config.now script.now)) }
    ensures part { OnErr result
        (AppendsPrefix (W.contents writer.old) (W.contents writer.new) (text_of config.now script.now)) }
    ensures writes { CountsUp (W.failures writer.old) (W.failures writer.new) (failed_writes result) }
    ensures no_read { result ≢ Err ReplayFault.ReadFault }
    ensures not_long { result ≢ Err ReplayFault.ScriptTooLong }
{
    let Ok(mut book) = Book::new(alloc, config) else {
        return Err(ReplayFault::Memory);
    };
    print_lines(alloc, &mut book, script, writer)
}

// Runs the lines of a text on a book, and writes what each prints.
fn print_lines<W: Sink, A: Allocator + Copy>(
    alloc: A,
    book: &mut Book<A>,
    text: &[u8],
    writer: &mut W,
) -> Result<(), ReplayFault>
    ensures whole { OnOk result (Appends (W.contents writer.old) (W.contents writer.new)
        (text_from book.old (lines_of text.now))) }
    ensures part { OnErr result (AppendsPrefix (W.contents writer.old) (W.contents writer.new)
        (text_from book.old (lines_of text.now))) }
    ensures writes { CountsUp (W.failures writer.old) (W.failures writer.new) (failed_writes result) }
    ensures no_read { result ≢ Err ReplayFault.ReadFault }
    ensures not_long { result ≢ Err ReplayFault.ScriptTooLong }
{
    let mut rest = text;
    while !rest.is_empty() {
        let (line, more) = split_line(rest);
        print_line(alloc, book, line, writer)?;
        rest = more;
    }
    Ok(())
}

// Runs a line on a book, and writes what it prints.
fn print_line<W: Sink, A: Allocator + Copy>(
    alloc: A,
    book: &mut Book<A>,
    line: &[u8],
    writer: &mut W,
) -> Result<(), ReplayFault>
    ensures whole { OnOk result
        (Appends (W.contents writer.old) (W.contents writer.new) (line_text book.old line.now)) }
    ensures booked { OnOk result (book.new ≡ after_line book.old line.now) }
    ensures part { OnErr result
        (AppendsPrefix (W.contents writer.old) (W.contents writer.new) (line_text book.old line.now)) }
    ensures writes { CountsUp (W.failures writer.old) (W.failures writer.new) (failed_writes result) }
    ensures no_read { result ≢ Err ReplayFault.ReadFault }
    ensures not_long { result ≢ Err ReplayFault.ScriptTooLong }
{
    let Ok(reply) = run_line(alloc, book, line) else {
        return Err(ReplayFault::Memory);
    };
    let Ok(text) = reply_text(alloc, book, reply) else {
        return Err(ReplayFault::Memory);
    };
    match put_all(writer, &text) {
        Ok(()) => Ok(()),
        Err(WriteFault) => Err(ReplayFault::WriteFault),
    }
}
