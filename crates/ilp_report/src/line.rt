//! One line of the report.
ghost use Rattle.std.specs.Prelude.{◌≡◌, ◌≤◌, length, replicate, is_err, OnOk, OnErr, if◌then◌else◌};
ghost use Rattle.std.specs.Io.KnownBytes.{Appends};
ghost use Rattle.ilp_io.specs.Counts.{CountsUp};
ghost use Rattle.ilp_io.specs.Writing.{AppendsProperPrefix};
ghost use Rattle.ilp_report.specs.Report.{left, right, line};
ghost use Rattle.ilp_report.specs.Columns.{IsShort, IsNarrow};

use ilp_io::{Sink, WriteFault, put_all};
use itoa::Buffer;

// Where the column of the label ends.
pub(crate) const LABEL_END: usize = 10;

// Where that of the name ends.
const NAME_END: usize = 30;

// Where that of the number ends. There LF stands.
const NUMBER_END: usize = 60;

/// Writes a line: a label, a name and a number, each of which fits its column.
pub(crate) fn put_line<W: Sink>(
    sink: &mut W,
    label: &str,
    name: &str,
    number: i128,
) -> Result<(), WriteFault>
    requires label { length label.now ≤ LABEL_END }
    requires name { IsShort name.now }
    requires number { IsNarrow number }
    ensures ok { OnOk result
        (Appends (W.contents sink.old) (W.contents sink.new) (line label.now name.now number)) }
    ensures err { OnErr result (AppendsProperPrefix (W.contents sink.old) (W.contents sink.new)
        (line label.now name.now number)) }
    ensures failed { CountsUp (W.failures sink.old) (W.failures sink.new)
        (if is_err result then 1 else 0) }
{
    put_all(sink, &line_of(label, name, number))
}

// The octets of a line.
fn line_of(label: &str, name: &str, number: i128) -> [u8; 61]
    requires label { length label.now ≤ LABEL_END }
    requires name { IsShort name.now }
    requires number { IsNarrow number }
    ensures { result ≡ line label.now name.now number }
{
    let mut buffer = Buffer::new();
    let mut line = line_feeds();
    put_left(&mut line[..LABEL_END], label);
    put_left(&mut line[LABEL_END..NAME_END], name);
    put_right(&mut line[NAME_END..NUMBER_END], buffer.format(number));
    line
}

// A line without its columns.
fn line_feeds() -> [u8; 61]
    ensures { result ≡ replicate 61 10 }
{
    [b'\n'; 61]
}

// Fills a column with a text at its left.
fn put_left(column: &mut [u8], text: &str)
    requires { length text.now ≤ length column.old }
    ensures { column.new ≡ left (length column.old) text.now }
{
    column.fill(b' ');
    column[..text.len()].copy_from_slice(text.as_bytes());
}

// Fills a column with a text at its right.
fn put_right(column: &mut [u8], text: &str)
    requires { length text.now ≤ length column.old }
    ensures { column.new ≡ right (length column.old) text.now }
{
    column.fill(b' ');
    let start = column.len() - text.len();
    column[start..].copy_from_slice(text.as_bytes());
}
