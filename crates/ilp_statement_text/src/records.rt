//! A statement as comma-separated values.
ghost use Rattle.std.specs.Prelude.{◌<◌, ◌≤◌, length};

use crate::account::Account;
use crate::extent::Extent;
use crate::fault::StatementFault;
use crate::key::Spaces;
use crate::listing::listed;
use crate::moment::Moment;
use crate::row::Row;
use crate::shown::{Hexadecimal, WhyText, name_text};
use crate::sought::Sought;
use csv::{Terminator, Writer, WriterBuilder};
use ilp_book::Book;
use ilp_io::Sink;
use std::alloc::Global;
use std::fmt::{Display, Write as _};
use std::io;
use std::io::Write;

// The names of the columns.
const COLUMNS: [&str; 16] = [
    "run",
    "period",
    "peer",
    "asset",
    "time",
    "entry",
    "what",
    "with",
    "amount",
    "in",
    "out",
    "balance",
    "ends",
    "cause",
    "condition",
    "key",
];

/// Writes the statement of a peer's account as comma-separated values (RFC 4180): the names of the columns, a row
/// `opening`, one for each entry that is looked for, and a row `closing`. Each ends with CR LF.
///
/// - `run`, `period`, `peer` and `asset` (`CODE/SCALE`) stand in each row, so that several files can be joined.
/// - `time` is in UTC; that of `opening` and `closing` is what was asked for, if it was said.
/// - `entry` is the entry's number, of `opening` and `closing` the first and the one behind the last.
/// - `amount` is what the entry is about, `in` and `out` by how much it raised or lowered the balance, if it did, and
///   `balance` what that was behind it, all in decimals of the asset's scale.
/// - `ends` is the number of the packet or settlement that the entry ends, `cause` why a packet was not fulfilled,
///   as in the text of a journal, or the reason of a correction, and `condition` a packet's.
/// - In names, in `key`, a settlement's or a correction's, and in a reason, a backslash, an octet that is not printable ASCII, and a first `=`, `+`, `-` or `@`
///   are written as `\x` and two hexadecimal digits.
///
/// It takes memory for each entry of the peer's in the extent, and for one field. `Memory` tells that it is short,
/// `Write` that a write failed or took no octet. What was written is then a front of the text.
pub fn put_records<W: Sink>(
    alloc: Global,
    book: &Book,
    peer: u32,
    extent: Extent,
    sought: Sought<'_>,
    sink: &mut W,
) -> Result<(), StatementFault>
    requires peer { peer < length book.now.config.peers }
    requires order { extent.first ≤ extent.behind }
    requires within { extent.behind ≤ length book.now.entries }
{
    let statement = listed(alloc, book, peer, extent, sought)?;
    let mut records = Records::new(alloc, Account::of(book, peer), sink);
    records.put_columns()?;
    records.put_end("opening", extent.from, extent.first, statement.opening)?;
    for line in &statement.lines {
        if let Some(row) = Row::of(book, peer, *line) {
            records.put_row(&row)?;
        }
    }
    records.put_end("closing", extent.to, extent.behind, statement.closing)?;
    records.flush()
}

// The records of an account, as far as they are written.
#[derive(Drop)]
struct Records<'s, W: Sink> {
    account: Account<'s>,
    // The field that is written.
    field: String,
    writer: Writer<Through<'s, W>>,
}

impl<'s, W: Sink> Records<'s, W> {
    fn new(alloc: Global, account: Account<'s>, sink: &'s mut W) -> Records<'s, W> {
        Records {
            account,
            field: String::new(alloc),
            writer: WriterBuilder::new()
                .terminator(Terminator::CRLF)
                .from_writer(Through(sink)),
        }
    }

    fn put_columns(&mut self) -> Result<(), StatementFault> {
        for column in COLUMNS {
            self.put(column)?;
        }
        self.end()
    }

    // The row of the balance at an end of the extent.
    fn put_end(
        &mut self,
        what: &str,
        moment: Option<i64>,
        number: u32,
        balance: i128,
    ) -> Result<(), StatementFault> {
        self.put_account()?;
        self.put_if(moment.map(Moment))?;
        self.put(number)?;
        self.put(what)?;
        self.put_empty(4)?;
        self.put(self.account.amount(balance))?;
        self.put_empty(4)?;
        self.end()
    }

    fn put_row(&mut self, row: &Row<'_>) -> Result<(), StatementFault> {
        self.put_account()?;
        self.put(Moment(row.moment))?;
        self.put(row.line.number)?;
        self.put(row.kind.word())?;
        self.put_moves(row)?;
        self.put_about(row)?;
        self.end()
    }

    // What stands in every row.
    fn put_account(&mut self) -> Result<(), StatementFault> {
        let account = self.account;
        self.put(name_text(account.run))?;
        self.put(account.period)?;
        self.put(name_text(account.peer))?;
        self.put(account.asset)
    }

    // With whom, and what of it is in the balance.
    fn put_moves(&mut self, row: &Row<'_>) -> Result<(), StatementFault> {
        let account = self.account;
        self.put_if(row.with().map(|name| name_text(name)))?;
        self.put(account.amount(row.amount()))?;
        self.put_if(account.amount_above_0(row.line.rise))?;
        self.put_if(account.amount_above_0(row.line.fall))?;
        self.put(account.amount(row.line.balance))
    }

    // What it ends and why, and by what that is known.
    fn put_about(&mut self, row: &Row<'_>) -> Result<(), StatementFault> {
        self.put_if(row.ends)?;
        let spaces = Spaces::Stand;
        self.put_if(row.why.map(|why| WhyText { why, spaces }))?;
        self.put_if(row.condition().map(|octets| Hexadecimal(octets)))?;
        self.put_if(row.key().map(|key| key.text(Spaces::Stand)))
    }

    // So many fields of nothing.
    fn put_empty(&mut self, count: u32) -> Result<(), StatementFault> {
        for _ in 0..count {
            self.put("")?;
        }
        Ok(())
    }

    // A field, of nothing where there is nothing.
    fn put_if<T: Display + Drop>(&mut self, shown: Option<T>) -> Result<(), StatementFault> {
        match shown {
            Some(shown) => self.put(shown),
            None => self.put(""),
        }
    }

    // A field.
    fn put<T: Display + Drop>(&mut self, shown: T) -> Result<(), StatementFault> {
        self.field.clear();
        if write!(self.field, "{shown}").is_err() {
            return Err(StatementFault::Memory);
        }
        match self.writer.write_field(self.field.as_bytes()) {
            Ok(()) => Ok(()),
            Err(_) => Err(StatementFault::Write),
        }
    }

    // Ends a record.
    fn end(&mut self) -> Result<(), StatementFault> {
        match self.writer.end_record() {
            Ok(()) => Ok(()),
            Err(_) => Err(StatementFault::Write),
        }
    }

    // Writes out what is kept back.
    fn flush(&mut self) -> Result<(), StatementFault> {
        match self.writer.flush() {
            Ok(()) => Ok(()),
            Err(_) => Err(StatementFault::Write),
        }
    }
}

// A sink, as a writer.
#[derive(Drop)]
struct Through<'s, W: Sink>(&'s mut W);

impl<W: Sink> Write for Through<'_, W> {
    fn write(&mut self, octets: &[u8]) -> io::Result<usize> {
        if octets.is_empty() {
            return Ok(0);
        }
        self.0.put(octets)
    }

    fn flush(&mut self) -> io::Result<()> {
        Ok(())
    }
}
