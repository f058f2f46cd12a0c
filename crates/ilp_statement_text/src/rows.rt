//! A statement for a person.
ghost use Rattle.std.specs.Prelude.{◌<◌, ◌≤◌, length};

use crate::account::Account;
use crate::extent::Extent;
use crate::fault::StatementFault;
use crate::lines::{End, EntryLine, Head, TotalLine};
use crate::listing::listed;
use crate::row::Row;
use crate::sought::Sought;
use crate::totals::Totals;
use ilp_book::Book;
use ilp_io::{Sink, put_all};
use std::alloc::Global;
use std::fmt::{Display, Write};

/// Writes the statement of a peer's account in lines for a person, each ended by LF, of fields with one space
/// between them, and `-` where there is nothing:
///
/// - `statement PEER ASSET run RUN period P from TIME to TIME`
/// - `opening N BALANCE`
/// - for each entry that is looked for `TIME N WHAT WITH AMOUNT IN OUT BALANCE ENDS CONDITION KEY CAUSE`, where the
///   last may have two words; each is what the column of that name is in `put_records`, and a space in KEY is `\x20`
/// - `closing N BALANCE`
/// - for each kind of these entries that occurs `total WHAT COUNT SUM`
///
/// It takes memory for each entry of the peer's in the extent, and for one line. `Memory` tells that it is short,
/// `Write` that a write failed or took no octet. What was written is then a front of the text.
pub fn put_rows<W: Sink>(
    alloc: Global,
    book: &Book,
    peer: u32,
    extent: Extent,
    sought: Sought<'_>,
    sink: &mut W,
) -> Result<(), StatementFault>
    requires peer { peer < length book.now.config.peers }
    requires order { extent.first ≤ extent.behind }
    requires within { extent.behind ≤ length book.now.entries }
{
    let statement = listed(alloc, book, peer, extent, sought)?;
    let mut page = Page::new(alloc, Account::of(book, peer), sink);
    let mut totals = Totals::new();
    page.put_head(extent)?;
    page.put_end("opening", extent.first, statement.opening)?;
    for line in &statement.lines {
        if let Some(row) = Row::of(book, peer, *line) {
            page.put_entry(row)?;
            totals.add(row.kind, row.amount());
        }
    }
    page.put_end("closing", extent.behind, statement.closing)?;
    page.put_totals(totals)
}

// The lines of an account, as far as they are written.
#[derive(Drop)]
struct Page<'s, W: Sink> {
    account: Account<'s>,
    // The line that is written.
    line: String,
    sink: &'s mut W,
}

impl<'s, W: Sink> Page<'s, W> {
    fn new(alloc: Global, account: Account<'s>, sink: &'s mut W) -> Page<'s, W> {
        Page {
            account,
            line: String::new(alloc),
            sink,
        }
    }

    // Whose statement it is.
    fn put_head(&mut self, extent: Extent) -> Result<(), StatementFault> {
        let account = self.account;
        self.put(Head { account, extent })
    }

    // The balance at an end of the extent.
    fn put_end(&mut self, word: &str, number: u32, balance: i128) -> Result<(), StatementFault> {
        let balance = self.account.amount(balance);
        self.put(End {
            word,
            number,
            balance,
        })
    }

    // An entry.
    fn put_entry(&mut self, row: Row<'s>) -> Result<(), StatementFault> {
        let account = self.account;
        self.put(EntryLine { account, row })
    }

    // What the kinds come to that occur.
    fn put_totals(&mut self, totals: Totals) -> Result<(), StatementFault> {
        let account = self.account;
        for total in totals.0 {
            if total.count > 0 {
                self.put(TotalLine { account, total })?;
            }
        }
        Ok(())
    }

    // A line.
    fn put<T: Display + Drop>(&mut self, shown: T) -> Result<(), StatementFault> {
        self.line.clear();
        if writeln!(self.line, "{shown}").is_err() {
            return Err(StatementFault::Memory);
        }
        put_all(self.sink, self.line.as_bytes())?;
        Ok(())
    }
}
