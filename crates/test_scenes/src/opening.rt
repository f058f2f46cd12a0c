//! Desks that are opened over new books, and over carried ones.

ghost use Rattle.std.specs.Prelude.{◌≡◌, length, IfOk};
ghost use Rattle.ilp_desk.specs.Desk.{actors_of, base_of};

use crate::row::{journal_text_of, moments_of, said};
use ilp_accounts::Config;
use ilp_book::Book;
use ilp_desk::{Desk, EntryList, Naming, Share};
use std::marker::Brand;
use std::rt::Files;
use std::sync::ledger::Blank;
use std::{fs, io};

/// What is done with a desk.
pub(crate) trait Play<R> {
    /// Does it with a desk that was opened, and with the shares of its actors.
    fn play<J: Naming + Send + Sync>(
        &self,
        rt: &R,
        desk: Desk<J>,
        shares: Vec<Share<J>>,
    ) -> io::Result<()>;
}

/// Plays over the configuration that these lines name, at a desk with as many workers as they say.
pub(crate) fn open_desk<R: Files + Print + AllocGlobal, P: Play<R>>(
    rt: &R,
    lines: &str,
    scene: &P,
) -> io::Result<()> {
    let octets = fs::read(rt, said(lines, "over").unwrap_or(""))?;
    let workers = said(lines, "workers").unwrap_or("1");
    let workers = workers.parse::<u32>().unwrap_or(1);
    match Config::read(rt.alloc(), &octets) {
        Ok(config) => play_over(rt, &config, lines, workers, scene),
        Err(fault) => println!(rt; "no configuration: {fault}"),
    }
}

// Plays at a desk with so many workers, over the book of these lines.
fn play_over<R: Print, P: Play<R>>(
    rt: &R,
    config: &Config,
    lines: &str,
    workers: u32,
    scene: &P,
) -> io::Result<()> {
    let book = book_of(config, lines)?;
    let blanks = Blank::new(u64::from(workers) + 2);
    let list = EntryList::new(config.allocator())?;
    play_on::<Brand, R, P>(rt, config, book, workers, blanks, list, scene)
}

// The book that these lines' journal is carried over as when the clock first tells. Without a journal it
// has no entries.
fn book_of(config: &Config, lines: &str) -> io::Result<Book>
    ensures config { IfOk result (λ b. b.config ≡ config.now) }
    ensures opening { IfOk result (λ b. length b.entries ≡ b.base) }
{
    let alloc = config.allocator();
    let Some(text) = journal_text_of(alloc, lines)? else {
        return Ok(Book::new(alloc, config)?);
    };
    let (now, _later) = moments_of(said(lines, "clock").unwrap_or("")).unwrap_or((0, 0));
    match Book::carry_over(alloc, config, text.as_bytes(), now) {
        Ok(book) => Ok(book),
        Err(_) => Err(io::Error::from(io::ErrorKind::InvalidData)),
    }
}

// Opens a desk over this book, and plays there.
fn play_on<J: Naming + Send + Sync, R: Print, P: Play<R>>(
    rt: &R,
    config: &Config,
    book: Book,
    workers: u32,
    blanks: Blank,
    list: EntryList,
    scene: &P,
) -> io::Result<()>
    requires config { (config.now ≡ J.desk.config) × (book.config ≡ J.desk.config) }
    requires workers { workers ≡ J.desk.workers }
    requires period { book.period ≡ J.desk.period }
    requires opening { (book.entries ≡ J.desk.opening) × (book.base ≡ base_of J.desk) }
    requires ledger { (blanks.name ≡ J.name) × (blanks.parts ≡ J.parts) }
    requires parts { J.parts ≡ actors_of J.desk }
    requires list { list ≡ J.list }
{
    match Desk::<J>::open(config.allocator(), config, book, workers, blanks, list) {
        Ok((desk, shares)) => scene.play(rt, desk, shares),
        Err(_) => println!(rt; "no desk"),
    }
}
