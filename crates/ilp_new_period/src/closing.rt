//! Closing the books of a journal that no connector has, and beginning its next period.
ghost use Rattle.std.specs.Prelude.{◌≡◌, IfOk, IfSome};

use crate::beginning::next_of;
use crate::boundary::keep_boundary;
use crate::left_out::tell_left_out;
use crate::printing::print_period;
use ilp_accounts::Config;
use ilp_book::{Book, CarryFault, ForwardFault};
use ilp_journal_file::{FileFault, JournalFile, PlacesFiles, has_text};
use ilp_journal_text::JournalText;
use ilp_starting::{BookFile, Refused, RunFault, Saved, configured, keep_ended};
use std::alloc::{AllocError, Global};
use std::fs::{File, OpenFile};
use std::io::{Eprint, Print, Read, Seek, Write};
use std::rt::{Files, Runtime};
use std::time::Clock;

/// Closes the books of the journal at a path, which is read by the configuration at another path, with its log as a
/// start does. Its open holds end as at a start. What it leaves is `JOURNAL.P`, the whole text of the period that
/// ended, and JOURNAL, which begins the next one by the next configuration, or by the same one where none is given.
/// Prints a line for each peer, and the number of the next period.
///
/// Where it was stopped, the same command goes on from there. Where the next period has just begun, and nothing was
/// booked in it yet, it is left as it is, and its text is written anew.
///
/// Refusals: those of `configured`, of the journal's file and of `next_of`; then nothing was changed. A file can't
/// be written, or JOURNAL.P has another text: then JOURNAL is still of the period that ends.
pub fn new_period<R>(
    rt: &R,
    config: &str,
    journal: &str,
    next: Option<&str>,
) -> Result<(), RunFault>
where
    R: Runtime + AllocGlobal + Files<File = File> + PlacesFiles<File = File> + Copy,
{
    let config = configured(rt, config)?;
    close_by(rt, &config, journal, next)
}

// The same by a configuration that was read.
fn close_by<R>(rt: &R, config: &Config, path: &str, next: Option<&str>) -> Result<(), RunFault>
where
    R: Runtime + AllocGlobal + Files<File = File> + PlacesFiles<File = File> + Copy,
{
    match next {
        Some(next) => {
            let next = configured(rt, next)?;
            close_for(rt, config, path, &next)
        }
        None => close_for(rt, config, path, config),
    }
}

fn close_for<R>(rt: &R, config: &Config, path: &str, next: &Config) -> Result<(), RunFault>
where
    R: Runtime + AllocGlobal + Files<File = File> + PlacesFiles<File = File> + Copy,
{
    let taken = JournalFile::take(rt, rt.alloc(), path)?;
    let closing = Closing {
        rt,
        config,
        next,
        file: &taken,
        path,
    };
    match closing.close() {
        Ok(book) => print_period(rt, &book),
        Err(refused) => Err(RunFault::Refused(refused)),
    }
}

/// Where the books of a period lie behind which the next one has begun.
#[derive(Clone, Copy, Debug, PartialEq, Eq)]
pub enum Kept {
    /// In a file of their own. The journal has the text of the next one.
    Whole,
    /// In the journal and the log, which was set aside. `ilp_starting::keep_ended` makes the rest of it.
    Aside,
}

/// Keeps the books of a period that a connector has closed, and has the journal at a path, which it has, begin
/// with those of the next one. Where the log has all of them (`is_logged`) it is only set aside, which takes no longer
/// where they are long. Else it is done as `new_period` does, and a stop at any moment leaves what that leaves.
///
/// It is refused where a file can't be written, or one of the period has another text, of which a line says more.
pub fn keep_behind<R, F>(
    rt: &R,
    file: &JournalFile<F>,
    path: &str,
    ended: &Book,
    next: &Book,
    is_logged: bool,
) -> Result<Kept, Refused>
where
    R: AllocGlobal + Files<File = F> + PlacesFiles<File = F> + Clock + Print + Eprint + Copy,
    F: Read + Write + Seek + OpenFile + Drop,
{
    let closing = Closing {
        rt,
        config: ended.config(),
        next: next.config(),
        file,
        path,
    };
    keep_ended(rt, file, path)?;
    if is_logged {
        closing.set_aside(ended, next)?;
        return Ok(Kept::Aside);
    }
    match closing.put(ended, next) {
        Ok(()) => Ok(Kept::Whole),
        Err(refused) => Err(refused),
    }
}

// A journal whose books are closed by one configuration for a period of the next one.
#[derive(Clone, Copy)]
struct Closing<'r, R, F> {
    rt: &'r R,
    config: &'r Config,
    next: &'r Config,
    file: &'r JournalFile<F>,
    path: &'r str,
}

impl<'r, R, F> Closing<'r, R, F>
where
    R: AllocGlobal + Files<File = F> + PlacesFiles<File = F> + Clock + Print + Eprint + Copy,
    F: Read + Write + Seek + OpenFile + Drop,
{
    // The book of the next period, once the journal has it and its configuration is remembered.
    fn close(&self) -> Result<Book, Refused> {
        keep_ended(self.rt, self.file, self.path)?;
        let book = match self.begun()? {
            Some(book) => book,
            None => self.begin()?,
        };
        match self.book_file(self.next).remember() {
            Ok(()) => Ok(book),
            Err(refused) => Err(refused),
        }
    }

    // Closes the books, and has the journal begin the next period. A stop at any moment leaves the old journal alone,
    // or beside an equal text of the period that ends, or the next one beside that.
    fn begin(&self) -> Result<Book, Refused> {
        let ended = self.book_file(self.config).ending()?;
        self.begin_behind(&ended)
    }

    fn begin_behind(&self, ended: &Book) -> Result<Book, Refused>
        requires { ended.now.config ≡ self.now.config.now }
    {
        let book = next_of(self.rt.alloc(), ended, self.next)?;
        match self.put(ended, &book) {
            Ok(()) => Ok(book),
            Err(refused) => Err(refused),
        }
    }

    // Writes the text of the period that ended, and then that of the next one.
    fn put(&self, ended: &Book, next: &Book) -> Result<(), Refused>
        requires ended { ended.now.config ≡ self.now.config.now }
        requires next { next.now.config ≡ self.now.next.now }
    {
        let alloc = self.rt.alloc();
        self.keep_boundary(ended)?;
        self.book_file(self.config).settle(ended)?;
        let whole = Saved {
            book: ended,
            config: self.config,
        };
        self.file
            .keep_period(self.rt, alloc, ended.period(), &whole)?;
        let head = Saved {
            book: next,
            config: self.next,
        };
        self.file
            .begin_period(self.rt, alloc, next.period(), &head)?;
        tell_left_out(self.rt, ended, self.next);
        Ok(())
    }

    // Sets the log aside of the period that ended, and writes the text of the next one.
    fn set_aside(&self, ended: &Book, next: &Book) -> Result<(), Refused>
        requires ended { ended.now.config ≡ self.now.config.now }
        requires next { next.now.config ≡ self.now.next.now }
    {
        let alloc = self.rt.alloc();
        let whole = Saved {
            book: ended,
            config: self.config,
        };
        self.file
            .expect_free(self.rt, alloc, ended.period(), &whole)?;
        self.keep_boundary(ended)?;
        let head = Saved {
            book: next,
            config: self.next,
        };
        self.file.set_aside(self.rt, alloc, next.period(), &head)?;
        tell_left_out(self.rt, ended, self.next);
        Ok(())
    }

    // Keeps what a chain of periods is judged by, before any other file of the next one is written: so wherever that has
    // begun it is what the call kept that began it.
    fn keep_boundary(&self, ended: &Book) -> Result<(), Refused> {
        let period = ended.period();
        keep_boundary(
            self.rt,
            self.file,
            self.path,
            period,
            self.config,
            self.next,
        )
    }

    // The book of the journal, where it is the one that an earlier call of this command has left.
    fn begun(&self) -> Result<Option<Book>, Refused> {
        let Some(text) = self.file.read(self.rt, self.rt.alloc())? else {
            return Ok(None);
        };
        let Some(before) = period_before(&text) else {
            return Ok(None);
        };
        match self.file.read_period(self.rt, self.rt.alloc(), before)? {
            Some(ended) => self.begun_behind(&ended, &text),
            None => Ok(None),
        }
    }

    fn begun_behind(&self, ended: &[u8], text: &[u8]) -> Result<Option<Book>, Refused> {
        let alloc = self.rt.alloc();
        match next_of_text(alloc, self.config, ended, self.next)? {
            Some(book) if self.has_begun(&book, text) => {
                self.put_again(&book)?;
                Ok(Some(book))
            }
            _ => Ok(None),
        }
    }

    // Writes the text of the next period anew, where it is there already: the call that wrote it may have failed, so that
    // the device hasn't got it.
    fn put_again(&self, book: &Book) -> Result<(), FileFault>
        requires { book.now.config ≡ self.now.next.now }
    {
        let head = Saved {
            book,
            config: self.next,
        };
        self.file.save_at_start(self.rt, self.rt.alloc(), &head)
    }

    // Whether this is the text of a book of the next configuration.
    fn has_begun(&self, book: &Book, text: &[u8]) -> bool
        requires { book.now.config ≡ self.now.next.now }
    {
        let head = Saved {
            book,
            config: self.next,
        };
        has_text(&head, text)
    }

    fn book_file(&self, config: &'r Config) -> BookFile<'r, 'r, R, F>
        ensures { result.config.now ≡ config.now }
    {
        BookFile {
            rt: self.rt,
            config,
            file: self.file,
            path: self.path,
        }
    }
}

// The number of the period before the one that a text is of, if there is one.
fn period_before(text: &[u8]) -> Option<u32> {
    let text = JournalText::begin(text).ok()?;
    text.period().checked_sub(1)
}

// The book of the period behind the one that a text is of, where it has one. It is refused for want of memory alone.
fn next_of_text(
    alloc: Global,
    config: &Config,
    ended: &[u8],
    next: &Config,
) -> Result<Option<Book>, AllocError>
    ensures { IfOk result (λ found. IfSome found (λ b. b.config ≡ next.now)) }
{
    match Book::carry_over(alloc, config, ended, 0) {
        Ok(book) => next_of_book(alloc, &book, next),
        Err(CarryFault::Memory) => Err(AllocError),
        Err(_) => Ok(None),
    }
}

fn next_of_book(alloc: Global, book: &Book, next: &Config) -> Result<Option<Book>, AllocError>
    ensures { IfOk result (λ found. IfSome found (λ b. b.config ≡ next.now)) }
{
    match book.bring_forward(alloc, next, 0) {
        Ok(book) => Ok(Some(book)),
        Err(ForwardFault::Memory) => Err(AllocError),
        Err(_) => Ok(None),
    }
}
