//! The book that lies in a journal's file and in the log beside it: how a run begins with it, and how it
//! is kept in the end.
ghost use Rattle.std.specs.Prelude.{◌≡◌, length, IfOk};
ghost use Rattle.ilp_line_file.specs.Text.{text_of};
ghost use Rattle.ilp_log_text.specs.Head.{head_lines};
ghost use Rattle.ilp_starting.specs.GoingOn.{GoesOnFrom, IsAlone, IsKeptText};

use crate::carrying::Carried;
use crate::ended::{forget_next, keep_ended};
use crate::finding::last_found;
use crate::refused::Refused;
use crate::saved::Saved;
use crate::warning::{JournalWarnings, Telling};
use ilp_accounts::Config;
use ilp_book::Book;
use ilp_journal_file::{FileFault, Found, JournalFile, LogDevice, PlacesFiles, has_text};
use ilp_line_file::{Device, LineFile};
use ilp_log::{BegunLog, LogStart};
use ilp_log_text::head_text;
use ilp_notices::{journal_absent, journal_carried, journal_unread};
use ilp_refusals::Refusal;
use ilp_remembered::remembered_text;
use std::fs::OpenFile;
use std::io;
use std::io::{Eprint, ErrorKind, Print, Read, Seek, Write};
use std::rt::Files;

/// A journal's file, which no other connector has, and the configuration by which its book is read.
#[derive(Clone, Copy)]
pub struct BookFile<'r, 'f, R, F> {
    pub rt: &'r R,
    pub config: &'f Config,
    pub file: &'f JournalFile<F>,
    /// The path of the file, as lines tell it.
    pub path: &'f str,
}

// How sure it is that the device has by its name what the system shows of a journal's file.
#[derive(Clone, Copy, PartialEq, Eq)]
enum Standing {
    // A connector has ended behind it, or none has run yet.
    Saved,
    // A call may have failed to write it.
    Unsure,
}

/// A book with which a run begins, and the log that goes on from it.
#[derive(Drop)]
pub struct Begun<D: Device + Drop> {
    pub book: Book,
    pub log: BegunLog<D>,
}

impl<'r, R, F> BookFile<'r, '_, R, F>
where
    R: AllocGlobal
        + Files<File = F>
        + PlacesFiles<File = F>
        + std::time::Clock
        + Print
        + Eprint
        + Copy,
    F: Read + Write + Seek + OpenFile + Drop,
{
    /// The book that the file and its log have. It is told how many entries that begins with, and what
    /// there is to say of a sudden stop. The configuration is remembered beside the file, which is saved
    /// anew where it has not just these entries, or a log lies beside it. A log goes on from there.
    ///
    /// A sudden stop of the machine in between leaves what a start finds the same book in.
    ///
    /// Refusals: those of `book_of`; `JournalUnread`, also where a text lies beside it that it lacks, and where the log is
    /// another by then than was read, and `WriteFault`, of which a line on standard error says more.
    pub fn begin(&self) -> Result<Begun<LogDevice<'r, R, F>>, Refused>
        ensures config { IfOk result (λ b. b.book.config ≡ self.now.config.now) }
        ensures opening { IfOk result (λ b. length b.book.entries ≡ b.book.base) }
        ensures goes_on { IfOk result (λ b. GoesOnFrom self.now.config.now b.book b.log) }
        ensures alone { R.PlacesFiles.claims → IfOk result (λ b. IsAlone
            ⟦<LogDevice<'r, R, F> as Device>⟧.seen ⟦<LogDevice<'r, R, F> as Device>⟧.may_leave b.log) }
    {
        keep_ended(self.rt, self.file, self.path)?;
        let book = self.carried()?;
        let log = self.go_on_from(&book, self.standing())?;
        match self.forget_kept(&book) {
            Ok(()) => Ok(Begun { book, log }),
            Err(fault) => Err(Refused::from(fault)),
        }
    }

    // How sure it is that the device has what the system shows of the file.
    fn standing(&self) -> Standing {
        if self.file.may_have_log(self.rt) {
            Standing::Unsure
        } else {
            Standing::Saved
        }
    }

    // This book's period goes on, and the file has its text: so another of it that is kept beside goes.
    fn forget_kept(&self, book: &Book) -> Result<(), FileFault>
        requires { book.now.config ≡ self.now.config.now }
    {
        let own = Saved {
            book,
            config: self.config,
        };
        let (rt, alloc) = (self.rt, self.rt.alloc());
        self.file.forget_period(rt, alloc, book.period(), &own)
    }

    /// The book of a journal whose books are to be closed: the one with which a run would begin, so no hold is
    /// open in it. What there is to say of a sudden stop is told. Nothing is changed.
    ///
    /// Refusals: those of `book_of`; `JournalUnread` where there is neither a file nor a log, or the file can't be
    /// used, of which a line on standard error says more.
    pub fn ending(&self) -> Result<Book, Refused>
        ensures config { IfOk result (λ b. b.config ≡ self.now.config.now) }
        ensures opening { IfOk result (λ b. length b.entries ≡ b.base) }
    {
        let found = self.found()?;
        if found.text.is_none() && found.log.is_none() {
            let absent = io::Error::from(ErrorKind::NotFound);
            journal_unread(self.rt, self.path, &absent);
            return Err(Refused::from(Refusal::JournalUnread));
        }
        match last_found(self.rt, self.config, self.path, &found) {
            Ok(carried) => {
                carried.tell(self.rt, self.path, Telling::Line);
                let Carried { book, source: _ } = carried;
                Ok(book)
            }
            Err(refused) => Err(refused),
        }
    }

    /// Has the file have the text of this book, and no log stand beside it. A book in which nothing was booked
    /// needs no file.
    ///
    /// Refusals: `WriteFault` where a file can't be written or the log can't be removed, of which a line says
    /// more; `JournalUnread`; `Memory`.
    pub fn settle(&self, book: &Book) -> Result<(), Refused>
        requires { book.now.config ≡ self.now.config.now }
    {
        self.saved_text(book, self.standing())?;
        match self.file.expect_no_log(self.rt) {
            Ok(()) => Ok(()),
            Err(fault) => Err(Refused::from(fault)),
        }
    }

    /// Has the configuration remembered, and begins a log that goes on from this book, whose text the file is given
    /// then, whatever it has: an earlier call may have failed to write what the system shows. A period before it is
    /// kept first, and what one behind it was to begin with goes. So does a text that is kept beside the file of this
    /// period, once the device has the file. Where that can't go a line says so, and it is in the way of the period's end.
    ///
    /// Refusals: `WriteFault` and `JournalUnread`, of which a line on standard error says more; `Memory`. What was
    /// booked stands in the files as before, or in these.
    pub fn go_on(&self, book: &Book) -> Result<BegunLog<LogDevice<'r, R, F>>, Refused>
        requires { book.now.config ≡ self.now.config.now }
        ensures goes_on { IfOk result (GoesOnFrom self.now.config.now book.now) }
        ensures alone { R.PlacesFiles.claims → IfOk result
            (IsAlone ⟦<LogDevice<'r, R, F> as Device>⟧.seen ⟦<LogDevice<'r, R, F> as Device>⟧.may_leave) }
    {
        let log = self.go_on_from(book, Standing::Unsure)?;
        let _ = self.forget_kept(book);
        Ok(log)
    }

    // The same, where the file is so sure.
    fn go_on_from(
        &self,
        book: &Book,
        standing: Standing,
    ) -> Result<BegunLog<LogDevice<'r, R, F>>, Refused>
        requires { book.now.config ≡ self.now.config.now }
        ensures goes_on { IfOk result (GoesOnFrom self.now.config.now book.now) }
        ensures alone { R.PlacesFiles.claims → IfOk result
            (IsAlone ⟦<LogDevice<'r, R, F> as Device>⟧.seen ⟦<LogDevice<'r, R, F> as Device>⟧.may_leave) }
    {
        forget_next(self.rt, self.file, book.period())?;
        keep_ended(self.rt, self.file, self.path)?;
        self.remember()?;
        let text = self.saved_text(book, standing)?;
        self.begin_log(book.len(), &text)
    }

    /// The same behind a period whose log was set aside, with the book that the next one begins with: the journal is
    /// what has just that text beside the file.
    ///
    /// Refusals: those of `go_on`; `JournalUnread` where it isn't there.
    pub fn go_on_aside(&self, book: &Book) -> Result<BegunLog<LogDevice<'r, R, F>>, Refused>
        requires { book.now.config ≡ self.now.config.now }
        ensures goes_on { IfOk result (GoesOnFrom self.now.config.now book.now) }
        ensures alone { R.PlacesFiles.claims → IfOk result
            (IsAlone ⟦<LogDevice<'r, R, F> as Device>⟧.seen ⟦<LogDevice<'r, R, F> as Device>⟧.may_leave) }
    {
        let rt = self.rt;
        self.remember()?;
        let head = Saved {
            book,
            config: self.config,
        };
        match self.file.read_next(rt, rt.alloc())? {
            Some(text) if has_text(&head, &text) => self.begin_log(book.len(), &text),
            _ => {
                journal_unread(rt, self.path, &io::Error::from(ErrorKind::NotFound));
                Err(Refused::from(Refusal::JournalUnread))
            }
        }
    }

    /// Has the configuration remembered beside the file.
    ///
    /// Refusals: `WriteFault` and `JournalUnread`, of which a line on standard error says more; `Memory`.
    pub fn remember(&self) -> Result<(), Refused> {
        let alloc = self.rt.alloc();
        let text = remembered_text(alloc, self.config)?;
        match self.file.remember(self.rt, alloc, text.as_bytes()) {
            Ok(()) => Ok(()),
            Err(fault) => Err(Refused::from(fault)),
        }
    }

    // The book of what is found, of which what there is to say is told.
    fn carried(&self) -> Result<Book, Refused>
        ensures config { IfOk result (λ b. b.config ≡ self.now.config.now) }
        ensures opening { IfOk result (λ b. length b.entries ≡ b.base) }
    {
        let found = self.found()?;
        match last_found(self.rt, self.config, self.path, &found) {
            Ok(carried) => {
                self.expect_still(&found)?;
                self.tell(&carried, found.text.is_some());
                let Carried { book, source: _ } = carried;
                Ok(book)
            }
            Err(refused) => Err(refused),
        }
    }

    // Finds that the log is still what was found: nobody else writes to it.
    fn expect_still(&self, found: &Found) -> Result<(), FileFault> {
        let octets = match &found.log {
            Some(log) => Some(log.len()),
            None => None,
        };
        self.file.expect_still_log(self.rt, octets)
    }

    // Tells with what a run begins, and whether there was a file.
    fn tell(&self, carried: &Carried, is_there: bool) {
        let (rt, book) = (self.rt, &carried.book);
        carried.tell(rt, self.path, Telling::Notice);
        if !is_there && book.len() == 0 {
            journal_absent(rt, self.path);
        } else {
            journal_carried(rt, self.path, book.len());
            JournalWarnings::of(rt, book).tell(rt, self.path, Telling::Notice);
        }
    }

    fn found(&self) -> Result<Found, FileFault> {
        let rt = self.rt;
        Ok(Found {
            text: self.file.read(rt, rt.alloc())?,
            log: self.file.read_log(rt, rt.alloc())?,
            remembered: self.file.remembered(rt, rt.alloc())?,
        })
    }

    // Begins a log that goes on from this text of so many entries.
    fn begin_log(&self, base: u32, text: &[u8]) -> Result<BegunLog<LogDevice<'r, R, F>>, Refused>
        ensures base { IfOk result (λ log. log.start.base ≡ base) }
        ensures head { IfOk result (λ log. log.start.head.items
            ≡ text_of (head_lines self.now.config.now base text.now)) }
        ensures alone { R.PlacesFiles.claims → IfOk result
            (IsAlone ⟦<LogDevice<'r, R, F> as Device>⟧.seen ⟦<LogDevice<'r, R, F> as Device>⟧.may_leave) }
    {
        let rt = self.rt;
        let head = head_text(rt.alloc(), self.config, base, text)?.into_bytes();
        let sync = self.config.sync();
        let device = self.file.begin_log(rt, rt.alloc(), &head, sync)?;
        let file = LineFile {
            device,
            end: head.len(),
        };
        Ok(BegunLog {
            file,
            start: LogStart { head, base },
        })
    }

    // The text of the file, once it is that of the book and the device has it. It is saved where it isn't, or where the
    // file is not so sure; a book in which nothing was booked needs no file.
    fn saved_text(&self, book: &Book, standing: Standing) -> Result<Vec<u8>, Refused>
        requires { book.now.config ≡ self.now.config.now }
        ensures { IfOk result (λ text. IsKeptText self.now.config.now book.now text.items) }
    {
        let rt = self.rt;
        let saved = Saved {
            book,
            config: self.config,
        };
        match self.file.read(rt, rt.alloc())? {
            Some(text) if standing == Standing::Saved && has_text(&saved, &text) => {
                return Ok(text);
            }
            None if book.len() == 0 => return Ok(Vec::new(rt.alloc())),
            _ => {}
        }
        self.file.save_at_start(rt, rt.alloc(), &saved)?;
        match self.file.read(rt, rt.alloc())? {
            Some(text) if has_text(&saved, &text) => Ok(text),
            _ => Err(Refused::from(Refusal::JournalUnread)),
        }
    }

    /// Saves the journal of a book that was closed, and removes the log. A period before it is kept first.
    ///
    /// Refusals: `WriteFault` where the file can't be written to the last, of which a line says more;
    /// `JournalUnread`; `Memory`.
    pub fn end(&self, book: &Book) -> Result<(), Refused>
        requires config { book.now.config ≡ self.now.config.now }
    {
        let rt = self.rt;
        keep_ended(rt, self.file, self.path)?;
        let saved = Saved {
            book,
            config: self.config,
        };
        match self.file.save(rt, rt.alloc(), &saved) {
            Ok(()) => Ok(()),
            Err(fault) => Err(Refused::from(fault)),
        }
    }
}
