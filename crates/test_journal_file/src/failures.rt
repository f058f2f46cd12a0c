//! Periods that can't end in a running connector, over a disk on which each call fails, once or from there on: the one
//! that goes on has all that it had, at each moment, for whoever starts then.

ghost use Rattle.std.specs.Prelude.{◌≡◌, IfSome};

use crate::ended::{OLD_LOG, OLD_TEXT, WHOLE, disk_with, two_peers};
use ilp_accounts::Config;
use ilp_book::Book;
use ilp_journal_file::JournalFile;
use ilp_new_period::{Kept, keep_behind, next_of};
use ilp_starting::{BookFile, Refused};
use std::process::Abort;
use std::test::Fail;
use test_disk::{
    Disk, EACH, Handle, JOURNAL, LOG, MOST_CALLS, Machine, NEVER, PERIOD, When, has, is_there,
};

// How often what can't be written is tried.
const TRIES: u32 = 3;

const BOB: u32 = 1;

// What bob is owed by the whole text, by which he has sent 7 and 8.
const OWED: i128 = 15;

// A log that could not take the last entry.
const FAILED_LOG: &[u8] =
    b"ilp-log 1 1 d5dff4d01fd291ab5dfadb2ff7b90cea5b28e663beee6a4432836aa0c31e439b\nrun r1; peer alice XRP 9; peer bob USD 2\n";

// What the log of the period that ends has.
#[derive(Clone, Copy)]
enum Logged {
    // All of it, so that it is set aside.
    All,
    // All but for the last entry.
    NotAll,
}

impl Logged {
    fn log(self) -> &'static [u8] {
        match self {
            Logged::All => OLD_LOG,
            Logged::NotAll => FAILED_LOG,
        }
    }

    // What bob is owed by what the files have.
    fn owed(self) -> i128 {
        match self {
            Logged::All => OWED,
            Logged::NotAll => 7,
        }
    }
}

// A connector that runs over a disk, whose period ends.
#[derive(Clone, Copy)]
struct Running<'d> {
    machine: &'d Machine<'d>,
    config: &'d Config,
    file: &'d JournalFile<Handle<'d>>,
}

impl<'d> Running<'d> {
    fn book_file(&self) -> BookFile<'d, 'd, Machine<'d>, Handle<'d>>
        ensures { result.config.now ≡ self.now.config.now }
    {
        BookFile {
            rt: self.machine,
            config: self.config,
            file: self.file,
            path: JOURNAL,
        }
    }

    // Ends the period of this book, and goes on with the next, or with this one where none can begin. Whether it could
    // go on in so many tries.
    fn end(&self, book: &Book, logged: Logged) -> Result<bool, Refused>
        requires { book.now.config ≡ self.now.config.now }
    {
        let next = next_of(self.config.allocator(), book, self.config)?;
        let is_logged = matches!(logged, Logged::All);
        match keep_behind(self.machine, self.file, JOURNAL, book, &next, is_logged) {
            Ok(kept) => Ok(self.go_on(&next, kept)),
            Err(_) => Ok(self.go_on(book, Kept::Whole)),
        }
    }

    // Begins a log behind this book, in so many tries. Whether one began.
    fn go_on(&self, book: &Book, kept: Kept) -> bool
        requires { book.now.config ≡ self.now.config.now }
    {
        for _ in 0..TRIES {
            let begun = match kept {
                Kept::Whole => self.book_file().go_on(book),
                Kept::Aside => self.book_file().go_on_aside(book),
            };
            if begun.is_ok() {
                return true;
            }
        }
        false
    }
}

// The book of the whole text.
fn whole_book(config: &Config) -> Option<Book>
    ensures { IfSome result (λ book. book.config ≡ config.now) }
{
    Book::carry_over(config.allocator(), config, WHOLE, 0).ok()
}

// Which calls fail, of those that an end makes: so many behind so many that don't.
#[derive(Clone, Copy)]
struct Failing {
    behind: u32,
    count: u32,
}

// Ends a period over a disk. Whether the connector could go on, and whether no call of it failed.
fn end(
    rt: &impl Abort,
    disk: &Disk,
    config: &Config,
    logged: Logged,
    failing: Failing,
) -> Result<(bool, bool), Fail> {
    let machine = Machine(disk);
    let file = JournalFile::take(&machine, config.allocator(), JOURNAL)?.serving();
    let Some(book) = whole_book(config) else {
        panic!(rt; "no book");
    };
    let first = disk.fail_behind(failing.behind, failing.count)?;
    let running = Running {
        machine: &machine,
        config,
        file: &file,
    };
    let goes_on = running.end(&book, logged)?;
    Ok((goes_on, disk.calls()? <= first))
}

#[test]
fn each_call_fails_once_where_a_logged_period_ends(rt: HostRuntime) -> Result<(), Fail> {
    fail_each(&rt, Logged::All, 1)
}

#[test]
fn all_calls_fail_from_each_on_where_a_logged_period_ends(rt: HostRuntime) -> Result<(), Fail> {
    fail_each(&rt, Logged::All, u32::MAX)
}

#[test]
fn each_call_fails_once_where_a_period_ends_whose_log_lacks_an_entry(
    rt: HostRuntime,
) -> Result<(), Fail> {
    fail_each(&rt, Logged::NotAll, 1)
}

#[test]
fn all_calls_fail_from_each_on_where_a_period_ends_whose_log_lacks_an_entry(
    rt: HostRuntime,
) -> Result<(), Fail> {
    fail_each(&rt, Logged::NotAll, u32::MAX)
}

// Ends a period with so many calls that fail, from each call on.
fn fail_each(rt: &(impl Abort + AllocGlobal), logged: Logged, count: u32) -> Result<(), Fail> {
    let Some(config) = two_peers(rt.alloc()) else {
        panic!(rt; "no configuration");
    };
    for behind in 0..MOST_CALLS {
        let disk = disk_with(
            rt.alloc(),
            NEVER,
            &[(JOURNAL, OLD_TEXT), (LOG, logged.log())],
        )?;
        let (goes_on, is_whole) = end(rt, &disk, &config, logged, Failing { behind, count })?;
        // One call that fails is done again.
        assert!(rt; goes_on || count > 1);
        for when in EACH {
            expect_start(rt, &disk, &config, when, logged, goes_on)?;
        }
        if is_whole {
            return Ok(());
        }
    }
    Err(Fail::from("an end has more calls"))
}

// What a start begins with: the number of its period, and what bob is owed.
#[derive(Clone, Copy)]
struct Begins {
    period: u32,
    owed: i128,
}

// What a start over this disk begins with.
fn begin(disk: &Disk, config: &Config) -> Result<Begins, Refused> {
    let machine = Machine(disk);
    let file = JournalFile::take(&machine, config.allocator(), JOURNAL)?;
    let begun = BookFile {
        rt: &machine,
        config,
        file: &file,
        path: JOURNAL,
    }
    .begin()?;
    Ok(Begins {
        period: begun.book.period(),
        owed: begun.book.balance(BOB),
    })
}

// Who starts over what is there then has all that the files had, or all that was booked where the connector goes on: in
// the journal and its log, or in the next one beside the whole text.
fn expect_start(
    rt: &(impl Abort + AllocGlobal),
    disk: &Disk,
    config: &Config,
    when: When,
    logged: Logged,
    goes_on: bool,
) -> Result<(), Fail> {
    let left = Disk::new(rt.alloc(), NEVER);
    disk.put_on(&left, when)?;
    let begins = begin(&left, config)?;
    if begins.period > 0 {
        assert!(rt; has(&left, PERIOD, When::Now, WHOLE)?);
    } else {
        assert!(rt; !is_there(&left, PERIOD, When::Now)?);
    }
    let is_whole = begins.owed == OWED;
    assert!(rt; is_whole || (!goes_on && begins.owed == logged.owed()));
    Ok(())
}
