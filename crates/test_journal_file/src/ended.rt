//! Logs of periods that end in a running connector, over a disk on which each call fails, once or from there on.

use crate::tests::Text;
use ilp_accounts::Config;
use ilp_book::Book;
use ilp_journal_file::{FileFault, JournalFile};
use ilp_refusals::Refusal;
use ilp_starting::{BookFile, Refused, keep_ended, keep_set_aside};
use std::alloc::Global;
use std::io;
use std::process::Abort;
use std::test::Fail;
use test_disk::{
    Disk, EACH, ENDED, Faults, JOURNAL, LOG, MOST_CALLS, Machine, NEVER, NEW, NEXT, PERIOD, When,
    has, is_there,
};

/// The text of a journal.
pub(crate) const OLD_TEXT: &[u8] = b"ilp-journal 1\n100 1 credited bob 6b31 7 2 7\nend 1\n";

/// A log that goes on from that text, as `sha256sum` has it.
pub(crate) const OLD_LOG: &[u8] =
    b"ilp-log 1 1 d5dff4d01fd291ab5dfadb2ff7b90cea5b28e663beee6a4432836aa0c31e439b\nrun r1; peer alice XRP 9; peer bob USD 2\n200 1 credited bob 6b32 8 2 8\n\0\0";

/// The two of them.
pub(crate) const WHOLE: &[u8] =
    b"ilp-journal 1\n100 1 credited bob 6b31 7 2 7\n200 1 credited bob 6b32 8 2 8\nend 2\n";

/// What the next period begins with.
pub(crate) const NEXT_TEXT: &[u8] =
    b"ilp-journal 2 1\n200 0 opened bob 15\n200 0 known bob 6b31 7 2 7\n200 0 known bob 6b32 8 2 8\nend 3\n";

const NEXT_LOG: &[u8] = b"a log that goes on from the next text";

const OTHER_LOG: &[u8] =
    b"ilp-log 1 0 e3b0c44298fc1c149afbf4c8996fb92427ae41e4649b934ca495991b7852b855\nrun r1\n200 1 credited bob 6b39 9 2 9\n";

/// A disk with these files.
pub(crate) fn disk_with(
    alloc: Global,
    faults: Faults,
    files: &[(&str, &[u8])],
) -> io::Result<Disk> {
    let disk = Disk::new(alloc, faults);
    for (name, text) in files {
        disk.put(name, text)?;
    }
    Ok(disk)
}

// Before a period ends.
const RUNNING: [(&str, &[u8]); 2] = [(JOURNAL, OLD_TEXT), (LOG, OLD_LOG)];

// Once the next one has begun.
const ASIDE: [(&str, &[u8]); 4] = [
    (JOURNAL, OLD_TEXT),
    (ENDED, OLD_LOG),
    (NEXT, NEXT_TEXT),
    (LOG, NEXT_LOG),
];

fn set_aside(machine: &Machine<'_>, alloc: Global) -> Result<(), FileFault> {
    let file = JournalFile::take(machine, alloc, JOURNAL)?;
    file.set_aside(machine, alloc, 1, &Text(NEXT_TEXT))
}

// Keeps what was set aside.
fn keep(machine: &Machine<'_>, alloc: Global) -> Result<(), Refused> {
    let file = JournalFile::take(machine, alloc, JOURNAL)?;
    keep_ended(machine, &file, JOURNAL)
}

// Keeps what was set aside, of the book of the period that ended.
fn keep_of_book(machine: &Machine<'_>, alloc: Global) -> Result<(), Refused> {
    let Some(config) = two_peers(alloc) else {
        return Err(Refused::from(Refusal::ConfigUnread));
    };
    let Ok(book) = Book::carry_over(alloc, &config, WHOLE, 300) else {
        return Err(Refused::from(Refusal::JournalUnread));
    };
    let file = JournalFile::take(machine, alloc, JOURNAL)?;
    keep_set_aside(machine, &file, &book)
}

// Of what the text of a period is made.
#[derive(Clone, Copy)]
enum Source {
    Files,
    Book,
}

impl Source {
    // Keeps what was set aside.
    fn keep(self, machine: &Machine<'_>, alloc: Global) -> Result<(), Refused> {
        match self {
            Source::Files => keep(machine, alloc),
            Source::Book => keep_of_book(machine, alloc),
        }
    }
}

#[test]
fn each_call_fails_once_where_a_log_is_set_aside(rt: HostRuntime) -> Result<(), Fail> {
    fail_aside(&rt, 1)
}

#[test]
fn the_machine_stops_where_a_log_is_set_aside(rt: HostRuntime) -> Result<(), Fail> {
    fail_aside(&rt, u32::MAX)
}

// Sets a log aside with so many calls that fail, from each call on. What a machine that stops then has is kept.
fn fail_aside(rt: &(impl Abort + AllocGlobal), count: u32) -> Result<(), Fail> {
    for first in 0..MOST_CALLS {
        let disk = disk_with(rt.alloc(), Faults { first, count }, &RUNNING)?;
        let is_aside = set_aside(&Machine(&disk), rt.alloc()).is_ok();
        for when in EACH {
            let has_begun = expect_log(rt, &disk, when)?;
            assert!(rt; has_begun || !is_aside);
            let left = Disk::new(rt.alloc(), NEVER);
            disk.put_on(&left, when)?;
            keep(&Machine(&left), rt.alloc())?;
            expect_start(rt, &left, has_begun)?;
        }
        if disk.calls()? <= first {
            assert!(rt; is_aside);
            return Ok(());
        }
    }
    Err(Fail::from("it takes more calls"))
}

// The log has one of its names, and with the other one the next text is there. Whether the next period has begun.
fn expect_log(rt: &impl Abort, disk: &Disk, when: When) -> Result<bool, Fail> {
    assert!(rt; has(disk, JOURNAL, when, OLD_TEXT)?);
    let has_begun = has(disk, ENDED, when, OLD_LOG)?;
    assert!(rt; has(disk, LOG, when, OLD_LOG)? != has_begun);
    assert!(rt; !has_begun || has(disk, NEXT, when, NEXT_TEXT)?);
    Ok(has_begun)
}

// What a start goes on from: the period that went on, or the next one beside that.
fn expect_start(rt: &impl Abort, disk: &Disk, has_begun: bool) -> Result<(), Fail> {
    if has_begun {
        return expect_kept(rt, disk);
    }
    assert!(rt; has(disk, JOURNAL, When::Stopped, OLD_TEXT)?);
    assert!(rt; has(disk, LOG, When::Stopped, OLD_LOG)?);
    assert!(rt; !is_there(disk, PERIOD, When::Now)?);
    Ok(())
}

// The journal is the next one, and the period before is kept as a whole.
fn expect_kept(rt: &impl Abort, disk: &Disk) -> Result<(), Fail> {
    assert!(rt; has(disk, JOURNAL, When::Stopped, NEXT_TEXT)?);
    assert!(rt; has(disk, PERIOD, When::Stopped, WHOLE)?);
    for gone in [ENDED, NEXT, NEW] {
        assert!(rt; !is_there(disk, gone, When::Now)?);
    }
    Ok(())
}

#[test]
fn each_call_fails_once_where_a_period_is_kept(rt: HostRuntime) -> Result<(), Fail> {
    fail_keeping(&rt, Source::Files, 1)
}

#[test]
fn the_machine_stops_where_a_period_is_kept(rt: HostRuntime) -> Result<(), Fail> {
    fail_keeping(&rt, Source::Files, u32::MAX)
}

#[test]
fn each_call_fails_once_where_a_period_is_kept_of_its_book(rt: HostRuntime) -> Result<(), Fail> {
    fail_keeping(&rt, Source::Book, 1)
}

#[test]
fn the_machine_stops_where_a_period_is_kept_of_its_book(rt: HostRuntime) -> Result<(), Fail> {
    fail_keeping(&rt, Source::Book, u32::MAX)
}

// Keeps a period with so many calls that fail, from each call on, and then again what a machine that stops has, of its
// files; and where one call failed, what the same machine has.
fn fail_keeping(rt: &(impl Abort + AllocGlobal), source: Source, count: u32) -> Result<(), Fail> {
    for first in 0..MOST_CALLS {
        let disk = disk_with(rt.alloc(), Faults { first, count }, &ASIDE)?;
        let is_kept = source.keep(&Machine(&disk), rt.alloc()).is_ok();
        let is_whole = disk.calls()? <= first;
        for when in EACH {
            expect_either(rt, &disk, when)?;
            let left = Disk::new(rt.alloc(), NEVER);
            disk.put_on(&left, when)?;
            keep(&Machine(&left), rt.alloc())?;
            expect_kept(rt, &left)?;
            assert!(rt; has(&left, LOG, When::Stopped, NEXT_LOG)?);
        }
        if is_whole {
            assert!(rt; is_kept);
            return expect_kept(rt, &disk);
        }
        if count == 1 {
            // What a sync was to write that failed is written by no later one.
            keep(&Machine(&disk), rt.alloc())?;
            expect_kept(rt, &disk)?;
        }
    }
    Err(Fail::from("it takes more calls"))
}

// The journal is the old one beside what was set aside, or the next one beside the whole text.
fn expect_either(rt: &impl Abort, disk: &Disk, when: When) -> Result<(), Fail> {
    let is_kept = has(disk, PERIOD, when, WHOLE)?;
    assert!(rt; is_kept || !is_there(disk, PERIOD, when)?);
    if has(disk, JOURNAL, when, OLD_TEXT)? {
        assert!(rt; has(disk, ENDED, when, OLD_LOG)? && has(disk, NEXT, when, NEXT_TEXT)?);
    } else {
        assert!(rt; is_kept && has(disk, JOURNAL, when, NEXT_TEXT)?);
    }
    Ok(())
}

const TWO_PEERS: &str = r#"address = "test.hub"
run = "r1"
[[asset]]
code = "USD"
scale = 2
[[asset]]
code = "XRP"
scale = 9
[[peer]]
name = "alice"
asset = "XRP/9"
token = "a-token"
out_token = "to-alice"
host = "127.0.0.1:7001"
least = 0
[[peer]]
name = "bob"
asset = "USD/2"
token = "b-token"
out_token = "to-bob"
host = "127.0.0.1:7002"
least = 0
"#;

/// A configuration of two peers.
pub(crate) fn two_peers(alloc: Global) -> Option<Config> {
    Config::read(alloc, TWO_PEERS.as_bytes()).ok()
}

// Goes on with the book of this text, over a disk.
fn go_on(rt: &(impl Abort + AllocGlobal), disk: &Disk, text: &[u8]) -> Result<(), Fail> {
    let alloc = rt.alloc();
    let Some(config) = two_peers(alloc) else {
        panic!(rt; "no configuration");
    };
    let Ok(book) = Book::carry_over(alloc, &config, text, 300) else {
        panic!(rt; "no book");
    };
    let machine = Machine(disk);
    let taken = JournalFile::take(&machine, alloc, JOURNAL)?;
    let file = BookFile {
        rt: &machine,
        config: &config,
        file: &taken,
        path: JOURNAL,
    };
    file.go_on(&book)?;
    Ok(())
}

#[test]
fn a_period_before_the_one_that_goes_on_is_kept_first(rt: HostRuntime) -> Result<(), Fail> {
    let disk = disk_with(rt.alloc(), NEVER, &ASIDE)?;
    go_on(&rt, &disk, NEXT_TEXT)?;
    expect_kept(&rt, &disk)
}

#[test]
fn what_a_period_was_to_begin_with_goes_where_the_one_before_goes_on(
    rt: HostRuntime,
) -> Result<(), Fail> {
    let disk = disk_with(rt.alloc(), NEVER, &ASIDE)?;
    disk.take_away(LOG)?;
    go_on(&rt, &disk, WHOLE)?;
    assert!(rt; has(&disk, JOURNAL, When::Stopped, WHOLE)?);
    for gone in [ENDED, NEXT, PERIOD] {
        assert!(rt; !is_there(&disk, gone, When::Stopped)?);
    }
    Ok(())
}

#[test]
fn a_log_behind_which_nothing_begins_is_taken_back(rt: HostRuntime) -> Result<(), Fail> {
    let disk = disk_with(rt.alloc(), NEVER, &ASIDE)?;
    disk.take_away(NEXT)?;
    disk.take_away(LOG)?;
    keep(&Machine(&disk), rt.alloc())?;
    assert!(rt; has(&disk, LOG, When::Now, OLD_LOG)?);
    assert!(rt; has(&disk, JOURNAL, When::Now, OLD_TEXT)?);
    assert!(rt; !is_there(&disk, ENDED, When::Now)?);
    Ok(())
}

#[test]
fn a_log_goes_of_which_the_journal_has_all(rt: HostRuntime) -> Result<(), Fail> {
    let disk = disk_with(rt.alloc(), NEVER, &[(JOURNAL, WHOLE), (ENDED, OLD_LOG)])?;
    keep(&Machine(&disk), rt.alloc())?;
    assert!(rt; has(&disk, JOURNAL, When::Now, WHOLE)?);
    assert!(rt; !is_there(&disk, ENDED, When::Now)?);
    Ok(())
}

#[test]
fn what_is_of_another_journal_stays(rt: HostRuntime) -> Result<(), Fail> {
    let other = [(JOURNAL, NEXT_TEXT), (ENDED, OLD_LOG)];
    expect_refused(&rt, &other)?;
    expect_refused(
        &rt,
        &[(JOURNAL, NEXT_TEXT), (ENDED, OLD_LOG), (PERIOD, OLD_TEXT)],
    )?;
    expect_refused(
        &rt,
        &[(JOURNAL, OLD_TEXT), (ENDED, OTHER_LOG), (NEXT, NEXT_TEXT)],
    )?;
    expect_refused(
        &rt,
        &[(JOURNAL, OLD_TEXT), (ENDED, OLD_LOG), (LOG, NEXT_LOG)],
    )?;
    expect_refused(&rt, &PERIOD_DIFFERS)?;
    expect_refused_from(&rt, Source::Book, &PERIOD_DIFFERS)
}

// Where another text is kept of the period.
const PERIOD_DIFFERS: [(&str, &[u8]); 4] = [
    (JOURNAL, OLD_TEXT),
    (ENDED, OLD_LOG),
    (NEXT, NEXT_TEXT),
    (PERIOD, OLD_TEXT),
];

// It is refused, and all files stay.
fn expect_refused(rt: &(impl Abort + AllocGlobal), files: &[(&str, &[u8])]) -> Result<(), Fail> {
    expect_refused_from(rt, Source::Files, files)
}

fn expect_refused_from(
    rt: &(impl Abort + AllocGlobal),
    source: Source,
    files: &[(&str, &[u8])],
) -> Result<(), Fail> {
    let disk = disk_with(rt.alloc(), NEVER, files)?;
    let kept = source.keep(&Machine(&disk), rt.alloc());
    assert!(rt; kept.is_err_and(|refused| refused.refusal == Refusal::JournalUnread));
    for (name, text) in files {
        assert!(rt; has(&disk, name, When::Now, text)?);
    }
    Ok(())
}
