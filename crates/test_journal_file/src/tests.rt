//! Runs over a disk.

use ilp_accounts::LogSync;
use ilp_io::{Sink, WriteFault, put_all};
use ilp_journal_file::{Content, FileFault, JournalFile, look_at};
use ilp_line_file::{DeviceFault, LineFile};
use std::alloc::Global;
use std::io;
use std::process::Abort;
use std::test::Fail;
use test_disk::{
    Disk, EACH, Faults, Handle, JOURNAL, LIMITS, LOCK, LOG, LOG_NEW, Log, MOST_CALLS, Machine,
    NEVER, NEW, RUNNING, When, append, has, is_there, lines_of,
};

const OLD_TEXT: &[u8] = b"the text that an earlier run has saved";

const START_TEXT: &[u8] = b"that text, and behind it what the log of a run that stopped has";

const NEW_TEXT: &[u8] = b"the text of this run, which is written in several pieces";

const OLD_LOG: &[u8] = b"the head of a run that stopped\nan entry of it\nand an unfini";

/// The first line of each log.
pub(crate) const HEAD: &[u8] = b"the head of this run\n";

/// What is appended to a log, one after the other.
pub(crate) const LINES: [&[u8]; 3] = [
    b"an entry\n",
    b"two entries at once\nand with one sync\n",
    b"the last entry\n",
];

/// A log with all of them.
pub(crate) const WHOLE_LOG: &[u8] =
    b"the head of this run\nan entry\ntwo entries at once\nand with one sync\nthe last entry\n";

const REMEMBERED: &[u8] = b"what is to be remembered";

/// A text that is saved.
#[derive(Clone, Copy)]
pub(crate) struct Text(pub(crate) &'static [u8]);

impl Content for Text {
    ghost text = { λ text. text.0.now };

    fn entries(&self) -> u32 {
        7
    }

    fn put<W: Sink>(&self, sink: &mut W) -> Result<(), WriteFault> {
        put_all(sink, self.0)
    }
}

// What a run begins with.
#[derive(Clone, Copy, PartialEq, Eq, Debug)]
enum Begins {
    // The journal alone.
    Saved,
    // The journal, and the log of a run that stopped.
    Stopped,
}

// How far a run came.
#[derive(Clone, Copy, PartialEq, Eq, Debug)]
struct Came {
    // How many octets its log has for sure, once it was begun.
    kept: Option<usize>,
    is_saved: bool,
}

const NOWHERE: Came = Came {
    kept: None,
    is_saved: false,
};

// A run from its start to its end, over the disk of a machine.
fn run<'d>(machine: &'d Machine<'d>, alloc: Global) -> Came {
    let Ok(file) = JournalFile::take(machine, alloc, JOURNAL) else {
        return NOWHERE;
    };
    let Ok(mut log) = begin(machine, alloc, &file) else {
        return NOWHERE;
    };
    for lines in LINES {
        if append(&mut log, lines).is_err() {
            break;
        }
    }
    Came {
        kept: Some(log.end),
        is_saved: file.save(machine, alloc, &Text(NEW_TEXT)).is_ok(),
    }
}

/// What a run does before it serves.
pub(crate) fn begin<'d>(
    machine: &'d Machine<'d>,
    alloc: Global,
    file: &JournalFile<Handle<'d>>,
) -> Result<Log<'d>, FileFault> {
    begin_with(machine, alloc, file, LogSync::Group)
}

// The same, with syncs or without.
fn begin_with<'d>(
    machine: &'d Machine<'d>,
    alloc: Global,
    file: &JournalFile<Handle<'d>>,
    sync: LogSync,
) -> Result<Log<'d>, FileFault> {
    file.read(machine, alloc)?;
    if file.read_log(machine, alloc)?.is_some() {
        file.save_at_start(machine, alloc, &Text(START_TEXT))?;
    }
    file.remember(machine, alloc, REMEMBERED)?;
    let device = file.begin_log(machine, alloc, HEAD, sync)?;
    Ok(LineFile {
        device,
        end: HEAD.len(),
    })
}

// A disk as an earlier run left it.
fn old_disk(alloc: Global, begins: Begins, faults: Faults) -> io::Result<Disk> {
    let disk = Disk::new(alloc, faults);
    disk.put(JOURNAL, OLD_TEXT)?;
    if begins == Begins::Stopped {
        disk.put(LOG, OLD_LOG)?;
    }
    Ok(disk)
}

#[test]
fn each_call_fails_once(rt: HostRuntime) -> Result<(), Fail> {
    fail_each(&rt, Begins::Saved, 1)
}

#[test]
fn the_machine_stops_at_each_call(rt: HostRuntime) -> Result<(), Fail> {
    fail_each(&rt, Begins::Saved, u32::MAX)
}

#[test]
fn each_call_behind_a_stop_fails_once(rt: HostRuntime) -> Result<(), Fail> {
    fail_each(&rt, Begins::Stopped, 1)
}

#[test]
fn the_machine_stops_again_at_each_call(rt: HostRuntime) -> Result<(), Fail> {
    fail_each(&rt, Begins::Stopped, u32::MAX)
}

// Runs with so many calls that fail, from each call on.
fn fail_each(rt: &(impl Abort + AllocGlobal), begins: Begins, count: u32) -> Result<(), Fail> {
    for first in 0..MOST_CALLS {
        let disk = old_disk(rt.alloc(), begins, Faults { first, count })?;
        let came = run(&Machine(&disk), rt.alloc());
        for when in EACH {
            expect_whole(rt, &disk, begins, when)?;
            expect_logged(rt, &disk, begins, when, came)?;
        }
        expect_ended(rt, &disk, came)?;
        expect_told(rt, &disk)?;
        if disk.calls()? <= first {
            expect_all(rt, &disk, came)?;
            return Ok(());
        }
    }
    assert!(rt; false, "a run has more calls");
    Ok(())
}

// The journal is a whole text, and what is remembered is a front of what was written.
fn expect_whole(rt: &impl Abort, disk: &Disk, begins: Begins, when: When) -> io::Result<()> {
    let is_old = has(disk, JOURNAL, when, OLD_TEXT)? || has(disk, JOURNAL, when, NEW_TEXT)?;
    let goes_on = begins == Begins::Stopped && has(disk, JOURNAL, when, START_TEXT)?;
    assert!(rt; is_old || goes_on);
    if let Some(text) = disk.text(LOCK, when)? {
        assert!(rt; REMEMBERED.starts_with(&text));
    }
    Ok(())
}

// Each entry that was told to be on the disk is there: in the log, or in the journal where the log is gone.
fn expect_logged(
    rt: &impl Abort,
    disk: &Disk,
    begins: Begins,
    when: When,
    came: Came,
) -> io::Result<()> {
    let is_saved = has(disk, JOURNAL, When::Stopped, NEW_TEXT)?;
    let Some(log) = disk.text(LOG, when)? else {
        assert!(rt; is_saved || (came.kept.is_none() && begins == Begins::Saved));
        return Ok(());
    };
    if begins == Begins::Stopped {
        if came.kept.is_none() && log.as_slice() == OLD_LOG {
            return Ok(());
        }
        assert!(rt; is_saved || has(disk, JOURNAL, When::Stopped, START_TEXT)?);
    }
    let lines = lines_of(&log);
    assert!(rt; WHOLE_LOG.starts_with(lines));
    assert!(rt; lines.len() >= came.kept.unwrap_or(HEAD.len()));
    Ok(())
}

// A run that was saved has the new journal on the device, and no log but where a line says so.
fn expect_ended(rt: &impl Abort, disk: &Disk, came: Came) -> io::Result<()> {
    if came.kept.is_none() {
        assert!(rt; !has(disk, JOURNAL, When::Now, NEW_TEXT)?);
    }
    if came.is_saved {
        assert!(rt; has(disk, JOURNAL, When::Stopped, NEW_TEXT)?);
        let (now, stopped) = (
            is_there(disk, LOG, When::Now)?,
            is_there(disk, LOG, When::Stopped)?,
        );
        assert!(rt; (!now && !stopped) || disk.has_told("the next start removes it")?);
    } else {
        assert!(rt; is_there(disk, LOG, When::Now)? || came.kept.is_none());
    }
    Ok(())
}

// What lines say of the journal is so.
fn expect_told(rt: &impl Abort, disk: &Disk) -> io::Result<()> {
    if disk.has_told("not saved:")? || disk.has_told("nothing is lost")? {
        assert!(rt; !has(disk, JOURNAL, When::Now, NEW_TEXT)?);
    }
    if disk.has_told("it is the new one")? {
        assert!(rt; has(disk, JOURNAL, When::Now, NEW_TEXT)?);
        assert!(rt; is_there(disk, LOG, When::Now)?);
    }
    if disk.has_told("saved with 7 entries")? || disk.has_told("the next start removes it")? {
        assert!(rt; has(disk, JOURNAL, When::Stopped, NEW_TEXT)?);
    }
    Ok(())
}

// A run in which no call failed leaves the journal and what is remembered, and nothing else.
fn expect_all(rt: &impl Abort, disk: &Disk, came: Came) -> io::Result<()> {
    assert_eq!(rt; came.kept, Some(WHOLE_LOG.len()));
    assert!(rt; came.is_saved);
    assert!(rt; has(disk, LOCK, When::Stopped, REMEMBERED)?);
    for name in [LOG, LOG_NEW, NEW, RUNNING] {
        assert!(rt; !is_there(disk, name, When::Stopped)?);
    }
    Ok(())
}

#[test]
fn what_an_append_tells_is_on_the_device(rt: HostRuntime) -> Result<(), Fail> {
    for behind in 0..MOST_CALLS {
        let disk = old_disk(rt.alloc(), Begins::Saved, NEVER)?;
        if !append_where_one_fails(&rt, &disk, behind)? {
            return Ok(());
        }
    }
    Err(Fail::from("a log takes more calls"))
}

// Appends to a log where the call fails that comes behind so many, until an append is refused. Each that isn't is on
// the device then: a sync that failed is not made good by another. Whether a call failed.
fn append_where_one_fails(
    rt: &(impl Abort + AllocGlobal),
    disk: &Disk,
    behind: u32,
) -> Result<bool, Fail> {
    let machine = Machine(disk);
    let file = JournalFile::take(&machine, rt.alloc(), JOURNAL)?;
    let mut log = begin(&machine, rt.alloc(), &file)?;
    let first = disk.fail_behind(behind, 1)?;
    for lines in LINES {
        if append(&mut log, lines).is_err() {
            break;
        }
        for when in EACH {
            let text = disk.text(LOG, when)?.ok_or("no log")?;
            assert!(rt; WHOLE_LOG.starts_with(lines_of(&text)));
            assert!(rt; lines_of(&text).len() >= log.end);
        }
    }
    Ok(disk.calls()? > first)
}

// ---- what a start finds

#[test]
fn an_old_journal_is_read(rt: HostRuntime) -> Result<(), Fail> {
    let disk = old_disk(rt.alloc(), Begins::Stopped, NEVER)?;
    let machine = Machine(&disk);
    let found = look_at(&machine, rt.alloc(), JOURNAL)?;
    assert!(rt; found.text.is_some_and(|text| text.as_slice() == OLD_TEXT));
    assert!(rt; found.log.is_some_and(|text| text.as_slice() == OLD_LOG));
    assert!(rt; found.remembered.is_empty());
    assert!(rt; !is_there(&disk, LOCK, When::Now)?);
    assert!(rt; run(&machine, rt.alloc()).is_saved);
    let found = look_at(&machine, rt.alloc(), JOURNAL)?;
    assert!(rt; found.text.is_some_and(|text| text.as_slice() == NEW_TEXT));
    assert!(rt; found.log.is_none());
    assert!(rt; found.remembered.as_slice() == REMEMBERED);
    Ok(())
}

#[test]
fn what_another_has_is_refused(rt: HostRuntime) -> Result<(), Fail> {
    let mut disk = old_disk(rt.alloc(), Begins::Stopped, NEVER)?;
    disk.put(LOCK, REMEMBERED)?;
    disk.is_locked = true;
    expect_refused(&rt, &disk, "another connector has it")
}

#[test]
fn what_was_not_saved_is_refused(rt: HostRuntime) -> Result<(), Fail> {
    let mark = b"run r1, begun with 3 entries\n";
    let disk = old_disk(rt.alloc(), Begins::Stopped, NEVER)?;
    disk.put(RUNNING, mark)?;
    expect_refused(&rt, &disk, "says \"run r1, begun with 3 entries\"")?;
    assert!(rt; has(&disk, RUNNING, When::Now, mark)?);
    Ok(())
}

// A start and a look are refused, with these words, and the journal and its log stay.
fn expect_refused(rt: &(impl Abort + AllocGlobal), disk: &Disk, words: &str) -> Result<(), Fail> {
    let machine = Machine(disk);
    let looked = look_at(&machine, rt.alloc(), JOURNAL);
    assert!(rt; matches!(looked, Err(FileFault::Unread)));
    assert!(rt; disk.has_told(words)?);
    let taken = JournalFile::take(&machine, rt.alloc(), JOURNAL);
    assert!(rt; matches!(taken, Err(FileFault::Unread)));
    assert!(rt; has(disk, JOURNAL, When::Now, OLD_TEXT)?);
    assert!(rt; has(disk, LOG, When::Now, OLD_LOG)?);
    assert!(rt; !is_there(disk, NEW, When::Now)? && !is_there(disk, LOG_NEW, When::Now)?);
    Ok(())
}

// ---- a log that others reach

// What somebody does to the log of a connector that runs.
#[derive(Clone, Copy)]
enum Deed {
    Removes,
    Cuts,
    Replaces,
}

impl Deed {
    fn do_to_log(self, disk: &Disk) -> io::Result<()> {
        match self {
            Deed::Removes => disk.take_away(LOG),
            Deed::Cuts => disk.cut(LOG, HEAD.len()),
            Deed::Replaces => disk.put(LOG, HEAD),
        }
    }
}

#[test]
fn a_log_that_is_removed_takes_no_lines(rt: HostRuntime) -> Result<(), Fail> {
    expect_noticed(&rt, Deed::Removes)
}

#[test]
fn a_log_that_is_cut_takes_no_lines(rt: HostRuntime) -> Result<(), Fail> {
    expect_noticed(&rt, Deed::Cuts)
}

#[test]
fn a_log_in_whose_place_another_lies_takes_no_lines(rt: HostRuntime) -> Result<(), Fail> {
    expect_noticed(&rt, Deed::Replaces)
}

// Where somebody did this to a log, with syncs or without, nothing more is told to be on the disk, and a line
// says so.
fn expect_noticed(rt: &(impl Abort + AllocGlobal), deed: Deed) -> Result<(), Fail> {
    for sync in [LogSync::Group, LogSync::Off] {
        expect_noticed_with(rt, deed, sync)?;
    }
    Ok(())
}

fn expect_noticed_with(
    rt: &(impl Abort + AllocGlobal),
    deed: Deed,
    sync: LogSync,
) -> Result<(), Fail> {
    let disk = old_disk(rt.alloc(), Begins::Saved, NEVER)?;
    let machine = Machine(&disk);
    let file = JournalFile::take(&machine, rt.alloc(), JOURNAL)?;
    let mut log = begin_with(&machine, rt.alloc(), &file, sync)?;
    append(&mut log, LINES[0])?;
    assert!(rt; !disk.has_told("is not on the disk")?);
    deed.do_to_log(&disk)?;
    assert_eq!(rt; append(&mut log, LINES[1]), Err(DeviceFault::Failed));
    assert!(rt; disk.has_told("what is booked from here on is not on the disk")?);
    Ok(())
}

#[test]
fn a_log_is_no_larger_than_files_may_be(rt: HostRuntime) -> Result<(), Fail> {
    let disk = old_disk(rt.alloc(), Begins::Saved, NEVER)?;
    disk.put(
        LIMITS,
        b"Limit  Soft Limit  Hard Limit  Units\nMax file size  60  unlimited  bytes\n",
    )?;
    let machine = Machine(&disk);
    let file = JournalFile::take(&machine, rt.alloc(), JOURNAL)?;
    let mut log = begin(&machine, rt.alloc(), &file)?;
    append(&mut log, LINES[0])?;
    let before = disk.text(LOG, When::Now)?;
    assert_eq!(rt; append(&mut log, LINES[1]), Err(DeviceFault::Failed));
    assert!(rt; disk.text(LOG, When::Now)? == before);
    Ok(())
}
