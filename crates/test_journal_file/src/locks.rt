//! A lock that somebody removes or replaces under a connector that has the journal, over a disk.

use crate::renewals::renew;
use crate::tests::{HEAD, LINES, Text, begin};
use ilp_journal_file::{FileFault, JournalFile};
use ilp_line_file::DeviceFault;
use std::process::Abort;
use std::test::Fail;
use test_disk::{
    Disk, ENDED, JOURNAL, LOCK, LOG, LOG_NEW, Log, Machine, NEVER, NEW, NEXT, PERIOD, When, append,
    has, is_there,
};

const SAVED: &[u8] = b"the text of a journal";

const OTHER: &[u8] = b"what another connector books";

const IS_LOST: &str = "was removed or replaced, so another connector may have it";

// What becomes of the lock.
#[derive(Clone, Copy)]
enum Deed {
    Removed,
    Replaced,
}

impl Deed {
    fn do_to_lock(self, disk: &Disk) -> std::io::Result<()> {
        match self {
            Deed::Removed => disk.take_away(LOCK),
            Deed::Replaced => disk.put(LOCK, OTHER),
        }
    }
}

fn saved_disk(rt: &impl AllocGlobal) -> Result<Disk, Fail> {
    let disk = Disk::new(rt.alloc(), NEVER);
    disk.put(JOURNAL, SAVED)?;
    Ok(disk)
}

#[test]
fn nothing_is_written_behind_a_lock_that_is_gone(rt: HostRuntime) -> Result<(), Fail> {
    expect_untouched(&rt, Deed::Removed)
}

#[test]
fn nothing_is_written_behind_a_lock_that_was_replaced(rt: HostRuntime) -> Result<(), Fail> {
    expect_untouched(&rt, Deed::Replaced)
}

// Whoever had the lock changes no file any more, and a line says so.
fn expect_untouched(rt: &(impl Abort + AllocGlobal), deed: Deed) -> Result<(), Fail> {
    let disk = saved_disk(rt)?;
    for name in [ENDED, NEXT, LOG] {
        disk.put(name, OTHER)?;
    }
    let machine = Machine(&disk);
    let file = JournalFile::take(&machine, rt.alloc(), JOURNAL)?;
    deed.do_to_lock(&disk)?;
    let (alloc, text) = (rt.alloc(), Text(HEAD));
    for refused in [
        file.save(&machine, alloc, &text),
        file.save_at_start(&machine, alloc, &text),
        file.keep_period(&machine, alloc, 0, &text),
        file.begin_period(&machine, alloc, 1, &text),
        file.set_aside(&machine, alloc, 1, &text),
        file.take_back(&machine),
        file.begin_next(&machine),
        file.remove_ended(&machine),
        file.forget_next(&machine),
        file.expect_no_log(&machine),
        file.remember(&machine, alloc, OTHER),
    ] {
        assert_eq!(rt; refused, Err(FileFault::Unread));
    }
    assert!(rt; disk.has_told(IS_LOST)?);
    assert!(rt; has(&disk, JOURNAL, When::Now, SAVED)?);
    for name in [ENDED, NEXT, LOG] {
        assert!(rt; has(&disk, name, When::Now, OTHER)?);
    }
    for name in [NEW, LOG_NEW, PERIOD] {
        assert!(rt; !is_there(&disk, name, When::Now)?);
    }
    Ok(())
}

#[test]
fn two_connectors_do_not_take_turns_over_a_log(rt: HostRuntime) -> Result<(), Fail> {
    let disk = saved_disk(&rt)?;
    let machine = Machine(&disk);
    let first = JournalFile::take(&machine, rt.alloc(), JOURNAL)?;
    let mut log = begin(&machine, rt.alloc(), &first)?;
    append(&mut log, LINES[0])?;
    Deed::Removed.do_to_lock(&disk)?;
    // What is on the disk by then the second one finds, but it is told no more.
    assert_eq!(rt; append(&mut log, LINES[1]), Err(DeviceFault::Failed));
    assert!(rt; disk.has_told(IS_LOST)?);
    let second = JournalFile::take(&machine, rt.alloc(), JOURNAL)?;
    let mut other = begin(&machine, rt.alloc(), &second)?;
    append(&mut other, LINES[2])?;
    expect_lost(&rt, &disk, &mut log)?;
    assert_eq!(rt;
        first.save(&machine, rt.alloc(), &Text(HEAD)),
        Err(FileFault::Unread)
    );
    append(&mut other, LINES[0])?;
    second.save(&machine, rt.alloc(), &Text(OTHER))?;
    assert!(rt; has(&disk, JOURNAL, When::Stopped, OTHER)?);
    Ok(())
}

// The log of the one that lost the journal can't be made anew, and the other's stays.
fn expect_lost(rt: &impl Abort, disk: &Disk, log: &mut Log<'_>) -> Result<(), Fail> {
    let before = disk.text(LOG, When::Now)?;
    assert_eq!(rt; renew(log), Err(DeviceFault::Failed));
    assert_eq!(rt; append(log, LINES[1]), Err(DeviceFault::Failed));
    assert!(rt; disk.text(LOG, When::Now)? == before);
    assert!(rt; !is_there(disk, LOG_NEW, When::Now)?);
    Ok(())
}

#[test]
fn who_looks_sees_a_lock_and_a_log_that_are_gone(rt: HostRuntime) -> Result<(), Fail> {
    let disk = saved_disk(&rt)?;
    let machine = Machine(&disk);
    let file = JournalFile::take(&machine, rt.alloc(), JOURNAL)?;
    let watch = file.watch(rt.alloc())?;
    // None was begun yet.
    assert!(rt; watch.has_log(&machine));
    let mut log = begin(&machine, rt.alloc(), &file)?;
    append(&mut log, LINES[0])?;
    assert!(rt; watch.has_log(&machine) && watch.has_journal(&machine));
    disk.take_away(LOG)?;
    assert!(rt; !watch.has_log(&machine));
    disk.put(LOG, OTHER)?;
    assert!(rt; !watch.has_log(&machine));
    assert_eq!(rt; append(&mut log, LINES[1]), Err(DeviceFault::Failed));
    renew(&mut log)?;
    assert!(rt; watch.has_log(&machine) && watch.has_journal(&machine));
    for deed in [Deed::Removed, Deed::Replaced] {
        deed.do_to_lock(&disk)?;
        assert!(rt; !watch.has_journal(&machine));
    }
    assert!(rt; disk.has_told(IS_LOST)?);
    Ok(())
}

#[test]
fn a_log_that_changes_is_of_another(rt: HostRuntime) -> Result<(), Fail> {
    let disk = saved_disk(&rt)?;
    let machine = Machine(&disk);
    let file = JournalFile::take(&machine, rt.alloc(), JOURNAL)?;
    file.expect_still_log(&machine, None)?;
    disk.put(LOG, OTHER)?;
    file.expect_still_log(&machine, Some(OTHER.len()))?;
    for octets in [None, Some(0), Some(1_000)] {
        assert_eq!(rt;
            file.expect_still_log(&machine, octets),
            Err(FileFault::Unread)
        );
    }
    assert!(rt; disk.has_told("has changed since it was read")?);
    Ok(())
}
