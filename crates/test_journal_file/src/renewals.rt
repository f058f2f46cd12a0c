//! Logs that fail over a disk, and are made anew.

use crate::tests::{HEAD, LINES, WHOLE_LOG, begin};
use ilp_journal_file::{FileFault, JournalFile};
use ilp_line_file::{Device, DeviceFault};
use std::alloc::Global;
use std::io;
use std::process::Abort;
use std::test::Fail;
use test_disk::{
    Disk, EACH, JOURNAL, LOG, LOG_NEW, Log, MOST_CALLS, Machine, NEVER, When, append, has, is_there,
};

// What a log has when it fails.
const OLD_LOG: &[u8] = b"the head of this run\nan entry\n";

// What one has that was made anew, and to which the last lines were appended then.
const LONGER_LOG: &[u8] = b"the head of this run
an entry
two entries at once
and with one sync
the last entry
the last entry
";

// A disk with a journal.
fn saved_disk(alloc: Global) -> io::Result<Disk> {
    let disk = Disk::new(alloc, NEVER);
    disk.put(JOURNAL, b"the text of a journal")?;
    Ok(disk)
}

// A log with its first line alone.
fn begun_log<'d>(machine: &'d Machine<'d>, alloc: Global) -> Result<Log<'d>, FileFault> {
    let file = JournalFile::take(machine, alloc, JOURNAL)?;
    begin(machine, alloc, &file)
}

// Appends an entry to a log, and then has the disk fail as the next are appended. Whether it refused them.
fn fail_once(disk: &Disk, log: &mut Log<'_>) -> Result<bool, Fail> {
    append(log, LINES[0])?;
    disk.fail_behind(0, 1)?;
    Ok(append(log, LINES[1]).is_err())
}

/// Makes a log anew, with all lines.
pub(crate) fn renew(log: &mut Log<'_>) -> Result<(), DeviceFault> {
    log.device.open_anew()?;
    log.device.write_anew(HEAD)?;
    for lines in LINES {
        log.device.write_anew(lines)?;
    }
    log.take_place(WHOLE_LOG.len())
}

// The log is the new one, and nothing stands beside it.
fn expect_new(rt: &impl Abort, disk: &Disk) -> io::Result<()> {
    for when in EACH {
        assert!(rt; has(disk, LOG, when, WHOLE_LOG)?);
        assert!(rt; !is_there(disk, LOG_NEW, when)?);
    }
    Ok(())
}

#[test]
fn a_log_that_failed_is_made_anew(rt: HostRuntime) -> Result<(), Fail> {
    let disk = saved_disk(rt.alloc())?;
    make_anew(&rt, &disk)
}

fn make_anew(rt: &(impl Abort + AllocGlobal), disk: &Disk) -> Result<(), Fail> {
    let machine = Machine(disk);
    let mut log = begun_log(&machine, rt.alloc())?;
    assert!(rt; fail_once(disk, &mut log)?);
    assert!(rt; has(disk, LOG, When::Stopped, OLD_LOG)?);
    assert!(rt; disk.has_told("what is booked from here on is not on the disk")?);
    renew(&mut log)?;
    expect_new(rt, disk)?;
    append(&mut log, LINES[2])?;
    assert!(rt; has(disk, LOG, When::Stopped, LONGER_LOG)?);
    Ok(())
}

#[test]
fn each_call_of_a_renewal_fails_once(rt: HostRuntime) -> Result<(), Fail> {
    fail_each(&rt, 1)
}

#[test]
fn the_machine_stops_at_each_call_of_a_renewal(rt: HostRuntime) -> Result<(), Fail> {
    fail_each(&rt, u32::MAX)
}

// Makes logs anew with so many calls that fail, from each call on.
fn fail_each(rt: &(impl Abort + AllocGlobal), count: u32) -> Result<(), Fail> {
    for calls in 0..MOST_CALLS {
        let disk = saved_disk(rt.alloc())?;
        if !fail_behind(rt, &disk, calls, count)? {
            return Ok(());
        }
    }
    Err(Fail::from("a renewal has more calls"))
}

// Makes a log anew, where so many calls fail behind so many others. Whether any did.
fn fail_behind(
    rt: &(impl Abort + AllocGlobal),
    disk: &Disk,
    calls: u32,
    count: u32,
) -> Result<bool, Fail> {
    let machine = Machine(disk);
    let mut log = begun_log(&machine, rt.alloc())?;
    assert!(rt; fail_once(disk, &mut log)?);
    let first = disk.fail_behind(calls, count)?;
    let is_renewed = renew(&mut log).is_ok();
    expect_either(rt, disk, is_renewed)?;
    let has_failed = disk.calls()? > first;
    assert_eq!(rt; is_renewed, !has_failed);
    if has_failed && count == 1 {
        renew(&mut log)?;
        expect_new(rt, disk)?;
    }
    Ok(has_failed)
}

// The log is the old one or the new one, as a whole, and only the new one where it was told to be.
fn expect_either(rt: &impl Abort, disk: &Disk, is_renewed: bool) -> io::Result<()> {
    for when in EACH {
        let is_old = !is_renewed && has(disk, LOG, when, OLD_LOG)?;
        assert!(rt; is_old || has(disk, LOG, when, WHOLE_LOG)?);
    }
    Ok(())
}
