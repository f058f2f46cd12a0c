//! Journals whose period ends, over a disk on which each call fails, once or from there on.

use crate::tests::Text;
use ilp_journal_file::{FileFault, JournalFile};
use std::alloc::Global;
use std::io;
use std::process::Abort;
use std::test::Fail;
use test_disk::{
    Disk, EACH, Faults, JOURNAL, LOG, MOST_CALLS, Machine, NEVER, NEW, PERIOD, When, has, is_there,
};

const ENDED: &[u8] = b"the whole text of the period that ends";

const NEXT: &[u8] = b"what the next one begins with";

const OTHER: &[u8] = b"the text of another journal";

// Ends a period, or goes on with that: no log is beside the journal, its text is kept, and the next one is there.
fn end(machine: &Machine<'_>, alloc: Global) -> Result<(), FileFault> {
    let file = JournalFile::take(machine, alloc, JOURNAL)?;
    file.expect_no_log(machine)?;
    file.keep_period(machine, alloc, 0, &Text(ENDED))?;
    file.begin_period(machine, alloc, 1, &Text(NEXT))
}

// A disk with a journal and a log of which it has all.
fn old_disk(alloc: Global, faults: Faults) -> io::Result<Disk> {
    let disk = Disk::new(alloc, faults);
    disk.put(JOURNAL, ENDED)?;
    disk.put(LOG, b"a log of which the journal has all\n")?;
    Ok(disk)
}

#[test]
fn each_call_of_an_end_fails_once(rt: HostRuntime) -> Result<(), Fail> {
    fail_each(&rt, 1)
}

#[test]
fn the_machine_stops_at_each_call_of_an_end(rt: HostRuntime) -> Result<(), Fail> {
    fail_each(&rt, u32::MAX)
}

// Ends a period with so many calls that fail, from each call on, and then again.
fn fail_each(rt: &(impl Abort + AllocGlobal), count: u32) -> Result<(), Fail> {
    for first in 0..MOST_CALLS {
        let disk = old_disk(rt.alloc(), Faults { first, count })?;
        let is_ended = end(&Machine(&disk), rt.alloc()).is_ok();
        expect_either(rt, &disk, is_ended)?;
        if disk.calls()? <= first {
            assert!(rt; is_ended);
            return expect_all(rt, &disk);
        }
        go_on(rt, &disk)?;
        if count == 1 && !is_ended && has(&disk, JOURNAL, When::Now, ENDED)? {
            // What a sync was to write that failed is written by no later one.
            end(&Machine(&disk), rt.alloc())?;
            expect_both(rt, &disk)?;
        }
    }
    Err(Fail::from("an end has more calls"))
}

// The journal is of the period that ends, or the next one beside the text of that. What is kept is whole.
fn expect_either(rt: &impl Abort, disk: &Disk, is_ended: bool) -> Result<(), Fail> {
    for when in EACH {
        let is_kept = has(disk, PERIOD, when, ENDED)?;
        assert!(rt; is_kept || !is_there(disk, PERIOD, when)?);
        let is_next = is_kept && has(disk, JOURNAL, when, NEXT)? && !is_there(disk, LOG, when)?;
        assert!(rt; is_next || (!is_ended && has(disk, JOURNAL, when, ENDED)?));
    }
    Ok(())
}

// The same calls go on from what a machine that stopped has kept.
fn go_on(rt: &(impl Abort + AllocGlobal), disk: &Disk) -> Result<(), Fail> {
    let left = Disk::new(rt.alloc(), NEVER);
    disk.put_on(&left, When::Stopped)?;
    if has(&left, JOURNAL, When::Now, ENDED)? {
        end(&Machine(&left), rt.alloc())?;
    }
    expect_all(rt, &left)
}

// The device has both periods by their names. A log may come back that was removed behind a sync that failed: then a
// start is refused, and all that it has stands in the period that ended.
fn expect_both(rt: &impl Abort, disk: &Disk) -> Result<(), Fail> {
    assert!(rt; has(disk, JOURNAL, When::Stopped, NEXT)?);
    assert!(rt; has(disk, PERIOD, When::Stopped, ENDED)?);
    Ok(())
}

// The next period is there, beside the whole text of the one that ended, and nothing else.
fn expect_all(rt: &impl Abort, disk: &Disk) -> Result<(), Fail> {
    expect_both(rt, disk)?;
    assert!(rt; !is_there(disk, LOG, When::Stopped)?);
    assert!(rt; !is_there(disk, NEW, When::Now)?);
    Ok(())
}

#[test]
fn another_text_is_never_written_over(rt: HostRuntime) -> Result<(), Fail> {
    let disk = old_disk(rt.alloc(), NEVER)?;
    disk.put(PERIOD, OTHER)?;
    let ended = end(&Machine(&disk), rt.alloc());
    assert!(rt; matches!(ended, Err(FileFault::Unread)));
    assert!(rt; disk.has_told("has another text than the period")?);
    assert!(rt; has(&disk, PERIOD, When::Now, OTHER)?);
    assert!(rt; has(&disk, JOURNAL, When::Now, ENDED)?);
    Ok(())
}

#[test]
fn a_period_is_read(rt: HostRuntime) -> Result<(), Fail> {
    let disk = old_disk(rt.alloc(), NEVER)?;
    let machine = Machine(&disk);
    let file = JournalFile::take(&machine, rt.alloc(), JOURNAL)?;
    assert!(rt; file.read_period(&machine, rt.alloc(), 0)?.is_none());
    disk.put(PERIOD, ENDED)?;
    let kept = file.read_period(&machine, rt.alloc(), 0)?;
    assert!(rt; kept.is_some_and(|text| text.as_slice() == ENDED));
    Ok(())
}
