//! Journals that somebody has put back or taken away: what a start and a look at the files say of each that lies beside
//! others, over a disk.

use crate::ended::{NEXT_TEXT, OLD_LOG, OLD_TEXT, WHOLE, disk_with, two_peers};
use ilp_accounts::Config;
use ilp_journal_file::JournalFile;
use ilp_starting::{BookFile, Refused, book_at};
use std::process::Abort;
use std::test::Fail;
use test_disk::{
    Disk, ENDED, JOURNAL, LATER, LOG, Machine, NEVER, NEXT, PERIOD, When, has, is_there,
};

// A log that goes on from the next text, as `sha256sum` has it.
const NEXT_LOG: &[u8] =
    b"ilp-log 1 3 cbd3dec958a9831423256d1ceaf261d2bc87507f7705d75b0a28f438deda2604\nrun r1; peer alice XRP 9; peer bob USD 2\n300 1 credited bob 6b33 9 2 9\n";

// What begins of a journal: the number of its period, and of its entries.
#[derive(Clone, Copy, PartialEq, Eq, Debug)]
struct Begins {
    period: u32,
    entries: u32,
}

// What a start begins with over these files.
fn begin(disk: &Disk, config: &Config) -> Result<Begins, Refused> {
    let machine = Machine(disk);
    let file = JournalFile::take(&machine, config.allocator(), JOURNAL)?;
    let begun = BookFile {
        rt: &machine,
        config,
        file: &file,
        path: JOURNAL,
    }
    .begin()?;
    Ok(Begins {
        period: begun.book.period(),
        entries: begun.book.len(),
    })
}

// What a look at the files says of that.
fn look(disk: &Disk, config: &Config) -> Result<Begins, Refused> {
    let carried = book_at(&Machine(disk), config, JOURNAL)?;
    Ok(Begins {
        period: carried.book.period(),
        entries: carried.book.len(),
    })
}

// What is there of each file.
type There = [Option<&'static [u8]>; 6];

const NAMES: [&str; 6] = [JOURNAL, LOG, ENDED, NEXT, PERIOD, LATER];

fn disk_of(rt: &impl AllocGlobal, there: There) -> Result<Disk, Fail> {
    let disk = disk_with(rt.alloc(), NEVER, &[])?;
    for (name, text) in NAMES.iter().zip(there) {
        if let Some(text) = text {
            disk.put(name, text)?;
        }
    }
    Ok(disk)
}

// A start and a look say the same, and where it is refused what is kept of periods stays.
fn expect_same(
    rt: &(impl Abort + AllocGlobal),
    config: &Config,
    there: There,
) -> Result<bool, Fail> {
    let disk = disk_of(rt, there)?;
    let looked = look(&disk, config);
    let begun = begin(&disk, config);
    assert_eq!(rt; looked.is_ok(), begun.is_ok());
    if let (Ok(looked), Ok(begun)) = (&looked, &begun) {
        assert!(rt; looked == begun);
        return Ok(true);
    }
    for (name, text) in NAMES.iter().zip(there).skip(4) {
        if text.is_none() {
            continue;
        }
        assert!(rt;
            disk.text(name, When::Now)?
                .as_ref()
                .map(|found| found.as_slice())
                == text
        );
    }
    Ok(false)
}

#[test]
fn a_look_says_what_a_start_does(rt: HostRuntime) -> Result<(), Fail> {
    let Some(config) = two_peers(rt.alloc()) else {
        panic!(rt; "no configuration");
    };
    for journal in [None, Some(OLD_TEXT), Some(WHOLE), Some(NEXT_TEXT)] {
        for log in [None, Some(OLD_LOG), Some(NEXT_LOG)] {
            look_at_each(&rt, &config, journal, log)?;
        }
    }
    Ok(())
}

// The same, with each of the others beside these two.
fn look_at_each(
    rt: &(impl Abort + AllocGlobal),
    config: &Config,
    journal: Option<&'static [u8]>,
    log: Option<&'static [u8]>,
) -> Result<(), Fail> {
    for ended in [None, Some(OLD_LOG)] {
        for next in [None, Some(NEXT_TEXT)] {
            for kept in [None, Some(WHOLE), Some(OLD_TEXT), Some(NEXT_TEXT)] {
                expect_same(rt, config, [journal, log, ended, next, kept, None])?;
            }
        }
    }
    Ok(())
}

// A start over these files is refused with these words, and they stay.
fn expect_refused(rt: &(impl Abort + AllocGlobal), there: There, words: &str) -> Result<(), Fail> {
    let Some(config) = two_peers(rt.alloc()) else {
        panic!(rt; "no configuration");
    };
    assert!(rt; !expect_same(rt, &config, there)?);
    let disk = disk_of(rt, there)?;
    assert!(rt; begin(&disk, &config).is_err());
    assert!(rt; disk.has_told(words)?);
    Ok(())
}

const HAS_ENDED: &str = "has ended beside it, and it lacks what that has";

const IS_GONE: &str = "it isn't there, and what was kept beside it is";

#[test]
fn a_journal_is_refused_beside_a_later_period(rt: HostRuntime) -> Result<(), Fail> {
    let later = [Some(WHOLE), None, None, None, None, Some(NEXT_TEXT)];
    expect_refused(&rt, later, HAS_ENDED)?;
    let both = [Some(WHOLE), None, None, None, Some(WHOLE), Some(NEXT_TEXT)];
    expect_refused(&rt, both, HAS_ENDED)
}

#[test]
fn an_older_copy_is_refused_beside_what_its_period_came_to(rt: HostRuntime) -> Result<(), Fail> {
    let older = [Some(OLD_TEXT), None, None, None, Some(WHOLE), None];
    expect_refused(&rt, older, HAS_ENDED)
}

#[test]
fn a_journal_that_is_gone_is_none_that_never_was(rt: HostRuntime) -> Result<(), Fail> {
    expect_refused(&rt, [None, None, None, None, Some(WHOLE), None], IS_GONE)?;
    expect_refused(
        &rt,
        [None, None, None, None, None, Some(NEXT_TEXT)],
        IS_GONE,
    )?;
    expect_refused(
        &rt,
        [None, None, None, Some(NEXT_TEXT), None, None],
        IS_GONE,
    )
}

#[test]
fn what_the_journal_has_itself_is_in_nobodys_way(rt: HostRuntime) -> Result<(), Fail> {
    let Some(config) = two_peers(rt.alloc()) else {
        panic!(rt; "no configuration");
    };
    let equal = disk_of(&rt, [Some(WHOLE), None, None, None, Some(WHOLE), None])?;
    assert!(rt;
        begin(&equal, &config)?
            == Begins {
                period: 0,
                entries: 2
            }
    );
    assert!(rt; !is_there(&equal, PERIOD, When::Stopped)?);
    let longer = disk_of(
        &rt,
        [
            Some(OLD_TEXT),
            Some(OLD_LOG),
            None,
            None,
            Some(OLD_TEXT),
            None,
        ],
    )?;
    assert!(rt;
        begin(&longer, &config)?
            == Begins {
                period: 0,
                entries: 2
            }
    );
    assert!(rt; has(&longer, PERIOD, When::Stopped, OLD_TEXT)?);
    let behind = disk_of(
        &rt,
        [
            Some(NEXT_TEXT),
            Some(NEXT_LOG),
            None,
            None,
            Some(WHOLE),
            None,
        ],
    )?;
    assert!(rt;
        begin(&behind, &config)?
            == Begins {
                period: 1,
                entries: 4
            }
    );
    Ok(())
}
