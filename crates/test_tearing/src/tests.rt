//! Files that crash: one of which not all was synced, and a file of lines, in each of its calls.

ghost use Rattle.std.specs.Prelude.{OnOk};
ghost use Rattle.ilp_line_file.specs.Device.{Only};
ghost use Rattle.ilp_line_file.specs.File.{IsSettled};
ghost use Rattle.ilp_line_file.specs.Text.{IsText};
ghost use Rattle.test_tearing.specs.Files.{seen, Leaves, seen_of, left_of};

use super::*;
use ilp_line_file::{Device, DeviceFault, LineFile, MemoryDevice, recover};
use std::alloc::{AllocError, Global};
use std::process::Abort;
use std::test::*;

// The lines that are there, and those with the ones that are added.
const HEAD: &[u8] = b"first\n";

const ALL: &[u8] = b"first\nsecond\nthird\nfourth\nfifth\n";

// How many calls recover the first, and how many there are until all are added.
const RECOVERING: usize = 3;

const CALLS: usize = 9;

// More octets than a write has, and how many a hole in it has.
const MOST_LOST: usize = 16;

const HOLE: usize = 3;

// More than the file has.
const MOST_OCTETS: usize = 1_000;

// All that was not synced is lost.
const ALL_LOST: Loss = Loss {
    front: 0,
    hole: (0, 0),
    uncut: usize::MAX,
    is_placed: false,
};

// Of each write the disk has the first two octets, and those from the fourth on.
const HOLED: Loss = Loss {
    front: usize::MAX,
    hole: (2, 3),
    uncut: 1,
    is_placed: true,
};

// A file whose machine doesn't stop.
fn file_of(alloc: Global, octets: &[u8]) -> Result<TearingFile, AllocError> {
    Ok(TearingFile::new(alloc, octets.to_vec(alloc)?, Stops::after(usize::MAX)))
}

// With these losses, a crash of the file leaves this.
fn expect_left(
    rt: &impl Abort,
    file: &TearingFile,
    all_lost: &[u8],
    holed: &[u8],
    none_lost: &[u8],
) -> Result<(), Fail> {
    assert_eq!(rt; file.left(&ALL_LOST)?.as_slice(), all_lost);
    assert_eq!(rt; file.left(&HOLED)?.as_slice(), holed);
    assert_eq!(rt; file.left(&Loss::NONE)?.as_slice(), none_lost);
    Ok(())
}

// Writes octets at an offset, which may not be behind the end.
fn write(
    alloc: Global,
    file: &mut TearingFile,
    at: usize,
    octets: &[u8],
) -> Result<(), DeviceFault> {
    if file.read(alloc)?.len() < at {
        return Err(DeviceFault::Failed);
    }
    file.write_at(at, octets)
}

// Cuts it to a length, which may not be greater than its own.
fn cut(alloc: Global, file: &mut TearingFile, len: usize) -> Result<(), DeviceFault> {
    if file.read(alloc)?.len() < len {
        return Err(DeviceFault::Failed);
    }
    file.cut(len)
}

#[test]
fn what_was_not_synced_is_lost(rt: HostRuntime) -> Result<(), Fail> {
    let alloc = rt.alloc();
    let mut file = file_of(alloc, b"abcdef")?;
    write(alloc, &mut file, 4, b"WXYZ")?;
    expect_left(&rt, &file, b"abcdef", b"abcdWX\0Z", b"abcdWXYZ")?;
    write(alloc, &mut file, 0, b"1234")?;
    expect_left(&rt, &file, b"abcdef", b"12c4WX\0Z", b"1234WXYZ")?;
    file.sync()?;
    expect_left(&rt, &file, b"1234WXYZ", b"1234WXYZ", b"1234WXYZ")?;
    cut(alloc, &mut file, 5)?;
    expect_left(&rt, &file, b"1234WXYZ", b"1234WX", b"1234W")?;
    assert_eq!(rt; file.read(alloc)?.as_slice(), b"1234W".as_slice());
    Ok(())
}

#[test]
fn a_new_file_is_there_once_it_has_taken_the_place(rt: HostRuntime) -> Result<(), Fail> {
    let alloc = rt.alloc();
    for (stop, all_lost) in [(2, b"abc"), (3, b"xyz")] {
        let mut file = TearingFile::new(alloc, b"abc".to_vec(alloc)?, Stops::after(stop));
        file.open_anew()?;
        file.write_anew(b"xyz")?;
        let is_placed = file.take_place().is_ok();
        assert_eq!(rt; is_placed, stop == 3);
        expect_left(&rt, &file, all_lost.as_slice(), b"xyz", b"xyz")?;
    }
    Ok(())
}

// What a crash loses of each write behind this many of its octets, and of those before them from a place on.
fn loss(front: usize, from: usize) -> Loss {
    Loss {
        front,
        hole: (from, from.saturating_add(HOLE)),
        uncut: front,
        is_placed: front % 2 == 0,
    }
}

// Adds lines to a file that is not too long.
fn append(file: &mut LineFile<TearingFile>, lines: &[u8]) -> Result<(), DeviceFault>
    requires settled { IsSettled seen_of left_of file.old }
    requires text { IsText lines.now }
    ensures settled { OnOk result (IsSettled seen_of left_of file.new) }
{
    if file.end > MOST_OCTETS || lines.len() > MOST_OCTETS {
        return Err(DeviceFault::Failed);
    }
    file.append(lines)
}

// Adds the lines one after the other.
fn append_each(file: &mut LineFile<TearingFile>) -> Result<(), DeviceFault>
    requires { IsSettled seen_of left_of file.old }
{
    append(file, b"second\n")?;
    append(file, b"third\nfourth\n")?;
    append(file, b"fifth\n")
}

// Recovers the lines, and adds others until the machine stops. How many octets of them are said to be on the disk.
fn run(alloc: Global, file: TearingFile) -> (usize, TearingFile)
    requires { Only (seen file.disk) (Leaves file.disk) }
{
    let mut file = file;
    let Ok(text) = recover(alloc, &mut file) else {
        return (HEAD.len(), file);
    };
    let mut file = LineFile {
        device: file,
        end: text.len(),
    };
    let _ = append_each(&mut file);
    let LineFile { device, end } = file;
    (end, device)
}

// All that this crash may leave begins with what was told, and has no other lines. How many octets are recovered at
// least and at most.
fn recover_each(
    rt: &impl Abort,
    alloc: Global,
    told: usize,
    file: &TearingFile,
) -> Result<(usize, usize), Fail> {
    let (mut least, mut most) = (ALL.len(), 0);
    for front in 0..MOST_LOST {
        for from in 0..MOST_LOST {
            let left = file.left(&loss(front, from))?;
            let mut again = MemoryDevice::new(alloc, left);
            let text = recover(alloc, &mut again)?;
            assert!(rt;
                text.as_slice().len() >= told,
                "{front} octets, and not from {from}"
            );
            assert!(rt;
                ALL.starts_with(text.as_slice()),
                "{front} octets, and not from {from}"
            );
            least = least.min(text.as_slice().len());
            most = most.max(text.as_slice().len());
        }
    }
    Ok((least, most))
}

#[test]
fn lines_that_were_told_are_recovered(rt: HostRuntime) -> Result<(), Fail> {
    let alloc = rt.alloc();
    for zeros in [0, 3, 40] {
        for stop in 0..CALLS + 1 {
            let mut octets = HEAD.to_vec(alloc)?;
            for _ in 0..zeros {
                octets.push(0)?;
            }
            let file = TearingFile::new(alloc, octets, Stops::after(stop));
            let (told, file) = run(alloc, file);
            assert_eq!(rt; file.has_stopped(), stop < CALLS);
            assert_eq!(rt; told == ALL.len(), stop == CALLS);
            let (least, most) = recover_each(&rt, alloc, told, &file)?;
            assert_eq!(rt; least, told);
            assert_eq!(rt; most > told, RECOVERING <= stop && stop < CALLS);
        }
    }
    Ok(())
}
