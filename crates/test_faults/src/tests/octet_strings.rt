//! Octets and octet strings.

use super::GROWTHS;
use ilp_oer::{Octets, write_octets};
use std::alloc::{AllocError, Allocator};
use std::process::Abort;
use std::test::Fail;
use test_allocator::DenyingAllocator;

// Takes as many more octets as fit without memory.
fn fill_up<A: Allocator>(rt: &impl Abort, out: &mut Octets<A>) {
    for _ in 0..out.spare() {
        assert_eq!(rt; out.append(&[9]), Ok(()));
    }
    assert_eq!(rt; out.spare(), 0);
}

#[test]
fn reserving(rt: HostRuntime) {
    for granted in 0..GROWTHS {
        let heap = DenyingAllocator::after(rt.alloc(), granted);
        let mut out = Octets::new(&heap);
        let outcome = reserve_twice(&rt, &mut out);
        if !heap.has_denied() {
            assert_eq!(rt; outcome, Ok(()));
            assert_eq!(rt; granted, 2, "each call grows once");
            return;
        }
        assert_eq!(rt; outcome, Err(AllocError), "after {granted} growths");
    }
    assert!(rt; false, "some growth was always denied");
}

// Reserves twice, and takes octets in between.
fn reserve_twice<A: Allocator>(rt: &impl Abort, out: &mut Octets<A>) -> Result<(), AllocError> {
    if let Err(fault) = out.reserve(3) {
        assert!(rt; out.as_slice().is_empty());
        assert_eq!(rt; out.spare(), 0);
        return Err(fault);
    }
    assert!(rt; out.spare() >= 3);
    out.append(b"abc")?;
    let spare = out.spare();
    let outcome = out.reserve(1_000);
    assert_eq!(rt; out.as_slice(), b"abc".as_slice());
    if outcome.is_err() {
        assert_eq!(rt; out.spare(), spare);
    } else {
        assert!(rt; out.spare() >= 1_000);
    }
    outcome
}

#[test]
fn reserving_more_than_there_can_be(rt: HostRuntime) -> Result<(), Fail> {
    let mut out = Octets::new(rt.alloc());
    assert_eq!(rt; out.reserve(usize::MAX), Err(AllocError));
    assert_eq!(rt; out.spare(), 0);
    out.append(b"abc")?;
    let spare = out.spare();
    for additional in [usize::MAX, usize::MAX - 3, usize::MAX / 2] {
        assert_eq!(rt; out.reserve(additional), Err(AllocError));
        assert_eq!(rt; out.as_slice(), b"abc".as_slice());
        assert_eq!(rt; out.spare(), spare);
    }
    Ok(())
}

#[test]
fn appending(rt: HostRuntime) {
    for granted in 0..GROWTHS {
        let heap = DenyingAllocator::after(rt.alloc(), granted);
        let mut out = Octets::new(&heap);
        let outcome = append_twice(&rt, &mut out);
        if !heap.has_denied() {
            assert_eq!(rt; outcome, Ok(()));
            assert_eq!(rt; granted, 2, "each call grows once");
            return;
        }
        assert_eq!(rt; outcome, Err(AllocError), "after {granted} growths");
    }
    assert!(rt; false, "some growth was always denied");
}

fn append_twice<A: Allocator>(rt: &impl Abort, out: &mut Octets<A>) -> Result<(), AllocError> {
    if let Err(fault) = out.append(b"abc") {
        assert!(rt; out.as_slice().is_empty());
        assert_eq!(rt; out.spare(), 0);
        return Err(fault);
    }
    let spare = out.spare();
    if let Err(fault) = out.append(&[7; 1_000]) {
        assert_eq!(rt; out.as_slice(), b"abc".as_slice());
        assert_eq!(rt; out.spare(), spare);
        return Err(fault);
    }
    assert_eq!(rt; out.as_slice().len(), 1_003);
    assert!(rt; out.as_slice().starts_with(b"abc\x07"));
    assert!(rt; out.as_slice().ends_with(&[7; 1_000]));
    Ok(())
}

#[test]
fn writing_octet_strings(rt: HostRuntime) -> Result<(), Fail> {
    for (len, prefix) in [
        (0, &[0][..]),
        (127, &[0x7f][..]),
        (128, &[0x81, 0x80][..]),
        (65_535, &[0x82, 0xff, 0xff][..]),
    ] {
        let content = vec![in rt.alloc(); 5; len]?;
        write_behind(&rt, b"", &content, prefix);
        write_behind(&rt, b"held", &content, prefix);
    }
    Ok(())
}

// Writes the octet string of the content, which begins with the prefix, behind what is held.
fn write_behind(rt: &(impl Abort + AllocGlobal), held: &[u8], content: &[u8], prefix: &[u8]) {
    for granted in 0..GROWTHS {
        let heap = DenyingAllocator::after(rt.alloc(), granted);
        let mut out = Octets::new(&heap);
        let outcome = write_held(rt, &mut out, held, content, prefix);
        if !heap.has_denied() {
            assert_eq!(rt; outcome, Ok(()));
            let growths = if held.is_empty() { 1 } else { 2 };
            assert_eq!(rt; granted, growths, "each call grows once");
            return;
        }
        assert_eq!(rt; outcome, Err(AllocError), "of {} octets", content.len());
    }
    assert!(rt; false, "some growth was always denied");
}

// Takes what is held, fills up the room, and writes the octet string.
fn write_held<A: Allocator>(
    rt: &(impl Abort + AllocGlobal),
    out: &mut Octets<A>,
    held: &[u8],
    content: &[u8],
    prefix: &[u8],
) -> Result<(), AllocError> {
    assert!(rt; content.len() <= 65_535);
    out.append(held)?;
    fill_up(rt, out);
    let before = out.as_slice().to_vec(rt.alloc())?;
    let outcome = write_octets(out, content);
    let Some(written) = out.as_slice().strip_prefix(before.as_slice()) else {
        panic!(rt; "what was there before has changed");
    };
    if outcome.is_ok() {
        assert_eq!(rt; written.strip_prefix(prefix), Some(content));
    } else {
        assert!(rt; written.is_empty());
        assert_eq!(rt; out.spare(), 0);
    }
    outcome
}
