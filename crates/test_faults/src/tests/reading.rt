//! Reading to the end of a source.

use super::GROWTHS;
use ilp_io::{Pieces, ReadFault, read_to_limit};
use std::alloc::{AllocError, Global};
use std::process::Abort;
use std::test::Fail;
use test_allocator::DenyingAllocator;

// How many octets are read: more than two reads ask for.
const LENGTH: usize = 10_000;

// Octets of which no two pieces that follow each other are alike.
fn octets(alloc: Global) -> Result<Vec<u8>, AllocError> {
    (0..LENGTH).map(|place| (place % 251) as u8).collect(alloc)
}

#[test]
fn to_the_end(rt: HostRuntime) -> Result<(), Fail> {
    for piece in [1, 3, 100, 4_096, LENGTH] {
        read_each(&rt, piece, LENGTH, None, Ok(()))?;
        read_each(&rt, piece, usize::MAX, None, Ok(()))?;
    }
    Ok(())
}

#[test]
fn beyond_the_limit(rt: HostRuntime) -> Result<(), Fail> {
    for piece in [1, 3, 100, 4_096, LENGTH] {
        read_each(&rt, piece, LENGTH - 1, None, Err(ReadFault::TooLong))?;
    }
    Ok(())
}

#[test]
fn up_to_a_read_that_fails(rt: HostRuntime) -> Result<(), Fail> {
    for piece in [1, 3, 100, 4_096, LENGTH] {
        read_each(&rt, piece, LENGTH, Some(LENGTH), Err(ReadFault::Failed))?;
    }
    Ok(())
}

// Reads in pieces of this size, up to a read that fails if there is one. Where no growth is
// denied, the outcome is the one of ample memory.
fn read_each(
    rt: &(impl Abort + AllocGlobal),
    piece: usize,
    limit: usize,
    fails_after: Option<usize>,
    ample: Result<(), ReadFault>,
) -> Result<(), Fail> {
    assert!(rt; piece > 0);
    let text = octets(rt.alloc())?;
    for granted in 0..GROWTHS {
        let heap = DenyingAllocator::after(rt.alloc(), granted);
        let mut source = Pieces::new(&text, piece);
        source.fails_after = fails_after;
        let outcome = read_to_limit(&heap, &mut source, limit);
        if heap.has_denied() {
            assert!(rt;
                matches!(outcome, Err(ReadFault::Memory)),
                "after {granted} growths, in pieces of {piece}"
            );
            assert_eq!(rt; source.failures, 0);
            assert!(rt; text.ends_with(source.rest));
            continue;
        }
        match outcome {
            Ok(octets) => {
                assert_eq!(rt; Ok(()), ample);
                assert_eq!(rt; octets.as_slice(), text.as_slice());
            }
            Err(fault) => assert_eq!(rt; Err(fault), ample, "in pieces of {piece}"),
        }
        assert!(rt; granted > 1);
        return Ok(());
    }
    assert!(rt; false, "some growth was always denied");
    Ok(())
}
