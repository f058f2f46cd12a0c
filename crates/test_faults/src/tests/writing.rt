//! Sinks in memory, of which a denied growth is a failed write.

use super::GROWTHS;
use ilp_io::{Narrow, Recording, Sink, WhenFull, WriteFault, put_all};
use std::process::Abort;
use test_allocator::DenyingAllocator;

const TEXT: &[u8; 26] = b"abcdefghijklmnopqrstuvwxyz";

#[test]
fn recording(rt: HostRuntime) {
    for granted in 0..GROWTHS {
        let heap = DenyingAllocator::after(rt.alloc(), granted);
        let mut sink = Recording::new(&heap);
        let outcome = sink.put(b"abc");
        if heap.has_denied() {
            assert!(rt; outcome.is_err());
            assert!(rt; sink.octets.is_empty());
            assert_eq!(rt; sink.failures, 1);
            continue;
        }
        assert!(rt; matches!(outcome, Ok(3)));
        let outcome = sink.put(&[7; 1_000]);
        assert!(rt; sink.octets.starts_with(b"abc"));
        if heap.has_denied() {
            assert!(rt; outcome.is_err());
            assert_eq!(rt; sink.octets.len(), 3);
            assert_eq!(rt; sink.failures, 1);
            continue;
        }
        assert!(rt; matches!(outcome, Ok(1_000)));
        assert_eq!(rt; sink.octets.len(), 1_003);
        assert_eq!(rt; sink.failures, 0);
        assert!(rt; granted > 1);
        return;
    }
    assert!(rt; false, "some growth was always denied");
}

#[test]
fn recording_goes_on_after_a_denial(rt: HostRuntime) {
    let heap = DenyingAllocator::after(rt.alloc(), 0);
    let mut sink = Recording::new(&heap);
    assert_eq!(rt; put_all(&mut sink, b"abc"), Err(WriteFault));
    assert_eq!(rt; put_all(&mut sink, TEXT), Ok(()));
    assert_eq!(rt; sink.octets.as_slice(), TEXT.as_slice());
    assert_eq!(rt; sink.failures, 1);
}

#[test]
fn narrow_sinks(rt: HostRuntime) {
    for piece in [1, 3, 100] {
        write_narrow(&rt, piece);
    }
}

// Writes in pieces into just enough room.
fn write_narrow(rt: &(impl Abort + AllocGlobal), piece: usize) {
    assert!(rt; piece > 0);
    for granted in 0..GROWTHS {
        let heap = DenyingAllocator::after(rt.alloc(), granted);
        let mut sink = Narrow::new(&heap, piece, TEXT.len(), WhenFull::Fails);
        let outcome = put_all(&mut sink, TEXT);
        let taken = sink.recording.octets.as_slice();
        assert!(rt; TEXT.starts_with(taken));
        assert_eq!(rt; sink.room.checked_add(taken.len()), Some(TEXT.len()));
        if !heap.has_denied() {
            assert_eq!(rt; outcome, Ok(()));
            assert_eq!(rt; (sink.recording.failures, sink.room), (0, 0));
            assert!(rt; granted > 0);
            return;
        }
        assert_eq!(rt; outcome, Err(WriteFault), "after {granted} growths");
        assert_eq!(rt; sink.recording.failures, 1);
        assert!(rt; sink.room > 0);
    }
    assert!(rt; false, "some growth was always denied");
}
