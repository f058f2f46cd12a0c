//! Reading and writing in pieces, with a fault at each octet. The counts were worked out by hand:
//! a read or write a piece, and one more for the end or the fault.
use ilp_io::{
    Counting, Narrow, Pieces, ReadFault, Recording, WhenFull, WriteFault, put_all, read_to_limit,
};
use std::io;
use std::io::{ErrorKind, Read};
use std::process::Abort;
use std::test::Fail;

const TEXT: &[u8; 7] = b"abcdefg";

#[test]
fn reads_to_the_end(rt: HostRuntime) -> Result<(), Fail> {
    for (piece, limit, reads) in [(1, 7, 8), (3, 7, 4), (100, 7, 2), (100, usize::MAX, 2)] {
        let mut source = Pieces::new(TEXT, piece);
        let octets = read_to_limit(rt.alloc(), &mut source, limit)?;
        assert_eq!(rt; octets.as_slice(), TEXT.as_slice(), "in pieces of {piece}");
        assert_eq!(rt; (source.reads, source.failures), (reads, 0));
    }
    let mut none = Pieces::new(&[], 1);
    assert!(rt; read_to_limit(rt.alloc(), &mut none, 0)?.is_empty());
    assert_eq!(rt; none.reads, 1);
    Ok(())
}

#[test]
fn refuses_more_than_the_limit(rt: HostRuntime) {
    for (piece, limit, reads, left) in [
        (1, 6, 7, 0),
        (3, 6, 3, 0),
        (100, 6, 1, 0),
        (100, 3, 1, 3),
        (2, 3, 2, 3),
        (1, 0, 1, 6),
    ] {
        let mut source = Pieces::new(TEXT, piece);
        let outcome = read_to_limit(rt.alloc(), &mut source, limit);
        assert!(rt; matches!(outcome, Err(ReadFault::TooLong)), "limit {limit}");
        assert_eq!(rt; (source.reads, source.failures), (reads, 0));
        assert_eq!(rt; source.rest.len(), left);
    }
}

#[test]
fn stops_where_a_read_fails(rt: HostRuntime) -> Result<(), Fail> {
    for piece in [1, 3, 100] {
        for fails_after in 0..8 {
            let mut source = Pieces::failing(TEXT, piece, fails_after);
            let outcome = read_to_limit(rt.alloc(), &mut source, 7);
            assert!(rt;
                matches!(outcome, Err(ReadFault::Failed)),
                "after {fails_after}"
            );
            assert_eq!(rt; source.reads, fails_after.div_ceil(piece) as u64 + 1);
            assert_eq!(rt; source.failures, 1);
            let rest = read_to_limit(rt.alloc(), &mut source, 7)?;
            assert_eq!(rt; rest.len(), 7 - fails_after, "in pieces of {piece}");
            assert_eq!(rt; source.failures, 1);
        }
    }
    Ok(())
}

// Fails with each read.
#[derive(Drop)]
struct Broken;

impl Read for Broken {
    fn read(&mut self, _buf: &mut [u8]) -> io::Result<usize> {
        Err(io::Error::from(ErrorKind::Interrupted))
    }
}

#[test]
fn counts_the_reads_of_a_reader(rt: HostRuntime) -> Result<(), Fail> {
    let mut whole = Counting::new(TEXT.as_slice());
    let octets = read_to_limit(rt.alloc(), &mut whole, 7)?;
    assert_eq!(rt; octets.as_slice(), TEXT.as_slice());
    assert_eq!(rt; (whole.reads, whole.failures), (2, 0));

    let mut broken = Counting::new(Broken);
    let outcome = read_to_limit(rt.alloc(), &mut broken, 7);
    assert!(rt; matches!(outcome, Err(ReadFault::Failed)));
    assert_eq!(rt; (broken.reads, broken.failures), (1, 1));

    let mut uncounted = TEXT.as_slice();
    assert_eq!(rt; read_to_limit(rt.alloc(), &mut uncounted, 9)?.len(), 7);
    Ok(())
}

#[test]
fn writes_whole(rt: HostRuntime) {
    let mut recording = Recording::new(rt.alloc());
    assert_recorded(&rt, &mut recording);

    let mut uncounted = Vec::new(rt.alloc());
    assert_eq!(rt; put_all(&mut uncounted, TEXT), Ok(()));
    assert_eq!(rt; uncounted.as_slice(), TEXT.as_slice());
}

fn assert_recorded(rt: &impl Abort, recording: &mut Recording) {
    for part in [&b"abc"[..], b"", b"defg"] {
        assert_eq!(rt; put_all(recording, part), Ok(()));
    }
    assert_eq!(rt; recording.octets.as_slice(), TEXT.as_slice());
    assert_eq!(rt; recording.failures, 0);
}

#[test]
fn stops_where_a_write_fails_or_takes_nothing(rt: HostRuntime) {
    for when_full in [WhenFull::TakesNone, WhenFull::Fails] {
        for piece in [1, 3, 100] {
            for room in 0..7 {
                let mut sink = Narrow::new(rt.alloc(), piece, room, when_full);
                assert_stopped(&rt, &mut sink, room);
            }
            let mut sink = Narrow::new(rt.alloc(), piece, 7, when_full);
            assert_whole(&rt, &mut sink);
        }
    }
}

fn assert_stopped(rt: &impl Abort, sink: &mut Narrow, room: usize) {
    assert!(rt; room < 7);
    assert_eq!(rt; put_all(sink, TEXT), Err(WriteFault), "room {room}");
    assert_eq!(rt; sink.recording.octets.as_slice(), &TEXT[..room]);
    assert_eq!(rt; sink.recording.failures, 1);
}

fn assert_whole(rt: &impl Abort, sink: &mut Narrow) {
    assert_eq!(rt; put_all(sink, TEXT), Ok(()));
    assert_eq!(rt; sink.recording.octets.as_slice(), TEXT.as_slice());
    assert_eq!(rt; put_all(sink, b""), Ok(()));
    assert_eq!(rt; (sink.recording.failures, sink.room), (0, 0));
}

#[test]
fn faults_print_their_cause(rt: HostRuntime) -> Result<(), Fail> {
    for (fault, text) in [
        (ReadFault::Failed, "a read failed"),
        (ReadFault::TooLong, "the input is longer than its limit"),
        (ReadFault::Memory, "out of memory"),
    ] {
        assert_eq!(rt; format!(in rt.alloc(); "{fault}")?.as_str(), text);
    }
    let text = format!(in rt.alloc(); "{}", WriteFault)?;
    assert_eq!(rt; text.as_str(), "a write failed or took no octet");
    Ok(())
}
