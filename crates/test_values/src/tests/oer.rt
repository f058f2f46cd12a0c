//! Octet strings by hand, and from a Python script.
use ilp_oer::{MAX_CONTENT, Octets, OerFault, read_octets, write_octets};
use std::alloc::{AllocError, Global};
use std::test::Fail;

#[test]
fn refuses_what_is_no_octet_string(rt: HostRuntime) {
    for (input, fault) in [
        (&[][..], OerFault::Truncated),
        (&[0x80][..], OerFault::BadPrefix),
        (&[0x83][..], OerFault::TooLong),
        (&[0xff, 1, 2][..], OerFault::TooLong),
        (&[0x81][..], OerFault::Truncated),
        (&[0x82, 1][..], OerFault::Truncated),
        (&[0x81, 5][..], OerFault::BadPrefix),
        (&[0x82, 0, 0xff][..], OerFault::BadPrefix),
    ] {
        assert!(rt;
            matches!(read_octets(input), Err(found) if found == fault),
            "{input:?}"
        );
    }
}

#[test]
fn reads_the_content_and_the_rest(rt: HostRuntime) {
    let Ok((content, rest)) = read_octets(&[2, 7, 8, 9]) else {
        assert!(rt; false, "an octet string was refused");
        return;
    };
    assert_eq!(rt; content, &[7, 8][..]);
    assert_eq!(rt; rest, &[9][..]);
}

// The octets 0, 1, .. 250, 0, 1, .., so many.
fn counted(alloc: Global, len: usize) -> Result<Vec<u8>, AllocError> {
    let mut octets = Vec::new(alloc);
    for place in 0..len {
        octets.push((place % 251) as u8)?;
    }
    Ok(octets)
}

// The heads and tails are those of `scripts/vectors/packets.py`.
#[test]
fn writes_and_reads_each_length(rt: HostRuntime) -> Result<(), Fail> {
    let known: [(usize, usize, &[u8], &[u8]); 6] = [
        (0, 1, &[0], &[0]),
        (127, 128, &[0x7f, 0, 1, 2], &[0x7d, 0x7e]),
        (128, 130, &[0x81, 0x80, 0, 1], &[0x7e, 0x7f]),
        (255, 257, &[0x81, 0xff, 0, 1], &[2, 3]),
        (256, 259, &[0x82, 1, 0, 0, 1], &[3, 4]),
        (
            MAX_CONTENT,
            65_538,
            &[0x82, 0xff, 0xff, 0, 1],
            &[0x16, 0x17],
        ),
    ];
    for (len, whole, head, tail) in known {
        let content = counted(rt.alloc(), len)?;
        assert!(rt; content.len() <= MAX_CONTENT);
        let mut out = Octets::new(rt.alloc());
        write_octets(&mut out, &content)?;
        assert_eq!(rt; out.as_slice().len(), whole);
        assert!(rt; out.as_slice().starts_with(head), "{len}");
        assert!(rt; out.as_slice().ends_with(tail), "{len}");
        let Ok((read, rest)) = read_octets(out.as_slice()) else {
            assert!(rt; false, "a written octet string of {len} octets was refused");
            return Ok(());
        };
        assert_eq!(rt; read, content.as_slice());
        assert!(rt; rest.is_empty());
    }
    Ok(())
}

#[test]
fn refuses_each_part_of_an_octet_string(rt: HostRuntime) -> Result<(), Fail> {
    for len in [0, 1, 127, 128, 300] {
        let content = vec![in rt.alloc(); 5; len]?;
        let mut out = Octets::new(rt.alloc());
        write_octets(&mut out, &content)?;
        let whole = out.as_slice();
        for end in 0..whole.len() {
            let part = read_octets(&whole[..end]);
            assert!(rt;
                matches!(part, Err(OerFault::Truncated)),
                "{end} octets of {len}"
            );
        }
    }
    Ok(())
}

#[test]
fn keeps_room(rt: HostRuntime) -> Result<(), Fail> {
    let mut out = Octets::new(rt.alloc());
    assert_eq!(rt; out.spare(), 0);
    out.reserve(10)?;
    let room = out.spare();
    assert!(rt; room >= 10);
    out.append(&[1, 2, 3])?;
    out.append(&[4])?;
    assert_eq!(rt; out.as_slice(), &[1, 2, 3, 4][..]);
    assert_eq!(rt; out.spare(), room - 4);
    out.clear();
    assert!(rt; out.as_slice().is_empty());
    assert_eq!(rt; out.spare(), room);
    Ok(())
}
