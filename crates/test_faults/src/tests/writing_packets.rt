//! Packets written.

use super::GROWTHS;
use ilp_oer::Octets;
use ilp_packet::{Packet, write_fulfill, write_prepare, write_reject};
use std::alloc::{AllocError, Allocator};
use std::process::Abort;
use std::test::Fail;
use test_allocator::DenyingAllocator;

// A Prepare of 100 to test.bob without data, as hexadecimal. It expires 30 seconds after
// 2025-01-01T00:00:00Z, and its condition is the SHA-256 digest of 32 zero octets (by Python's
// hashlib).
const PREPARE: &str =
    "0c430000000000000064323032353031303130303030333030303066687aadf862bd776c8fc18b8e9f8e20089714856ee233b3902a591d0d5f292508746573742e626f6200";

// A Fulfill of 32 zero octets with the data `0a`.
const FULFILL: &str = "0d220000000000000000000000000000000000000000000000000000000000000000010a";

// A Reject of the code T01 by test.hub, with the message `no` and the data `00ff`.
const REJECT: &str = "0e1254303108746573742e687562026e6f0200ff";

// Reads a packet, and writes it behind what is there.
fn write_again<A: Allocator>(
    rt: &impl Abort,
    out: &mut Octets<A>,
    octets: &[u8],
) -> Result<(), AllocError> {
    match Packet::read(octets) {
        Ok(Packet::Prepare(prepare)) => write_prepare(out, &prepare),
        Ok(Packet::Fulfill(fulfill)) => write_fulfill(out, &fulfill),
        Ok(Packet::Reject(reject)) => write_reject(out, &reject),
        Err(fault) => panic!(rt; "no packet: {fault}"),
    }
}

#[test]
fn each_packet_behind_others(rt: HostRuntime) -> Result<(), Fail> {
    for packet in [PREPARE, FULFILL, REJECT] {
        let octets = hex::decode(rt.alloc(), packet)?;
        write_behind(&rt, &octets)?;
    }
    Ok(())
}

// Writes a packet behind others with each growth denied in turn.
fn write_behind(rt: &(impl Abort + AllocGlobal), octets: &[u8]) -> Result<(), Fail> {
    for granted in 0..GROWTHS {
        let heap = DenyingAllocator::after(rt.alloc(), granted);
        let mut out = Octets::new(&heap);
        let outcome = out.append(b"held");
        if heap.has_denied() {
            assert_eq!(rt; outcome, Err(AllocError), "of what is held");
            continue;
        }
        outcome?;
        let spare = out.spare();
        let outcome = write_again(rt, &mut out, octets);
        if heap.has_denied() {
            assert_eq!(rt; outcome, Err(AllocError), "after {granted} growths");
            assert_eq!(rt; out.as_slice(), b"held".as_slice());
            assert_eq!(rt; out.spare(), spare);
            continue;
        }
        outcome?;
        assert_eq!(rt; out.as_slice().strip_prefix(b"held"), Some(octets));
        assert!(rt; granted > 1);
        return Ok(());
    }
    assert!(rt; false, "some growth was always denied");
    Ok(())
}
