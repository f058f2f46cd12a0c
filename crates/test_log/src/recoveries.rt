//! The recovery of a torn file, whose machine stops too.

use crate::tearing::{Failures, TearingDevice};
use ilp_line_file::{MemoryDevice, recover};
use std::alloc::{AllocError, Global};
use std::process::Abort;
use std::test::*;

// Three lines, a part of another, and one behind octets that were not written.
const TORN: &[u8] = b"first\nsecond\nthird\nfou\0\0h\nfifth\n\0\0";

const LINES: &[u8] = b"first\nsecond\nthird\n";

// A recovery reads, cuts and syncs.
const CALLS: u32 = 3;

// More than a crash may leave.
const MOST_IMAGES: usize = 1_000;

// All that a crash may leave is recovered to the same lines.
fn recover_again(rt: &impl Abort, alloc: Global, device: &TearingDevice) -> Result<(), Fail> {
    for number in 0..MOST_IMAGES {
        let Some(image) = device.image(number)? else {
            return Ok(());
        };
        let mut again = MemoryDevice::new(alloc, image);
        let text = recover(alloc, &mut again)?;
        assert_eq!(rt; text.as_slice(), LINES, "in {number}");
    }
    Err(Fail::from("there is always more"))
}

// Whether a recovery succeeds whose machine stops in this call, and what its disk has then.
fn recover_until(alloc: Global, stop: u32) -> Result<(bool, TearingDevice), AllocError> {
    let failures = Failures {
        stop,
        ..Failures::NONE
    };
    let mut device = TearingDevice::new(alloc, TORN, failures)?;
    let text = recover(alloc, &mut device);
    Ok((text.is_ok(), device))
}

#[test]
fn a_recovery_may_stop_too(rt: HostRuntime) -> Result<(), Fail> {
    let alloc = rt.alloc();
    for stop in 0..CALLS + 1 {
        let (is_recovered, device) = recover_until(alloc, stop)?;
        assert_eq!(rt; is_recovered, stop == CALLS);
        recover_again(&rt, alloc, &device)?;
    }
    Ok(())
}
