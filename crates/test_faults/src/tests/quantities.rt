//! Quantities printed.

use super::GROWTHS;
use ilp_oer::Octets;
use ilp_settlement::print;
use std::alloc::{AllocError, Allocator};
use std::process::Abort;
use test_allocator::DenyingAllocator;

#[test]
fn each_print(rt: HostRuntime) {
    for granted in 0..GROWTHS {
        let heap = DenyingAllocator::after(rt.alloc(), granted);
        let mut out = Octets::new(&heap);
        let outcome = print_twice(&rt, &mut out);
        if !heap.has_denied() {
            assert_eq!(rt; outcome, Ok(()));
            assert_eq!(rt; granted, 2, "each call grows once");
            return;
        }
        assert_eq!(rt; outcome, Err(AllocError), "after {granted} growths");
    }
    assert!(rt; false, "some growth was always denied");
}

const FIRST: &[u8] = b"{\"amount\":\"0\",\"scale\":0}";

const BOTH: &[u8] =
    b"{\"amount\":\"0\",\"scale\":0}{\"amount\":\"18446744073709551615\",\"scale\":255}";

// Prints one quantity behind another; where that is denied, the first stands as it was.
fn print_twice<A: Allocator>(rt: &impl Abort, out: &mut Octets<A>) -> Result<(), AllocError> {
    print(0, 0, out)?;
    assert_eq!(rt; out.as_slice(), FIRST);
    let outcome = print(u64::MAX, 255, out);
    match outcome {
        Ok(()) => assert_eq!(rt; out.as_slice(), BOTH),
        Err(_) => assert_eq!(rt; out.as_slice(), FIRST),
    }
    outcome
}
