//! Reading the octets of a configuration.

use super::GROWTHS;
use ilp_config_file::{BUILT_IN, read_config};
use ilp_io::Pieces;
use ilp_refusals::Refusal;
use std::test::Fail;
use test_allocator::DenyingAllocator;

#[test]
fn configurations(rt: HostRuntime) -> Result<(), Fail> {
    for granted in 0..GROWTHS {
        let heap = DenyingAllocator::after(rt.alloc(), granted);
        let mut source = Pieces::new(BUILT_IN.as_bytes(), 100);
        match read_config(&heap, &mut source) {
            Ok(octets) => {
                assert!(rt; !heap.has_denied());
                assert_eq!(rt; octets.as_slice(), BUILT_IN.as_bytes());
                return Ok(());
            }
            Err(refusal) => {
                assert!(rt; heap.has_denied());
                assert_eq!(rt; refusal, Refusal::Memory);
            }
        }
    }
    assert!(rt; false, "no growth was left to deny");
    Ok(())
}
