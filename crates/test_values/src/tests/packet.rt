//! Packets.

use ilp_oer::Octets;
use ilp_packet::{Fulfill, write_fulfill};
use std::test::Fail;

// Room that is there is used up octet by octet, and is enough.
#[test]
fn writes_into_room_that_is_there(rt: HostRuntime) -> Result<(), Fail> {
    let fulfill = Fulfill {
        preimage: &[0; 32],
        payload: b"",
    };
    let mut out = Octets::new(rt.alloc());
    out.reserve(100)?;
    let spare = out.spare();
    write_fulfill(&mut out, &fulfill)?;
    assert_eq!(rt; out.spare().checked_add(35), Some(spare));
    Ok(())
}
