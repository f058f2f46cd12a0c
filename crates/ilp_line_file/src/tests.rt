use super::*;
use std::test::Fail;

#[test]
fn a_torn_tail_is_cut_off(rt: HostRuntime) -> Result<(), Fail> {
    let alloc = rt.alloc();
    let mut file = MemoryDevice::new(alloc, b"12\n3\n4\0\n5\n".to_vec(alloc)?);
    let text = recover(alloc, &mut file)?;
    assert_eq!(rt; text.as_slice(), b"12\n3\n".as_slice());
    assert_eq!(rt; file.octets(), b"12\n3\n".as_slice());
    Ok(())
}

#[test]
fn an_unfinished_line_is_cut_off(rt: HostRuntime) -> Result<(), Fail> {
    let alloc = rt.alloc();
    let mut file = MemoryDevice::new(alloc, b"12\n3".to_vec(alloc)?);
    let text = recover(alloc, &mut file)?;
    assert_eq!(rt; text.as_slice(), b"12\n".as_slice());
    assert_eq!(rt; file.octets(), b"12\n".as_slice());
    Ok(())
}
