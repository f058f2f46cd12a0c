use test_allocator::DenyingAllocator;

const GROWTHS: u64 = 6;

#[test]
fn denies_just_one_growth(rt: HostRuntime) {
    for granted in 0..GROWTHS {
        let heap = DenyingAllocator::after(rt.alloc(), granted);
        for place in 0..GROWTHS {
            let is_made = Box::new(&heap, place).is_ok();
            assert_eq!(rt; is_made, place != granted, "growth {place} after {granted}");
            assert_eq!(rt; heap.has_denied(), place >= granted);
        }
    }
}

#[test]
fn denies_a_block_its_growth(rt: HostRuntime) {
    let heap = DenyingAllocator::after(rt.alloc(), 1);
    let mut list: Vec<u8, &DenyingAllocator<_>> = Vec::new(&heap);
    assert!(rt; list.reserve_exact(1).is_ok());
    assert!(rt; list.push(7).is_ok());
    assert!(rt; list.push(8).is_err());
    assert!(rt; heap.has_denied());
    assert_eq!(rt; list.as_slice(), &[7][..]);
    assert!(rt; list.push(8).is_ok());
    assert_eq!(rt; list.as_slice(), &[7, 8][..]);
}

#[test]
fn passes_on_what_is_given_back(rt: HostRuntime) {
    let heap = DenyingAllocator::after(rt.alloc(), 2);
    for _turn in 0..2 {
        let given_back = Box::new(&heap, 7u8);
        assert!(rt; given_back.is_ok());
    }
    assert!(rt; !heap.has_denied());
    assert!(rt; Box::new(&heap, 7u8).is_err());
}
