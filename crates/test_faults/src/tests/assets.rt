//! Tables of assets.

use super::GROWTHS;
use ilp_assets::{Asset, AssetFault, AssetTable, Price, Quote, QuoteFault};
use std::alloc::{AllocError, Allocator};
use std::process::Abort;
use std::test::Fail;
use test_allocator::DenyingAllocator;

const USD: Asset<'static> = Asset {
    code: "USD",
    scale: 2,
};

const EUR: Asset<'static> = Asset {
    code: "EUR",
    scale: 9,
};

const PRICES: [Price<'static>; 2] = [
    Price {
        from: USD,
        to: EUR,
        p: 2,
        q: 7,
    },
    Price {
        from: EUR,
        to: USD,
        p: 7,
        q: 3,
    },
];

// Both assets and the price of dollars in euros are there.
fn assert_priced<A: Allocator>(rt: &impl Abort, table: &AssetTable<A>) {
    assert_eq!(rt; table.asset_count(), 2);
    assert_eq!(rt; table.find("EUR", 9), Some(1));
    let quote = Quote {
        fee: 11,
        net: 990,
        out: 2_828_571_428,
    };
    assert_eq!(rt; table.quote(0, 1, 10_000, 1_001), Ok(quote));
    assert_eq!(rt; table.quote(0, 0, 1, 1), Err(QuoteFault::RoundsToNothing));
}

#[test]
fn making(rt: HostRuntime) -> Result<(), Fail> {
    for granted in 0..GROWTHS {
        let heap = DenyingAllocator::after(rt.alloc(), granted);
        let outcome = AssetTable::new(&heap, &[USD, EUR], &PRICES);
        if heap.has_denied() {
            assert_eq!(rt; outcome.err(), Some(AssetFault::Memory));
            continue;
        }
        assert_priced(&rt, &outcome?);
        return Ok(());
    }
    assert!(rt; false, "no growth was left to deny");
    Ok(())
}

#[test]
fn copying(rt: HostRuntime) -> Result<(), Fail> {
    for granted in 0..GROWTHS {
        let heap = DenyingAllocator::after(rt.alloc(), granted);
        let made = AssetTable::new(&heap, &[USD, EUR], &PRICES);
        if heap.has_denied() {
            continue;
        }
        let table = made?;
        let outcome = table.copy();
        assert_priced(&rt, &table);
        if heap.has_denied() {
            assert_eq!(rt; outcome.err(), Some(AllocError));
            continue;
        }
        assert_priced(&rt, &outcome?);
        return Ok(());
    }
    assert!(rt; false, "no growth was left to deny");
    Ok(())
}

// A fault that stands before any growth is answered without memory.
#[test]
fn double_assets_want_no_memory(rt: HostRuntime) -> Result<(), Fail> {
    let heap = DenyingAllocator::after(rt.alloc(), 0);
    let outcome = AssetTable::new(&heap, &[USD, USD], &PRICES);
    assert!(rt; !heap.has_denied());
    assert_eq!(rt; outcome.err(), Some(AssetFault::DoubleAsset));
    Ok(())
}
