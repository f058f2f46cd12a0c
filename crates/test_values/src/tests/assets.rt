//! Worked tables and quotes.

use ilp_assets::{Asset, AssetFault, AssetTable, Price, Quote, QuoteFault};
use std::alloc::Global;
use std::test::Fail;

const USD: Asset<'static> = Asset {
    code: "USD",
    scale: 2,
};

const EUR: Asset<'static> = Asset {
    code: "EUR",
    scale: 9,
};

const JPY: Asset<'static> = Asset {
    code: "JPY",
    scale: 12,
};

const GBP: Asset<'static> = Asset {
    code: "GBP",
    scale: 2,
};

fn price(from: Asset<'static>, to: Asset<'static>, p: u32, q: u32) -> Price<'static> {
    Price { from, to, p, q }
}

// The fault of prices over USD/2, EUR/9 and JPY/12.
fn fault_of(alloc: Global, prices: &[Price<'_>]) -> Option<AssetFault> {
    match AssetTable::new(alloc, &[USD, EUR, JPY], prices) {
        Ok(_) => None,
        Err(fault) => Some(fault),
    }
}

#[test]
fn tables_have_no_fault(rt: HostRuntime) -> Result<(), Fail> {
    let alloc = rt.alloc();
    let twice = AssetTable::new(alloc, &[USD, EUR, USD], &[]);
    assert_eq!(rt; twice.err(), Some(AssetFault::DoubleAsset));
    assert_eq!(rt; fault_of(alloc, &[]), None);
    let unknown = price(USD, GBP, 0, 1);
    assert_eq!(rt; fault_of(alloc, &[unknown]), Some(AssetFault::NoSuchAsset));
    let zero = price(USD, EUR, 0, 1);
    assert_eq!(rt; fault_of(alloc, &[zero]), Some(AssetFault::ZeroPrice));
    let fair = price(USD, EUR, 2, 7);
    assert_eq!(rt;
        fault_of(alloc, &[fair, fair]),
        Some(AssetFault::DoublePrice)
    );
    let far = price(USD, JPY, 1, 1);
    assert_eq!(rt; fault_of(alloc, &[far]), Some(AssetFault::ScaleGap));
    Ok(())
}

#[test]
fn the_first_fault_counts(rt: HostRuntime) -> Result<(), Fail> {
    let alloc = rt.alloc();
    let fair = price(USD, EUR, 2, 7);
    let back = price(EUR, USD, 7, 2);
    assert_eq!(rt; fault_of(alloc, &[fair, back]), None);
    let far_zero = price(JPY, USD, 1, 0);
    let itself = price(EUR, EUR, 1, 1);
    assert_eq!(rt;
        fault_of(alloc, &[fair, far_zero, itself]),
        Some(AssetFault::ZeroPrice)
    );
    assert_eq!(rt;
        fault_of(alloc, &[itself, far_zero]),
        Some(AssetFault::DoublePrice)
    );
    let double = AssetTable::new(alloc, &[USD, USD], &[far_zero]);
    assert_eq!(rt; double.err(), Some(AssetFault::DoubleAsset));
    Ok(())
}

#[test]
fn quotes_one_asset(rt: HostRuntime) -> Result<(), Fail> {
    let table = AssetTable::new(rt.alloc(), &[USD], &[])?;
    let passed = Quote {
        fee: 2,
        net: 999_999,
        out: 999_999,
    };
    let empty = Quote {
        fee: 0,
        net: 0,
        out: 0,
    };
    let nothing = Err(QuoteFault::RoundsToNothing);
    for (ppm, amount, expected) in [
        (1, 1_000_001, Ok(passed)),
        (1, 1, nothing),
        (1_000_000, u64::MAX, nothing),
        (1_000_000, 0, Ok(empty)),
    ] {
        assert!(rt; ppm <= 1_000_000);
        assert_eq!(rt;
            table.quote(0, 0, ppm, amount),
            expected,
            "{amount} and {ppm} ppm"
        );
    }
    Ok(())
}

#[test]
fn quotes_in_one_direction(rt: HostRuntime) -> Result<(), Fail> {
    let table = AssetTable::new(rt.alloc(), &[USD, EUR], &[price(USD, EUR, 2, 7)])?;
    let passed = Quote {
        fee: 11,
        net: 990,
        out: 2_828_571_428,
    };
    assert_eq!(rt; table.quote(0, 1, 10_000, 1_001), Ok(passed));
    assert_eq!(rt; table.quote(1, 0, 10_000, 1_001), Err(QuoteFault::NoPrice));
    assert_eq!(rt; table.quote(1, 0, 0, 0), Err(QuoteFault::NoPrice));
    let copy = table.copy()?;
    assert_eq!(rt; copy.quote(0, 1, 10_000, 1_001), Ok(passed));
    assert_eq!(rt; copy.asset_count(), 2);
    Ok(())
}

#[test]
fn names_assets_by_place(rt: HostRuntime) -> Result<(), Fail> {
    let table = AssetTable::new(rt.alloc(), &[USD, EUR, GBP], &[])?;
    assert_eq!(rt; table.asset_count(), 3);
    assert_eq!(rt; table.find("GBP", 2), Some(2));
    assert_eq!(rt; table.find("GBP", 9), None);
    assert_eq!(rt; table.scale(1), 9);
    let shown = match table.asset(1) {
        Some(asset) => asset.is(EUR),
        None => false,
    };
    assert!(rt; shown);
    assert!(rt; table.asset(3).is_none());
    Ok(())
}

#[test]
fn faults_have_names(rt: HostRuntime) -> Result<(), Fail> {
    let alloc = rt.alloc();
    let double = format!(in alloc; "{}", AssetFault::DoubleAsset)?;
    assert_eq!(rt; double.as_str(), "an asset is given twice");
    let none = format!(in alloc; "{}", QuoteFault::NoPrice)?;
    assert_eq!(rt; none.as_str(), "the assets have no price in this direction");
    Ok(())
}
