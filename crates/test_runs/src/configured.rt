//! The configuration of the runs, as a text and as what the rules take from it.

use std::alloc::{AllocError, Global};

/// How many peers there are.
pub(crate) const PEERS: u32 = 3;

/// How many assets there are.
pub(crate) const ASSETS: u32 = 2;

/// How much sooner a packet expires on its way out, and how long it is held at most; milliseconds.
pub(crate) const WINDOW_MS: i64 = 1_000;

pub(crate) const MAX_HOLD_MS: i64 = 30_000;

const USD: u32 = 0;

const EUR: u32 = 1;

// Alice and bob have one asset, and carol another. Bob may owe little, and no settlement to bob is due.
// What carol is owed is mostly settled in parts.
const TEXT: &str = r#"
address = "test.hub"
run = "r1"
window_ms = 1000
max_hold_ms = 30000
[[asset]]
code = "USD"
scale = 2
[[asset]]
code = "EUR"
scale = 3
[[price]]
from = "USD/2"
to = "EUR/3"
p = 9
q = 10
[[price]]
from = "EUR/3"
to = "USD/2"
p = 10
q = 9
[[peer]]
name = "alice"
asset = "USD/2"
token = "a-token"
out_token = "to-alice"
host = "127.0.0.1:7001"
least = -9223372036854775808
engine = "127.0.0.1:7004"
threshold = 1000
settle_to = 200
[[peer]]
name = "bob"
asset = "USD/2"
token = "b-token"
out_token = "to-bob"
host = "127.0.0.1:7002"
least = -1000
fee_ppm = 2500
max_packet = 9223372036854775807
[[peer]]
name = "carol"
asset = "EUR/3"
token = "c-token"
out_token = "to-carol"
host = "127.0.0.1:7003"
least = -50000
engine = "127.0.0.1:7004"
threshold = 5000
settle_to = -1000
settle_max = 9000
[[route]]
prefix = "test.alice"
peer = "alice"
[[route]]
prefix = "test.bob"
peer = "bob"
[[route]]
prefix = "test.carol"
peer = "carol"
"#;

/// The text of a configuration whose journal may have so many entries.
pub(crate) fn text(alloc: Global, journal: u32) -> Result<String, AllocError> {
    format!(in alloc; "journal = {journal}{TEXT}")
}

/// What the configuration says of a peer.
#[derive(Clone, Copy)]
pub(crate) struct Account {
    pub(crate) least: i128,
    pub(crate) fee_ppm: u128,
    pub(crate) max_packet: u64,
    /// When a settlement is due, if ever.
    pub(crate) levels: Option<Levels>,
}

/// When a settlement to a peer is due, and for how much.
#[derive(Clone, Copy)]
pub(crate) struct Levels {
    /// From which balance on.
    pub(crate) threshold: i128,
    /// The balance that is to be left.
    pub(crate) settle_to: i128,
    /// How much one settlement is for at most.
    pub(crate) settle_max: u64,
}

const ALICE: Account = Account {
    least: -9_223_372_036_854_775_808,
    fee_ppm: 0,
    max_packet: 18_446_744_073_709_551_615,
    levels: Some(Levels {
        threshold: 1_000,
        settle_to: 200,
        settle_max: 18_446_744_073_709_551_615,
    }),
};

const BOB: Account = Account {
    least: -1_000,
    fee_ppm: 2_500,
    max_packet: 9_223_372_036_854_775_807,
    levels: None,
};

const CAROL: Account = Account {
    least: -50_000,
    fee_ppm: 0,
    max_packet: 18_446_744_073_709_551_615,
    levels: Some(Levels {
        threshold: 5_000,
        settle_to: -1_000,
        settle_max: 9_000,
    }),
};

/// What the configuration says of the peer at this place.
pub(crate) fn account_of(peer: u32) -> Account {
    match peer {
        0 => ALICE,
        1 => BOB,
        _ => CAROL,
    }
}

/// The asset of a peer.
pub(crate) fn asset_of(peer: u32) -> u32 {
    if peer == 2 { EUR } else { USD }
}

/// How many decimal places the asset of a peer has.
pub(crate) fn scale_of(peer: u32) -> u8 {
    if asset_of(peer) == USD { 2 } else { 3 }
}

/// An address whose packets go to the peer at this place, or one that has no route.
pub(crate) fn destination(peer: u32) -> &'static [u8] {
    match peer {
        0 => b"test.alice".as_slice(),
        1 => b"test.bob.shop".as_slice(),
        2 => b"test.carol.a.b".as_slice(),
        _ => b"test.dave".as_slice(),
    }
}

/// What an amount becomes between two assets, at the prices 9/10 and 10/9 of whole units.
pub(crate) fn exchanged(from: u32, to: u32, net: u128) -> u128 {
    if from == to {
        return net;
    }
    if from == USD {
        return net.wrapping_mul(9 * 1_000) / (10 * 100);
    }
    net.wrapping_mul(10 * 100) / (9 * 1_000)
}
