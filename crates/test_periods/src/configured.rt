//! The configurations of three periods, as texts and as what the rules take from them.

use std::alloc::{AllocError, Global};

/// A peer, by its place in the list of all names.
pub(crate) type Name = usize;

/// The names of all peers of all periods.
pub(crate) const NAMES: [&str; 5] = ["alice", "bob", "carol", "dave", "erin"];

/// Who sends packets and is settled with.
pub(crate) const ACTIVE: u32 = 3;

/// What differs from period to period.
#[derive(Clone, Copy)]
pub(crate) struct Terms {
    /// The peers, in their order.
    pub(crate) peers: &'static [Name],
    /// The assets, in their order.
    pub(crate) assets: &'static str,
    /// What the connector gives for `q` dollars, in euros.
    pub(crate) p: u64,
    pub(crate) q: u64,
    /// The fee that each peer pays, in millionths.
    pub(crate) fee_ppm: u32,
    /// What each peer's balance comes to at least.
    pub(crate) least: i64,
}

const DOLLARS_FIRST: &str = "[[asset]]
code = \"USD\"
scale = 2
[[asset]]
code = \"EUR\"
scale = 3
";

const EUROS_FIRST: &str = "[[asset]]
code = \"EUR\"
scale = 3
[[asset]]
code = \"USD\"
scale = 2
";

/// The terms of each period. Erin is left out of the second and comes again in the third, and dave is
/// new in the second.
pub(crate) const PERIODS: [Terms; 3] = [
    Terms {
        peers: &[0, 1, 2, 4],
        assets: DOLLARS_FIRST,
        p: 9,
        q: 10,
        fee_ppm: 0,
        least: -50_000,
    },
    Terms {
        peers: &[3, 2, 0, 1],
        assets: EUROS_FIRST,
        p: 4,
        q: 5,
        fee_ppm: 2_500,
        least: -70_000,
    },
    Terms {
        peers: &[1, 4, 3, 0, 2],
        assets: DOLLARS_FIRST,
        p: 11,
        q: 10,
        fee_ppm: 100_000,
        least: -90_000,
    },
];

impl Terms {
    /// The text of the configuration.
    pub(crate) fn text(&self, alloc: Global) -> Result<String, AllocError> {
        let mut text = String::from_str(alloc, "address = \"test.hub\"\nrun = \"r1\"\n")?;
        text.push_str(self.assets)?;
        self.add_prices(alloc, &mut text)?;
        for name in self.peers {
            self.add_peer(alloc, *name, &mut text)?;
        }
        for name in self.peers {
            add_route(alloc, *name, &mut text)?;
        }
        Ok(text)
    }

    fn add_prices(&self, alloc: Global, to: &mut String) -> Result<(), AllocError> {
        let (p, q) = (self.p, self.q);
        let prices = format!(in alloc;
            "[[price]]\nfrom = \"USD/2\"\nto = \"EUR/3\"\np = {p}\nq = {q}\n[[price]]\nfrom = \"EUR/3\"\nto = \"USD/2\"\np = {q}\nq = {p}\n"
        )?;
        to.push_str(prices.as_str())
    }

    fn add_peer(&self, alloc: Global, name: Name, to: &mut String) -> Result<(), AllocError> {
        let asset = if is_in_dollars(name) {
            "USD/2"
        } else {
            "EUR/3"
        };
        let peer = name_of(name);
        let least = self.least;
        let fee = self.fee_ppm;
        let table = format!(in alloc;
            "[[peer]]\nname = \"{peer}\"\nasset = \"{asset}\"\ntoken = \"token-{peer}\"\nout_token = \"to-{peer}\"\nhost = \"127.0.0.1:7001\"\nleast = {least}\nfee_ppm = {fee}\nengine = \"127.0.0.1:7004\"\nthreshold = 1000\nsettle_to = 100\nsettle_max = 700\n"
        )?;
        to.push_str(table.as_str())
    }

    /// The place of a peer in the period, if it has one.
    pub(crate) fn place_of(&self, name: Name) -> Option<u32> {
        let place = self.peers.iter().position(|peer| *peer == name)?;
        u32::try_from(place).ok()
    }

    /// The peer at a place.
    pub(crate) fn name_at(&self, place: u32) -> Option<Name> {
        self.peers.get(place as usize).copied()
    }

    /// The place of the asset of a peer, in the period.
    pub(crate) fn asset_of(&self, name: Name) -> u32 {
        let is_first = is_in_dollars(name) == (self.assets == DOLLARS_FIRST);
        u32::from(!is_first)
    }

    /// The fee of an amount: so many millionths of it, rounded up.
    pub(crate) fn fee(&self, amount: u64) -> u64 {
        let millionths = u128::from(amount).wrapping_mul(u128::from(self.fee_ppm));
        u64::try_from(millionths.div_ceil(1_000_000)).unwrap_or(u64::MAX)
    }

    /// What an amount comes to between the assets of two peers, rounded down. A dollar has 100 units, and
    /// a euro 1,000.
    pub(crate) fn exchanged(&self, from: Name, to: Name, net: u64) -> u64 {
        let net = u128::from(net);
        let p = u128::from(self.p.max(1));
        let q = u128::from(self.q.max(1));
        let gone = match (is_in_dollars(from), is_in_dollars(to)) {
            (true, false) => net.wrapping_mul(p).wrapping_mul(10) / q,
            (false, true) => net.wrapping_mul(q) / p / 10,
            _ => net,
        };
        u64::try_from(gone).unwrap_or(u64::MAX)
    }
}

fn add_route(alloc: Global, name: Name, to: &mut String) -> Result<(), AllocError> {
    let peer = name_of(name);
    let route = format!(in alloc; "[[route]]\nprefix = \"test.{peer}\"\npeer = \"{peer}\"\n")?;
    to.push_str(route.as_str())
}

/// The name of a peer.
pub(crate) fn name_of(name: Name) -> &'static str {
    match NAMES.get(name) {
        Some(text) => text,
        None => "?",
    }
}

/// Whether a peer has dollars; else it has euros.
pub(crate) fn is_in_dollars(name: Name) -> bool {
    name < 2
}

/// An address whose packets go to a peer.
pub(crate) fn destination(name: Name) -> &'static [u8] {
    match name {
        0 => b"test.alice".as_slice(),
        1 => b"test.bob".as_slice(),
        2 => b"test.carol.shop".as_slice(),
        3 => b"test.dave".as_slice(),
        _ => b"test.erin".as_slice(),
    }
}
