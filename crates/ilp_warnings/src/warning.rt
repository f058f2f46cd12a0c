//! What may be told of a configuration.

use ilp_accounts::Field;

/// A table of a configuration. One of an array is named by its place in the array, from 0.
#[derive(Clone, Copy, Debug, PartialEq, Eq)]
pub enum ConfigTable {
    /// Outside of the tables of all arrays.
    Top,
    Asset(u32),
    Price(u32),
    Peer(u32),
    Route(u32),
}

/// Something that a configuration allows and probably doesn't mean. A peer is named by its place,
/// from 0.
#[derive(Debug, Drop)]
pub enum Warning {
    /// A field or a table that is not known there, and so is ignored.
    Unknown {
        within: ConfigTable,
        /// Its key, where that is of letters, digits, `_` and `-`, and at most 64 octets long.
        key: Option<String>,
        /// The known one with the nearest key, where one is near.
        meant: Option<Field>,
    },
    /// A field of the top that stands below the head of a table, and so belongs to that.
    Displaced {
        within: ConfigTable,
        field: Field,
    },
    /// The text of this field is no `IP:PORT`.
    NoAddress {
        within: ConfigTable,
        field: Field,
    },
    /// Others than this machine's programs may reach the side of engines.
    OpenEngines,
    /// Both sides are to listen at one address, or at one that stands for the other too.
    SharedListen,
    /// No packet is held for longer than the window.
    ShortHolds,
    /// There are no routes.
    NoRoutes,
    /// A token is shorter than 16 octets.
    ShortToken {
        peer: u32,
        field: Field,
    },
    /// A token is one of the examples'.
    ExampleToken {
        peer: u32,
        field: Field,
    },
    /// `token` and `out_token` are the same.
    SameTokens {
        peer: u32,
    },
    /// A peer before has the same `host` and `out_path`.
    SharedHost {
        peer: u32,
        other: u32,
    },
    /// One packet of the sender takes the balance from `settle_to` to the threshold.
    OnePacket {
        peer: u32,
        sender: u32,
    },
    /// The greatest packet of the peer doesn't fit on its way to another.
    TooLargeOut {
        peer: u32,
        other: u32,
    },
    /// No route leads to the peer.
    Unreached {
        peer: u32,
    },
    /// No other peer's asset has a price in that of the route's peer.
    Unpriced {
        route: u32,
        peer: u32,
    },
}
