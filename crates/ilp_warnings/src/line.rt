//! A warning as a line for a person.

use crate::warning::{ConfigTable, Warning};
use ilp_accounts::{Config, Field};
use std::alloc::{AllocError, Global};
use std::fmt;

impl Warning {
    /// The warning as one line without its end: the table of the configuration that it was told of,
    /// and what is to be looked at. It has no token, and no key that could spoil it.
    pub fn line(&self, alloc: Global, config: &Config) -> Result<String, AllocError> {
        let line = Line {
            warning: self,
            config,
        };
        format!(in alloc; "{line}")
    }

    // Where it is told.
    fn within(&self) -> ConfigTable {
        match self {
            Warning::Unknown { within, .. }
            | Warning::Displaced { within, .. }
            | Warning::NoAddress { within, .. } => *within,
            Warning::ShortToken { peer, .. }
            | Warning::ExampleToken { peer, .. }
            | Warning::SameTokens { peer }
            | Warning::SharedHost { peer, .. }
            | Warning::OnePacket { peer, .. }
            | Warning::TooLargeOut { peer, .. }
            | Warning::Unreached { peer } => ConfigTable::Peer(*peer),
            Warning::Unpriced { route, .. } => ConfigTable::Route(*route),
            Warning::OpenEngines
            | Warning::SharedListen
            | Warning::ShortHolds
            | Warning::NoRoutes => ConfigTable::Top,
        }
    }
}

// A warning of a configuration.
#[derive(Clone, Copy)]
struct Line<'a> {
    warning: &'a Warning,
    config: &'a Config,
}

impl fmt::Display for Line<'_> {
    fn fmt<W: fmt::Write>(&self, f: &mut fmt::Formatter<W>) -> fmt::Result {
        write_table(f, self.config, self.warning.within())?;
        f.write_str(": ")?;
        match self.warning {
            Warning::Unknown { within, key, meant } => write_unknown(f, *within, key, *meant),
            Warning::Displaced { field, .. } => write!(
                f,
                "`{field}` is a field of the top: it belongs before the first table"
            ),
            Warning::NoAddress { field, .. } => write!(
                f,
                "`{field}` is no IP:PORT: write an address in digits, such as 127.0.0.1:7768"
            ),
            Warning::ShortToken { field, .. } => {
                write!(f, "`{field}` is shorter than 16 octets, and may be guessed")
            }
            Warning::ExampleToken { field, .. } => write!(
                f,
                "`{field}` begins with REPLACE: put one of its own in its place"
            ),
            Warning::SharedHost { other, .. } => {
                f.write_str("`host` and `out_path` are those of ")?;
                write_table(f, self.config, ConfigTable::Peer(*other))
            }
            Warning::OnePacket { sender, .. } => {
                f.write_str("one packet of ")?;
                write_table(f, self.config, ConfigTable::Peer(*sender))?;
                f.write_str(" can take the balance from `settle_to` to `threshold`")
            }
            Warning::TooLargeOut { other, .. } => {
                f.write_str("`max_packet` is more than fits on the way to ")?;
                write_table(f, self.config, ConfigTable::Peer(*other))?;
                f.write_str(": what doesn't fit is refused (F03)")
            }
            Warning::Unpriced { peer, .. } => {
                f.write_str("no other peer's asset has a price in that of ")?;
                write_table(f, self.config, ConfigTable::Peer(*peer))?;
                f.write_str(", so no packet can take it")
            }
            plain => f.write_str(text(plain)),
        }
    }
}

// What is told of those that have nothing to fill in. `fmt` tells of the others by itself.
fn text(warning: &Warning) -> &'static str {
    match warning {
        Warning::OpenEngines => {
            "`engine_listen` is no loopback address: whoever reaches it can credit peers and close the connector"
        }
        Warning::SharedListen =>
            "`listen` and `engine_listen` have an address in common, and only one side can have it",
        Warning::ShortHolds => {
            "`max_hold_ms` is not above `window_ms`: a next connector with this window refuses each packet"
        }
        Warning::NoRoutes => "there is no [[route]], so each packet is refused",
        Warning::SameTokens { .. } =>
            "`token` and `out_token` are the same: use one for each direction",
        Warning::Unreached { .. } => "no route leads to it: it can send, and nothing is sent to it",
        Warning::Unknown { .. }
        | Warning::Displaced { .. }
        | Warning::NoAddress { .. }
        | Warning::ShortToken { .. }
        | Warning::ExampleToken { .. }
        | Warning::SharedHost { .. }
        | Warning::OnePacket { .. }
        | Warning::TooLargeOut { .. }
        | Warning::Unpriced { .. } => "",
    }
}

// Writes which table it is: by its number, from 1, and an asset or a peer by its name too.
fn write_table<W: fmt::Write>(
    f: &mut fmt::Formatter<W>,
    config: &Config,
    within: ConfigTable,
) -> fmt::Result {
    match within {
        ConfigTable::Top => f.write_str("at the top"),
        ConfigTable::Asset(asset) => {
            let number = u64::from(asset) + 1;
            write!(f, "[[asset]] {number}")?;
            match config.assets().asset(asset) {
                Some(asset) => write!(f, " \"{}/{}\"", asset.code, asset.scale),
                None => Ok(()),
            }
        }
        ConfigTable::Price(price) => write!(f, "[[price]] {}", u64::from(price) + 1),
        ConfigTable::Peer(peer) => {
            let number = u64::from(peer) + 1;
            write!(f, "[[peer]] {number}")?;
            if peer < config.peers() {
                write!(f, " \"{}\"", config.name(peer))?;
            }
            Ok(())
        }
        ConfigTable::Route(route) => write!(f, "[[route]] {}", u64::from(route) + 1),
    }
}

// Writes that a field is not known, and which one may be meant.
fn write_unknown<W: fmt::Write>(
    f: &mut fmt::Formatter<W>,
    within: ConfigTable,
    key: &Option<String>,
    meant: Option<Field>,
) -> fmt::Result {
    let whole = whole(within);
    match key {
        Some(key) => write!(f, "`{key}` is no field of {whole}, and is ignored")?,
        None => write!(f, "a field that {whole} doesn't have is ignored")?,
    }
    match meant {
        Some(field) if is_array(within, field) => write!(f, ": `[[{field}]]` may be meant"),
        Some(field) => write!(f, ": `{field}` may be meant"),
        None => Ok(()),
    }
}

// Whether a field of this table is an array of tables.
fn is_array(within: ConfigTable, field: Field) -> bool {
    within == ConfigTable::Top
        && matches!(
            field,
            Field::Asset | Field::Price | Field::Peer | Field::Route
        )
}

// What has the fields of a table.
fn whole(within: ConfigTable) -> &'static str {
    match within {
        ConfigTable::Top => "the top",
        ConfigTable::Asset(_) => "an asset",
        ConfigTable::Price(_) => "a price",
        ConfigTable::Peer(_) => "a peer",
        ConfigTable::Route(_) => "a route",
    }
}
