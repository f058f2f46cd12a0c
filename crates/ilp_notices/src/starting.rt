//! What is told once: how the connector begins and ends.
ghost use Rattle.std.specs.Prelude.{◌<◌, length};

use crate::line::{Level, tell};
use ilp_accounts::Config;
use std::fmt::Display;
use std::io::{Eprint, ErrorKind};
use std::net::SocketAddr;
use std::time::Clock;
use std::{fmt, io};

/// Where both sides of a connector listen, as far as the system says.
#[derive(Clone, Copy)]
pub struct ListensAt {
    pub peers: Option<SocketAddr>,
    pub engines: Option<SocketAddr>,
}

/// Tells that the connector listens: where, with how many workers, how many packets and messages may be
/// in flight at once, with how many octets, and for which peers. Where the configuration has port 0 it tells the port
/// that was found.
pub fn listening<R: Clock + Eprint>(
    rt: &R,
    config: &Config,
    at: ListensAt,
    in_flight: u32,
    octets: u64,
) {
    let text = WhereAndWho {
        config,
        at,
        in_flight,
        octets,
    };
    tell(rt, Level::Info, text);
}

/// Tells of a thing in the configuration that is allowed and probably not meant.
pub fn configuration_warning<R: Clock + Eprint>(rt: &R, what: &str) {
    tell(rt, Level::Warn, format_args!("configuration: {what}"));
}

/// Tells that the configuration was read again, and that a new period has begun by it.
pub fn reloaded<R: Clock + Eprint>(rt: &R, line: &str) {
    tell(
        rt,
        Level::Info,
        format_args!("configuration: read again, and in force: {line}"),
    );
}

/// Tells that the configuration was read again and is not taken, and why.
pub fn not_reloaded<R: Clock + Eprint>(rt: &R, why: &str) {
    tell(
        rt,
        Level::Warn,
        format_args!(
            "configuration: read again, and not taken: {why}: the one before stays in force"
        ),
    );
}

/// Tells that an address can't be listened at, and why.
pub fn not_listening<R: Clock + Eprint>(rt: &R, place: &str, error: &io::Error) {
    if error.kind() == ErrorKind::InvalidInput {
        let text = format_args!("can't listen at {place}: it is no IP:PORT in digits");
        tell(rt, Level::Error, text);
    } else {
        tell(
            rt,
            Level::Error,
            format_args!("can't listen at {place}: {error}"),
        );
    }
}

/// Tells that a thread can't be started.
pub fn no_thread<R: Clock + Eprint>(rt: &R) {
    tell(rt, Level::Error, "a thread can't be started");
}

/// Tells that what a thread waits with can't be opened, and why.
pub fn no_seat<R: Clock + Eprint>(rt: &R, error: &io::Error) {
    let text = format_args!(
        "can't open what a thread waits with: {error}: raise the limit of open files"
    );
    tell(rt, Level::Error, text);
}

/// Tells that no connection is accepted any more.
pub fn closing<R: Clock + Eprint>(rt: &R) {
    tell(
        rt,
        Level::Info,
        "closing: no connection is accepted any more",
    );
}

/// Tells that the process may have so many open files at most, and how many it may need.
pub fn few_files<R: Clock + Eprint>(rt: &R, limit: u64, wanted: u64) {
    let text = format_args!(
        "open files: {limit} at most, and this configuration may need {wanted}: set ulimit -n {wanted}"
    );
    tell(rt, Level::Warn, text);
}

/// Tells that the report goes to standard error.
pub fn report_follows<R: Clock + Eprint>(rt: &R) {
    tell(
        rt,
        Level::Error,
        "the report can't be written to standard output, and follows here",
    );
}

// The line on a connector that listens.
#[derive(Clone, Copy)]
struct WhereAndWho<'c> {
    config: &'c Config,
    at: ListensAt,
    in_flight: u32,
    octets: u64,
}

impl Display for WhereAndWho<'_> {
    fn fmt<W: fmt::Write>(&self, f: &mut fmt::Formatter<W>) -> fmt::Result {
        let WhereAndWho {
            config,
            at,
            in_flight,
            octets,
        } = *self;
        let peers_at = Place {
            configured: config.listen(),
            found: at.peers,
        };
        let engines_at = Place {
            configured: config.engine_listen(),
            found: at.engines,
        };
        let (workers, peers) = (config.workers(), config.peers());
        write!(
            f,
            "listening at {peers_at} for peers and at {engines_at} for engines: {workers} workers, {in_flight} in flight with {octets} octets, {peers} peers"
        )?;
        for peer in 0..config.peers() {
            write_peer(f, config, peer)?;
        }
        Ok(())
    }
}

// Where a side listens: as it is configured, but for a port that was left to the system.
#[derive(Clone, Copy)]
struct Place<'c> {
    configured: &'c str,
    found: Option<SocketAddr>,
}

impl Display for Place<'_> {
    fn fmt<W: fmt::Write>(&self, f: &mut fmt::Formatter<W>) -> fmt::Result {
        match self.found {
            Some(address) if self.configured.ends_with(":0") => write!(f, "{address}"),
            _ => write!(f, "{}", self.configured),
        }
    }
}

fn write_peer<W: fmt::Write>(f: &mut fmt::Formatter<W>, config: &Config, peer: u32) -> fmt::Result
    requires { peer < length config.now.peers }
{
    let name = config.name(peer);
    match config.engine(peer) {
        Some(engine) => write!(f, ", {name} with the engine at {engine}"),
        None => write!(f, ", {name} without an engine"),
    }
}
