//! What a test plays on: a listener, the configuration that names its place, and notices.

use super::calls::Scene;
use super::stand_in::config_at;
use super::{play_engines, play_nobody, play_packets};
use ilp_accounts::Config;
use ilp_notices::Notices;
use std::alloc::Global;
use std::io;
use std::io::Eprint;
use std::net::{Net, TcpListener, TcpStream};
use std::process::Abort;
use std::thread::Threads;
use std::time::Clock;

/// What a test plays.
#[derive(Clone, Copy)]
pub(super) enum Play {
    /// Packets for alice, and what she may do with them.
    Packets,
    /// Packets for which no connection is made.
    Nobody,
    /// Calls of engines.
    Engines,
}

/// Plays at a listener of its own.
pub(super) fn stage<R>(rt: &R, alloc: Global, play: Play) -> io::Result<()>
where
    R: Net<Stream = TcpStream, Listener = TcpListener>
        + Threads
        + Clock
        + Eprint
        + Abort
        + Copy
        + Send
        + Sync,
{
    let listener = TcpListener::bind(rt, "127.0.0.1:0")?;
    play_at(rt, alloc, &listener, play)
}

// Plays at this listener.
fn play_at<R>(rt: &R, alloc: Global, listener: &TcpListener, play: Play) -> io::Result<()>
where
    R: Net<Stream = TcpStream, Listener = TcpListener>
        + Threads
        + Clock
        + Eprint
        + Abort
        + Copy
        + Send
        + Sync,
{
    let config = config_at(alloc, listener.local_addr()?)?;
    play_with(rt, alloc, listener, &config, play)
}

// Plays with this configuration, which names the listener's place.
fn play_with<R>(
    rt: &R,
    alloc: Global,
    listener: &TcpListener,
    config: &Config,
    play: Play,
) -> io::Result<()>
where
    R: Net<Stream = TcpStream, Listener = TcpListener>
        + Threads
        + Clock
        + Eprint
        + Abort
        + Copy
        + Send
        + Sync,
{
    let place = listener.local_addr()?;
    let notices = Notices::new(alloc, config)?;
    let scene = Scene {
        rt,
        alloc,
        listener,
        place,
        config,
        notices: &notices,
    };
    match play {
        Play::Packets => play_packets(scene),
        Play::Nobody => play_nobody(scene),
        Play::Engines => play_engines(scene),
    }
}
