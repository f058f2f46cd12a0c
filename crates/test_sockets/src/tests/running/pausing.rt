//! A connector whose payouts to bob are paused, and go on.

use super::messages::{
    CLOSE, CLOSED, DONE, PAUSE, PAUSE_OF_NOBODY, PAUSED, REPORT, RESUME, UNKNOWN, UNTOUCHED,
};
use super::silence::ask;
use std::alloc::Global;
use std::io;
use std::net::{Net, TcpStream};
use std::time::Clock;

/// Payouts to bob are paused and go on, as the report says, and the connector is closed. Says whether all was
/// as it should be.
pub(crate) fn pause<R>(rt: &R, alloc: Global, engines: &str) -> io::Result<bool>
where
    R: Net<Stream = TcpStream> + Clock,
{
    let paused = pause_and_resume(rt, alloc, engines);
    let closed = ask(rt, alloc, engines, CLOSE)?;
    Ok(paused? && closed.as_slice() == CLOSED)
}

fn pause_and_resume<R>(rt: &R, alloc: Global, engines: &str) -> io::Result<bool>
where
    R: Net<Stream = TcpStream> + Clock,
{
    let refused = ask(rt, alloc, engines, PAUSE_OF_NOBODY)?;
    let before = ask(rt, alloc, engines, REPORT)?;
    let paused = ask(rt, alloc, engines, PAUSE)?;
    let between = ask(rt, alloc, engines, REPORT)?;
    let resumed = ask(rt, alloc, engines, RESUME)?;
    let after = ask(rt, alloc, engines, REPORT)?;
    let is_answered = refused.as_slice() == UNKNOWN
        && paused.as_slice() == DONE
        && resumed.as_slice() == DONE;
    let is_told = before.ends_with(UNTOUCHED)
        && between.ends_with(PAUSED)
        && after.ends_with(UNTOUCHED);
    Ok(is_answered && is_told)
}
