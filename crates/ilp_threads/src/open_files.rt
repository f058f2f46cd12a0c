//! How many files the process may have open, and what may wait and be in flight by that.
ghost use Rattle.std.specs.Prelude.{◌≡◌, ◌+◌, ◌-◌, ◌*◌, ◌/◌, ◌<◌, ◌^◌, min, max};
ghost use Rattle.ilp_intake.specs.declared.limits.TheConstants.{MOST_WAITING};
ghost use Rattle.ilp_threads.specs.OpenFiles as files;

use ilp_intake::MOST_WAITING;
use std::alloc::Global;
use std::io::Read;
use std::rt::Files;
use std::{fs, str};

// Where Linux says what this process may have.
const LIMITS: &str = "/proc/self/limits";

// What its line on open files begins with; the number follows.
const LABEL: &str = "Max open files";

// The standard streams; of each side the listener, what waits for events and what wakes it; what the
// settler's loop waits with and what wakes it; and some to spare. The settler has a connection for each
// peer besides.
const OWN: u64 = 20;

// What a worker's loop waits with, and what wakes it.
const OF_A_WORKER: u64 = 2;

/// How many files the process may have open at once. None where the system does not say, or memory for
/// its text is denied.
pub(crate) fn open_files<R: Files>(rt: &R, alloc: Global) -> Option<u64> {
    let mut octets = Vec::new(alloc);
    let mut file = fs::open(rt, LIMITS).ok()?;
    file.read_to_end(&mut octets).ok()?;
    limit_in(str::from_utf8(octets.as_slice()).ok()?)
}

// The limit of open files that counts, by the system's text.
fn limit_in(text: &str) -> Option<u64> {
    for line in text.lines() {
        if let Some(rest) = line.strip_prefix(LABEL) {
            return rest.split_ascii_whitespace().next()?.parse().ok();
        }
    }
    None
}

/// How many open files are kept for all but what waits and is in flight, with so many workers and peers.
fn kept(workers: u32, peers: u32) -> u64
    ensures { result ≡ files.kept workers peers }
{
    OWN + OF_A_WORKER * u64::from(workers) + u64::from(peers)
}

/// How many files a connector has open at most, with so many workers, peers and packets in flight.
pub(crate) fn wanted(workers: u32, peers: u32, in_flight: u32) -> u64
    ensures { result ≡ files.wanted workers peers in_flight }
{
    kept(workers, peers) + 2 * MOST_WAITING as u64 + 2 * u64::from(in_flight)
}

/// How many connections may wait at each side, where so many files may be open: an eighth of what is left
/// beside those that are kept, and at least one.
pub(crate) fn waiting_by(limit: u64, workers: u32, peers: u32) -> usize
    ensures { result ≡ files.waiting_by limit workers peers }
{
    let part = limit.saturating_sub(kept(workers, peers)) / 8;
    part.min(MOST_WAITING as u64).max(1) as usize
}

/// How many packets and messages may be in flight, of so many that are asked for, where so many files may
/// be open: half of what is left beside those that are kept and connections that wait, and at least one.
pub(crate) fn in_flight_by(limit: u64, workers: u32, peers: u32, asked: u32) -> u32
    ensures { result ≡ files.in_flight_by limit workers peers asked }
{
    let waiting = 2 * waiting_by(limit, workers, peers) as u64;
    let kept = kept(workers, peers);
    let left = limit.saturating_sub(kept).saturating_sub(waiting);
    (left / 2).min(u64::from(asked)).max(1) as u32
}
