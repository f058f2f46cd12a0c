//! A desk's log on a disk whose machine stops in each of its calls in turn: what is recovered then.

use crate::booking::TWO_PEERS;
use crate::recovering::recover_stopped;
use crate::running::{MOST_CALLS, Plan, Stopped, run_anew};
use crate::tearing::Failures;
use ilp_accounts::Config;
use std::process::Abort;
use std::sync::Wait;
use std::test::*;

// How many entries are written by one call at most.
const AT_ONCE: u32 = 256;

// Zeros of which a few lines have more.
const FEW_ZEROS: usize = 100;

// More zeros than all lines of a short run have octets.
const MANY_ZEROS: usize = 2_048;

// How many entries are told where so many calls succeed: two calls write those of a group, and two more
// those that are too many for one.
fn told_after(groups: &[u32], calls: u32) -> u32 {
    let mut told = 0u32;
    let mut left = calls;
    for booked in groups {
        let needed = booked
            .saturating_sub(told)
            .div_ceil(AT_ONCE)
            .saturating_mul(2);
        if left < needed {
            break;
        }
        left -= needed;
        told = *booked;
    }
    told
}

// The machine stops in this call. Whether it did.
fn stop_in<R: Wait + Abort>(
    rt: &R,
    config: &Config,
    plan: &Plan,
    step: usize,
    stop: u32,
) -> Result<bool, Fail> {
    let failures = Failures {
        stop,
        ..Failures::NONE
    };
    let stopped = run_anew(rt, config, plan, failures)?.ok_or("a desk opens")?;
    let told = told_after(stopped.course.groups.as_slice(), stop);
    assert_eq!(rt;
        stopped.course.told,
        told,
        "of the seed {} after {stop} calls",
        plan.seed
    );
    recover_stopped(rt, config, &stopped, step).ok_or("a book goes on")?;
    Ok(stopped.device.has_stopped())
}

// Each call in turn is that in which the machine stops, and in the last turn none is.
fn stop_in_each<R: Wait + Abort>(
    rt: &R,
    config: &Config,
    plan: &Plan,
    step: usize,
) -> Result<(), Fail> {
    for stop in 0..MOST_CALLS {
        if !stop_in(rt, config, plan, step, stop)? {
            return Ok(());
        }
    }
    Err(Fail::from("it always stopped"))
}

// The lines of what a run books whose disk doesn't fail.
fn lines_of_run<R: Wait>(rt: &R, config: &Config, plan: &Plan) -> Result<Vec<u8>, Fail> {
    let stopped = run_anew(rt, config, plan, Failures::NONE)?.ok_or("a desk opens")?;
    let Stopped { course, device: _ } = stopped;
    Ok(course.lines)
}

#[test]
fn all_kinds_of_entries_are_booked(rt: HostRuntime) -> Result<(), Fail> {
    let config = Config::read(rt.alloc(), TWO_PEERS.as_bytes())?;
    let lines = lines_of_run(&rt, &config, &Plan::LONG)?;
    let text = str::from_utf8(lines.as_slice())?;
    for word in [
        "hold",
        "fulfilled",
        "released",
        "credited",
        "asked",
        "confirmed",
        "undone",
    ] {
        assert!(rt; text.contains(word), "no entry is {word}");
    }
    Ok(())
}

#[test]
fn what_was_told_is_recovered(rt: HostRuntime) -> Result<(), Fail> {
    let config = Config::read(rt.alloc(), TWO_PEERS.as_bytes())?;
    for (seed, zeros, step) in [(1, 0, 1), (2, FEW_ZEROS, 5), (3, MANY_ZEROS, 5), (4, 0, 5)] {
        let plan = Plan {
            seed,
            zeros,
            ..Plan::SHORT
        };
        stop_in_each(&rt, &config, &plan, step)?;
    }
    Ok(())
}

#[test]
fn what_was_told_of_a_long_run_is_recovered(rt: HostRuntime) -> Result<(), Fail> {
    let config = Config::read(rt.alloc(), TWO_PEERS.as_bytes())?;
    stop_in_each(&rt, &config, &Plan::LONG, 4_999)
}
