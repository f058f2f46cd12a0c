//! A desk's log whose disk fails in one call, and which is mended then. The machine stops in each call
//! behind it in turn: what is recovered then.

use crate::booking::TWO_PEERS;
use crate::recovering::recover_stopped;
use crate::running::{MOST_CALLS, Plan, Stopped, run_anew};
use crate::tearing::Failures;
use ilp_accounts::Config;
use std::process::Abort;
use std::sync::Wait;
use std::test::*;

// Runs a desk whose log's disk fails so. All that was told is recovered.
fn run_failing<R: Wait + Abort>(
    rt: &R,
    config: &Config,
    plan: &Plan,
    failures: Failures,
    step: usize,
) -> Result<Stopped, Fail> {
    let stopped = run_anew(rt, config, plan, failures)?.ok_or("a desk opens")?;
    recover_stopped(rt, config, &stopped, step).ok_or("a book goes on")?;
    Ok(stopped)
}

// Each call from the one that fails on is in turn that in which the machine stops. Each time as many
// entries at least are told as the time before; and in the last turn, in which it doesn't stop, all are.
// Whether the disk failed then.
fn stop_behind<R: Wait + Abort>(
    rt: &R,
    config: &Config,
    plan: &Plan,
    once: u32,
    step: usize,
) -> Result<bool, Fail> {
    let mut told = 0;
    for stop in once..MOST_CALLS {
        let stopped = run_failing(rt, config, plan, Failures { once, stop }, step)?;
        assert!(rt;
            stopped.course.told >= told,
            "it fails in {once} and stops in {stop}"
        );
        told = stopped.course.told;
        if !stopped.device.has_stopped() {
            assert_eq!(rt; Some(told), stopped.course.groups.last().copied());
            return Ok(stopped.device.calls() > once);
        }
    }
    Err(Fail::from("it always stopped"))
}

// Each call in turn fails.
fn fail_in_each<R: Wait + Abort>(
    rt: &R,
    config: &Config,
    plan: &Plan,
    step: usize,
) -> Result<(), Fail> {
    for once in 0..MOST_CALLS {
        if !stop_behind(rt, config, plan, once, step)? {
            return Ok(());
        }
    }
    Err(Fail::from("it always failed"))
}

#[test]
fn what_was_told_is_recovered_where_a_log_is_mended(rt: HostRuntime) -> Result<(), Fail> {
    let config = Config::read(rt.alloc(), TWO_PEERS.as_bytes())?;
    for (seed, groups, zeros, step) in [(1, 2, 0, 1), (4, 3, 100, 11)] {
        let plan = Plan {
            seed,
            groups,
            zeros,
            mends: true,
            ..Plan::SHORT
        };
        fail_in_each(&rt, &config, &plan, step)?;
    }
    Ok(())
}

// In the call that fails the first entries behind some hundred are written.
#[test]
fn what_was_told_is_recovered_where_a_long_log_is_mended(rt: HostRuntime) -> Result<(), Fail> {
    let config = Config::read(rt.alloc(), TWO_PEERS.as_bytes())?;
    let plan = Plan {
        mends: true,
        ..Plan::LONG
    };
    assert!(rt; stop_behind(&rt, &config, &plan, 4, 4_999)?);
    Ok(())
}
