//! Passages that begin, wait and end.
ghost use Rattle.std.specs.Bool.{OnTrue};
ghost use Rattle.ilp_flow.specs.Counts.{AreKnownTo};

use super::plain::{LIMITS, Limit, Plain};
use ilp_flow::{Flow, Passage};
use std::alloc::{AllocError, Global};
use std::process::Abort;
use std::test::Fail;
use test_chance::Chance;

// How many senders and receivers there are, how many steps a run has, and how many wait at once at most.
const PARTIES: u32 = 5;

const STEPS: u32 = 3_000;

const WAITING: u32 = 6;

// So many may be in flight, of so many octets at most.
#[derive(Clone, Copy)]
struct Run {
    most: u32,
    octets: u32,
}

const RUNS: [Run; 8] = [
    Run {
        most: 1,
        octets: 65_536,
    },
    Run {
        most: 2,
        octets: 500,
    },
    Run {
        most: 3,
        octets: 65_536,
    },
    Run {
        most: 6,
        octets: 30_000,
    },
    Run {
        most: 8,
        octets: 500,
    },
    Run {
        most: 20,
        octets: 20_000,
    },
    Run {
        most: 60,
        octets: 500,
    },
    Run {
        most: 60,
        octets: 65_536,
    },
];

#[test]
fn flights(rt: HostRuntime) -> Result<(), Fail> {
    let mut met = Vec::new(rt.alloc());
    let mut chance = Chance::new(7);
    for run in RUNS {
        play(&rt, rt.alloc(), run, &mut chance, &mut met)?;
    }
    for limit in LIMITS {
        assert!(rt; met.contains(&limit), "{limit:?} never came up");
    }
    Ok(())
}

fn play(
    rt: &impl Abort,
    alloc: Global,
    run: Run,
    chance: &mut Chance,
    met: &mut Vec<Limit>,
) -> Result<(), AllocError> {
    let mut flow = Flow::new(alloc, run.most, PARTIES)?;
    let mut plain = Plain::new(alloc, run.most);
    for _step in 0..STEPS {
        match chance.below(8) {
            0..=2 => begin(rt, &mut flow, &mut plain, any(chance, run), met)?,
            3..=5 => end(rt, &mut flow, &mut plain, chance),
            _ => begin_next(rt, alloc, &mut flow, &mut plain, chance, run)?,
        }
        assert_eq!(rt; flow.flying() as usize, plain.len());
    }
    Ok(())
}

fn any(chance: &mut Chance, run: Run) -> Passage {
    Passage {
        sender: chance.below(PARTIES),
        receiver: chance.below(PARTIES),
        octets: chance.below(run.octets.saturating_add(1)),
    }
}

// Begins one in both, if it may.
fn begin(
    rt: &impl Abort,
    flow: &mut Flow,
    plain: &mut Plain,
    passage: Passage,
    met: &mut Vec<Limit>,
) -> Result<(), AllocError> {
    assert!(rt; flow.knows(passage));
    let limit = plain.limit_for(passage);
    assert_eq!(rt; flow.may_begin(passage), limit.is_none(), "{passage:?}");
    assert_eq!(rt; flow.begin(passage), limit.is_none());
    let Some(limit) = limit else {
        return plain.begin(passage);
    };
    if !met.contains(&limit) {
        met.push(limit)?;
    }
    Ok(())
}

// Ends any one in both.
fn end(rt: &impl Abort, flow: &mut Flow, plain: &mut Plain, chance: &mut Chance) {
    let place = chance.below(flow.flying()) as usize;
    if let Some(passage) = plain.end(place) {
        assert!(rt; flow.knows(passage));
        flow.end(passage);
    }
}

// Begins in both the one of some that wait whose turn it is.
fn begin_next(
    rt: &impl Abort,
    alloc: Global,
    flow: &mut Flow,
    plain: &mut Plain,
    chance: &mut Chance,
    run: Run,
) -> Result<(), AllocError> {
    let mut waiting = Vec::new(alloc);
    for _one in 0..chance.below(WAITING) {
        waiting.push(any(chance, run))?;
    }
    assert!(rt; knows_all(flow, &waiting));
    let next = flow.next(&waiting);
    assert_eq!(rt; next, plain.next(&waiting), "{waiting:?}");
    let Some(passage) = next.and_then(|place| waiting.get(place).copied()) else {
        return Ok(());
    };
    assert!(rt; flow.knows(passage));
    assert!(rt; flow.begin(passage));
    plain.begin(passage)
}

fn knows_all(flow: &Flow, waiting: &[Passage]) -> bool
    ensures { OnTrue result (AreKnownTo flow.now waiting.now) }
{
    waiting.iter().all(|passage| flow.knows(*passage))
}
