//! Connections of which one is closed.
ghost use Rattle.std.specs.Bool.{OnTrue};
ghost use Rattle.ilp_flow.specs.Fullest.{HasRoomFor};

use ilp_flow::{Waiter, closed_next};
use std::alloc::{AllocError, Global};
use std::test::Fail;
use test_chance::Chance;

const SENDERS: usize = 4;

#[test]
fn closing(rt: HostRuntime) -> Result<(), Fail> {
    let mut chance = Chance::new(3);
    let mut counts = [9_usize; SENDERS];
    for _list in 0..4_000 {
        let waiters = any(rt.alloc(), &mut chance)?;
        assert!(rt; has_room_for(&counts, &waiters));
        let closed = closed_next(&waiters, &mut counts);
        assert_eq!(rt; closed, plainly_closed(&waiters), "{waiters:?}");
    }
    Ok(())
}

// Up to eleven that wait; in every other list all requests are whole.
fn any(alloc: Global, chance: &mut Chance) -> Result<Vec<Waiter>, AllocError> {
    let kinds = if chance.is_one_in(2) { 1 } else { 6 };
    let mut waiters = Vec::new(alloc);
    for _one in 0..chance.below(12) {
        waiters.push(match chance.below(kinds) {
            4 => Waiter::Lingers,
            5 => Waiter::Partial,
            _ => Waiter::Whole {
                sender: chance.below(SENDERS as u32),
            },
        })?;
    }
    Ok(waiters)
}

fn has_room_for(counts: &[usize], waiters: &[Waiter]) -> bool
    ensures { OnTrue result (HasRoomFor counts.now waiters.now) }
{
    waiters.iter().all(|waiter| match waiter {
        Waiter::Whole { sender } => (*sender as usize) < counts.len(),
        _ => true,
    })
}

// The first of those that linger, else the first that isn't whole, else the last of a sender with most.
fn plainly_closed(waiters: &[Waiter]) -> Option<usize> {
    if let Some(place) = waiters.iter().position(|one| *one == Waiter::Lingers) {
        return Some(place);
    }
    if let Some(place) = waiters.iter().position(|one| *one == Waiter::Partial) {
        return Some(place);
    }
    let mut most = 0;
    for one in waiters {
        most = most.max(count_of(*one, waiters));
    }
    waiters
        .iter()
        .rposition(|one| count_of(*one, waiters) == most)
}

// How many are the same as this one.
fn count_of(waiter: Waiter, waiters: &[Waiter]) -> usize {
    waiters.iter().filter(|one| **one == waiter).count()
}
