//! The open settlements to all peers, by the peers' places.
ghost use Rattle.std.specs.Prelude.{◌≡◌, ◌<◌, [], length, IfOk, replicate};
ghost use Rattle.std.specs.List.{find};
ghost use Rattle.ilp_journal.specs.Journal.{is_behind};
ghost use Rattle.ilp_tallies.specs.declared.open_asks.TheConstants.{MOST_OPEN};
ghost use Rattle.ilp_tallies.specs.OpenAsks as asks;
ghost use Rattle.ilp_tallies.specs.OpenAsks.{AreOpenAsks, HasRoomToAsk, asks_after};

use crate::open_asks::OpenAsks;
use ilp_journal::{Ask, Journal, What};
use std::alloc::{AllocError, Allocator};

/// No open settlement to any of `count` peers. `AllocError` tells that memory is short.
pub(crate) fn no_asks<A: Allocator>(alloc: A, count: usize) -> Result<Vec<OpenAsks, A>, AllocError>
    ensures { IfOk result (λ rows. rows.items ≡ replicate count []) }
{
    let mut rows = Vec::with_capacity(alloc, count)?;
    for _peer in 0..count {
        rows.push(OpenAsks::new())?;
    }
    Ok(rows)
}

/// How many settlements to a peer are open: 0, where there is no such peer.
pub(crate) fn count_asks<A: Allocator>(rows: &Vec<OpenAsks, A>, peer: u32) -> u32
    ensures { result ≡ length (asks.asks_row rows.now.items peer) }
{
    match rows.get(peer as usize) {
        Some(row) => row.len(),
        None => 0,
    }
}

/// The first number of an open settlement to a peer behind this one, or of all.
pub(crate) fn next_ask<A: Allocator>(
    rows: &Vec<OpenAsks, A>,
    peer: u32,
    after: Option<u32>,
) -> Option<u32>
    ensures { result ≡ find (is_behind after) (asks.asks_row rows.now.items peer) }
{
    match rows.get(peer as usize) {
        Some(row) => row.next(after),
        None => None,
    }
}

/// Adds the settlement that an entry opens, or removes the one that it closes. The entry comes next
/// in the journal.
pub(crate) fn update_asks<A: Allocator, B: Allocator>(
    rows: &mut Vec<OpenAsks, A>,
    journal: &Journal<B>,
    what: &What,
)
    requires asks { AreOpenAsks journal.now.entries rows.old.items }
    requires room { HasRoomToAsk journal.now.entries what.now }
    ensures { rows.new.items ≡ asks_after rows.old.items journal.now.entries what.now }
{
    match what {
        What::Asked(ask) => add_ask(rows, ask.peer, journal.len()),
        What::Pending { peer, .. } => add_ask(rows, *peer, journal.len()),
        What::Confirmed { ask } | What::Undone { ask } => {
            let named = journal.ask(*ask);
            remove_named(rows, *ask, named);
        }
        _ => {}
    }
}

// Adds a settlement to a peer, if there is such a peer.
fn add_ask<A: Allocator>(rows: &mut Vec<OpenAsks, A>, peer: u32, number: u32)
    requires { length (asks.asks_row rows.old.items peer) < MOST_OPEN }
    ensures { rows.new.items ≡ asks.with_ask rows.old.items peer number }
{
    if (peer as usize) < rows.len() {
        let row = &mut rows[peer as usize];
        row.push(number);
    }
}

// Removes a settlement, if it was asked for.
fn remove_named<A: Allocator>(rows: &mut Vec<OpenAsks, A>, number: u32, named: Option<Ask>)
    ensures { rows.new.items ≡ asks.without_named rows.old.items number named }
{
    if let Some(ask) = named {
        remove_ask(rows, number, &ask);
    }
}

// Removes a settlement from those to its peer, if there is such a peer.
fn remove_ask<A: Allocator>(rows: &mut Vec<OpenAsks, A>, number: u32, ask: &Ask)
    ensures { rows.new.items ≡ asks.without_ask number rows.old.items ask.now }
{
    if (ask.peer as usize) < rows.len() {
        let row = &mut rows[ask.peer as usize];
        *row = row.without(number);
    }
}
