//! What each kind of entry adds to the tallies.
ghost use Rattle.std.specs.Prelude.{◌≡◌};
ghost use Rattle.ilp_tallies.specs.Steps as steps;
ghost use Rattle.ilp_tallies.specs.Steps.{FitsStep};

use crate::rows::{AssetRow, PeerRow};
use ilp_journal::{Ask, Credited, Hold, Journal, What, above, below};
use std::alloc::Allocator;

/// What an entry adds: to the rows of two peers and of the assets that they have, and to the
/// counts.
#[derive(Clone, Copy)]
pub(crate) struct Step {
    /// The sender of a hold, or the peer of a settlement.
    pub(crate) from: u32,
    /// The receiver of a hold; `from` again for a settlement.
    pub(crate) to: u32,
    /// What is added to the row of `from`.
    pub(crate) from_row: PeerRow,
    /// What is added to the row of `to`.
    pub(crate) to_row: PeerRow,
    /// What is added to the row of the asset of `from`.
    pub(crate) from_sums: AssetRow,
    /// What is added to the row of the asset of `to`.
    pub(crate) to_sums: AssetRow,
    /// How many holds and settlements the entry opens.
    pub(crate) opened: u64,
    /// How many holds and settlements it ends.
    pub(crate) closed: u64,
    /// How many holds it fulfills.
    pub(crate) fulfilled: u64,
}

/// What an entry adds that comes next in the journal, where the totals are of the holds since
/// `base`. One that names no hold or settlement of the journal adds nothing.
pub(crate) fn step_of<A: Allocator>(base: u32, journal: &Journal<A>, what: &What) -> Step
    ensures step { result ≡ steps.step_of base journal.now.entries what.now }
    ensures fits { FitsStep result }
{
    match what {
        What::Hold(hold) => hold_step(base, journal.len(), hold),
        What::Fulfilled { hold, .. } => match journal.hold(*hold) {
            Some(hold) => fulfill_step(&hold),
            None => no_step(0),
        },
        What::Released { hold, .. } => match journal.hold(*hold) {
            Some(terms) => release_step(base, *hold, &terms),
            None => no_step(0),
        },
        What::Credited(credited) => credit_step(credited),
        What::Asked(ask) => ask_step(ask),
        What::Confirmed { ask } => match journal.ask(*ask) {
            Some(ask) => confirm_step(&ask),
            None => no_step(0),
        },
        What::Undone { ask } => match journal.ask(*ask) {
            Some(ask) => undo_step(&ask),
            None => no_step(0),
        },
        What::Opened { peer, balance } => open_step(*peer, *balance),
        What::Known(credited) => no_step(credited.peer),
        What::Pending { peer, .. } => pending_step(*peer),
    }
}

// Nothing, for a peer.
fn no_step(peer: u32) -> Step
    ensures step { result ≡ steps.no_step peer }
    ensures fits { FitsStep result }
{
    Step {
        from: peer,
        to: peer,
        from_row: PeerRow::zero(),
        to_row: PeerRow::zero(),
        from_sums: AssetRow::zero(),
        to_sums: AssetRow::zero(),
        opened: 0,
        closed: 0,
        fulfilled: 0,
    }
}

// The amount, if the number is `base` or greater; else 0.
fn counted(base: u32, number: u32, amount: u64) -> u64
    ensures { result ≡ steps.counted base number amount }
{
    if base <= number { amount } else { 0 }
}

// A hold lowers the balance of its sender.
fn hold_step(base: u32, number: u32, hold: &Hold) -> Step
    ensures step { result ≡ steps.hold_step base number hold.now }
    ensures fits { FitsStep result }
{
    Step {
        from: hold.from,
        to: hold.to,
        from_row: PeerRow {
            lowered: u128::from(hold.amount),
            sent: 1,
            ..PeerRow::zero()
        },
        from_sums: AssetRow {
            begun: u128::from(hold.amount),
            in_begun: u128::from(counted(base, number, hold.amount)),
            ..AssetRow::zero()
        },
        to_sums: AssetRow {
            out_begun: u128::from(counted(base, number, hold.out)),
            ..AssetRow::zero()
        },
        opened: 1,
        ..no_step(hold.from)
    }
}

// A hold that is fulfilled raises the balance of its receiver by the amount out.
fn fulfill_step(hold: &Hold) -> Step
    ensures step { result ≡ steps.fulfill_step hold.now }
    ensures fits { FitsStep result }
{
    Step {
        from: hold.from,
        to: hold.to,
        from_row: PeerRow {
            answered: 1,
            ..PeerRow::zero()
        },
        to_row: PeerRow {
            raised: u128::from(hold.out),
            ..PeerRow::zero()
        },
        from_sums: AssetRow {
            ended: u128::from(hold.amount),
            taken: u128::from(hold.amount),
            fees: u128::from(hold.fee),
            ..AssetRow::zero()
        },
        to_sums: AssetRow {
            sold: u128::from(hold.out),
            ..AssetRow::zero()
        },
        closed: 1,
        fulfilled: 1,
        ..no_step(hold.from)
    }
}

// A hold that is released raises the balance of its sender by the amount that it took.
fn release_step(base: u32, number: u32, hold: &Hold) -> Step
    ensures step { result ≡ steps.release_step base number hold.now }
    ensures fits { FitsStep result }
{
    Step {
        from: hold.from,
        to: hold.to,
        from_row: PeerRow {
            raised: u128::from(hold.amount),
            answered: 1,
            ..PeerRow::zero()
        },
        from_sums: AssetRow {
            ended: u128::from(hold.amount),
            in_released: u128::from(counted(base, number, hold.amount)),
            ..AssetRow::zero()
        },
        to_sums: AssetRow {
            out_released: u128::from(counted(base, number, hold.out)),
            ..AssetRow::zero()
        },
        closed: 1,
        ..no_step(hold.from)
    }
}

// A credit raises the balance of its peer, and a correction raises or lowers it.
fn credit_step(credited: &Credited) -> Step
    ensures step { result ≡ steps.credit_step credited.now }
    ensures fits { FitsStep result }
{
    let raised = u128::from(credited.kind.raising(credited.credited));
    let lowered = u128::from(credited.kind.lowering(credited.credited));
    Step {
        from_row: PeerRow {
            raised,
            lowered,
            ..PeerRow::zero()
        },
        from_sums: AssetRow {
            paid_in: raised,
            paid_out: lowered,
            ..AssetRow::zero()
        },
        ..no_step(credited.peer)
    }
}

// A settlement that is asked for lowers the balance of its peer.
fn ask_step(ask: &Ask) -> Step
    ensures step { result ≡ steps.ask_step ask.now }
    ensures fits { FitsStep result }
{
    Step {
        from_row: PeerRow {
            lowered: u128::from(ask.amount),
            ..PeerRow::zero()
        },
        from_sums: AssetRow {
            paid_out: u128::from(ask.amount),
            ..AssetRow::zero()
        },
        opened: 1,
        ..no_step(ask.peer)
    }
}

// A settlement that is confirmed changes no balance.
fn confirm_step(ask: &Ask) -> Step
    ensures step { result ≡ steps.confirm_step ask.now }
    ensures fits { FitsStep result }
{
    Step {
        closed: 1,
        ..no_step(ask.peer)
    }
}

// A settlement that is undone raises the balance of its peer by the amount that it took.
fn undo_step(ask: &Ask) -> Step
    ensures step { result ≡ steps.undo_step ask.now }
    ensures fits { FitsStep result }
{
    Step {
        closed: 1,
        ..paid_in(ask.peer, ask.amount)
    }
}

// A balance that is brought forward raises or lowers the balance of its peer.
fn open_step(peer: u32, balance: i64) -> Step
    ensures step { result ≡ steps.open_step peer balance }
    ensures fits { FitsStep result }
{
    let raised = u128::from(above(balance));
    let lowered = u128::from(below(balance));
    Step {
        from_row: PeerRow {
            raised,
            lowered,
            ..PeerRow::zero()
        },
        from_sums: AssetRow {
            paid_in: raised,
            paid_out: lowered,
            ..AssetRow::zero()
        },
        ..no_step(peer)
    }
}

// A settlement that is still open changes no balance.
fn pending_step(peer: u32) -> Step
    ensures step { result ≡ steps.pending_step peer }
    ensures fits { FitsStep result }
{
    Step {
        opened: 1,
        ..no_step(peer)
    }
}

// An amount that is paid in raises the balance of its peer.
fn paid_in(peer: u32, amount: u64) -> Step
    ensures step { result ≡ steps.paid_in peer amount }
    ensures fits { FitsStep result }
{
    Step {
        from_row: PeerRow {
            raised: u128::from(amount),
            ..PeerRow::zero()
        },
        from_sums: AssetRow {
            paid_in: u128::from(amount),
            ..AssetRow::zero()
        },
        ..no_step(peer)
    }
}
