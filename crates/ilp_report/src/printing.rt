//! Writing a report.
ghost use Rattle.std.specs.Prelude.{◌≤◌, pos, [], length, is_err, OnOk, OnErr, if◌then◌else◌};
ghost use Rattle.std.specs.List.{flat_map};
ghost use Rattle.std.specs.Io.KnownBytes.{Appends};
ghost use Rattle.ilp_io.specs.Counts.{CountsUp};
ghost use Rattle.ilp_io.specs.Writing.{AppendsProperPrefix};
ghost use Rattle.ilp_report.specs.Report.{line, balance_line, open_line, asset_lines, period_line, text_of};

use crate::accounts::{AssetBooks, PeerAccount};
use crate::line::{LABEL_END, put_line};
use crate::snapshot::Snapshot;
use ilp_io::{Sink, WriteFault};
use std::alloc::Allocator;

/// Writes the report of a snapshot, line by line. No memory is taken. The number of the period is told
/// last, where it is above 0.
///
/// It is refused only where a write fails or takes no octet. Then a part of the report was taken.
pub fn print<A: Allocator, W: Sink>(snapshot: &Snapshot<A>, sink: &mut W) -> Result<(), WriteFault>
    ensures ok { OnOk result
        (Appends (W.contents sink.old) (W.contents sink.new) (text_of snapshot.now)) }
    ensures err { OnErr result
        (AppendsProperPrefix (W.contents sink.old) (W.contents sink.new) (text_of snapshot.now)) }
    ensures failed { CountsUp (W.failures sink.old) (W.failures sink.new)
        (if is_err result then 1 else 0) }
{
    put_balances(sink, snapshot.peers())?;
    put_open_holds(sink, snapshot.peers())?;
    put_assets(sink, snapshot.assets())?;
    put_count(sink, "entries", snapshot.entries())?;
    put_count(sink, "fulfilled", snapshot.fulfilled())?;
    put_period(sink, snapshot.period())
}

// The lines of the balances.
fn put_balances<A: Allocator, W: Sink>(
    sink: &mut W,
    peers: &[PeerAccount<A>],
) -> Result<(), WriteFault>
    ensures ok { OnOk result
        (Appends (W.contents sink.old) (W.contents sink.new) (flat_map balance_line peers.now)) }
    ensures err { OnErr result (AppendsProperPrefix (W.contents sink.old) (W.contents sink.new)
        (flat_map balance_line peers.now)) }
    ensures failed { CountsUp (W.failures sink.old) (W.failures sink.new)
        (if is_err result then 1 else 0) }
{
    for peer in peers {
        put_balance(sink, peer)?;
    }
    Ok(())
}

// The line of a balance.
fn put_balance<A: Allocator, W: Sink>(sink: &mut W, peer: &PeerAccount<A>) -> Result<(), WriteFault>
    ensures ok { OnOk result
        (Appends (W.contents sink.old) (W.contents sink.new) (balance_line peer.now)) }
    ensures err { OnErr result
        (AppendsProperPrefix (W.contents sink.old) (W.contents sink.new) (balance_line peer.now)) }
    ensures failed { CountsUp (W.failures sink.old) (W.failures sink.new)
        (if is_err result then 1 else 0) }
{
    put_line(sink, "balance", peer.name(), peer.balance())
}

// The lines of the open holds.
fn put_open_holds<A: Allocator, W: Sink>(
    sink: &mut W,
    peers: &[PeerAccount<A>],
) -> Result<(), WriteFault>
    ensures ok { OnOk result
        (Appends (W.contents sink.old) (W.contents sink.new) (flat_map open_line peers.now)) }
    ensures err { OnErr result (AppendsProperPrefix (W.contents sink.old) (W.contents sink.new)
        (flat_map open_line peers.now)) }
    ensures failed { CountsUp (W.failures sink.old) (W.failures sink.new)
        (if is_err result then 1 else 0) }
{
    for peer in peers {
        put_open(sink, peer)?;
    }
    Ok(())
}

// The line of a peer's open holds.
fn put_open<A: Allocator, W: Sink>(sink: &mut W, peer: &PeerAccount<A>) -> Result<(), WriteFault>
    ensures ok { OnOk result
        (Appends (W.contents sink.old) (W.contents sink.new) (open_line peer.now)) }
    ensures err { OnErr result
        (AppendsProperPrefix (W.contents sink.old) (W.contents sink.new) (open_line peer.now)) }
    ensures failed { CountsUp (W.failures sink.old) (W.failures sink.new)
        (if is_err result then 1 else 0) }
{
    put_line(sink, "open", peer.name(), i128::from(peer.open_holds()))
}

// The lines of the assets.
fn put_assets<A: Allocator, W: Sink>(
    sink: &mut W,
    assets: &[AssetBooks<A>],
) -> Result<(), WriteFault>
    ensures ok { OnOk result
        (Appends (W.contents sink.old) (W.contents sink.new) (flat_map asset_lines assets.now)) }
    ensures err { OnErr result (AppendsProperPrefix (W.contents sink.old) (W.contents sink.new)
        (flat_map asset_lines assets.now)) }
    ensures failed { CountsUp (W.failures sink.old) (W.failures sink.new)
        (if is_err result then 1 else 0) }
{
    for asset in assets {
        put_asset(sink, asset)?;
    }
    Ok(())
}

// The lines of an asset.
fn put_asset<A: Allocator, W: Sink>(sink: &mut W, asset: &AssetBooks<A>) -> Result<(), WriteFault>
    ensures ok { OnOk result
        (Appends (W.contents sink.old) (W.contents sink.new) (asset_lines asset.now)) }
    ensures err { OnErr result (AppendsProperPrefix (W.contents sink.old) (W.contents sink.new)
        (asset_lines asset.now)) }
    ensures failed { CountsUp (W.failures sink.old) (W.failures sink.new)
        (if is_err result then 1 else 0) }
{
    let name = asset.name();
    let sums = asset.sums();
    put_line(sink, "held", name, sums.held)?;
    put_line(sink, "fees", name, sums.fees)?;
    put_line(sink, "bought", name, sums.bought)?;
    put_line(sink, "sold", name, sums.sold)?;
    put_line(sink, "settled", name, sums.settled)
}

// The line of a period's number, which the first period lacks.
fn put_period<W: Sink>(sink: &mut W, period: u32) -> Result<(), WriteFault>
    ensures ok { OnOk result
        (Appends (W.contents sink.old) (W.contents sink.new) (period_line period)) }
    ensures err { OnErr result
        (AppendsProperPrefix (W.contents sink.old) (W.contents sink.new) (period_line period)) }
    ensures failed { CountsUp (W.failures sink.old) (W.failures sink.new)
        (if is_err result then 1 else 0) }
{
    if period == 0 {
        return Ok(());
    }
    put_count(sink, "period", period)
}

// The line of a count, which has no name.
fn put_count<W: Sink>(sink: &mut W, label: &str, count: u32) -> Result<(), WriteFault>
    requires { length label.now ≤ LABEL_END }
    ensures ok { OnOk result
        (Appends (W.contents sink.old) (W.contents sink.new) (line label.now [] (pos count))) }
    ensures err { OnErr result (AppendsProperPrefix (W.contents sink.old) (W.contents sink.new)
        (line label.now [] (pos count))) }
    ensures failed { CountsUp (W.failures sink.old) (W.failures sink.new)
        (if is_err result then 1 else 0) }
{
    put_line(sink, label, "", i128::from(count))
}
