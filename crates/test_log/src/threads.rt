//! Two actors of a desk who have their entries be kept at once.

ghost use Rattle.std.specs.Prelude.{◌≡◌};
ghost use Rattle.ilp_desk.specs.Desk.{actors_of, base_of};

use crate::booking::{START, TWO_PEERS};
use crate::running::{DeskParts, LogParts, desk_parts, log_parts, open_log};
use crate::tearing::{Failures, TearingDevice};
use ilp_accounts::Config;
use ilp_desk::{Desk, Naming, Share};
use ilp_journal::{CreditKind, Key};
use ilp_log::{Log, LogNaming};
use ilp_settlement::Quantity;
use std::alloc::Global;
use std::marker::Brand;
use std::sync::Wait;
use std::sync::ledger::Blank;
use std::test::*;
use std::thread::{Threads, join};

// Two settlements of one unit from alice, under the keys k and l, by the actors 0 and 1.
const ZERO_FIRST: &[u8] =
    b"first\nsecond\n1735689600000 0 credited alice 6b 1 2 1\n1735689600000 1 credited alice 6c 1 2 1\n";

const ONE_FIRST: &[u8] =
    b"first\nsecond\n1735689600000 1 credited alice 6c 1 2 1\n1735689600000 0 credited alice 6b 1 2 1\n";

/// Whether a settlement from alice is booked under this key.
pub(crate) fn credit<J: Naming>(
    rt: &impl Wait,
    alloc: Global,
    desk: &Desk<J>,
    share: &mut Share<J>,
    key: &[u8],
) -> bool {
    let Ok(Some(key)) = Key::new(alloc, key) else {
        return false;
    };
    let one = Quantity {
        amount: 1,
        scale: 2,
    };
    0 < desk.config().peers()
        && desk
            .credit(rt, share, 0, key, &one, CreditKind::Settled, START)
            .is_ok()
}

// Whether all entries so far are on the disk.
fn commit<J: Naming, K: LogNaming>(
    rt: &impl Wait,
    alloc: Global,
    desk: &Desk<J>,
    log: &Log<J, K, TearingDevice>,
) -> bool {
    let mut receipt = desk.receipt(rt);
    log.commit(rt, alloc, desk, &mut receipt).is_ok()
}

// Whether a settlement from alice is booked under this key, and is then on the disk.
fn credit_and_commit<J: Naming, K: LogNaming>(
    rt: &impl Wait,
    alloc: Global,
    desk: &Desk<J>,
    log: &Log<J, K, TearingDevice>,
    mut share: Share<J>,
    key: &[u8],
) -> bool {
    credit(rt, alloc, desk, &mut share, key) && commit(rt, alloc, desk, log)
}

// Whether two actors have each committed a settlement.
fn commit_both<J: Naming + Send + Sync, K: LogNaming + Send + Sync, R: Threads + Wait + Sync>(
    rt: &R,
    alloc: Global,
    desk: &Desk<J>,
    log: &Log<J, K, TearingDevice>,
    shares: &mut Vec<Share<J>>,
) -> Option<bool> {
    let one = shares.pop()?;
    let zero = shares.pop()?;
    let (first, second) = join(
        rt,
        || credit_and_commit(rt, alloc, desk, log, zero, b"k"),
        || credit_and_commit(rt, alloc, desk, log, one, b"l"),
    );
    Some(first && second)
}

// The log's device once two actors of a desk have committed a settlement each.
fn logged<J: Naming + Send + Sync, K: LogNaming + Send + Sync, R: Threads + Wait + Sync>(
    rt: &R,
    config: &Config,
    parts: DeskParts,
    blanks: Blank,
    log: LogParts,
) -> Option<TearingDevice>
    requires config { (config.now ≡ J.desk.config) × (parts.book.config ≡ J.desk.config) }
    requires workers { 1 ≡ J.desk.workers }
    requires period { parts.book.period ≡ J.desk.period }
    requires opening { (parts.book.entries ≡ J.desk.opening) × (parts.book.base ≡ base_of J.desk) }
    requires ledger { (blanks.name ≡ J.name) × (blanks.parts ≡ J.parts) }
    requires parts { J.parts ≡ actors_of J.desk }
    requires list { parts.list ≡ J.list }
    requires form { (K.form.config ≡ J.desk.config) × (K.form.base ≡ 0) }
    requires base { log.start.base ≡ 0 }
    requires acks { log.acks ≡ K.table }
{
    let alloc = config.allocator();
    let DeskParts { book, list } = parts;
    let (desk, mut shares) = Desk::<J>::open(alloc, config, book, 1, blanks, list).ok()?;
    let log = Log::new(open_log::<J, K>(rt, &desk, log));
    let _settler = shares.pop()?;
    let is_logged = commit_both(rt, alloc, &desk, &log, &mut shares)?;
    if is_logged {
        Some(log.into_inner().into_device())
    } else {
        None
    }
}

// The same over a book of no entries, and a log that has its head.
fn logged_anew<R: Threads + Wait + Sync>(
    rt: &R,
    config: &Config,
) -> Result<Option<TearingDevice>, Fail> {
    let alloc = config.allocator();
    let log = log_parts(alloc, 0, Failures::NONE)?;
    let desk = desk_parts(alloc, config)?;
    Ok(logged::<Brand, Brand, R>(rt, config, desk, Blank::new(3), log))
}

#[test]
fn two_threads_commit(rt: HostRuntime) -> Result<(), Fail> {
    let config = Config::read(rt.alloc(), TWO_PEERS.as_bytes())?;
    let device = logged_anew(&rt, &config)?.ok_or("both commit")?;
    let octets = device.octets();
    assert!(rt; octets == ZERO_FIRST || octets == ONE_FIRST);
    Ok(())
}
