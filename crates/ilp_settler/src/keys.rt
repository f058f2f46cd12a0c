//! The key under which an engine is asked for a settlement.
ghost use Rattle.std.specs.Prelude.{◌≡◌, ◌+◌, ◌≤◌, [], ◌++◌, length, codes};
ghost use Rattle.std.specs.Fmt.{decimal};
ghost use Rattle.ilp_rules.specs.Heads.{period_mark, settlement_key_of};
ghost use Rattle.ilp_desk.specs.Desk.{settlement_key_in};
ghost use Rattle.ilp_settler.specs.Settler.{longest_key};

use ilp_accounts::Config;
use ilp_desk::{Desk, Naming};
use ilp_oer::Octets;
use itoa::Buffer;
use std::alloc::Allocator;
use std::sync::Wait;

/// The most octets that the key of a settlement has. Those of an earlier period may have as many; one of
/// this period, `RUN.PERIOD-NUMBER`, has at most 54.
pub(crate) const LONGEST_KEY: usize = 128;

// The most octets of what follows the run in a key, without the number.
const LONGEST_MARK: usize = 12;

/// Writes the key of the settlement of this number in place of what stands there, into the room that
/// there is. The lock is taken to see whether it is of an earlier period.
pub(crate) fn put_key<J: Naming, A: Allocator>(
    rt: &impl Wait,
    desk: &Desk<J>,
    number: u32,
    key: &mut Octets<A>,
)
    requires room { longest_key ≤ length key.old.octets + key.old.spare }
    ensures text { key.new.octets ≡ settlement_key_in J.desk number }
    ensures room { longest_key ≤ length key.new.octets + key.new.spare }
{
    let locked = desk.lock(rt);
    key.clear();
    match locked.earlier_key(number) {
        Some(earlier) => key.append_reserved(earlier.as_slice()),
        None => put_own_key(desk.config(), locked.book().period(), number, key),
    }
}

// Writes the key of a settlement of the period itself where nothing stands.
fn put_own_key<A: Allocator>(config: &Config, period: u32, number: u32, key: &mut Octets<A>)
    requires empty { key.old.octets ≡ [] }
    requires room { longest_key ≤ key.old.spare }
    ensures text { key.new.octets ≡ settlement_key_of config.now period number }
    ensures room { length key.new.octets + key.new.spare ≡ key.old.spare }
{
    // Called for what its contract tells: a run is as long as one may be, at most.
    let _ = config.peers();
    let mut digits = Buffer::new();
    key.append_reserved(config.run().as_bytes());
    put_mark(period, key);
    key.append_reserved(digits.format(number).as_bytes());
}

// Adds what follows the run: a hyphen, and before it the number of a period above 0.
fn put_mark<A: Allocator>(period: u32, key: &mut Octets<A>)
    requires room { LONGEST_MARK ≤ key.old.spare }
    ensures text { key.new.octets ≡ key.old.octets ++ period_mark period }
    ensures used { key.new.spare + length (period_mark period) ≡ key.old.spare }
    ensures short { length (period_mark period) ≤ LONGEST_MARK }
{
    if period == 0 {
        key.append_reserved(b"-")
    } else {
        put_later_mark(period, key)
    }
}

// That of a period above 0.
fn put_later_mark<A: Allocator>(period: u32, key: &mut Octets<A>)
    requires room { LONGEST_MARK ≤ key.old.spare }
    ensures text { key.new.octets ≡ key.old.octets ++ (codes "." ++ (decimal period ++ codes "-")) }
    ensures used { key.new.spare + length (codes "." ++ (decimal period ++ codes "-")) ≡ key.old.spare }
    ensures short { length (codes "." ++ (decimal period ++ codes "-")) ≤ LONGEST_MARK }
{
    let mut digits = Buffer::new();
    key.append_reserved(b".");
    key.append_reserved(digits.format(period).as_bytes());
    key.append_reserved(b"-");
}
