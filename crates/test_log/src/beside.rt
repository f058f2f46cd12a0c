//! A log that is mended while another has its entries be kept.

ghost use Rattle.std.specs.Prelude.{◌≡◌, [], IfOk};
ghost use Rattle.ilp_desk.specs.Desk.{actors_of, base_of};

use crate::booking::TWO_PEERS;
use crate::running::{DeskParts, HEAD, desk_parts};
use crate::tearing::{Failures, TearingDevice};
use crate::threads::credit;
use ilp_accounts::Config;
use ilp_desk::{Desk, Naming, Share};
use ilp_grown_list::NewList;
use ilp_line_file::{Device, DeviceFault, LineFile};
use ilp_log::{Ack, Log, LogFault, LogNaming, LogStart, OpenLog};
use std::alloc::{AllocError, Global};
use std::marker::Brand;
use std::sync::ledger::Blank;
use std::sync::{Condvar, Mutex, Wait};
use std::test::*;
use std::thread::{Threads, join};
use std::time::{Clock, Duration};

// After how many seconds the gate opens by itself. Nobody waits for it so long, unless a commit waits for a log that is
// mended.
const PATIENCE: u64 = 10;

// Where the disk stops before a new file is begun, until the gate is opened.
#[derive(Drop)]
struct Gate {
    state: Mutex<GateState>,
    changed: Condvar,
}

#[derive(Clone, Copy)]
struct GateState {
    is_reached: bool,
    is_open: bool,
}

impl Gate {
    fn new() -> Gate {
        Gate {
            state: Mutex::new(GateState {
                is_reached: false,
                is_open: false,
            }),
            changed: Condvar::new(),
        }
    }

    // Stops here until the gate is open.
    fn stop<R: Wait + Clock>(&self, rt: &R) {
        let mut state = self.state.lock(rt);
        state.is_reached = true;
        self.changed.notify_all();
        let (state, _) = self.changed.wait_timeout_while(
            rt,
            state,
            Duration::from_secs(PATIENCE),
            |state| !state.is_open,
        );
        drop(state);
    }

    // Waits until somebody stops here.
    fn await_one<R: Wait + Clock>(&self, rt: &R) {
        let (state, _) = self.changed.wait_timeout_while(
            rt,
            self.state.lock(rt),
            Duration::from_secs(PATIENCE),
            |state| !state.is_reached,
        );
        drop(state);
    }

    fn open<R: Wait>(&self, rt: &R) {
        self.state.lock(rt).is_open = true;
        self.changed.notify_all();
    }
}

// A file in memory whose disk stops at a gate before it begins a new file.
#[derive(Drop)]
struct GatedDevice<'g, R: Wait + Clock> {
    rt: &'g R,
    gate: &'g Gate,
    disk: TearingDevice,
}

impl<R: Wait + Clock> Device for GatedDevice<'_, R> {
    ghost claims = { ⊥ };

    ghost seen = { λ _. [] };

    ghost anew = { λ _. [] };

    ghost may_leave = { λ _ _. ⊥ };

    ghost moment = { λ _. 0 };

    ghost left_since = { λ _ _ _. ⊥ };

    ghost faults = { λ _. 0 };

    ghost counts_now = { λ none. absurd none };

    ghost only_now = { λ none. absurd none };

    fn read(&mut self, alloc: Global) -> Result<Vec<u8>, DeviceFault> {
        self.disk.read(alloc)
    }

    fn write_at(&mut self, at: usize, octets: &[u8]) -> Result<(), DeviceFault> {
        self.disk.write_at(at, octets)
    }

    fn cut(&mut self, len: usize) -> Result<(), DeviceFault> {
        self.disk.cut(len)
    }

    fn sync(&mut self) -> Result<(), DeviceFault> {
        self.disk.sync()
    }

    fn open_anew(&mut self) -> Result<(), DeviceFault> {
        self.gate.stop(self.rt);
        self.disk.open_anew()
    }

    fn write_anew(&mut self, octets: &[u8]) -> Result<(), DeviceFault> {
        self.disk.write_anew(octets)
    }

    fn take_place(&mut self) -> Result<(), DeviceFault> {
        self.disk.take_place()
    }
}

// What a log is opened with.
#[derive(Drop)]
struct GatedParts<D: Device + Drop> {
    file: LineFile<D>,
    start: LogStart,
    acks: NewList<LineFile<D>, Ack>,
}

// That of a log whose disk fails in its first call.
fn gated_parts<'g, R: Wait + Clock>(
    rt: &'g R,
    alloc: Global,
    gate: &'g Gate,
) -> Result<GatedParts<GatedDevice<'g, R>>, AllocError>
    ensures { IfOk result (λ parts. parts.start.base ≡ 0) }
{
    let failures = Failures {
        once: 0,
        ..Failures::NONE
    };
    let acks = NewList::new(alloc)?;
    let head = HEAD.to_vec(alloc)?;
    let disk = TearingDevice::new(alloc, HEAD, failures)?;
    Ok(GatedParts {
        file: LineFile {
            device: GatedDevice { rt, gate, disk },
            end: HEAD.len(),
        },
        start: LogStart { head, base: 0 },
        acks,
    })
}

// Why the entries so far are not kept, where they aren't.
fn commit<J: Naming, K: LogNaming, D: Device + Drop>(
    rt: &impl Wait,
    alloc: Global,
    desk: &Desk<J>,
    log: &Log<J, K, D>,
) -> Option<LogFault> {
    let mut receipt = desk.receipt(rt);
    log.commit(rt, alloc, desk, &mut receipt).err()
}

// The same, while somebody stops at the gate, which is opened then.
fn commit_beside<J: Naming, K: LogNaming, D: Device + Drop, R: Wait + Clock>(
    rt: &R,
    alloc: Global,
    desk: &Desk<J>,
    log: &Log<J, K, D>,
    gate: &Gate,
) -> Option<LogFault> {
    gate.await_one(rt);
    let fault = commit(rt, alloc, desk, log);
    gate.open(rt);
    fault
}

// Whether the log is mended.
fn mend<J: Naming, K: LogNaming, D: Device + Drop>(
    rt: &impl Wait,
    alloc: Global,
    desk: &Desk<J>,
    log: &Log<J, K, D>,
) -> bool {
    let mut receipt = desk.receipt(rt);
    log.mend(rt, alloc, desk, &mut receipt).is_ok()
}

// How it went.
#[derive(Clone, Copy, Debug, PartialEq, Eq)]
struct Outcome {
    is_booked: bool,
    // Why the first commit failed, the one beside the mending, and one behind it.
    first: Option<LogFault>,
    beside: Option<LogFault>,
    behind: Option<LogFault>,
    is_mended: bool,
}

// The first commit fails, and the log is mended while another commits.
fn mend_beside<J, K, D, R>(
    rt: &R,
    alloc: Global,
    desk: &Desk<J>,
    log: &Log<J, K, D>,
    share: Option<Share<J>>,
    gate: &Gate,
) -> Option<Outcome>
where
    J: Naming + Send + Sync,
    K: LogNaming + Send + Sync,
    D: Device + Drop + Send,
    R: Threads + Wait + Clock + Sync,
{
    let mut share = share?;
    let is_booked = credit(rt, alloc, desk, &mut share, b"k");
    let first = commit(rt, alloc, desk, log);
    let (is_mended, beside) = join(
        rt,
        || mend(rt, alloc, desk, log),
        || commit_beside(rt, alloc, desk, log, gate),
    );
    let behind = commit(rt, alloc, desk, log);
    Some(Outcome {
        is_booked,
        first,
        beside,
        behind,
        is_mended,
    })
}

// Opens a desk and its log for that.
fn open_gated<J, K, D, R>(
    rt: &R,
    config: &Config,
    parts: DeskParts,
    blanks: Blank,
    log: GatedParts<D>,
    gate: &Gate,
) -> Option<Outcome>
where
    J: Naming + Send + Sync,
    K: LogNaming + Send + Sync,
    D: Device + Drop + Send,
    R: Threads + Wait + Clock + Sync,
    requires claims { D.claims → ⊥ }
    requires config { (config.now ≡ J.desk.config) × (parts.book.config ≡ J.desk.config) }
    requires workers { 1 ≡ J.desk.workers }
    requires period { parts.book.period ≡ J.desk.period }
    requires opening { (parts.book.entries ≡ J.desk.opening) × (parts.book.base ≡ base_of J.desk) }
    requires ledger { (blanks.name ≡ J.name) × (blanks.parts ≡ J.parts) }
    requires parts { J.parts ≡ actors_of J.desk }
    requires list { parts.list ≡ J.list }
    requires form { (K.form.config ≡ J.desk.config) × (K.form.base ≡ 0) }
    requires base { log.start.base ≡ 0 }
    requires acks { log.acks ≡ K.table }
{
    let alloc = config.allocator();
    let DeskParts { book, list } = parts;
    let (desk, mut shares) = Desk::<J>::open(alloc, config, book, 1, blanks, list).ok()?;
    let GatedParts { file, start, acks } = log;
    let log = Log::new(OpenLog::begin(file, desk.receipt(rt), start, acks.named::<K>()));
    mend_beside(rt, alloc, &desk, &log, shares.pop(), gate)
}

// The same over a book of no entries, and a log that has its head.
fn mend_beside_anew<R: Threads + Wait + Clock + Sync>(
    rt: &R,
    config: &Config,
) -> Result<Option<Outcome>, Fail> {
    let alloc = config.allocator();
    let gate = Gate::new();
    let desk = desk_parts(alloc, config)?;
    let log = gated_parts(rt, alloc, &gate)?;
    Ok(open_gated::<Brand, Brand, GatedDevice<'_, R>, R>(
        rt,
        config,
        desk,
        Blank::new(3),
        log,
        &gate,
    ))
}

#[test]
fn nobody_waits_for_a_log_that_is_mended(rt: HostRuntime) -> Result<(), Fail> {
    let config = Config::read(rt.alloc(), TWO_PEERS.as_bytes())?;
    let outcome = mend_beside_anew(&rt, &config)?.ok_or("a desk opens")?;
    let expected = Outcome {
        is_booked: true,
        first: Some(LogFault::Failed),
        beside: Some(LogFault::Failed),
        behind: None,
        is_mended: true,
    };
    assert_eq!(rt; outcome, expected);
    Ok(())
}
