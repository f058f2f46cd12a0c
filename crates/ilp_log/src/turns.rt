//! Whose turn it is to write a log, and who waits for whom.
ghost use Rattle.std.specs.Prelude.{◌≤◌, IfOk, IfSome};

use crate::fault::LogFault;
use crate::naming::LogNaming;
use crate::open_log::OpenLog;
use crate::pass::Pass;
use ilp_desk::{Desk, Naming};
use ilp_line_file::Device;
use std::alloc::Global;
use std::hint::spin_loop;
use std::sync::atomic::{AtomicU64, Ordering};
use std::sync::{Condvar, Mutex, MutexGuard, Wait};

// How often who waits alone looks whether the turn is over, before it sleeps: for about as long as a turn takes
// where a sync costs nothing. To fall asleep and be called takes longer. Where others wait too, no processor
// is idle for it.
const MOST_LOOKS: u32 = 250;

/// Gives threads their turns to write a log, one after the other. In its turn one writes all that is booked by
/// then, so those who came before it began need no turn of their own: they get passes, and never wait for the
/// next sync.
///
/// A lock alone is given to whoever comes first once it is free, and so to one who needs a sync before those who
/// sleep and whose entries are on the disk already: each sync would be for few.
#[derive(Drop)]
pub(crate) struct Turns<J: Naming, K: LogNaming, D: Device + Drop> {
    turn: Mutex<Turn<J, K, D>>,
    // The last turn that is over, to look at without the lock.
    over: AtomicU64,
    // Where those wait who are served by a turn with an even number, and by one with an odd number.
    even: Condvar,
    odd: Condvar,
}

// The last turn that began. No machine sees 2^64 of them.
#[derive(Drop)]
struct Turn<J: Naming, K: LogNaming, D: Device + Drop> {
    number: u64,
    goes_on: bool,
    // Whether nobody waits for it, since it writes a log anew that has failed.
    mends: bool,
    // How many threads wait for this turn or the next.
    waiting: u32,
    // Passes that were made at the end of a turn and that nobody has taken. A turn brings the heap.
    passes: Option<Vec<Pass<J, K, D>>>,
}

impl<J: Naming, K: LogNaming, D: Device + Drop> Turns<J, K, D> {
    /// Nobody has had a turn. The first to come has one at once.
    pub(crate) fn new() -> Turns<J, K, D> {
        Turns {
            turn: Mutex::new(Turn::none()),
            over: AtomicU64::new(0),
            even: Condvar::new(),
            odd: Condvar::new(),
        }
    }

    /// Waits for a pass by which so many entries are on the disk. Without one it is the caller's turn, who is to
    /// end it. It is refused as `Failed`, and is nobody's turn, where the one that goes on writes a log anew.
    pub(crate) fn wait(&self, rt: &impl Wait, upto: u32) -> Result<Option<Pass<J, K, D>>, LogFault>
        ensures enough { IfOk result (λ mine. IfSome mine (λ pass. upto ≤ pass.count)) }
    {
        let mut turn = self.turn.lock(rt);
        // The next turn serves it at the latest.
        let mut mine = turn.number.wrapping_add(1);
        let mut has_looked = false;
        for _ in rt.forever() {
            if let Some(pass) = turn.pass(upto) {
                let awaited = turn.is_awaited(mine);
                drop(turn);
                if awaited {
                    // It may be the one that was called for that turn, and needs none.
                    self.place(mine).notify_one();
                }
                return Ok(Some(pass));
            }
            if turn.mends {
                return Err(LogFault::Failed);
            }
            if turn.begin() {
                return Ok(None);
            }
            mine = mine.max(turn.number);
            let may_look = turn.waiting == 0 && !has_looked;
            turn.waiting = turn.waiting.saturating_add(1);
            turn = if may_look {
                self.look(rt, turn)
            } else {
                self.place(mine).wait(rt, turn)
            };
            has_looked = true;
            turn.waiting = turn.waiting.saturating_sub(1);
        }
        Ok(None)
    }

    /// Sends away who waits for the turn that goes on or the next, and who comes before its end: it writes a log
    /// anew, by which nothing of theirs is kept sooner.
    pub(crate) fn send_away(&self, rt: &impl Wait) {
        self.turn.lock(rt).mends = true;
        self.even.notify_all();
        self.odd.notify_all();
    }

    // Frees the lock and looks for a while whether the turn is over.
    fn look<'t>(
        &'t self,
        rt: &impl Wait,
        turn: MutexGuard<'t, Turn<J, K, D>>,
    ) -> MutexGuard<'t, Turn<J, K, D>> {
        let number = turn.number;
        drop(turn);
        for _ in 0..MOST_LOOKS {
            if self.over.load(Ordering::SeqCst) == number {
                break;
            }
            spin_loop();
        }
        self.turn.lock(rt)
    }

    /// Ends a turn: those who wait get passes for what is on the disk. They are to be called, by the turn's number.
    pub(crate) fn end(
        &self,
        rt: &impl Wait,
        alloc: Global,
        desk: &Desk<J>,
        log: &mut OpenLog<J, K, D>,
    ) -> u64 {
        let mut turn = self.turn.lock(rt);
        if turn.waiting > 0 {
            turn.serve(rt, alloc, desk, log);
        }
        turn.goes_on = false;
        turn.mends = false;
        self.over.store(turn.number, Ordering::SeqCst);
        turn.number
    }

    /// Calls those whom a turn has served, and one of those who wait for the next.
    pub(crate) fn call(&self, number: u64) {
        self.place(number).notify_all();
        self.place(number.wrapping_add(1)).notify_one();
    }

    // Where those wait who are served by the turn with a number.
    fn place(&self, number: u64) -> &Condvar {
        if number % 2 == 0 {
            &self.even
        } else {
            &self.odd
        }
    }
}

impl<J: Naming, K: LogNaming, D: Device + Drop> Turn<J, K, D> {
    fn none() -> Turn<J, K, D> {
        Turn {
            number: 0,
            goes_on: false,
            mends: false,
            waiting: 0,
            passes: None,
        }
    }

    // A pass by which so many entries are on the disk.
    fn pass(&mut self, upto: u32) -> Option<Pass<J, K, D>>
        ensures enough { IfSome result (λ pass. upto ≤ pass.count) }
    {
        let passes = self.passes.as_mut()?;
        if passes.last()?.count() < upto {
            return None;
        }
        passes.pop()
    }

    // Begins the next turn, unless this one goes on.
    fn begin(&mut self) -> bool {
        if self.goes_on {
            return false;
        }
        self.goes_on = true;
        self.number = self.number.wrapping_add(1);
        true
    }

    // Whether the turn with a number hasn't begun, and may.
    fn is_awaited(&self, number: u64) -> bool {
        !self.goes_on && self.number < number
    }

    // Makes a pass for each that waits. Whom memory is denied for has a turn of its own.
    fn serve(&mut self, rt: &impl Wait, alloc: Global, desk: &Desk<J>, log: &mut OpenLog<J, K, D>) {
        let mut passes = self.passes.take().unwrap_or(Vec::new(alloc));
        passes.clear();
        let mut book = desk.lock(rt);
        for _ in 0..self.waiting {
            let Ok(pass) = Pass::of(log, &mut book) else {
                break;
            };
            if passes.push(pass).is_err() {
                break;
            }
        }
        self.passes = Some(passes);
    }
}
