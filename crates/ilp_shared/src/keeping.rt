//! The journal is kept for the loops, while they go on.

use crate::shared::Shared;
use crossbeam_channel::{Receiver, Sender, bounded};
use ilp_desk::Naming;
use ilp_workers::{HandedJournal, JournalKeeper, Keeper};
use std::alloc::{AllocError, Global};
use std::sync::atomic::{AtomicU32, Ordering};
use std::sync::{Mutex, MutexGuard, Wait};

/// The journal that was kept last. Threads share it by reference.
#[derive(Drop)]
pub struct KeptJournal<J: Naming> {
    handed: Mutex<HandedJournal<J>>,
    // How many entries it had.
    entries: AtomicU32,
}

impl<J: Naming> KeptJournal<J> {
    /// None was kept yet.
    pub fn new() -> KeptJournal<J> {
        KeptJournal {
            handed: Mutex::new(HandedJournal::none()),
            entries: AtomicU32::new(0),
        }
    }

    /// How many entries it had at least.
    pub fn entries(&self) -> u32 {
        self.entries.load(Ordering::SeqCst)
    }

    /// What was handed to the keeper, for a moment.
    pub fn lock(&self, rt: &impl Wait) -> MutexGuard<'_, HandedJournal<J>> {
        self.handed.lock(rt)
    }

    // This one was kept.
    fn set(&self, rt: &impl Wait, handed: HandedJournal<J>) {
        let entries = handed.entries();
        *self.handed.lock(rt) = handed;
        self.entries.store(entries, Ordering::SeqCst);
    }
}

/// By this a loop asks for the journal to be kept.
#[derive(Drop)]
pub struct KeepingAsker {
    sender: Sender<()>,
}

/// By this it is heard that loops ask.
#[derive(Drop)]
pub struct KeepingAsks {
    receiver: Receiver<()>,
}

/// What loops ask by, and what hears it. One question that was not heard yet serves all.
pub fn keeping_pair(alloc: Global) -> Result<(KeepingAsker, KeepingAsks), AllocError> {
    let (sender, receiver) = bounded(alloc, 1)?;
    Ok((KeepingAsker { sender }, KeepingAsks { receiver }))
}

impl KeepingAsker {
    /// Another of the same.
    pub fn try_clone(&self) -> Result<KeepingAsker, AllocError> {
        Ok(KeepingAsker {
            sender: self.sender.clone()?,
        })
    }

    /// Asks for all to be kept that is booked by now, without waiting for it. Where there is no room for the question one
    /// stands there that serves this too.
    pub fn ask(&self, rt: &impl Wait) {
        let _ = self.sender.try_send(rt, ());
    }
}

/// Has the journal kept as often as loops ask, until all of them are over. What is booked while one is
/// kept, the next one has: so one sync serves as many packets as there are.
pub fn keep_for_loops<J: Naming, K: Keeper<J> + Drop, R: Wait>(
    shared: Shared<'_, J, R>,
    keeper: JournalKeeper<J, K>,
    asks: KeepingAsks,
) {
    let mut keeper = keeper;
    for () in asks.receiver.iter(shared.rt) {
        let handed = keeper.keep(shared.rt, shared.desk);
        shared.kept.set(shared.rt, handed);
        shared.bells.ring_all();
    }
}
