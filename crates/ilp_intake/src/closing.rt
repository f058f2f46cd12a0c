//! Which connection is closed where too many wait.
ghost use Rattle.std.specs.Prelude.{◌≡◌, ℕ, ◌<◌, vec_len};
ghost use Rattle.ilp_flow.specs.declared.waiter.Waiter.TheVariants.{Whole};
ghost use Rattle.ilp_flow.specs.Fullest.{HasRoomFor};

use crate::admission::Admission;
use crate::connection::Connection;
use crate::stage::Stage;
use ilp_flow::{Waiter, closed_next};
use std::alloc::{AllocError, Global};

/// Finds out which connection is closed where too many wait.
#[derive(Drop)]
pub(crate) struct Closing {
    // Those that wait. The list is made anew each time.
    waiters: Vec<Waiter>,
    // How many whole requests of each sender wait.
    counts: Vec<usize>,
    // The last of the senders' numbers.
    last: u32,
    ghost counted: { last < vec_len counts },
    ghost known: { HasRoomFor counts.items waiters.items },
}

impl Closing {
    /// Of so many connections at most, of senders whose numbers are not above the last.
    pub(crate) fn new(alloc: Global, most: usize, last: u32) -> Result<Closing, AllocError> {
        Ok(Closing {
            waiters: Vec::with_capacity(alloc, most)?,
            counts: vec![in alloc; 0; last as usize + 1]?,
            last,
        })
    }

    /// The place of the one that is closed, of so many that linger and those that wait behind them.
    pub(crate) fn choose<D: Admission>(
        &mut self,
        lingering: usize,
        waiting: &[Connection<D::Kind>],
        admission: &D,
    ) -> Option<usize> {
        self.list(lingering, waiting, admission);
        closed_next(self.waiters.as_slice(), self.counts.as_mut_slice())
    }

    // There is room for as many as may wait, so none is left out.
    fn list<D: Admission>(
        &mut self,
        lingering: usize,
        waiting: &[Connection<D::Kind>],
        admission: &D,
    ) {
        self.clear();
        for _ in 0..lingering {
            self.add(Waiter::Lingers);
        }
        for connection in waiting {
            match connection.stage() {
                Stage::Ready { kind } => self.add_whole(admission.sender_of(kind)),
                Stage::Waiting => self.add(Waiter::Partial),
                Stage::Lost => self.add(Waiter::Partial),
            }
        }
    }

    fn clear(&mut self) {
        self.waiters.clear();
    }

    // Adds the whole request of a sender.
    fn add_whole(&mut self, sender: u32) {
        let sender = sender.min(self.last);
        self.add(Waiter::Whole { sender });
    }

    fn add(&mut self, waiter: Waiter)
        requires { (sender : ℕ) → waiter ≡ Whole sender → sender < vec_len self.old.counts }
    {
        let _ = self.waiters.push(waiter);
    }
}
