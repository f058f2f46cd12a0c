//! How the loops are woken where they rest.

use mio::Waker;
use std::alloc::{AllocError, Global};
use std::sync::atomic::{AtomicBool, Ordering};

/// Wakes loops that rest. Threads share it by reference.
#[derive(Drop)]
pub struct Bells {
    bells: Vec<Bell>,
    // Whether no job comes any more.
    over: AtomicBool,
}

// Of one loop.
#[derive(Drop)]
struct Bell {
    waker: Waker,
    rests: AtomicBool,
}

impl Bells {
    /// None yet.
    pub fn new(alloc: Global) -> Bells {
        Bells {
            bells: Vec::new(alloc),
            over: AtomicBool::new(false),
        }
    }

    /// Adds that of one more loop, which this wakes.
    pub fn add(&mut self, waker: Waker) -> Result<(), AllocError> {
        let rests = AtomicBool::new(false);
        match self.bells.push(Bell { waker, rests }) {
            Ok(()) => Ok(()),
            Err(_) => Err(AllocError),
        }
    }

    /// Wakes one loop that rests, if any does. One that does not rest looks for jobs before it does.
    pub fn ring_one(&self) {
        for bell in self.bells.iter() {
            if bell.rests.swap(false, Ordering::SeqCst) {
                let _ = bell.waker.wake();
                return;
            }
        }
    }

    /// Wakes all loops that rest.
    pub fn ring_all(&self) {
        for bell in self.bells.iter() {
            if bell.rests.swap(false, Ordering::SeqCst) {
                let _ = bell.waker.wake();
            }
        }
    }

    /// No job comes any more: wakes all loops that rest, and keeps the others from resting for that.
    pub fn ring_out(&self) {
        self.over.store(true, Ordering::SeqCst);
        self.ring_all();
    }

    /// Whether no job comes any more.
    pub fn are_rung_out(&self) -> bool {
        self.over.load(Ordering::SeqCst)
    }

    /// The loop of this number rests from now on, until it is woken or wakes.
    pub fn rest(&self, number: usize) {
        self.set(number, true);
    }

    /// It does not rest any more.
    pub fn wake(&self, number: usize) {
        self.set(number, false);
    }

    fn set(&self, number: usize, rests: bool) {
        if let Some(bell) = self.bells.get(number) {
            bell.rests.store(rests, Ordering::SeqCst);
        }
    }
}
