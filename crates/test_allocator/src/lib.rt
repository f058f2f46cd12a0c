//! An allocator for tests, which denies one growth of memory.
//!
//! A test makes one for 0, 1, 2 and so on growths that are granted, runs a call over each, and stops
//! at the first over which none was denied: so each growth of the call is denied once.
//!
//! The count stands in a cell, since an allocator is shared by what it serves. No clause can tell
//! what a cell has: so `after` and `has_denied` promise nothing, and tests show what they do. How
//! growths are counted is a function of its own, with a contract.
#![tactic(auto)]

ghost use Rattle.std.specs.Prelude.{◌≡◌, ◌-◌, ◌↔◌, IsTrue};

use std::alloc::{AllocError, Allocator};
use std::cell::Cell;

/// Denies its N-th growth, counted from its making, and passes every other call on to another
/// allocator.
///
/// A growth is a call that asks for a block, new or greater. Blocks that are given back are passed
/// on, and so are the growths after the denied one.
pub struct DenyingAllocator<B: Allocator> {
    inner: B,
    left: Cell<u64>,
}

impl<B: Allocator> DenyingAllocator<B> {
    /// Passes on as many growths as `granted`, denies the next one, and passes on all after it.
    pub fn after(inner: B, granted: u64) -> DenyingAllocator<B> {
        DenyingAllocator {
            inner,
            left: Cell::new(granted.saturating_add(1)),
        }
    }

    /// Whether the growth was denied. Until then, each growth was passed on.
    pub fn has_denied(&self) -> bool {
        self.left.get() == 0
    }
}

impl<B: Allocator> Drop for DenyingAllocator<B> {
    fn drop(self) {
        let Self { inner: _, left: _ } = self;
    }
}

unsafe impl<B: Allocator> Allocator for DenyingAllocator<B> {
    ghost dealloc_token = { λ heap ty ptr. B.dealloc_token heap.inner ty ptr };

    fn allocate(&self, size: usize, align: usize) -> Result<*mut u8, AllocError> {
        if is_denied(&self.left) {
            Err(AllocError)
        } else {
            self.inner.allocate(size, align)
        }
    }

    unsafe fn deallocate(&self, ptr: *mut u8, size: usize, align: usize) {
        self.inner.deallocate(ptr, size, align);
    }
}

// Counts a growth, and says whether it is the one to be denied.
fn is_denied(left: &Cell<u64>) -> bool {
    let counted = count_growth(left.get());
    left.set(counted.left);
    counted.is_denied
}

// What a growth does to the count.
#[derive(Clone, Copy)]
struct Counted {
    left: u64,
    is_denied: bool,
}

// Counts a growth off: `left` is how many growths there are up to the denied one, and 0 after it.
fn count_growth(left: u64) -> Counted
    ensures left { result.left ≡ left - 1 }
    ensures is_denied { IsTrue result.is_denied ↔ (left ≡ 1) }
{
    Counted {
        left: left.saturating_sub(1),
        is_denied: left == 1,
    }
}
