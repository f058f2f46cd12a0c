//! What a disk has of a file.
ghost use Rattle.std.specs.Prelude.{◌≡◌, ◌<◌, [], ◌∷◌, ◌++◌, length, vec_len, vec_capacity, IfOk, OnOk, OnErr};
ghost use Rattle.ilp_line_file.specs.Device.{Elapses, Only};
ghost use Rattle.test_tearing.specs.Tearing.{after, changed};

use crate::change::Change;
use crate::loss::Loss;
use std::alloc::{AllocError, Global};
use std::mem;

/// What a crash might have left between two syncs.
#[derive(Drop)]
pub(crate) struct Epoch {
    synced: Vec<u8>,
    changes: Vec<Change>,
}

/// What a disk has of a file. A sync takes no memory, and so has no error for it.
#[derive(Drop)]
pub(crate) struct Disk {
    alloc: Global,
    // What it has for sure, and what was changed since.
    synced: Vec<u8>,
    changes: Vec<Change>,
    // What a read returns, where something was.
    octets: Vec<u8>,
    // Without these nothing could say what a crash might have left.
    past: Vec<Epoch>,
    ghost read: { 0 < vec_len changes → octets.items ≡ after synced.items changes.items },
    ghost room: { 0 < vec_len changes → vec_len past < vec_capacity past },
}

impl Disk {
    ghost use Rattle.test_tearing.specs.Files.{seen, Leaves, LeavesSince};

    // It has these octets for sure.
    pub(crate) fn new(alloc: Global, octets: Vec<u8>) -> Disk
        ensures seen { seen result ≡ octets.items }
        ensures only { Only octets.items (Leaves result) }
    {
        Disk {
            alloc,
            synced: octets,
            changes: Vec::new(alloc),
            octets: Vec::new(alloc),
            past: Vec::new(alloc),
        }
    }

    // What a read returns.
    pub(crate) fn seen(&self) -> &[u8]
        ensures { result.now ≡ seen self.now }
    {
        if self.changes.is_empty() {
            &self.synced
        } else {
            &self.octets
        }
    }

    // What a crash leaves now, with this loss.
    pub(crate) fn left(&self, loss: &Loss) -> Result<Vec<u8>, AllocError>
        ensures { IfOk result (λ left. Leaves self.now left.items) }
    {
        let mut left = self.synced.to_vec(self.alloc)?;
        for change in &self.changes {
            left = change.left(self.alloc, &left, loss)?;
        }
        Ok(left)
    }

    // One more change, behind which a read returns these octets.
    pub(crate) fn add(&mut self, change: Change, octets: Vec<u8>) -> Result<(), AllocError>
        requires { octets.items ≡ changed change (seen self.old) }
        ensures synced { self.new.synced.items ≡ self.old.synced.items }
        ensures past { self.new.past.items ≡ self.old.past.items }
        ensures ok { OnOk result (self.new.changes.items ≡ self.old.changes.items ++ change ∷ []) }
        ensures err { OnErr result (self.new.changes.items ≡ self.old.changes.items) }
    {
        self.past.reserve(1)?;
        self.changes.push(change)?;
        self.octets = octets;
        Ok(())
    }

    // From now on a crash leaves what a read returns.
    pub(crate) fn sync(&mut self)
        ensures synced { self.new.synced.items ≡ seen self.old }
        ensures changes { self.new.changes.items ≡ [] }
        ensures time { Elapses (length self.old.past.items) (length self.new.past.items)
            (LeavesSince self.old) (LeavesSince self.new) (Leaves self.new) }
    {
        if self.changes.is_empty() {
            return;
        }
        let octets = mem::replace(&mut self.octets, Vec::new(self.alloc));
        settle(
            self.alloc,
            &mut self.synced,
            &mut self.changes,
            &mut self.past,
            octets,
        );
    }

    // From now on a crash leaves these octets, which the last change may have left.
    pub(crate) fn place(&mut self, octets: Vec<u8>)
        requires { 0 < vec_len self.old.changes }
        ensures synced { self.new.synced.items ≡ octets.items }
        ensures changes { self.new.changes.items ≡ [] }
        ensures time { Elapses (length self.old.past.items) (length self.new.past.items)
            (LeavesSince self.old) (LeavesSince self.new) (Leaves self.new) }
    {
        settle(
            self.alloc,
            &mut self.synced,
            &mut self.changes,
            &mut self.past,
            octets,
        );
    }
}

// From now on a crash leaves these octets.
fn settle(
    alloc: Global,
    synced: &mut Vec<u8>,
    changes: &mut Vec<Change>,
    past: &mut Vec<Epoch>,
    octets: Vec<u8>,
)
    requires { vec_len past.old < vec_capacity past.old }
    ensures synced { synced.new.items ≡ octets.items }
    ensures changes { changes.new.items ≡ [] }
    ensures past { (e : _) × (e.synced.items ≡ synced.old.items)
        × (e.changes.items ≡ changes.old.items) × (past.new.items ≡ past.old.items ++ e ∷ []) }
{
    let last = Epoch {
        synced: mem::replace(synced, octets),
        changes: mem::replace(changes, Vec::new(alloc)),
    };
    past.push_reserved(last);
}
