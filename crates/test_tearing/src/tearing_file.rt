//! The file.
ghost use Rattle.std.specs.Prelude.{◌≡◌, length, IfOk};
ghost use Rattle.std.proofs.Common.{inl};
ghost use Rattle.ilp_line_file.specs.Device.{Only};
ghost use Rattle.test_tearing.specs.Past.{only_now};

use crate::change::{Change, made};
use crate::disk::Disk;
use crate::loss::Loss;
use crate::stops::Stops;
use ilp_line_file::{Device, DeviceFault};
use std::alloc::{AllocError, Global};

/// A file in memory, of which a crash leaves what was synced, and any pieces of what was not. It syncs what was
/// written before it is cut: by the clause of `Device::cut` a crash leaves as many octets, though the call fail.
#[derive(Drop)]
pub struct TearingFile {
    alloc: Global,
    disk: Disk,
    // The new file beside it.
    anew: Vec<u8>,
    stops: Stops,
}

impl TearingFile {
    ghost use Rattle.test_tearing.specs.Files.{seen, Leaves};

    /// A file with these octets, all of them on the disk, whose machine stops then.
    pub fn new(alloc: Global, octets: Vec<u8>, stops: Stops) -> TearingFile
        ensures seen { seen result.disk ≡ octets.items }
        ensures only { Only octets.items (Leaves result.disk) }
    {
        TearingFile {
            alloc,
            disk: Disk::new(alloc, octets),
            anew: Vec::new(alloc),
            stops,
        }
    }

    /// Whether its machine has stopped.
    pub fn has_stopped(&self) -> bool {
        self.stops.has_stopped()
    }

    /// What a crash leaves now, with this loss.
    pub fn left(&self, loss: &Loss) -> Result<Vec<u8>, AllocError>
        ensures { IfOk result (λ left. Leaves self.now.disk left.items) }
    {
        self.disk.left(loss)
    }
}

impl Device for TearingFile {
    ghost use Rattle.test_tearing.specs.Files.{seen, Leaves, LeavesSince};

    ghost claims = { Unit {0} };

    ghost seen = { λ f. seen f.disk };

    ghost anew = { λ f. f.anew.items };

    ghost may_leave = { λ f. Leaves f.disk };

    ghost moment = { λ f. length f.disk.past.items };

    ghost left_since = { λ f. LeavesSince f.disk };

    ghost faults = { λ f. f.stops.faults };

    ghost counts_now = { λ _ f t c le now. inl now };

    ghost only_now = { λ _ f c left.
        only_now f.disk.past.items f.disk.synced.items f.disk.changes.items c left };

    fn read(&mut self, alloc: Global) -> Result<Vec<u8>, DeviceFault> {
        self.stops.call()?;
        Ok(self.disk.seen().to_vec(alloc)?)
    }

    fn write_at(&mut self, at: usize, octets: &[u8]) -> Result<(), DeviceFault> {
        let octets = octets.to_vec(self.alloc)?;
        let change = Change::Write { at, octets };
        let next = made(self.alloc, &change, self.disk.seen())?;
        self.disk.add(change, next)?;
        self.stops.call()
    }

    fn cut(&mut self, len: usize) -> Result<(), DeviceFault> {
        self.disk.sync();
        let change = Change::Cut { len };
        let next = made(self.alloc, &change, self.disk.seen())?;
        self.disk.add(change, next)?;
        self.stops.call()
    }

    fn sync(&mut self) -> Result<(), DeviceFault> {
        self.stops.call()?;
        self.disk.sync();
        Ok(())
    }

    fn open_anew(&mut self) -> Result<(), DeviceFault> {
        self.stops.call()?;
        self.anew.clear();
        Ok(())
    }

    fn write_anew(&mut self, octets: &[u8]) -> Result<(), DeviceFault> {
        self.stops.call()?;
        Ok(self.anew.extend_from_slice(octets)?)
    }

    fn take_place(&mut self) -> Result<(), DeviceFault> {
        let octets = self.anew.to_vec(self.alloc)?;
        let placed = self.anew.to_vec(self.alloc)?;
        let next = self.disk.seen().to_vec(self.alloc)?;
        self.disk.add(Change::Place { octets }, next)?;
        self.stops.call()?;
        self.disk.place(placed);
        Ok(())
    }
}
