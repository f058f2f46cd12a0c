//! Devices of which there are new ones.
ghost use Rattle.std.specs.Prelude.{◌≡◌, []};
ghost use Rattle.test_tearing.proofs.Changes.{may_leave_all};

use ilp_line_file::Device;
use std::alloc::Global;
use test_tearing::{Stops, TearingFile};

/// A device of which there are new ones.
pub trait NewDevice: Device + Drop {
    /// One with nothing in it.
    fn new_device(alloc: Global) -> Self
        ensures { Self.Device.claims → Self.Device.seen result ≡ [] };

    /// A crash may leave what a read returns.
    ghost may_be_left: { Self.Device.claims → (device : Self) → Self.Device.may_leave device (Self.Device.seen device) };
}

impl NewDevice for TearingFile {
    ghost may_be_left = { λ _ device. may_leave_all device.disk.synced.items device.disk.changes.items };

    fn new_device(alloc: Global) -> TearingFile {
        TearingFile::new(alloc, Vec::new(alloc), Stops::after(usize::MAX))
    }
}
