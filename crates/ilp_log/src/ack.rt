//! What a log has told.

use ilp_grown_list::Tells;
use ilp_line_file::{Device, LineFile};
use std::collections::LinkedList;

/// That these lines were on the disk at a moment of the device. No value of it is made.
pub struct Ack {
    /// The moment.
    pub moment: u64,
    /// The lines, each without its line feed.
    pub lines: LinkedList<LinkedList<u8>>,
}

/// A file tells that its lines are on the disk now.
pub struct OnDisk;

impl<D: Device> Tells<LineFile<D>, Ack> for OnDisk {
    ghost use Rattle.std.specs.Prelude.{◌∷◌, ◌++◌, []};
    ghost use Rattle.ilp_line_file.specs.Text.{recovered};

    ghost told = { λ before file. before ++ (record {
      moment = D.moment file.device;
      lines = recovered (D.seen file.device);
    }) ∷ [] };
}
