//! When the machine of a file stops.
ghost use Rattle.ilp_line_file.specs.Device.{HasCause};

use ilp_line_file::DeviceFault;

/// In which call of a file its machine stops. That call fails, and each behind it.
#[derive(Clone, Copy)]
pub struct Stops {
    // How many calls are left before that.
    left: usize,
    // How many have failed.
    faults: usize,
}

impl Stops {
    /// After so many calls.
    pub fn after(calls: usize) -> Stops {
        Stops {
            left: calls,
            faults: 0,
        }
    }

    /// Whether it has stopped.
    pub fn has_stopped(&self) -> bool {
        self.faults > 0
    }

    // A call is made. Where it fails, that is counted.
    pub(crate) fn call(&mut self) -> Result<(), DeviceFault>
        ensures { HasCause self.old.faults self.new.faults result }
    {
        if self.left > 0 {
            self.left -= 1;
            return Ok(());
        }
        match self.faults.checked_add(1) {
            Some(faults) => {
                self.faults = faults;
                Err(DeviceFault::Failed)
            }
            None => Err(DeviceFault::Memory),
        }
    }
}
