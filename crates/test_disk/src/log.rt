//! The log of a run over a disk.

ghost use Rattle.ilp_line_file.specs.Text.{IsText};

use crate::handle::Handle;
use crate::machine::Machine;
use ilp_journal_file::LogDevice;
use ilp_line_file::{DeviceFault, LineFile};

/// The log of a run over a disk.
pub type Log<'d> = LineFile<LogDevice<'d, Machine<'d>, Handle<'d>>>;

/// Appends lines to a log, which is never so long that they have no room behind it.
pub fn append(log: &mut Log<'_>, lines: &[u8]) -> Result<(), DeviceFault>
    requires { IsText lines.now }
{
    if log.end >= usize::MAX - lines.len() {
        return Err(DeviceFault::Failed);
    }
    log.append(lines)
}
