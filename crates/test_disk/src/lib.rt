//! A disk in memory for tests, which keeps what is written, synced and renamed, and on which each call can
//! fail, once or from there on.
//!
//! What it has after a run is what a machine that stops there finds at its next start: so a disk that fails
//! from a call on shows each sudden stop. A name that is given or taken is there for sure only behind a sync of the
//! folder, and octets behind one of their file; either may be there before. What a sync that failed was to write is
//! lost: no later one writes it.
//!
//! Its files stand in a cell, since all that is open shares them. No clause can tell what a cell has: so its
//! calls promise nothing, and tests show what they do.
#![tactic(auto)]

mod disk;
mod handle;
mod log;
mod looks;
mod machine;

pub use disk::{
    Disk, EACH, ENDED, Faults, JOURNAL, LATER, LIMITS, LOCK, LOG, LOG_NEW, MOST_CALLS, NEVER, NEW,
    NEXT, PERIOD, RUNNING, When,
};
pub use handle::Handle;
pub use log::{Log, append};
pub use looks::{has, is_as_left, is_there, lines_of};
pub use machine::Machine;
