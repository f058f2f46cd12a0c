//! The keeper of a running connector that writes its journal to a log, and what its threads share of that.
//!
//! # What is proved
//!
//! - `LogKeeper::keep` answers `Ok` only where the log told it that the journal which the receipt had
//!   seen is on the disk: it has the log's token of that (`specs/Keeping.antt`, `HasTold`), by which
//!   `ilp_log::OpenLog::find` tells what each crash since then has left. As all of the log's clauses,
//!   this is said where the device claims what a device does.
//! - `LogKeeper::mend` answers true only where the log has told it that of the journal which the receipt had
//!   seen. That it shows the receipt what the desk has then, and has all of that kept, stands in the
//!   comments.
//! - `KeepingState` and `DiskWait` have no clause: that the first is false from the first that was not kept on, until
//!   all are kept again, and what the second counts, stands in the comments.
#![tactic(auto)]

mod disk_wait;
mod keeper;
mod state;

pub use disk_wait::DiskWait;
pub use keeper::LogKeeper;
pub use state::KeepingState;
