//! The file of a journal: its lock, its log, and how it is read and written.
//!
//! Beside the journal `J` stand:
//!
//! - `J.lock`, which a connector locks for as long as it runs, and which keeps what is to be remembered of
//!   its configuration.
//! - `J.log`, while a connector runs and behind one that stopped without saving: to it each entry is
//!   written before anybody is told of it, unless that fails. It goes once the journal has all that it has.
//! - `J.log.new` for a moment, which is written and then takes the place of `J.log`: at a start, and where a
//!   log that failed is written anew. So a log has from its first moment all that it is to have then.
//! - `J.new` for a moment, which is written and then takes the place of `J`. So `J` is at each moment a
//!   whole text, or not there.
//! - `J.ended` and `J.next` for a moment behind a period that ended in a running connector: the log of that,
//!   and what the next one begins with. Where both are there, the journal is `J.next` with `J.log`, and `J` and
//!   `J.ended` are the period before, which is still to be kept as a whole.
//! - `J.P` for the number P of each period that has ended: its whole text, which never becomes another. Beside the
//!   `J` of a later period it is refused as a journal, and so is a `J` beside it that lacks what it has (`last_kept`).
//!
//! None of them may be a link or have a second name: else two connectors would have one journal. Where
//! `J.running` lies there, the mark of an earlier version that kept no log, the journal is refused.
//!
//! What the host's files do, no clause can show: it stands in the comments, and the cases of
//! `scripts/check.py` try it on the program.
//!
//! # What is proved
//!
//! - `LogDevice` is a device (`ilp_line_file::Device`) where its system does what `PlacesFiles` says of each call: a new
//!   file takes the name of a log only once it is kept, a sync is asked for, and none behind one that failed.
//! - `begin_log` gives a device that has its first lines alone, and a stop leaves nothing else.
//! - A text that `has_text` takes is that of the content.
//! - The names of a journal's files (`Names::of`). All else is proved safe, and no more.
#![tactic(auto)]

mod comparing;
mod fault;
mod given;
mod holding;
mod kept_periods;
mod kept_text;
mod limited;
mod locking;
mod log_device;
mod log_place;
mod logging;
mod looking;
mod marking;
mod mounts;
mod named_log;
mod names;
mod noting;
mod periods;
mod placing;
mod reading;
mod remembering;
mod saving;
mod setting_aside;
mod standing;
mod system_text;
mod taking;
mod telling;
mod watching;
mod writing;

pub use comparing::{begins_with, has_text};
pub use fault::FileFault;
pub use holding::HeldLock;
pub use kept_periods::last_kept;
pub use locking::LockFile;
pub use log_device::LogDevice;
pub use looking::{Found, look_at};
pub use noting::Noting;
pub use placing::{FileIdentity, FileThere, PlacesFiles, rename_in};
pub use reading::read_text;
pub use taking::JournalFile;
pub use watching::JournalWatch;
pub use writing::Content;
