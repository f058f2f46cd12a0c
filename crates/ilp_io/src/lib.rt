//! Where octets come from and where they go: the two traits through which every reader and writer
//! of the workspace is seen, what is read and written over them, and their forms in memory.
//!
//! std's `Read` and `Write` tell which octets a call moved. `Source` and `Sink` tell that too, and
//! count the calls and those that failed: so a contract can say that there were at most so many
//! reads, or that a fault was answered only where a read failed.
//!
//! # What is proved
//!
//! - `Source::pull` tells the octets that came, and counts as one read and, if it failed, one
//!   failure.
//! - `Sink::put` tells the octets that were taken, and counts as one failure if it failed or took
//!   none.
//! - `read_to_limit` answers all that there was, in at most `limit + 1` reads: `Failed` just where
//!   a read failed, `TooLong` only beyond `limit` octets, which never give Ok. `put_all` writes
//!   out.
//! - `Counting`, `Recording`, `Pieces` and `Narrow` tell counts and octets in public fields, after
//!   failed calls too. A count is lost only where its 64 bits end.
#![tactic(auto)]

mod counting;
mod narrow;
mod pieces;
mod reading;
mod recording;
mod sink;
mod source;
mod writing;

pub use counting::Counting;
pub use narrow::{Narrow, WhenFull};
pub use pieces::Pieces;
pub use reading::{ReadFault, read_to_limit};
pub use recording::Recording;
pub use sink::Sink;
pub use source::Source;
pub use writing::{WriteFault, put_all};
