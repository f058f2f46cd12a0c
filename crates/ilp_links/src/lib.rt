//! The links of a running connector: its clock, and calls over TCP by which the actors of a desk reach
//! peers and settlement engines. Nobody waits for a call.
//!
//! What a socket gives or takes, and how long that takes, no clause can say: it stands in the
//! comments, and `test_sockets` tests it over real sockets.
//!
//! # What is proved
//!
//! Public functions have no clause beyond safety. These links, the clock among them, tell nothing.
//! Of private functions:
//!
//! - `time_left` is 0 from the deadline on, else the difference, and an hour at most.
//! - `SystemClock` gives the whole milliseconds of its time.
#![tactic(auto)]

mod call;
mod engine_call;
mod exchange;
mod links;
mod no_answer;
mod reply_room;
mod resumed;
mod so_far;
mod system_clock;
mod time_left;

pub use call::{Call, Came, Outside};
pub use engine_call::EngineCall;
pub use links::{Links, TcpLinks};
pub use reply_room::ReplyRoom;
pub use resumed::Resumed;
pub use system_clock::SystemClock;
