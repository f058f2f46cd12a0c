//! What is kept beside a journal of the configuration by which it was run: the name of the run, and the
//! asset of each peer. The journal's text has neither, and both have to stay as long as something hangs on
//! them.
//!
//! # What is proved
//!
//! - `remembered_text` is the text of a configuration (`specs/Remembered.antt`, `remembered_text`).
//!   `run_line` and `peer_line` are its lines.
//! - `change_of` finds, of a text that is whole, another run where a settlement is open, or a peer with
//!   another asset where something is counted in it: a balance, a hold, a settlement, or what a key of
//!   it answers, as a next period looks at (`KeepsNoOtherKeys` of `ilp_next_period`). It finds nothing
//!   only where there is neither (`FindsChange`).
//! - `is_of_another`: whether a text that is whole names another run, or another asset of a peer.
#![tactic(auto)]

mod change;
mod hanging;
mod lines;
mod text;

pub use change::{Change, change_of, is_of_another};
pub use text::{peer_line, remembered_text, run_line};
