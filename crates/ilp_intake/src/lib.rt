//! Taking in connections: they are accepted and read without waiting, and given on once what they
//! ask for has come whole and is admitted. So a client that is idle or slow, or one whose like are
//! being served already, takes up a place here, and no worker.
//!
//! # What is proved
//!
//! - `Intake`, by its types, has at most 1,024 connections that wait or linger, each with at most
//!   81,920 octets of its request. Of a private function, `Incoming::add`: what is given on as
//!   whole holds a request, what waits on holds none, and what is refused stays so. All else is
//!   proved safe, no more.
#![tactic(auto)]

mod admission;
mod closing;
mod connection;
mod connections;
mod incoming;
mod intake;
mod limits;
mod lingering;
mod listener;
mod ready;
mod stage;
mod times;
mod watch;

pub use admission::Admission;
pub use intake::{Intake, IntakeHandle, Next, RoomForSenders};
pub use limits::{ALLOWANCE_MS, GRACE_MS, LINGER_MS, MOST_DROPPED, MOST_WAITING};
pub use listener::{Listener, listen};
pub use ready::ReadyConnection;
