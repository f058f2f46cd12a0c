//! What the connector answers a Prepare with, as octets: its own Rejects, and the Fulfills of messages
//! between settlement engines. All is made of data, without a desk.
//!
//! # What is proved
//!
//! - `LocalReject` is the table of the connector's own Rejects, code and message, which it prints;
//!   `of_fault` is the one for each refusal of a hold, with the RFC's code, as the book has it.
//! - `put_local_reject` writes just that Reject, into room for the longest, without memory. A law says
//!   how long one can be.
//! - `message_octets` refuses a Prepare to `peer.settle` with the first of F03, F05, R00 and F02, by the
//!   rules (docs/PROTOCOL.md, "messages between settlement engines"), or with T00, as for want of
//!   memory; else it has exactly the packet's data, in room for the longest Fulfill.
//! - `EngineMessage::answer` makes of what the engine answered a Fulfill of 32 zero octets with that as
//!   data, or T01 where there is nothing or more than 32,767 octets, without memory.
//! - `put_message` writes the Prepare of a message with these octets and this expiry, which
//!   `message_expiry` makes of a moment and the longest hold.
//! - `peer_answer_in` is the data of a Fulfill of 32 zero octets, or nothing: by a law just where the
//!   octets stand for one.
#![tactic(auto)]

mod answer;
mod engine_message;
pub mod laws;
mod messages;
mod rejects;

pub use answer::{Answer, Receipt};
pub use engine_message::{EngineMessage, PeerMessage};
pub use messages::{
    MAX_MESSAGE, MessageFault, MessageReply, is_for_engine, message_expiry, message_octets,
    message_reply, peer_answer_in, put_message,
};
pub use rejects::{LONGEST_LOCAL_REJECT, LocalReject, ToldReject, put_local_reject};
