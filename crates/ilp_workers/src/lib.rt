//! Workers of a desk, which pass packets on, hand messages on, and credit settlements.
//!
//! # What is proved
//!
//! - `Worker::forward` relates the octets that came, the worker before and after, and the receipt
//!   (`specs/Arrivals.antt`). The receipt names the entries and the Reject that the sender was
//!   told, the share is raised by as many entries, `reply` is the answer. Octets that are no
//!   Prepare are refused with their first fault, or as `NotPrepare`, and change nothing.
//!
//! `forward` of a Prepare to another address than `peer.settle` (`specs/Forwarding.antt`):
//!
//! - The keeper is asked first whether entries are kept now.
//! - Either nothing is booked and no peer asked. The answer is T00, since entries aren't kept or as
//!   for want of memory, and no book was asked; or it is the Reject of what a book of the desk
//!   refused at a moment of the clock.
//! - Or entries are kept, and a hold is booked at a moment of the clock. Then the route's peer is
//!   handed one packet, with just the fields that the rules (docs/PROTOCOL.md, "forwarding a
//!   packet") say.
//! - What comes back is told to a book of the desk at the clock's next moment. Where that book ends
//!   the hold by what came back, the sender is answered the peer's own octets (or F05 for a
//!   preimage that doesn't meet the condition, T01 for no reply that can be read), and the worker
//!   keeps the record of that end. Else the answer is R00, and it keeps nothing.
//! - What this book has begins with what the hold's session left, its hold among it: the worker's
//!   receipt has seen that.
//! - Before the sender is told a Fulfill, the keeper is handed the journal that the answer's session
//!   left. What it says of it changes nothing. Where the sender is told a Reject it is handed
//!   nothing.
//!
//! The halves of a forward (`specs/Halves.antt`):
//!
//! - `Worker::begin` refuses at once as `forward` does, or books the hold and hands back what waits:
//!   the peer, the Prepare that it is to be handed, until when its reply counts, and what the other
//!   half needs. Room for the record of each that waits, and for its Reject, is made then.
//! - `Worker::finish` ends one that waits, of this worker, in any order: what came, or that nothing
//!   did, is booked, the keeper is handed the journal before a Fulfill, and the sender's answer is
//!   handed back.
//! - `finish` is `book`, then `keep` before a Fulfill, then `Booked::tell`. `keep` once serves all that
//!   is booked by then: `tell` wants that the keeper was handed as many entries as the session of a
//!   Fulfill left.
//! - `JournalKeeper::keep` hands the journal of a desk to a keeper of its own, for all workers: it
//!   has how many entries that journal had.
//! - `pending` counts what waits; each call says how it changes. `into_end` wants that nothing waits.
//!
//! `forward` of a Prepare to `peer.settle` (`specs/Messaging.antt`):
//!
//! - Nothing is booked, records stay, no peer and no keeper is asked, and the clock is asked once.
//!   The first of F03, F05, R00 and F02, by the rules (docs/PROTOCOL.md, "messages between
//!   settlement engines"), is the answer; without one it may be T00, as for want of memory. Then the
//!   engine is handed nothing.
//! - Else the engine is handed exactly the packet's data, as that peer's. The answer is a Fulfill
//!   of 32 zero octets with the engine's as data, or T01 where it gave none or more than 32,767
//!   octets.
//!
//! In halves (`specs/MessageHalves.antt`): `begin` refuses at once, or hands back the message with
//! room for its answer; `EngineMessage::answer` makes the answer of what came, without a worker.
//!
//! Other calls:
//!
//! - `Worker::message` books nothing, and asks no engine here and no keeper. `TooLong` comes just
//!   where there are more than 32,767 octets, and leaves all as it was. Else the clock is asked once.
//! - `message`, after `Memory`, handed no peer anything. After an Ok or `NoAnswer` the peer was
//!   handed one packet: the message's Prepare with these octets, and the expiry, also the deadline,
//!   that the clock's moment and the longest hold make.
//! - `message` is Ok where a Fulfill of 32 zero octets came, which is `reply` then, `NoAnswer`
//!   where none did. `message_answer` is the data of such a Fulfill in `reply`, or nothing.
//! - `Worker::begin_message` is the first half of that: the packet that the peer is to be handed.
//!   `peer_answer_in` reads what comes back.
//! - `Worker::credit` (`specs/Crediting.antt`) first refuses what is too much at the scale of the
//!   peer's balance; then it may refuse as for want of memory. Both leave all as it was.
//! - `credit` else has a book of the desk credit it under its key, or correct the balance, at a moment of the
//!   clock. Share and records grow by one just where that is a new one. The answer is what the quantity comes
//!   to, also where a credit is kept; of one of an earlier period it is what was credited then.
//! - Of either the keeper is first handed the journal that has it. Where it says that this isn't
//!   kept, the answer is `NotKept`, and entry and record stay. Of a refusal it is handed nothing.
//! - `credit` is `begin_credit`, then `keep`, then `BookedCredit::tell`: the first books, and asks no keeper;
//!   the last wants that the keeper was handed as many entries as the credit's session left.
//! - `Worker::new` holds share, receipt, links, keeper and no record, or hands all back; `into_end`
//!   hands on share and records.
//!
//! What follows from all this has `ilp_worker_laws`; the octets of Rejects and messages are made by
//! `ilp_replies`.
#![tactic(auto)]

mod arrivals;
mod booked;
mod booked_credit;
mod crediting;
mod halves;
mod handing;
mod in_flight;
mod messaging;
mod parts;
mod reply_effect;
mod worker;

pub use arrivals::BadPacket;
pub use booked::{Booked, HandedJournal};
pub use booked_credit::BookedCredit;
pub use crediting::NotCredited;
pub use handing::JournalKeeper;
pub use ilp_keeping::{Forgetful, Keeper, NotKept};
pub use ilp_link_traits::{Clock, EngineLink, EngineReply, LinkFault, Uplink};
pub use ilp_replies::{
    Answer, EngineMessage, LocalReject, MessageFault, PeerMessage, Receipt, ToldReject,
    peer_answer_in,
};
pub use in_flight::{Begun, HeldPrepare, Pending};
pub use worker::{NoWorker, Worker};
