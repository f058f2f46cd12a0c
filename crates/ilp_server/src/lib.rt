//! The connector's server: what comes over HTTP from peers and from settlement engines.
//!
//! # What is proved
//!
//! - `answer_connection` reads one request at a side, in at most 4,096 reads, has a worker serve
//!   it, and writes one response. It relates what source and sink tell, the worker before and
//!   after, and what is answered (`specs/Connection.antt`).
//! - It reads what `read_request` answers, and like it no further. Refused octets get their
//!   refusal's status, and leave the worker as it was.
//! - What is answered is the table's (docs/PROTOCOL.md, "requests that are served")
//!   (`specs/Serving.antt`). Of a packet with a known token `Worker::forward`'s relation holds of
//!   the body, from the token's peer.
//! - Of a settlement with a key and a quantity, 503 for want of memory may come before a book is
//!   asked. Else `Worker::credit`'s relation holds of the quantity, the key and the path's peer; a
//!   credit of which the worker's keeper said that it is not kept is answered 503. Of a message
//!   `Worker::message`'s relation holds.
//! - Of a correction with a key and a body that `Correction::read` takes, 503 for want of memory may come
//!   before a book is asked. Else `Worker::credit`'s relation holds of its quantity, by its direction and for
//!   its reason. It is answered what the kept amount moved the balance by; where the balance would fall below
//!   its least, 403 with both (`specs/Corrections.antt`).
//! - A report is exactly the report of some book of the desk, or 503 where memory is short. It
//!   changes nothing; nor does a close. A reload, a pause and a resume do nothing: they are answered
//!   503.
//! - `Done`: the response with this status was written whole; `Close`: the same of 200, only for a
//!   close at the engines' side. `Fault`: a write failed before its end; or nothing that is
//!   answered was read, nothing was written, and the worker is as it was. `Done` and `Fault` have
//!   the `Deed` (`specs/Deeds.antt`): the credit or correction that was made now, kept or not, the one that
//!   was refused since its key is taken, or the Reject that the packet's sender is answered, and
//!   nothing else.
//! - `target_of` is what a path asks for at a side (`specs/Targets.antt`), `sender_of` the peer
//!   whose token the one Authorization field shows, `key_of` the octets of the key in the one
//!   Idempotency-Key field (`specs/Fields.antt`); each is none just where there is none.
//! - `begin_request` is the first half of that over a `Flight`, and asks nobody outside
//!   (`specs/Course.antt`). By what the octets are read as: what is no request, has no target or shows
//!   no token leaves the flight as it was, and has the same refusal. A packet is begun as
//!   `Flight::begin` does, from the token's peer: it waits under that key, or the engine here is to be
//!   asked, or it is answered by the worker's octets, or by 503 where memory for their copy is denied.
//!   A message is made ready for the path's peer. Settlements and corrections are booked or refused, as above, and one
//!   that is booked waits (`specs/CreditHalves.antt`): `PendingCredit::tell` wants that the keeper was handed a journal
//!   with its entry, and is what the whole serving answers by the keeper's word. Closes are served whole, and
//!   what waited still waits; so are reports, with what they are to have behind their own text. A reload
//!   is handed on, and so are a pause and a resume with the path's peer, whom the configuration has; they
//!   change nothing.
//! - A `Response` (`specs/Response.antt`) is written as `answer_connection` writes. `to_packet` is the
//!   answer's octets with the deed that the sender is told its Reject; `to_message` is what the peer's
//!   engine answered, 503 where memory for it is denied, and 502 where it answered nothing.
//! - `work_of` tells octets as remote only where they begin with a packet or a message
//!   (`specs/Work.antt`): the packet shows the sender's token, and its Prepare is for the receiver, the
//!   peer of the destination's route or the engine of the sender; the message is from the engine of the
//!   receiver. Both numbers are below twice the count of peers, and the octets are those of the body.
//!   Of octets that it tells as local nothing is said.
//! - `laws`: in a valid configuration a path asks for at most one thing at a side, and a request is
//!   from at most one peer.
//! - `NotServed` is the table of statuses of what is not served (`specs/Statuses.antt`); `unread`
//!   says what becomes of a connection without a request.
#![tactic(auto)]

mod answering;
mod correcting;
mod correction_text;
mod course;
mod fields;
mod handled;
pub mod laws;
mod pending_credit;
mod response;
mod served;
mod serving;
mod target;
mod unserved;
mod work;

pub use answering::answer_connection;
pub use course::{Course, begin_request};
pub use fields::{key_of, sender_of};
pub use handled::{ConnectionFault, Deed, Handled, ToldChange};
pub use pending_credit::PendingCredit;
pub use response::Response;
pub use target::{Side, Target, target_of};
pub use unserved::{NotServed, unread};
pub use work::{Work, work_of};
