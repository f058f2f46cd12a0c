//! What the connector asks of peers and of settlement engines over HTTP, and what their responses
//! come to.
//!
//! # What is proved
//!
//! - `post` either wrote exactly the request, and answers the response that the input begins with,
//!   or the reading's fault; or it wrote a part and read nothing. Its reads are those of
//!   `read_response`.
//! - Heads and JSON of requests to peers and engines are exact (`specs/Requests.antt`), and so is
//!   what a response comes to (`specs/Replies.antt`).
#![tactic(auto)]

mod exchange;
mod replies;
mod requests;
mod short_text;

pub use exchange::{PostFault, post};
pub use replies::{has_account, message_reply, packet_reply, settlement_reply};
pub use requests::{
    account_head, account_text, message_head, messages_target, packet_head, settlement_head,
    settlements_target,
};
pub use short_text::ShortText;
