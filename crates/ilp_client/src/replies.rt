//! What a response of a peer or of a settlement engine comes to.
ghost use Rattle.std.specs.Prelude.{◌≡◌, ◌&&◌, not};
ghost use Rattle.ilp_client.specs.Replies as replies;
ghost use Rattle.ilp_client.specs.Replies.{link_octets};

use crate::exchange::PostFault;
use ilp_http::Response;
use ilp_link_traits::{EngineReply, LinkFault};

/// A peer's answer to a packet (RFC 0035): the body of a 200. Every other status is a fault of the
/// link, those from 100 to 199 among them, and so is no response.
pub fn packet_reply<'b>(came: Result<Response<'b>, PostFault>) -> Result<&'b [u8], LinkFault>
    ensures { link_octets result ≡ replies.packet_reply came.entry }
{
    match came {
        Ok(response) if response.status == 200 => Ok(response.body),
        Ok(_) => Err(LinkFault),
        Err(_) => Err(LinkFault),
    }
}

/// An engine's answer to a message (RFC 0038): the body of a 200 to 299. Every other status is a
/// fault of the link, and so is no response.
pub fn message_reply<'b>(came: Result<Response<'b>, PostFault>) -> Result<&'b [u8], LinkFault>
    ensures { link_octets result ≡ replies.message_reply came.entry }
{
    match came {
        Ok(response) if is_success(response.status) => Ok(response.body),
        Ok(_) => Err(LinkFault),
        Err(_) => Err(LinkFault),
    }
}

/// What an engine says of a settlement (RFC 0038): 200 to 299 is `Accepted`, and 400 to 499
/// `Refused`, but for 409, which says that the key is in use. Every other status is `Unknown`, 409
/// among them, and so is no response: the engine may or may not have taken the settlement on. The
/// reply has the status of what isn't `Accepted`, and none where no response came.
pub fn settlement_reply(came: Result<Response<'_>, PostFault>) -> EngineReply
    ensures { result ≡ replies.settlement_reply came.entry }
{
    match came {
        Ok(response) => said_by(response.status),
        Err(_) => EngineReply::Unknown { status: None },
    }
}

// What an engine says of a settlement by this status.
fn said_by(status: u16) -> EngineReply
    ensures { result ≡ replies.settlement_status status }
{
    if is_success(status) {
        EngineReply::Accepted
    } else if is_refused(status) {
        EngineReply::Refused { status }
    } else {
        EngineReply::Unknown {
            status: Some(status),
        }
    }
}

/// Whether an engine has the account that it was told of: after 200 to 299, and after 409, which
/// says that it had it.
pub fn has_account(came: Result<Response<'_>, PostFault>) -> bool
    ensures { result ≡ replies.has_account came.entry }
{
    match came {
        Ok(response) => is_success(response.status) || response.status == CONFLICT,
        Err(_) => false,
    }
}

// The key of a settlement is in use, or the account is there already.
const CONFLICT: u16 = 409;

fn is_success(status: u16) -> bool
    ensures { result ≡ replies.is_success status }
{
    200 <= status && status <= 299
}

fn is_refused(status: u16) -> bool
    ensures { result ≡ (replies.is_client_error status && not (replies.is_conflict status)) }
{
    400 <= status && status <= 499 && status != CONFLICT
}
