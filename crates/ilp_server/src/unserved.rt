//! Why a request is not served.
ghost use Rattle.std.specs.Prelude.{◌≡◌};
ghost use Rattle.ilp_server.specs.Statuses as statuses;
ghost use Rattle.ilp_server.specs.Statuses.{status_of, status_of_credit};

use crate::handled::{ConnectionFault, ToldChange};
use ilp_book::CreditFault;
use ilp_http::{Refusal, RequestFault, Status};
use ilp_settlement::{CorrectionFault, QuantityFault};
use ilp_workers::{BadPacket, MessageFault, NotCredited};
use thiserror::Error;

/// Why a request is not served. It is answered by a status and an empty body.
#[derive(Clone, Copy, Debug, PartialEq, Eq, Error)]
pub enum NotServed {
    /// The octets are no request.
    #[error("{0}")]
    NoRequest(Refusal),
    /// The target asks for nothing at this side, or names no peer.
    #[error("nothing is served under this target")]
    UnknownTarget,
    /// No token of a peer is shown.
    #[error("no token of a peer is shown")]
    UnknownSender,
    /// The body is no Prepare.
    #[error("{0}")]
    Packet(BadPacket),
    /// No key of a settlement or a correction is given.
    #[error("no key is given")]
    NoKey,
    /// The body is no quantity, or memory to read it was denied.
    #[error("{0}")]
    Quantity(QuantityFault),
    /// The body is no correction, or memory to read it was denied.
    #[error("{0}")]
    Correction(CorrectionFault),
    /// What is told of the peer is not answered as booked.
    #[error("{fault}")]
    Credit {
        peer: u32,
        told: ToldChange,
        fault: NotCredited,
    },
    /// The message has no answer.
    #[error("{0}")]
    Message(MessageFault),
    /// What is asked of the connector as a whole is not done now: the configuration is not read again.
    #[error("a new period is under way")]
    NewPeriod,
    /// Memory for the response was denied.
    #[error("memory is short")]
    Memory,
}

impl NotServed {
    /// The status by which the request is answered (RFC 9110, section 15): the one table of them.
    pub fn status(self) -> Status
        ensures { result ≡ status_of self }
    {
        match self {
            NotServed::NoRequest(refusal) => Status::from(refusal),
            NotServed::UnknownTarget => Status::NotFound,
            NotServed::UnknownSender => Status::Unauthorized,
            NotServed::Packet(_) => Status::BadRequest,
            NotServed::NoKey => Status::BadRequest,
            NotServed::Quantity(QuantityFault::Memory) => Status::Unavailable,
            NotServed::Quantity(_) => Status::BadRequest,
            NotServed::Correction(CorrectionFault::Memory) => Status::Unavailable,
            NotServed::Correction(_) => Status::BadRequest,
            NotServed::Credit {
                fault: NotCredited::Refused(fault),
                ..
            } => status_of_credit(fault),
            NotServed::Credit {
                fault: NotCredited::NotKept { .. },
                ..
            } => Status::Unavailable,
            NotServed::Message(MessageFault::TooLong) => Status::BadGateway,
            NotServed::Message(MessageFault::NoAnswer) => Status::BadGateway,
            NotServed::Message(MessageFault::Memory) => Status::Unavailable,
            NotServed::NewPeriod => Status::Unavailable,
            NotServed::Memory => Status::Unavailable,
        }
    }
}

// The status by which a settlement is answered that is not credited, or a correction that is not booked.
fn status_of_credit(fault: CreditFault) -> Status
    ensures { result ≡ status_of_credit fault }
{
    match fault {
        CreditFault::TooLarge => Status::BadRequest,
        CreditFault::KeyTaken { .. } => Status::Conflict,
        CreditFault::BelowLeast { .. } => Status::Forbidden,
        CreditFault::Full => Status::Unavailable,
        CreditFault::Memory => Status::Unavailable,
    }
}

/// What becomes of a connection on which no request was read: what is refused is answered. After a
/// failed read, and where memory for the fields was denied, nothing is written.
pub fn unread(fault: RequestFault) -> Result<NotServed, ConnectionFault>
    ensures { result ≡ statuses.unread fault }
{
    match fault {
        RequestFault::Refused(refusal) => Ok(NotServed::NoRequest(refusal)),
        RequestFault::Failed => Err(ConnectionFault::Read),
        RequestFault::TooManyReads => Err(ConnectionFault::Read),
        RequestFault::Memory => Err(ConnectionFault::Memory),
    }
}
