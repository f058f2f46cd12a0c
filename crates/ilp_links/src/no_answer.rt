//! Why a peer or a settlement engine gave no answer that can be used.

use ilp_client::PostFault;
use ilp_notices::SentHold;
use std::fmt;
use std::io::ErrorKind;
use thiserror::Error;

/// Why a peer or a settlement engine gave no answer that can be used. Its text names no octet of
/// what was sent or came.
#[derive(Clone, Copy, Debug, PartialEq, Eq, Error)]
pub(crate) enum NoAnswer {
    /// What the configuration says where it is is no `IP:PORT`.
    #[error("no IP:PORT in digits")]
    NoPlace,
    /// No connection was made.
    #[error("not reached: {0}")]
    NotReached(ErrorKind),
    /// The time ran out.
    #[error("no answer in time")]
    Late,
    /// What came is no response of HTTP.
    #[error("no response of HTTP: {0}")]
    NoResponse(PostFault),
    /// A response came, whose status says that it is no answer.
    #[error("status {0}")]
    Status(u16),
    /// Memory for what came was denied.
    #[error("no memory for the answer")]
    NoMemory,
}

impl NoAnswer {
    // Whether the peer may have got the packet, and have answered it.
    fn may_be_answered(self) -> bool {
        match self {
            NoAnswer::Late | NoAnswer::NoResponse(_) | NoAnswer::NoMemory => true,
            NoAnswer::NoPlace | NoAnswer::NotReached(_) | NoAnswer::Status(_) => false,
        }
    }
}

/// Why a packet has no answer, and which hold it is of, where the peer may have fulfilled it all the
/// same.
#[derive(Clone, Copy)]
pub(crate) struct Failure {
    why: NoAnswer,
    hold: Option<SentHold>,
}

impl Failure {
    /// This fault, of the packet of this hold.
    pub(crate) fn new(why: NoAnswer, hold: Option<SentHold>) -> Failure {
        let hold = if why.may_be_answered() { hold } else { None };
        Failure { why, hold }
    }
}

impl fmt::Display for Failure {
    fn fmt<W: fmt::Write>(&self, f: &mut fmt::Formatter<W>) -> fmt::Result {
        write!(f, "{}", self.why)?;
        match self.hold {
            Some(hold) => write!(f, " ({hold})"),
            None => Ok(()),
        }
    }
}
