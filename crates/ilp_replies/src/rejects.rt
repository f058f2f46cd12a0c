//! The Rejects that the connector gives itself (RFC 0027, "Error Codes").
ghost use Rattle.std.specs.Prelude.{◌≡◌, ◌+◌, ◌≤◌, ◌++◌, length, Some};
ghost use Rattle.std.specs.Int.{w64, to_be_bytes};
ghost use Rattle.ilp_packet.specs.Packet.{reject, Spells};
ghost use Rattle.ilp_book.specs.RejectCode.{reject_code};
ghost use Rattle.ilp_replies.specs.Rejects.{code_of, told_code, message_of, payload_of, local_reject, longest_local_reject, reject_of_fault};

use ilp_accounts::Config;
use ilp_assets::QuoteFault;
use ilp_book::HoldFault;
use ilp_oer::Octets;
use ilp_packet::{Reject, write_reject};
use std::alloc::Allocator;
use std::fmt;

/// The most octets that a Reject of the connector's own has, whatever its address is.
pub const LONGEST_LOCAL_REJECT: usize = 1067;

/// Why the connector itself rejects a Prepare, as RFC 0027 names it.
#[derive(Clone, Copy, Debug, PartialEq, Eq)]
pub enum LocalReject {
    /// No route, or no price, leads from the sender to the destination, or the sender of a message
    /// has no settlement engine.
    Unreachable,
    /// The amount comes to more than a packet carries in the receiver's asset, or that of a message
    /// isn't 0.
    InvalidAmount,
    /// The fulfillment that came doesn't meet the condition, or a message has another condition
    /// than every message.
    WrongCondition,
    /// The amount `received` is above `most`, both in units of the sender's asset.
    AmountTooLarge { received: u64, most: u64 },
    /// The connector failed, as where memory is denied.
    InternalError,
    /// Neither a Fulfill nor a Reject came from the next peer, or no answer that a packet carries
    /// from the settlement engine.
    PeerUnreachable,
    /// The connector has no room for another hold.
    ConnectorBusy,
    /// The sender may not owe as much, or the holds of an asset would come to too much.
    InsufficientLiquidity,
    /// The Prepare expired before it was held or its message was handed on, or before its answer
    /// came.
    TransferTimedOut,
    /// The amount comes to nothing in the receiver's asset.
    InsufficientSourceAmount,
    /// The Prepare leaves too little time to pass it on.
    InsufficientTimeout,
}

impl LocalReject {
    /// The Reject that the sender of a Prepare of this amount gets where the book refused it.
    pub fn of_fault(fault: HoldFault, amount: u64) -> LocalReject
        ensures value { result ≡ reject_of_fault amount fault }
        ensures code { code_of result ≡ reject_code fault }
    {
        match fault {
            HoldFault::AmountTooLarge { max } => LocalReject::AmountTooLarge {
                received: amount,
                most: max,
            },
            HoldFault::NoRoute | HoldFault::BackToSender => LocalReject::Unreachable,
            HoldFault::Expired => LocalReject::TransferTimedOut,
            HoldFault::TooShort => LocalReject::InsufficientTimeout,
            HoldFault::Quote(QuoteFault::NoPrice) => LocalReject::Unreachable,
            HoldFault::Quote(QuoteFault::OutTooLarge) => LocalReject::InvalidAmount,
            HoldFault::Quote(QuoteFault::RoundsToNothing) => LocalReject::InsufficientSourceAmount,
            HoldFault::Full => LocalReject::ConnectorBusy,
            HoldFault::TotalFull => LocalReject::InsufficientLiquidity,
            HoldFault::BelowLeast { .. } => LocalReject::InsufficientLiquidity,
            HoldFault::Memory => LocalReject::InternalError,
        }
    }

    /// The error code.
    pub fn code(&self) -> [u8; 3]
        ensures { result ≡ code_of self.now }
    {
        match self {
            LocalReject::Unreachable => *b"F02",
            LocalReject::InvalidAmount => *b"F03",
            LocalReject::WrongCondition => *b"F05",
            LocalReject::AmountTooLarge { .. } => *b"F08",
            LocalReject::InternalError => *b"T00",
            LocalReject::PeerUnreachable => *b"T01",
            LocalReject::ConnectorBusy => *b"T03",
            LocalReject::InsufficientLiquidity => *b"T04",
            LocalReject::TransferTimedOut => *b"R00",
            LocalReject::InsufficientSourceAmount => *b"R01",
            LocalReject::InsufficientTimeout => *b"R02",
        }
    }

    /// The message, for people.
    pub fn message(&self) -> &'static str
        ensures { result.now ≡ message_of self.now }
    {
        match self {
            LocalReject::Unreachable => "unreachable",
            LocalReject::InvalidAmount => "invalid amount",
            LocalReject::WrongCondition => "wrong condition",
            LocalReject::AmountTooLarge { .. } => "amount too large",
            LocalReject::InternalError => "internal error",
            LocalReject::PeerUnreachable => "peer unreachable",
            LocalReject::ConnectorBusy => "connector busy",
            LocalReject::InsufficientLiquidity => "insufficient liquidity",
            LocalReject::TransferTimedOut => "timed out",
            LocalReject::InsufficientSourceAmount => "insufficient source amount",
            LocalReject::InsufficientTimeout => "insufficient timeout",
        }
    }
}

/// The Reject that the sender of a Prepare was told.
#[derive(Clone, Copy, Debug, PartialEq, Eq)]
pub enum ToldReject {
    /// The connector's own.
    Own(LocalReject),
    /// The next peer's, in its own octets, with this error code.
    Peer { code: [u8; 3] },
}

impl ToldReject {
    /// The error code.
    pub fn code(&self) -> [u8; 3]
        ensures { result ≡ told_code self.now }
    {
        match self {
            ToldReject::Own(why) => why.code(),
            ToldReject::Peer { code } => *code,
        }
    }
}

impl fmt::Display for LocalReject {
    ghost output = { λ why. Some (message_of why) };

    fn fmt<W: fmt::Write>(&self, f: &mut fmt::Formatter<W>) -> fmt::Result {
        f.write_str(self.message())
    }
}

/// Writes the connector's own Reject in place of what `out` holds, into the room that is there: it
/// takes no memory and can't fail.
pub fn put_local_reject<A: Allocator>(out: &mut Octets<A>, config: &Config, why: LocalReject)
    requires { longest_local_reject ≤ length out.old.octets + out.old.spare }
    ensures packet { Spells out.new.octets (reject (local_reject config.now why)) }
    ensures room { length out.new.octets + out.new.spare
        ≡ length out.old.octets + out.old.spare }
{
    match why {
        LocalReject::AmountTooLarge { received, most } => {
            put_with_payload(out, config, why, &side_by_side(received, most));
        }
        _ => put_with_payload(out, config, why, &[]),
    }
}

// Writes the Reject with its data.
fn put_with_payload<A: Allocator>(
    out: &mut Octets<A>,
    config: &Config,
    why: LocalReject,
    payload: &[u8],
)
    requires payload { payload.now ≡ payload_of why }
    requires room { longest_local_reject ≤ length out.old.octets + out.old.spare }
    ensures packet { Spells out.new.octets (reject (local_reject config.now why)) }
    ensures room { length out.new.octets + out.new.spare
        ≡ length out.old.octets + out.old.spare }
{
    // Called for what its contract tells: the configuration is valid, so its address fits a Reject.
    let _ = config.peers();
    let packet = Reject {
        code: &why.code(),
        triggered_by: config.address().as_bytes(),
        message: why.message().as_bytes(),
        payload,
    };
    out.clear();
    let Ok(()) = write_reject(out, &packet) else {
        unreachable!();
    };
}

// Two amounts, each with its greatest octet first.
fn side_by_side(first: u64, second: u64) -> [u8; 16]
    ensures { result ≡ to_be_bytes w64 first ++ to_be_bytes w64 second }
{
    let mut octets = [0; 16];
    octets[..8].copy_from_slice(&first.to_be_bytes());
    octets[8..].copy_from_slice(&second.to_be_bytes());
    octets
}
