//! What became of a connection.

use ilp_http::Status;
use ilp_settlement::Quantity;
use ilp_workers::ToldReject;
use thiserror::Error;

/// What became of a connection. What was done stays done, whatever became of it.
#[derive(Clone, Copy, Debug, PartialEq, Eq)]
pub enum Handled {
    /// One response with this status was written.
    Done { status: Status, deed: Deed },
    /// One response with the status 200 was written, to a request that asks for the connector to
    /// close.
    Close,
    /// None was written whole.
    Fault { fault: ConnectionFault, deed: Deed },
}

/// What is told of a peer's balance under a key.
#[derive(Clone, Copy, Debug, PartialEq, Eq)]
pub enum ToldChange {
    /// A settlement of the peer, of this quantity.
    Settlement(Quantity),
    /// A correction by which the balance rises by this quantity.
    Rise(Quantity),
    /// A correction by which it falls by it.
    Fall(Quantity),
}

/// What a request brought about that an operator is told of.
#[derive(Clone, Copy, Debug, PartialEq, Eq)]
pub enum Deed {
    /// Nothing of that kind.
    Nothing,
    /// A settlement of the peer, or a correction of its balance, was booked by the entry of this number,
    /// with so many units of the peer's asset. One that had been booked before is none.
    Credited {
        peer: u32,
        number: u32,
        amount: u64,
    },
    /// What is told of the peer is not booked, since the entry of this number has its key with another
    /// quantity, or as something else.
    KeyTaken {
        peer: u32,
        number: u32,
        told: ToldChange,
    },
    /// The peer is answered this Reject for its packet.
    Rejected {
        peer: u32,
        reject: ToldReject,
    },
}

/// Why no response was written whole.
#[derive(Clone, Copy, Debug, PartialEq, Eq, Error)]
pub enum ConnectionFault {
    /// A read failed, or there were as many as there may be. Nothing was written.
    #[error("a read failed")]
    Read,
    /// A write failed or took no octet. A part of the response was written.
    #[error("a write failed or took no octet")]
    Write,
    /// Memory for the fields of the request was denied. Nothing was written.
    #[error("memory is short")]
    Memory,
}
