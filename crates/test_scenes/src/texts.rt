//! The texts of what a worker and a desk refuse, and the codes of the Rejects.

use ilp_desk::{WhyNoDesk, WhyNotGathered};
use ilp_packet::PacketFault;
use ilp_workers::{BadPacket, LinkFault, LocalReject};
use std::{io, str};

const REJECTS: [LocalReject; 11] = [
    LocalReject::Unreachable,
    LocalReject::InvalidAmount,
    LocalReject::WrongCondition,
    LocalReject::AmountTooLarge {
        received: 100,
        most: 10,
    },
    LocalReject::InternalError,
    LocalReject::PeerUnreachable,
    LocalReject::ConnectorBusy,
    LocalReject::InsufficientLiquidity,
    LocalReject::TransferTimedOut,
    LocalReject::InsufficientSourceAmount,
    LocalReject::InsufficientTimeout,
];

const BAD_PACKETS: [BadPacket; 2] = [
    BadPacket::Unread(PacketFault::Truncated),
    BadPacket::NotPrepare,
];

const NOT_GATHERED: [WhyNotGathered; 3] = [
    WhyNotGathered::Double { actor: 0 },
    WhyNotGathered::Missing { actor: 1 },
    WhyNotGathered::Disagrees { actor: 2 },
];

/// Prints each text.
pub(crate) fn print_texts(rt: &impl Print) -> io::Result<()> {
    println!(rt; "== texts")?;
    for reject in REJECTS {
        let code = reject.code();
        println!(rt; "{}: {reject}", str::from_utf8(&code).unwrap_or(""))?;
    }
    for bad in BAD_PACKETS {
        println!(rt; "{bad}")?;
    }
    for why in NOT_GATHERED {
        println!(rt; "{why}")?;
    }
    println!(rt; "{}", WhyNoDesk::BadWorkers)?;
    println!(rt; "{}", WhyNoDesk::Memory)?;
    println!(rt; "{LinkFault}")
}
