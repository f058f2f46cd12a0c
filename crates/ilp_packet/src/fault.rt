//! Why octets stand for no packet.
ghost use Rattle.std.specs.Prelude.{◌≡◌};
ghost use Rattle.ilp_packet.specs.Reading.{of_octet_string};

use ilp_oer::OerFault;
use std::error::Error;
use std::fmt;

/// Why octets stand for no packet: the first fault from left to right.
#[derive(Clone, Copy, Debug, PartialEq, Eq)]
pub enum PacketFault {
    /// Octets are missing.
    Truncated,
    /// The length of an octet string is not told by its shortest prefix (RFC 0030), or its prefix is
    /// `80`.
    BadPrefix,
    /// The length of an octet string is told by more than two octets.
    TooLong,
    /// The type octet is neither 12, 13 nor 14 (RFC 0027).
    UnknownType,
    /// Octets follow the packet, or the last field of its content.
    Trailing,
    /// The expiry is no date and time of the years 0000 to 9999.
    BadExpiry,
    /// The destination is no address (RFC 0015).
    BadAddress,
    /// A field is longer than its limit: 32,767 octets of data, 8,191 of a message, 1,023 of the
    /// address that triggered a Reject.
    FieldTooLong,
}

impl fmt::Display for PacketFault {
    fn fmt<W: fmt::Write>(&self, f: &mut fmt::Formatter<W>) -> fmt::Result {
        match self {
            PacketFault::Truncated => write!(f, "octets are missing"),
            PacketFault::BadPrefix => write!(f, "a length prefix is not the shortest"),
            PacketFault::TooLong => write!(f, "a length has more than two octets"),
            PacketFault::UnknownType => write!(f, "the packet type is unknown"),
            PacketFault::Trailing => write!(f, "octets follow the end"),
            PacketFault::BadExpiry => write!(f, "the expiry is no date and time"),
            PacketFault::BadAddress => write!(f, "the destination is no address"),
            PacketFault::FieldTooLong => write!(f, "a field is longer than its limit"),
        }
    }
}

impl Error for PacketFault {}

impl From<OerFault> for PacketFault {
    ghost from_gives = { λ fault result. result ≡ of_octet_string fault };

    fn from(fault: OerFault) -> PacketFault {
        match fault {
            OerFault::Truncated => PacketFault::Truncated,
            OerFault::BadPrefix => PacketFault::BadPrefix,
            OerFault::TooLong => PacketFault::TooLong,
        }
    }
}
