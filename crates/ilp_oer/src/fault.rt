//! Why octets are no octet string.
use std::error::Error;
use std::fmt;

/// Why an input does not begin with an octet string (RFC 0030, variable-length octet strings).
#[derive(Clone, Copy, Debug, PartialEq, Eq)]
pub enum OerFault {
    /// Octets are missing: of the prefix or of the content.
    Truncated,
    /// The prefix is not the shortest that tells the length, or is `80`.
    BadPrefix,
    /// The prefix is for a length of more than two octets.
    TooLong,
}

impl fmt::Display for OerFault {
    fn fmt<W: fmt::Write>(&self, f: &mut fmt::Formatter<W>) -> fmt::Result {
        match self {
            OerFault::Truncated => write!(f, "octets are missing"),
            OerFault::BadPrefix => write!(f, "the length prefix is not the shortest"),
            OerFault::TooLong => write!(f, "the length has more than two octets"),
        }
    }
}

impl Error for OerFault {}
