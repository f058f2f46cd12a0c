//! By what a packet is found that was sent to a peer.

use std::fmt;
use std::fmt::Display;

// How many octets of a condition are told.
const SHOWN: usize = 4;

/// What a line says of the hold of a packet that was sent to a peer, so that it can be found in the
/// journal and by the peer: its number, the amount that went out, in units of the peer's asset, and the
/// first four octets of its condition.
#[derive(Clone, Copy, Debug, PartialEq, Eq)]
pub struct SentHold {
    number: u32,
    amount: u64,
    condition: [u8; SHOWN],
}

impl SentHold {
    /// The hold of this number, amount and condition.
    pub fn new(number: u32, amount: u64, condition: &[u8; 32]) -> SentHold {
        let [a, b, c, d, ..] = *condition;
        SentHold {
            number,
            amount,
            condition: [a, b, c, d],
        }
    }
}

impl Display for SentHold {
    fn fmt<W: fmt::Write>(&self, f: &mut fmt::Formatter<W>) -> fmt::Result {
        let [a, b, c, d] = self.condition;
        write!(
            f,
            "hold {} of {}, condition {a:02x}{b:02x}{c:02x}{d:02x}",
            self.number, self.amount
        )
    }
}
