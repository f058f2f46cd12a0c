//! What was told of a peer's balance, as lines show it.

use std::fmt;
use std::fmt::Display;

/// A quantity as an engine or the operator told it: an amount, of which 10 to the power of its scale make
/// one whole.
#[derive(Clone, Copy, Debug, PartialEq, Eq)]
pub struct ToldQuantity {
    pub amount: u128,
    pub scale: u8,
}

/// What was told of a peer's balance under a key.
#[derive(Clone, Copy, Debug, PartialEq, Eq)]
pub enum ToldPayment {
    /// A settlement of the peer, by its engine.
    Settlement(ToldQuantity),
    /// A correction by which the balance rises.
    Rise(ToldQuantity),
    /// A correction by which it falls. It is shown with a minus.
    Fall(ToldQuantity),
}

impl ToldPayment {
    // What lines call it once it is booked.
    pub(crate) fn entry(self) -> &'static str {
        match self {
            ToldPayment::Settlement(_) => "credit",
            ToldPayment::Rise(_) | ToldPayment::Fall(_) => "correction",
        }
    }

    // What they call it that is refused.
    pub(crate) fn refused(self) -> &'static str {
        match self {
            ToldPayment::Settlement(_) => "settlement",
            ToldPayment::Rise(_) | ToldPayment::Fall(_) => "correction",
        }
    }

    // What it is not then.
    pub(crate) fn undone(self) -> &'static str {
        match self {
            ToldPayment::Settlement(_) => "credited",
            ToldPayment::Rise(_) | ToldPayment::Fall(_) => "booked",
        }
    }

    // What an operator is to see to.
    pub(crate) fn advice(self) -> &'static str {
        match self {
            ToldPayment::Settlement(_) => "see which one its engine means",
            ToldPayment::Rise(_) | ToldPayment::Fall(_) => {
                "see which one is meant, and for which reason"
            }
        }
    }
}

impl Display for ToldQuantity {
    fn fmt<W: fmt::Write>(&self, f: &mut fmt::Formatter<W>) -> fmt::Result {
        write!(f, "{} at scale {}", self.amount, self.scale)
    }
}

impl Display for ToldPayment {
    fn fmt<W: fmt::Write>(&self, f: &mut fmt::Formatter<W>) -> fmt::Result {
        match self {
            ToldPayment::Settlement(quantity) | ToldPayment::Rise(quantity) => {
                write!(f, "{quantity}")
            }
            ToldPayment::Fall(quantity) => write!(f, "-{quantity}"),
        }
    }
}
