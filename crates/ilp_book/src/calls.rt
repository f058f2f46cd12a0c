//! What the calls of a book are told, and what they answer. Entries are named by their numbers,
//! and peers by their places in the configuration.

use ilp_journal::Cause;

/// A Prepare was accepted.
#[derive(Clone, Copy, Debug, PartialEq, Eq)]
pub struct Held {
    /// The number of the hold.
    pub number: u32,
    /// The peer that the Prepare goes on to.
    pub to: u32,
    /// What that peer gets, in units of its asset.
    pub out: u64,
    /// From this moment on no fulfillment counts; milliseconds since 1970.
    pub deadline: i64,
}

/// What came back for a hold.
#[derive(Clone, Copy, Debug, PartialEq, Eq)]
pub enum PeerReply {
    /// A Fulfill with this preimage.
    Fulfill([u8; 32]),
    /// A Fulfill whose preimage is known not to meet the condition.
    BadFulfill,
    /// A Reject with this code.
    Reject([u8; 3]),
    /// No Fulfill and no Reject that could be read.
    NoReply,
}

/// How a hold ended, and the number of the entry that says so.
#[derive(Clone, Copy, Debug, PartialEq, Eq)]
pub enum Outcome {
    /// The sender's amount went on to the receiver.
    Fulfilled { entry: u32 },
    /// The sender has its amount back, for this cause.
    Released { entry: u32, cause: Cause },
}

/// A settlement from a peer is credited, or its balance is corrected, once for each key.
#[derive(Clone, Copy, Debug, PartialEq, Eq)]
pub struct Kept {
    /// The number of its entry.
    pub number: u32,
    /// What it moved the balance by, in units of the peer's asset.
    pub amount: u64,
    /// Whether this call made it; else an earlier one did, with the same key and quantity.
    pub fresh: bool,
}

/// A settlement to a peer is asked for.
#[derive(Clone, Copy, Debug, PartialEq, Eq)]
pub struct Asked {
    /// The number of the settlement.
    pub number: u32,
    /// What is to be paid, in units of the peer's asset.
    pub amount: u64,
}

/// What the books of an asset come to, in its units. The balances of its peers, with `held`, `fees`
/// and `bought` and less `sold`, are `settled`.
#[derive(Clone, Copy, Debug, PartialEq, Eq)]
pub struct Sums {
    /// The credits and corrections of its peers, less the settlements to them that were not undone.
    pub settled: i128,
    /// The amounts of the open holds whose senders pay in it.
    pub held: i128,
    /// The fees of the fulfilled holds whose senders pay in it.
    pub fees: i128,
    /// The amounts of the fulfilled holds whose senders pay in it, less their fees.
    pub bought: i128,
    /// The amounts out of the fulfilled holds whose receivers are paid in it.
    pub sold: i128,
}
