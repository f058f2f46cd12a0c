//! Which rule an entry of a journal breaks.
use thiserror::Error;

/// Why an entry can't stand where it does in a journal of the configuration.
#[derive(Clone, Copy, Debug, PartialEq, Eq, Error)]
pub enum BrokenRule {
    /// It lies before the entry before it, or outside of the years 1970 to 9999.
    #[error("its moment lies before that of the entry before it, or outside of the years 1970 to 9999")]
    Moment,
    /// A hold is between two different peers of the configuration; other entries name one of them.
    #[error("it names a peer that isn't there, or holds for its own sender")]
    Peer,
    /// A hold is of at most the sender's `max_packet`.
    #[error("its amount is above the sender's max_packet")]
    MaxPacket,
    /// Fee and amount out follow from the amount, by `fee_ppm` and the prices.
    #[error("its fee and the amount out are not those of fee_ppm and the prices")]
    Quote,
    /// A deadline lies behind the moment, by at most `max_hold_ms`.
    #[error("its deadline isn't above its moment by at most max_hold_ms")]
    Deadline,
    /// An answer is that of an open hold.
    #[error("the hold that it names isn't open")]
    NoOpenHold,
    /// A preimage meets its hold's condition.
    #[error("its preimage doesn't meet the condition of the hold")]
    Preimage,
    /// A fulfillment comes before the deadline, and a release is Late exactly from the deadline on.
    #[error("its moment and the deadline of the hold don't go with what it says")]
    Lateness,
    /// What is brought forward stands in a period above 0, before all that is booked in it.
    #[error("it is brought forward, but stands in the first period or behind what was booked")]
    Head,
    /// A balance that is brought forward is not 0, and each peer has one at most.
    #[error("the balance that is brought forward is 0, or the peer has one already")]
    Opening,
    /// A credit is of the quantity at the scale of the peer's asset, rounded down.
    #[error("the credited amount is not the quantity at the scale of the peer's asset")]
    Credited,
    /// A key of a peer is credited once.
    #[error("the peer's key was credited before")]
    KeyTaken,
    /// Four settlements to a peer are open at a time at most.
    #[error("four settlements to the peer are still open")]
    StillOpen,
    /// A settlement is asked for from `threshold` on, for what lies above `settle_to`, at most
    /// `settle_max`.
    #[error("by threshold, settle_to and settle_max this amount isn't asked for")]
    NotDue,
    /// A settlement is brought forward under a key of visible ASCII that no other one has or gets: none
    /// that is brought forward too, and none of this period or a later one.
    #[error("its key is not of visible ASCII, or another settlement has it, or one of this period or a later could have it")]
    SettlementKey,
    /// A closing is that of an open settlement.
    #[error("the settlement that it names isn't open")]
    NoOpenAsk,
    /// The journal has room for it and for whatever ends what is open.
    #[error("the configured journal has no room for it")]
    Room,
    /// No balance falls below the peer's `least`, nor is one brought forward that lies below.
    #[error("the peer's balance would fall below its least")]
    Least,
}
