//! Refusals by number and name.
ghost use Rattle.std.specs.Prelude.{◌≡◌};
ghost use Rattle.ilp_refusals.specs.Refusals.{refusal_number, refusal_name};

use ilp_accounts::{ConfigFault, Field};
use ilp_assets::QuoteFault;
use ilp_book::{AskFault, CarryFault, CreditFault, ForwardFault, HoldFault};
use ilp_packet::PacketFault;
use ilp_settlement::QuantityFault;
use std::error::Error;
use std::fmt;

/// A refusal, as programs print it: by its number, its name and the field that it names, if it
/// names one.
#[derive(Clone, Copy, Debug, PartialEq, Eq)]
pub enum Refusal {
    /// Octets are missing.
    Truncated,
    /// A length is not told by its shortest prefix.
    BadPrefix,
    /// A length has more than two octets.
    TooLong,
    /// The type of a packet is unknown.
    UnknownType,
    /// Octets follow the end.
    Trailing,
    /// An expiry is no date and time.
    BadExpiry,
    /// A destination is no address.
    BadAddress,
    /// A field is longer than its limit.
    FieldTooLong,
    /// A text is no even number of hexadecimal digits.
    BadHex,
    /// A packet is no Prepare.
    NotPrepare,
    /// An asset is given twice.
    DoubleAsset,
    /// An asset is named that is not given.
    NoSuchAsset,
    /// The scales of a price differ by more than 9.
    ScaleGap,
    /// A price has a 0.
    ZeroPrice,
    /// A pair of assets has no price.
    NoPrice,
    /// Nothing would go out of an amount that is not 0.
    RoundsToNothing,
    /// More would go out than a packet carries.
    OutTooLarge,
    /// A pair of assets has a price already.
    DoublePrice,
    /// A configuration can't be read, or has more than 1,048,576 octets.
    ConfigUnread,
    /// A configuration is not TOML.
    NotToml,
    /// A field or an array of a configuration is absent, or an array is empty, that is required.
    Missing { field: Field },
    /// A field of a configuration has a value of another type, or outside its range.
    BadValue { field: Field },
    /// A peer's name is given twice.
    DoublePeer,
    /// A peer's token is given twice.
    DoubleToken,
    /// A route's prefix is given twice.
    DoubleRoute,
    /// The levels of a peer are out of order.
    BadLevels,
    /// A quantity is no JSON object.
    NotJson,
    /// A quantity has no amount.
    BadAmount,
    /// A quantity has no scale.
    BadScale,
    /// A settlement is more than 64 bits of the peer's asset.
    TooLarge,
    /// A Prepare's amount is greater than this, the most that its sender may send.
    AmountTooLarge { max: u64 },
    /// A Prepare's destination is routed to no peer.
    NoRoute,
    /// A Prepare's destination is routed to its sender.
    BackToSender,
    /// A Prepare has expired.
    Expired,
    /// A Prepare leaves too little time.
    TooShort,
    /// The journal is full.
    Full,
    /// The holds of an asset would come to more than a packet carries.
    TotalFull,
    /// The sender's balance, which is this, would fall below its least.
    BelowLeast { balance: i128 },
    /// A growth of memory was denied.
    Memory,
    /// A key names another settlement, which this entry credited.
    KeyTaken { kept: u32 },
    /// A settlement is not due: the peer's balance, which is this, is below its threshold, or it has
    /// none.
    NotDue { balance: i128 },
    /// A settlement to the peer, which is this, is open already.
    StillOpen { number: u32, amount: u64 },
    /// No end of this actor of a desk is there.
    MissingEnd { actor: u32 },
    /// Two ends of this actor of a desk are there.
    DoubleEnd { actor: u32 },
    /// What this actor of a desk kept is not what it booked.
    Disagrees { actor: u32 },
    /// A read failed.
    ReadFault,
    /// A write failed, or took no octet.
    WriteFault,
    /// A script is too long.
    ScriptTooLong,
    /// An address that is to be listened at can't be had.
    ListenFault,
    /// A thread can't be started.
    SpawnFault,
    /// This line of a journal's file, counted from 1, is none of a journal's text.
    BadJournalText { line: u64 },
    /// This entry of a journal breaks a rule of the configuration.
    Unlawful { entry: u32 },
    /// A journal can't be read or is too long, another connector has it, or one has stopped without
    /// saving it.
    JournalUnread,
    /// The configuration of a next period has another run.
    OtherRun,
    /// A period has the greatest number of all.
    LastPeriod,
    /// The books of a period can't be closed while a hold is open, which is this.
    HoldOpen { hold: u32 },
    /// A balance, which is this, is too large to be brought forward.
    BalanceTooLarge { balance: i128 },
    /// The configuration of a next period lacks a peer whose balance, which is this, is not 0, or that has
    /// an open settlement.
    PeerRemoved { balance: i128 },
    /// The configuration of a next period has another asset for a peer that has a balance, which is this,
    /// an open settlement or a kept key.
    OtherAsset { balance: i128 },
    /// This entry of a journal is another one than what the period before has brought forward.
    NotFollowing { entry: u32 },
}

impl Refusal {
    /// The number of the refusal, which never changes.
    pub fn number(self) -> u8
        ensures { result ≡ refusal_number self }
    {
        match self {
            Refusal::Truncated => 1,
            Refusal::BadPrefix => 2,
            Refusal::TooLong => 3,
            Refusal::UnknownType => 4,
            Refusal::Trailing => 5,
            Refusal::BadExpiry => 6,
            Refusal::BadAddress => 7,
            Refusal::FieldTooLong => 8,
            Refusal::BadHex => 9,
            Refusal::NotPrepare => 10,
            Refusal::DoubleAsset => 11,
            Refusal::NoSuchAsset => 12,
            Refusal::ScaleGap => 13,
            Refusal::ZeroPrice => 14,
            Refusal::NoPrice => 15,
            Refusal::RoundsToNothing => 16,
            Refusal::OutTooLarge => 17,
            Refusal::DoublePrice => 18,
            Refusal::ConfigUnread => 20,
            Refusal::NotToml => 21,
            Refusal::Missing { .. } => 22,
            Refusal::BadValue { .. } => 23,
            Refusal::DoublePeer => 24,
            Refusal::DoubleToken => 25,
            Refusal::DoubleRoute => 26,
            Refusal::BadLevels => 27,
            Refusal::NotJson => 31,
            Refusal::BadAmount => 32,
            Refusal::BadScale => 33,
            Refusal::TooLarge => 34,
            Refusal::AmountTooLarge { .. } => 35,
            Refusal::NoRoute => 36,
            Refusal::BackToSender => 37,
            Refusal::Expired => 38,
            Refusal::TooShort => 39,
            Refusal::Full => 41,
            Refusal::TotalFull => 42,
            Refusal::BelowLeast { .. } => 43,
            Refusal::Memory => 44,
            Refusal::KeyTaken { .. } => 46,
            Refusal::NotDue { .. } => 47,
            Refusal::StillOpen { .. } => 48,
            Refusal::MissingEnd { .. } => 51,
            Refusal::DoubleEnd { .. } => 52,
            Refusal::Disagrees { .. } => 53,
            Refusal::ReadFault => 61,
            Refusal::WriteFault => 64,
            Refusal::ScriptTooLong => 65,
            Refusal::ListenFault => 66,
            Refusal::SpawnFault => 67,
            Refusal::BadJournalText { .. } => 71,
            Refusal::Unlawful { .. } => 72,
            Refusal::JournalUnread => 73,
            Refusal::OtherRun => 74,
            Refusal::LastPeriod => 75,
            Refusal::HoldOpen { .. } => 76,
            Refusal::BalanceTooLarge { .. } => 77,
            Refusal::PeerRemoved { .. } => 78,
            Refusal::OtherAsset { .. } => 79,
            Refusal::NotFollowing { .. } => 80,
        }
    }

    /// The name of the refusal.
    pub fn name(self) -> &'static str
        ensures { result.now ≡ refusal_name self }
    {
        match self {
            Refusal::Truncated => "Truncated",
            Refusal::BadPrefix => "BadPrefix",
            Refusal::TooLong => "TooLong",
            Refusal::UnknownType => "UnknownType",
            Refusal::Trailing => "Trailing",
            Refusal::BadExpiry => "BadExpiry",
            Refusal::BadAddress => "BadAddress",
            Refusal::FieldTooLong => "FieldTooLong",
            Refusal::BadHex => "BadHex",
            Refusal::NotPrepare => "NotPrepare",
            Refusal::DoubleAsset => "DoubleAsset",
            Refusal::NoSuchAsset => "NoSuchAsset",
            Refusal::ScaleGap => "ScaleGap",
            Refusal::ZeroPrice => "ZeroPrice",
            Refusal::NoPrice => "NoPrice",
            Refusal::RoundsToNothing => "RoundsToNothing",
            Refusal::OutTooLarge => "OutTooLarge",
            Refusal::DoublePrice => "DoublePrice",
            Refusal::ConfigUnread => "ConfigUnread",
            Refusal::NotToml => "NotToml",
            Refusal::Missing { .. } => "Missing",
            Refusal::BadValue { .. } => "BadValue",
            Refusal::DoublePeer => "DoublePeer",
            Refusal::DoubleToken => "DoubleToken",
            Refusal::DoubleRoute => "DoubleRoute",
            Refusal::BadLevels => "BadLevels",
            Refusal::NotJson => "NotJson",
            Refusal::BadAmount => "BadAmount",
            Refusal::BadScale => "BadScale",
            Refusal::TooLarge => "TooLarge",
            Refusal::AmountTooLarge { .. } => "AmountTooLarge",
            Refusal::NoRoute => "NoRoute",
            Refusal::BackToSender => "BackToSender",
            Refusal::Expired => "Expired",
            Refusal::TooShort => "TooShort",
            Refusal::Full => "Full",
            Refusal::TotalFull => "TotalFull",
            Refusal::BelowLeast { .. } => "BelowLeast",
            Refusal::Memory => "Memory",
            Refusal::KeyTaken { .. } => "KeyTaken",
            Refusal::NotDue { .. } => "NotDue",
            Refusal::StillOpen { .. } => "StillOpen",
            Refusal::MissingEnd { .. } => "Missing",
            Refusal::DoubleEnd { .. } => "Double",
            Refusal::Disagrees { .. } => "Disagrees",
            Refusal::ReadFault => "ReadFault",
            Refusal::WriteFault => "WriteFault",
            Refusal::ScriptTooLong => "ScriptTooLong",
            Refusal::ListenFault => "ListenFault",
            Refusal::SpawnFault => "SpawnFault",
            Refusal::BadJournalText { .. } => "BadJournalText",
            Refusal::Unlawful { .. } => "Unlawful",
            Refusal::JournalUnread => "JournalUnread",
            Refusal::OtherRun => "OtherRun",
            Refusal::LastPeriod => "LastPeriod",
            Refusal::HoldOpen { .. } => "HoldOpen",
            Refusal::BalanceTooLarge { .. } => "BalanceTooLarge",
            Refusal::PeerRemoved { .. } => "PeerRemoved",
            Refusal::OtherAsset { .. } => "OtherAsset",
            Refusal::NotFollowing { .. } => "NotFollowing",
        }
    }
}

/// `NUMBER NAME`, and each after a space what it names: the key of a field, the greatest amount, the
/// balance, the entry of a key, the number and the amount of a settlement, an actor, the line or the
/// entry of a journal, or the number of a hold.
impl fmt::Display for Refusal {
    ghost use Rattle.std.specs.Prelude.{Some};
    ghost use Rattle.ilp_refusals.specs.Refusals.{refusal_text};

    ghost output = { λ refusal. Some (refusal_text refusal) };

    fn fmt<W: fmt::Write>(&self, f: &mut fmt::Formatter<W>) -> fmt::Result {
        let number = self.number();
        let named = Named(*self);
        write!(f, "{number} {named}")
    }
}

/// A refusal without its number, as it stands behind what has a number of its own: the code of a Reject.
#[derive(Clone, Copy)]
pub struct Named(pub Refusal);

/// `NAME`, and each after a space what it names.
impl fmt::Display for Named {
    ghost use Rattle.std.specs.Prelude.{Some};
    ghost use Rattle.ilp_refusals.specs.Refusals.{named_text};

    ghost output = { λ named. Some (named_text named.0) };

    fn fmt<W: fmt::Write>(&self, f: &mut fmt::Formatter<W>) -> fmt::Result {
        let name = self.0.name();
        match self.0 {
            Refusal::Missing { field } | Refusal::BadValue { field } => {
                let key = field.key();
                write!(f, "{name} {key}")
            }
            Refusal::AmountTooLarge { max } => write!(f, "{name} {max}"),
            Refusal::BelowLeast { balance }
            | Refusal::NotDue { balance }
            | Refusal::BalanceTooLarge { balance }
            | Refusal::PeerRemoved { balance }
            | Refusal::OtherAsset { balance } => write!(f, "{name} {balance}"),
            Refusal::KeyTaken { kept } => write!(f, "{name} {kept}"),
            Refusal::StillOpen { number, amount } => write!(f, "{name} {number} {amount}"),
            Refusal::MissingEnd { actor }
            | Refusal::DoubleEnd { actor }
            | Refusal::Disagrees { actor } => write!(f, "{name} {actor}"),
            Refusal::BadJournalText { line } => write!(f, "{name} {line}"),
            Refusal::Unlawful { entry } | Refusal::NotFollowing { entry } => {
                write!(f, "{name} {entry}")
            }
            Refusal::HoldOpen { hold } => write!(f, "{name} {hold}"),
            _ => write!(f, "{name}"),
        }
    }
}

impl Error for Refusal {}

/// Octets that are no packet.
impl From<PacketFault> for Refusal {
    ghost use Rattle.std.specs.Prelude.{◌≡◌};
    ghost use Rattle.ilp_refusals.specs.Refusals.{packet_refusal};

    ghost from_gives = { λ fault result. result ≡ packet_refusal fault };

    fn from(fault: PacketFault) -> Refusal {
        match fault {
            PacketFault::Truncated => Refusal::Truncated,
            PacketFault::BadPrefix => Refusal::BadPrefix,
            PacketFault::TooLong => Refusal::TooLong,
            PacketFault::UnknownType => Refusal::UnknownType,
            PacketFault::Trailing => Refusal::Trailing,
            PacketFault::BadExpiry => Refusal::BadExpiry,
            PacketFault::BadAddress => Refusal::BadAddress,
            PacketFault::FieldTooLong => Refusal::FieldTooLong,
        }
    }
}

/// Octets that give no configuration.
impl From<ConfigFault> for Refusal {
    ghost use Rattle.std.specs.Prelude.{◌≡◌};
    ghost use Rattle.ilp_refusals.specs.Refusals.{config_refusal};

    ghost from_gives = { λ fault result. result ≡ config_refusal fault };

    fn from(fault: ConfigFault) -> Refusal {
        match fault {
            ConfigFault::NotToml => Refusal::NotToml,
            ConfigFault::Missing { field } => Refusal::Missing { field },
            ConfigFault::BadValue { field } => Refusal::BadValue { field },
            ConfigFault::DoubleAsset => Refusal::DoubleAsset,
            ConfigFault::NoSuchAsset => Refusal::NoSuchAsset,
            ConfigFault::ZeroPrice => Refusal::ZeroPrice,
            ConfigFault::DoublePrice => Refusal::DoublePrice,
            ConfigFault::ScaleGap => Refusal::ScaleGap,
            ConfigFault::DoublePeer => Refusal::DoublePeer,
            ConfigFault::DoubleToken => Refusal::DoubleToken,
            ConfigFault::DoubleRoute => Refusal::DoubleRoute,
            ConfigFault::BadLevels => Refusal::BadLevels,
            ConfigFault::Memory => Refusal::Memory,
        }
    }
}

/// A Prepare that is not held.
impl From<HoldFault> for Refusal {
    ghost use Rattle.std.specs.Prelude.{◌≡◌};
    ghost use Rattle.ilp_refusals.specs.Refusals.{hold_refusal};

    ghost from_gives = { λ fault result. result ≡ hold_refusal fault };

    fn from(fault: HoldFault) -> Refusal {
        match fault {
            HoldFault::AmountTooLarge { max } => Refusal::AmountTooLarge { max },
            HoldFault::NoRoute => Refusal::NoRoute,
            HoldFault::BackToSender => Refusal::BackToSender,
            HoldFault::Expired => Refusal::Expired,
            HoldFault::TooShort => Refusal::TooShort,
            HoldFault::Quote(QuoteFault::NoPrice) => Refusal::NoPrice,
            HoldFault::Quote(QuoteFault::OutTooLarge) => Refusal::OutTooLarge,
            HoldFault::Quote(QuoteFault::RoundsToNothing) => Refusal::RoundsToNothing,
            HoldFault::Full => Refusal::Full,
            HoldFault::TotalFull => Refusal::TotalFull,
            HoldFault::BelowLeast { balance } => Refusal::BelowLeast { balance },
            HoldFault::Memory => Refusal::Memory,
        }
    }
}

/// Octets that are no quantity.
impl From<QuantityFault> for Refusal {
    ghost use Rattle.std.specs.Prelude.{◌≡◌};
    ghost use Rattle.ilp_refusals.specs.Refusals.{quantity_refusal};

    ghost from_gives = { λ fault result. result ≡ quantity_refusal fault };

    fn from(fault: QuantityFault) -> Refusal {
        match fault {
            QuantityFault::NotJson => Refusal::NotJson,
            QuantityFault::BadAmount => Refusal::BadAmount,
            QuantityFault::BadScale => Refusal::BadScale,
            QuantityFault::Memory => Refusal::Memory,
        }
    }
}

/// A settlement from a peer that is not credited, or a correction that is not booked.
impl From<CreditFault> for Refusal {
    ghost use Rattle.std.specs.Prelude.{◌≡◌};
    ghost use Rattle.ilp_refusals.specs.Refusals.{credit_refusal};

    ghost from_gives = { λ fault result. result ≡ credit_refusal fault };

    fn from(fault: CreditFault) -> Refusal {
        match fault {
            CreditFault::TooLarge => Refusal::TooLarge,
            CreditFault::KeyTaken { kept } => Refusal::KeyTaken { kept },
            CreditFault::Full => Refusal::Full,
            CreditFault::BelowLeast { balance, .. } => Refusal::BelowLeast { balance },
            CreditFault::Memory => Refusal::Memory,
        }
    }
}

/// A settlement to a peer that is not asked for.
impl From<AskFault> for Refusal {
    ghost use Rattle.std.specs.Prelude.{◌≡◌};
    ghost use Rattle.ilp_refusals.specs.Refusals.{ask_refusal};

    ghost from_gives = { λ fault result. result ≡ ask_refusal fault };

    fn from(fault: AskFault) -> Refusal {
        match fault {
            AskFault::StillOpen { number, amount } => Refusal::StillOpen { number, amount },
            AskFault::NotDue { balance } => Refusal::NotDue { balance },
            AskFault::Full => Refusal::Full,
            AskFault::Memory => Refusal::Memory,
        }
    }
}

/// A journal that is not carried over.
impl From<&CarryFault> for Refusal {
    ghost use Rattle.std.specs.Prelude.{◌≡◌};
    ghost use Rattle.ilp_refusals.specs.Refusals.{carry_refusal};

    ghost from_gives = { λ fault result. result ≡ carry_refusal fault.now };

    fn from(fault: &CarryFault) -> Refusal {
        match fault {
            CarryFault::BadJournalText { line, .. } => Refusal::BadJournalText { line: *line },
            CarryFault::Unlawful { entry, .. } => Refusal::Unlawful { entry: *entry },
            CarryFault::Memory => Refusal::Memory,
        }
    }
}

/// A book that is not brought forward. Which peer it is for, the fault tells.
impl From<ForwardFault> for Refusal {
    ghost use Rattle.std.specs.Prelude.{◌≡◌};
    ghost use Rattle.ilp_refusals.specs.Refusals.{forward_refusal};

    ghost from_gives = { λ fault result. result ≡ forward_refusal fault };

    fn from(fault: ForwardFault) -> Refusal {
        match fault {
            ForwardFault::OtherRun => Refusal::OtherRun,
            ForwardFault::LastPeriod => Refusal::LastPeriod,
            ForwardFault::HoldOpen { hold } => Refusal::HoldOpen { hold },
            ForwardFault::BalanceTooLarge { balance, .. } => Refusal::BalanceTooLarge { balance },
            ForwardFault::PeerRemoved { balance, .. } => Refusal::PeerRemoved { balance },
            ForwardFault::OtherAsset { balance, .. } => Refusal::OtherAsset { balance },
            ForwardFault::BelowLeast { balance, .. } => Refusal::BelowLeast { balance },
            ForwardFault::Full => Refusal::Full,
            ForwardFault::Memory => Refusal::Memory,
        }
    }
}
