//! Why octets give no configuration.
ghost use Rattle.std.specs.Prelude.{◌≡◌};
ghost use Rattle.ilp_fields.specs.declared.fault.ConfigFault.TheVariants.{Memory};
ghost use Rattle.ilp_fields.specs.FromAssets.{from_assets};
ghost use Rattle.ilp_fields.specs.Keys.{key};

use ilp_assets::AssetFault;
use std::alloc::{AllocError, AllocFailed};
use std::fmt;
use thiserror::Error;

/// The fields and arrays of a configuration.
#[derive(Clone, Copy, Debug, PartialEq, Eq)]
pub enum Field {
    Address,
    Run,
    Listen,
    EngineListen,
    Path,
    Workers,
    Journal,
    WindowMs,
    MaxHoldMs,
    SweepMs,
    SettleMs,
    Sync,
    InFlight,
    NewPeriodAt,
    /// The array of assets, and a peer's asset.
    Asset,
    Price,
    /// The array of peers, and a route's peer.
    Peer,
    Route,
    Code,
    Scale,
    From,
    To,
    P,
    Q,
    Name,
    Token,
    OutToken,
    Host,
    OutPath,
    Least,
    FeePpm,
    MaxPacket,
    Engine,
    Threshold,
    SettleTo,
    SettleMax,
    SettleAfterMs,
    Prefix,
}

impl Field {
    /// The key under which it stands.
    pub fn key(self) -> &'static str
        ensures { result.now ≡ key self }
    {
        match self {
            Field::Address => "address",
            Field::Run => "run",
            Field::Listen => "listen",
            Field::EngineListen => "engine_listen",
            Field::Path => "path",
            Field::Workers => "workers",
            Field::Journal => "journal",
            Field::WindowMs => "window_ms",
            Field::MaxHoldMs => "max_hold_ms",
            Field::SweepMs => "sweep_ms",
            Field::SettleMs => "settle_ms",
            Field::Sync => "sync",
            Field::InFlight => "in_flight",
            Field::NewPeriodAt => "new_period_at",
            Field::Asset => "asset",
            Field::Price => "price",
            Field::Peer => "peer",
            Field::Route => "route",
            Field::Code => "code",
            Field::Scale => "scale",
            Field::From => "from",
            Field::To => "to",
            Field::P => "p",
            Field::Q => "q",
            Field::Name => "name",
            Field::Token => "token",
            Field::OutToken => "out_token",
            Field::Host => "host",
            Field::OutPath => "out_path",
            Field::Least => "least",
            Field::FeePpm => "fee_ppm",
            Field::MaxPacket => "max_packet",
            Field::Engine => "engine",
            Field::Threshold => "threshold",
            Field::SettleTo => "settle_to",
            Field::SettleMax => "settle_max",
            Field::SettleAfterMs => "settle_after_ms",
            Field::Prefix => "prefix",
        }
    }
}

impl fmt::Display for Field {
    fn fmt<W: fmt::Write>(&self, f: &mut fmt::Formatter<W>) -> fmt::Result {
        f.write_str(self.key())
    }
}

/// The first fault of a configuration, or want of memory.
#[derive(Clone, Copy, Debug, PartialEq, Eq, Error)]
pub enum ConfigFault {
    /// The octets are not UTF-8, or not TOML.
    #[error("the configuration is not TOML")]
    NotToml,
    /// A field or an array that is required is absent, or the array is empty.
    #[error("`{field}` is missing")]
    Missing { field: Field },
    /// A value of another type, or outside its range.
    #[error("`{field}` has a bad value")]
    BadValue { field: Field },
    /// An asset stands twice: its code and its scale are those of another.
    #[error("an asset is given twice")]
    DoubleAsset,
    /// A price or a peer names an asset that is not given.
    #[error("an asset is named that is not given")]
    NoSuchAsset,
    /// A price has a 0 as `p` or `q`.
    #[error("a price has a 0")]
    ZeroPrice,
    /// A price is of a pair that has one already, or of an asset in itself.
    #[error("a pair of assets has a price already")]
    DoublePrice,
    /// The scales of a price's assets differ by more than 9.
    #[error("the scales of a price differ by more than 9")]
    ScaleGap,
    /// Two peers have one name.
    #[error("a peer's name is given twice")]
    DoublePeer,
    /// Two peers have one token.
    #[error("a peer's token is given twice")]
    DoubleToken,
    /// Two routes have one prefix.
    #[error("a prefix is given twice")]
    DoubleRoute,
    /// `least` is above 0, `settle_to` or `settle_max` stands without `threshold`, or not
    /// `least <= settle_to < threshold`.
    #[error("the levels of a peer are out of order")]
    BadLevels,
    /// Memory was denied.
    #[error("memory is short")]
    Memory,
}

impl From<AssetFault> for ConfigFault {
    ghost from_gives = { λ a e. e ≡ from_assets a };

    fn from(fault: AssetFault) -> ConfigFault {
        match fault {
            AssetFault::DoubleAsset => ConfigFault::DoubleAsset,
            AssetFault::NoSuchAsset => ConfigFault::NoSuchAsset,
            AssetFault::ZeroPrice => ConfigFault::ZeroPrice,
            AssetFault::DoublePrice => ConfigFault::DoublePrice,
            AssetFault::ScaleGap => ConfigFault::ScaleGap,
            AssetFault::Memory => ConfigFault::Memory,
        }
    }
}

impl From<AllocError> for ConfigFault {
    ghost from_gives = { λ _ e. e ≡ Memory };

    fn from(_e: AllocError) -> ConfigFault {
        ConfigFault::Memory
    }
}

impl<T: Drop> From<AllocFailed<T>> for ConfigFault {
    ghost from_gives = { λ _ e. e ≡ Memory };

    fn from(_e: AllocFailed<T>) -> ConfigFault {
        ConfigFault::Memory
    }
}
