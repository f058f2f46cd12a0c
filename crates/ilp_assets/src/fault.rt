//! Why assets and prices give no table.
ghost use Rattle.std.specs.Prelude.{◌≡◌};
ghost use Rattle.ilp_assets.specs.declared.fault.AssetFault.TheVariants.{Memory};

use std::alloc::{AllocError, AllocFailed};
use std::error::Error;
use std::fmt;

/// The first fault of assets and prices, or want of memory.
#[derive(Clone, Copy, Debug, PartialEq, Eq)]
pub enum AssetFault {
    /// An asset is given twice.
    DoubleAsset,
    /// A price is from or to an asset that is not given.
    NoSuchAsset,
    /// A price has a 0 as p or q.
    ZeroPrice,
    /// A price is of a pair that has one already, or of an asset in itself.
    DoublePrice,
    /// The scales of a price's assets differ by more than 9.
    ScaleGap,
    /// Memory was denied.
    Memory,
}

impl fmt::Display for AssetFault {
    fn fmt<W: fmt::Write>(&self, f: &mut fmt::Formatter<W>) -> fmt::Result {
        match self {
            AssetFault::DoubleAsset => write!(f, "an asset is given twice"),
            AssetFault::NoSuchAsset => write!(f, "a price names an asset that is not given"),
            AssetFault::ZeroPrice => write!(f, "a price has a 0"),
            AssetFault::DoublePrice => write!(f, "a pair of assets has a price already"),
            AssetFault::ScaleGap => write!(f, "the scales of a price differ by more than 9"),
            AssetFault::Memory => write!(f, "memory is short"),
        }
    }
}

impl Error for AssetFault {}

impl From<AllocError> for AssetFault {
    ghost from_gives = { λ _ e. e ≡ Memory };

    fn from(_e: AllocError) -> AssetFault {
        AssetFault::Memory
    }
}

impl<T: Drop> From<AllocFailed<T>> for AssetFault {
    ghost from_gives = { λ _ e. e ≡ Memory };

    fn from(_e: AllocFailed<T>) -> AssetFault {
        AssetFault::Memory
    }
}
