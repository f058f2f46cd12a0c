//! Whether assets are given once each.
ghost use Rattle.std.specs.Prelude.{◌≡◌, map};
ghost use Rattle.ilp_assets.specs.Assets.{plain_asset};
ghost use Rattle.ilp_assets.specs.Faults.{is_among, fault_of_assets};

use crate::asset::Asset;
use crate::fault::AssetFault;

/// The first fault of assets alone.
pub(crate) fn fault_of_assets(assets: &[Asset<'_>]) -> Option<AssetFault>
    ensures { result ≡ fault_of_assets (map plain_asset assets.now) }
{
    for (place, asset) in assets.iter().enumerate() {
        if is_among(&assets[..place], *asset) {
            return Some(AssetFault::DoubleAsset);
        }
    }
    None
}

// Whether an asset is among these.
fn is_among(assets: &[Asset<'_>], wanted: Asset<'_>) -> bool
    ensures { result ≡ is_among (map plain_asset assets.now) (plain_asset wanted.entry) }
{
    for asset in assets {
        if wanted.is(*asset) {
            return true;
        }
    }
    false
}
