//! The assets of a table, with their codes.
ghost use Rattle.std.specs.Prelude.{◌≡◌, ◌<◌, length, map, IfOk, IfSome};
ghost use Rattle.ilp_assets.specs.Assets.{plain_asset, place_of};
ghost use Rattle.ilp_assets.specs.Table.{plain_listed};

use crate::asset::Asset;
use std::alloc::{AllocError, Allocator};

/// An asset of a table.
#[derive(Drop)]
pub(crate) struct Listed<A: Allocator> {
    code: String<A>,
    pub(crate) scale: u8,
}

impl<A: Allocator> Listed<A> {
    /// The asset with a code of its own. `AllocError` tells that memory is short.
    pub(crate) fn of(alloc: A, asset: Asset<'_>) -> Result<Listed<A>, AllocError>
        ensures { IfOk result (λ listed. plain_listed listed ≡ plain_asset asset.entry) }
    {
        Ok(Listed {
            code: String::from_str(alloc, asset.code)?,
            scale: asset.scale,
        })
    }

    /// The asset as it is told to callers.
    pub(crate) fn asset(&self) -> Asset<'_>
        ensures { plain_asset result ≡ plain_listed self.now }
    {
        Asset {
            code: self.code.as_str(),
            scale: self.scale,
        }
    }
}

/// The place of an asset in a list.
pub(crate) fn place_of<A: Allocator>(assets: &[Listed<A>], wanted: Asset<'_>) -> Option<usize>
    ensures place { result ≡ place_of (map plain_listed assets.now) (plain_asset wanted.entry) }
    ensures within { IfSome result (λ place. place < length assets.now) }
{
    for (place, listed) in assets.iter().enumerate() {
        if wanted.is(listed.asset()) {
            return Some(place);
        }
    }
    None
}

/// Copies of assets, each with its code.
pub(crate) fn copies_of<A: Allocator + Copy>(
    alloc: A,
    assets: &[Asset<'_>],
) -> Result<Vec<Listed<A>, A>, AllocError>
    ensures { IfOk result (λ v. map plain_listed v.items ≡ map plain_asset assets.now) }
{
    let mut copies = Vec::with_capacity(alloc, assets.len())?;
    for asset in assets {
        copies.push(Listed::of(alloc, *asset)?)?;
    }
    Ok(copies)
}

/// A list of equal assets, in memory of its own.
pub(crate) fn clones_of<A: Allocator + Copy>(
    alloc: A,
    assets: &[Listed<A>],
) -> Result<Vec<Listed<A>, A>, AllocError>
    ensures { IfOk result (λ v. map plain_listed v.items ≡ map plain_listed assets.now) }
{
    let mut clones = Vec::with_capacity(alloc, assets.len())?;
    for listed in assets {
        clones.push(Listed::of(alloc, listed.asset())?)?;
    }
    Ok(clones)
}
