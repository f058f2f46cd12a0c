//! Assets and prices, as they are given.
ghost use Rattle.std.specs.Prelude.{◌≡◌};
ghost use Rattle.ilp_assets.specs.Assets.{plain_asset, is_asset};

/// An asset: a code together with a scale. So USD at scale 2 and USD at scale 9 are two assets.
#[derive(Clone, Copy, Debug)]
pub struct Asset<'a> {
    /// Its name. Which names there may be is checked by whoever reads a configuration.
    pub code: &'a str,
    /// An amount of 1 is 10 to the power of minus this, so 5 at scale 2 is 0.05.
    pub scale: u8,
}

impl Asset<'_> {
    /// Whether both are the same asset: code and scale are equal.
    pub fn is(self, other: Asset<'_>) -> bool
        ensures { result ≡ is_asset (plain_asset self.entry) (plain_asset other.entry) }
    {
        self.code == other.code && self.scale == other.scale
    }
}

/// The price of an asset in another: 1 of `from` costs `p / q` of `to`. It holds in this direction
/// alone.
#[derive(Clone, Copy, Debug)]
pub struct Price<'a> {
    pub from: Asset<'a>,
    pub to: Asset<'a>,
    /// The numerator, from 1.
    pub p: u32,
    /// The denominator, from 1.
    pub q: u32,
}
