//! Whose account a statement is of.
ghost use Rattle.std.specs.Prelude.{◌<◌, length};

use crate::amount::Amount;
use ilp_assets::Asset;
use ilp_book::Book;
use std::fmt;
use std::fmt::Display;

/// Whose account a statement is of.
#[derive(Clone, Copy, Debug)]
pub(crate) struct Account<'b> {
    pub(crate) run: &'b str,
    pub(crate) period: u32,
    pub(crate) peer: &'b str,
    pub(crate) asset: AssetName<'b>,
}

impl<'b> Account<'b> {
    /// The account of a peer in a book.
    pub(crate) fn of(book: &'b Book, peer: u32) -> Account<'b>
        requires { peer < length book.now.config.peers }
    {
        let config = book.config();
        // In a valid configuration there is one.
        let asset = config
            .assets()
            .asset(config.asset(peer))
            .unwrap_or(Asset { code: "", scale: 0 });
        Account {
            run: config.run(),
            period: book.period(),
            peer: config.name(peer),
            asset: AssetName {
                code: asset.code,
                scale: asset.scale,
            },
        }
    }
}

impl Account<'_> {
    /// So many units of its asset.
    pub(crate) fn amount(self, units: i128) -> Amount {
        Amount {
            units,
            scale: self.asset.scale,
        }
    }

    /// So many units, where that is not 0.
    pub(crate) fn amount_above_0(self, units: u64) -> Option<Amount> {
        if units == 0 {
            return None;
        }
        Some(self.amount(i128::from(units)))
    }
}

/// An asset, printed as `CODE/SCALE`.
#[derive(Clone, Copy, Debug)]
pub(crate) struct AssetName<'b> {
    code: &'b str,
    scale: u8,
}

impl Display for AssetName<'_> {
    fn fmt<W: fmt::Write>(&self, f: &mut fmt::Formatter<W>) -> fmt::Result {
        write!(f, "{}/{}", self.code, self.scale)
    }
}
