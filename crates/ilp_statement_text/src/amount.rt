//! Amounts as people read them.

use std::fmt;
use std::fmt::Display;

/// An amount of so many units, printed with as many decimals as its asset's scale says: 1250 at the scale 2 is
/// `12.50`.
#[derive(Clone, Copy, Debug, PartialEq, Eq)]
pub struct Amount {
    pub units: i128,
    pub scale: u8,
}

impl Display for Amount {
    fn fmt<W: fmt::Write>(&self, f: &mut fmt::Formatter<W>) -> fmt::Result {
        if self.units < 0 {
            f.write_str("-")?;
        }
        let units = self.units.unsigned_abs();
        let places = usize::from(self.scale);
        match 10u128.checked_pow(u32::from(self.scale)) {
            Some(1) => write!(f, "{units}"),
            Some(unit) if unit > 0 => {
                let whole = units / unit;
                let decimals = units % unit;
                write!(f, "{whole}.{decimals:0places$}")
            }
            // There are more decimals than a number has digits.
            _ => write!(f, "0.{units:0places$}"),
        }
    }
}
