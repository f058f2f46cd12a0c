//! Assets that are named by a text `CODE/SCALE`.
ghost use Rattle.std.specs.Prelude.{◌≡◌, option_map, length};
ghost use Rattle.std.specs.List.{before_first, after_first, list_all};
ghost use Rattle.ilp_assets.specs.Assets.{plain_asset};
ghost use Rattle.ilp_fields.specs.Forms.{is_digit};
ghost use Rattle.ilp_fields.specs.Named.{asset_named, asset_from, scale_named, is_plain_number};

use crate::form::Form;
use ilp_assets::Asset;

/// The asset that a text names.
pub(crate) fn asset_named(text: &str) -> Option<Asset<'_>>
    ensures { option_map plain_asset result ≡ asset_named text.now }
{
    let (code, digits) = text.split_once('/')?;
    asset_from(code, digits)
}

// The asset of a code and the digits of a scale.
fn asset_from<'a>(code: &'a str, digits: &str) -> Option<Asset<'a>>
    ensures { option_map plain_asset result ≡ asset_from code.now digits.now }
{
    if !Form::Code.admits(code) {
        return None;
    }
    let scale = scale_named(digits)?;
    Some(Asset { code, scale })
}

// The scale that digits tell.
fn scale_named(digits: &str) -> Option<u8>
    ensures { result ≡ scale_named digits.now }
{
    if !is_plain_number(digits.as_bytes()) {
        return None;
    }
    match digits.parse::<u8>() {
        Ok(scale) => Some(scale),
        Err(_) => None,
    }
}

// Whether octets are digits, of which the first of several is not 0.
fn is_plain_number(octets: &[u8]) -> bool
    ensures { result ≡ is_plain_number octets.now }
{
    !octets.is_empty() && are_digits(octets) && (octets.len() == 1 || octets[0] != b'0')
}

fn are_digits(octets: &[u8]) -> bool
    ensures { result ≡ list_all is_digit octets.now }
{
    octets.iter().all(|octet| octet.is_ascii_digit())
}
