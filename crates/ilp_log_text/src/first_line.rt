//! What the first line of a log says.
ghost use Rattle.std.specs.Prelude.{◌≡◌, ◌≢◌, ◌<◌, ◌^◌, ℕ, List, IfSome, IfNone};
ghost use Rattle.std.specs.Fmt.{decimal};
ghost use Rattle.hex.specs.Hex.{encode_lower};
ghost use Rattle.ilp_journal_text.specs.Reading.{AreOctets};
ghost use Rattle.ilp_log_text.specs.Head.{first_line};
ghost use Rattle.ilp_log_text.specs.Text.{CanBegin};

use itoa::Buffer;
use std::str;

// What the first line begins with: the form of the text.
const FORM: &[u8] = b"ilp-log 1 ";

// The hexadecimal digits of a digest.
const DIGITS: usize = 64;

/// The text of a journal that a log goes on from.
#[derive(Clone, Copy)]
pub(crate) struct Origin {
    /// How many entries it has.
    pub(crate) count: u32,
    /// Its SHA-256 digest.
    pub(crate) digest: [u8; 32],
}

/// The text that a log goes on from, by its first line. `None` where it is no such line: one that
/// is spelt in another way than it would be written is none.
pub(crate) fn origin_in(line: &[u8]) -> Option<Origin>
    ensures whole { IfSome result (λ origin.
        line.now ≡ first_line origin.count origin.digest) }
    ensures begins { IfSome result (λ origin. CanBegin origin.count origin.digest) }
    ensures none { IfNone result ((count : ℕ) (digest : List ℕ) → CanBegin count digest
        → line.now ≢ first_line count digest) }
{
    let fields = line.strip_prefix(FORM)?;
    let (front, digits) = fields.split_last_chunk::<DIGITS>()?;
    let count = count_in(front.strip_suffix(b" ")?)?;
    let digest = digest_in(digits)?;
    Some(Origin { count, digest })
}

// A number of entries.
fn count_in(field: &[u8]) -> Option<u32>
    ensures whole { IfSome result (λ count. field.now ≡ decimal count) }
    ensures none { IfNone result ((count : ℕ) → count < 2 ^ 32 → field.now ≢ decimal count) }
{
    let Ok(text) = str::from_utf8(field) else {
        return None;
    };
    let Ok(count) = text.parse::<u32>() else {
        return None;
    };
    if Buffer::new().format(count).as_bytes() == field {
        Some(count)
    } else {
        None
    }
}

// A digest.
fn digest_in(digits: &[u8; 64]) -> Option<[u8; 32]>
    ensures whole { IfSome result (λ digest. digits.now ≡ encode_lower digest) }
    ensures octets { IfSome result (AreOctets 32) }
    ensures none { IfNone result ((digest : List ℕ) → AreOctets 32 digest
        → digits.now ≢ encode_lower digest) }
{
    let mut digest = [0; 32];
    if hex::decode_to_slice(digits.as_slice(), &mut digest).is_err() {
        return None;
    }
    let mut spelled = [0; DIGITS];
    if hex::encode_to_slice(digest.as_slice(), &mut spelled).is_err() {
        unreachable!();
    }
    if spelled.as_slice() == digits.as_slice() {
        Some(digest)
    } else {
        None
    }
}
