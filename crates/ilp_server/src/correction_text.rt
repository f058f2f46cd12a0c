//! What a correction is answered, as JSON.
ghost use Rattle.std.specs.Prelude.{◌≡◌, ◌≤◌, ◌+◌, [], ◌++◌, length, codes};
ghost use Rattle.std.specs.Fmt.{decimal, signed_decimal};
ghost use Rattle.ilp_server.specs.Corrections.{change_text, least_text};

use ilp_oer::Octets;
use itoa::Buffer;

/// Room for the longest answer, in octets.
pub(crate) const ANSWER_ROOM: usize = 160;

// The most octets of a number.
const LONGEST_NUMBER: usize = 40;

// The most octets of the member that both answers end with.
const LONGEST_SCALE: usize = 51;

/// Writes what a balance was moved by, in units of this scale, where nothing stands. It takes no memory
/// and can't fail.
pub(crate) fn put_change(text: &mut Octets, change: i128, scale: u8)
    requires empty { text.old.octets ≡ [] }
    requires room { ANSWER_ROOM ≤ text.old.spare }
    ensures { text.new.octets ≡ change_text change scale }
{
    put_number(text, b"{\"amount\":\"", change);
    put_scale(text, scale);
}

/// Writes a balance and the least that it may be, in units of this scale, where nothing stands. It takes
/// no memory and can't fail.
pub(crate) fn put_least(text: &mut Octets, balance: i128, least: i64, scale: u8)
    requires empty { text.old.octets ≡ [] }
    requires room { ANSWER_ROOM ≤ text.old.spare }
    ensures { text.new.octets ≡ least_text balance least scale }
{
    put_number(text, b"{\"balance\":\"", balance);
    put_number(text, b"\",\"least\":\"", i128::from(least));
    put_scale(text, scale);
}

// Adds a number behind what stands before it.
fn put_number(text: &mut Octets, before: &[u8], number: i128)
    requires { length before.now + LONGEST_NUMBER ≤ text.old.spare }
    ensures text { text.new.octets ≡ text.old.octets ++ (before.now ++ signed_decimal number) }
    ensures room { text.old.spare ≤ text.new.spare + (length before.now + LONGEST_NUMBER) }
{
    let mut digits = Buffer::new();
    text.append_reserved(before);
    text.append_reserved(digits.format(number).as_bytes());
}

// Adds the scale, and the end.
fn put_scale(text: &mut Octets, scale: u8)
    requires { LONGEST_SCALE ≤ text.old.spare }
    ensures { text.new.octets
        ≡ text.old.octets ++ (codes "\",\"scale\":" ++ (decimal scale ++ codes "}")) }
{
    let mut digits = Buffer::new();
    text.append_reserved(b"\",\"scale\":");
    text.append_reserved(digits.format(scale).as_bytes());
    text.append_reserved(b"}");
}
