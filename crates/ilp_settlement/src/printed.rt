//! The printed form of a quantity.
ghost use Rattle.std.specs.Prelude.{◌≡◌, ◌≤◌, ◌<◌, ◌+◌, ◌++◌, length, drop, IsOk, OnOk, OnErr, ℕ};
ghost use Rattle.std.specs.Fmt.{decimal};
ghost use Rattle.ilp_settlement.specs.Quantity.{quantity_text};

use ilp_oer::Octets;
use std::alloc::{AllocError, Allocator};

/// Appends the JSON of so many units at a scale (RFC 0038, "Units and Quantities"):
/// `{"amount":"AMOUNT","scale":SCALE}`, with no blank and no leading zero.
///
/// It is refused only where room is missing and memory for it is denied. Then the list is as
/// before.
pub fn print<A: Allocator>(amount: u64, scale: u8, out: &mut Octets<A>) -> Result<(), AllocError>
    ensures ok { OnOk result (out.new.octets ≡ out.old.octets ++ quantity_text amount scale) }

    // Enough room is used up octet by octet; a refusal leaves all as it was.
    ensures enough { length (quantity_text amount scale) ≤ out.old.spare → IsOk result }
    ensures used { length (quantity_text amount scale) ≤ out.old.spare
        → out.new.spare + length (quantity_text amount scale) ≡ out.old.spare }
    ensures refused { OnErr result (out.old.spare < length (quantity_text amount scale)) }
    ensures err { OnErr result (out.new ≡ out.old) }
{
    let mut line = Line {
        octets: [0; 64],
        start: 64,
    };
    line.put(b"}");
    line.put_decimal(u64::from(scale));
    line.put(b"\",\"scale\":");
    line.put_decimal(amount);
    line.put(b"{\"amount\":\"");
    out.append(&line.octets[line.start..])
}

/// The most octets that the JSON of an amount has.
pub const LONGEST_QUANTITY: usize = 45;

/// Writes the JSON of an amount at a scale (RFC 0038, "Units and Quantities") in place of what `out`
/// holds, into the room that is there: it takes no memory and can't fail. It is what an engine is
/// asked to settle, and what one is told that a settlement came to.
#[tactic(auto, using(crate::proofs::LengthLemmas::quantity_fits))]
pub fn put_quantity<A: Allocator>(out: &mut Octets<A>, amount: u64, scale: u8)
    requires { LONGEST_QUANTITY ≤ length out.old.octets + out.old.spare }
    ensures octets { out.new.octets ≡ quantity_text amount scale }
    ensures room { length out.new.octets + out.new.spare
        ≡ length out.old.octets + out.old.spare }
{
    out.clear();
    let Ok(()) = print(amount, scale, out) else {
        unreachable!();
    };
}

// A short line that is written from its end to its start.
#[derive(Drop)]
struct Line {
    octets: [u8; 64],
    start: usize,
    ghost within: { start ≤ 64 },
}

impl Line {
    // Writes a text before the line.
    fn put(&mut self, text: &[u8])
        requires { length text.now ≤ self.old.start }
        ensures start { self.new.start + length text.now ≡ self.old.start }
        ensures line { drop self.new.start self.new.octets
            ≡ text.now ++ drop self.old.start self.old.octets }
    {
        let start = self.start - text.len();
        self.octets[start..self.start].copy_from_slice(text);
        self.start = start;
    }

    // Writes a number before the line.
    fn put_decimal(&mut self, number: u64)
        requires { 20 ≤ self.old.start }
        ensures start { self.old.start ≤ self.new.start + 20 }
        ensures line { drop self.new.start self.new.octets
            ≡ decimal number ++ drop self.old.start self.old.octets }
    {
        let mut rest = number;
        while rest >= 10 {
            self.put(&[b'0' + (rest % 10) as u8]);
            rest /= 10;
        }
        self.put(&[b'0' + rest as u8]);
    }
}
