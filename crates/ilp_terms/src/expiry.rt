//! An expiry (RFC 0027, `expiresAt`): the digits `YYYYMMDDHHMMSSmmm` of a moment in UTC.
ghost use Rattle.std.specs.Prelude.{◌≡◌, ◌↔◌, ℕ, ◌<◌, ◌≤◌, ◌+◌, ◌*◌, ℤ, List, slice_index, IsTrue, SomeIff, IfSome};
ghost use Rattle.std.specs.Int.{IsInRange};
ghost use Rattle.ilp_terms.specs.Expiry as expiry;
ghost use Rattle.ilp_terms.specs.Expiry.{AreDigits, IsExpiry, IsMoment, moment_of};

use crate::calendar;

/// The last millisecond of the year 9999, which is the last moment that an expiry names; in
/// milliseconds since 1970-01-01T00:00:00Z.
pub const LAST_OF_ALL: i64 = 253_402_300_799_999;

// The milliseconds of a day.
const DAY: i64 = 86_400_000;

/// The moment that an expiry's digits name, in milliseconds since 1970-01-01T00:00:00Z.
///
/// None where they are no expiry: where an octet is no decimal digit, the Gregorian calendar has no
/// such date, the hour is above 23, or the minute or the second above 59. The years are 0000 to
/// 9999, and there is no leap second.
pub fn expiry_read(text: &[u8; 17]) -> Option<i64>
    ensures value { SomeIff result (IsExpiry text.now) (moment_of text.now) }
    ensures bound { IfSome result IsMoment }
{
    if !is_all_digits(text) {
        return None;
    }
    let hour = two_digits(text, 8);
    let minute = two_digits(text, 10);
    let second = two_digits(text, 12);
    if hour > 23 || minute > 59 || second > 59 {
        return None;
    }
    let year = two_digits(text, 0) * 100 + two_digits(text, 2);
    let day = calendar::day_number(year, two_digits(text, 4), two_digits(text, 6))?;
    let millisecond = u32::from(text[14] - b'0') * 100 + two_digits(text, 15);
    let time = ((hour * 60 + minute) * 60 + second) * 1000 + millisecond;
    Some(i64::from(day) * DAY + i64::from(time))
}

// Whether each octet is a decimal digit. It looks at every octet, since a loop that never ends early
// becomes vector code.
fn is_all_digits(text: &[u8; 17]) -> bool
    ensures { IsTrue result ↔ AreDigits text.now }
{
    let mut passed = true;
    for octet in text {
        passed &= octet.is_ascii_digit();
    }
    passed
}

// The number of the two digits at a place.
fn two_digits(text: &[u8; 17], place: usize) -> u32
    requires within { place + 1 < 17 }
    requires tens { IsInRange 48 57 (slice_index text.now place) }
    requires ones { IsInRange 48 57 (slice_index text.now (place + 1)) }
    ensures value { result ≡ expiry.two_digits text.now place }
    ensures bound { result ≤ 99 }
{
    u32::from(text[place] - b'0') * 10 + u32::from(text[place + 1] - b'0')
}

/// The digits of the one expiry that names a moment, in milliseconds since 1970-01-01T00:00:00Z.
///
/// The moment lies in the years 0000 to 9999: from -62,167,219,200,000 to 253,402,300,799,999.
pub fn expiry_write(moment: i64) -> [u8; 17]
    requires { IsMoment moment }
    ensures expiry { IsExpiry result }
    ensures value { moment_of result ≡ moment }
    ensures only { (text : List ℕ) → IsExpiry text → moment_of text ≡ moment → text ≡ result }
{
    let date = calendar::date_with_number(moment.div_euclid(DAY));
    let time = moment.rem_euclid(DAY) as u32;
    let second = time / 1000;
    let millisecond = time % 1000;
    let [y0, y1] = pair((date.year / 100) as u8);
    let [y2, y3] = pair((date.year % 100) as u8);
    let [m0, m1] = pair(date.month);
    let [d0, d1] = pair(date.day);
    let [h0, h1] = pair((second / 3600) as u8);
    let [n0, n1] = pair((second / 60 % 60) as u8);
    let [s0, s1] = pair((second % 60) as u8);
    let t0 = b'0' + (millisecond / 100) as u8;
    let [t1, t2] = pair((millisecond % 100) as u8);
    [
        y0, y1, y2, y3, m0, m1, d0, d1, h0, h1, n0, n1, s0, s1, t0, t1, t2,
    ]
}

// The two digits of a number.
fn pair(number: u8) -> [u8; 2]
    requires { number < 100 }
    ensures value { expiry.two_digits result 0 ≡ number }
    ensures tens { IsInRange 48 57 (slice_index result 0) }
    ensures ones { IsInRange 48 57 (slice_index result 1) }
{
    [b'0' + number / 10, b'0' + number % 10]
}
