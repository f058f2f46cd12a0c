//! Dates of the years 0 to 9999, over `jiff_core`.
ghost use Rattle.std.specs.Prelude.{◌≡◌, ◌≤◌, ◌↔◌, IsTrue, SomeIff, IfSome};
ghost use Rattle.jiff_core.specs.Calendar.{days_in_month};
ghost use Rattle.ilp_terms.specs.Calendar as calendar;
ghost use Rattle.ilp_terms.specs.Calendar.{IsDate, IsDayNumber};

use jiff_core::civil::{self, Date};

/// A date of the Gregorian calendar, of the years 0 to 9999.
#[derive(Clone, Copy)]
pub(crate) struct CalendarDate {
    pub(crate) year: u16,
    pub(crate) month: u8,
    pub(crate) day: u8,
}

/// The number of days from 1970-01-01 to a date, or None where the calendar has no such date.
pub(crate) fn day_number(year: u32, month: u32, day: u32) -> Option<i32>
    requires year_in { year ≤ 9999 }
    requires month_in { month ≤ 99 }
    requires day_in { day ≤ 99 }
    ensures value { SomeIff result (IsDate year month day) (calendar.day_number year month day) }
    ensures bound { IfSome result IsDayNumber }
{
    let (year, month, day) = (year as i16, month as u8, day as u8);
    if month < 1 || month > 12 || day < 1 || !month_has(year, month, day) {
        return None;
    }
    Some(Date { year, month, day }.to_unix_epoch_day())
}

// Whether the month is as long. How long it is must be known for its last days alone.
fn month_has(year: i16, month: u8, day: u8) -> bool
    ensures { IsTrue result ↔ (day ≤ days_in_month year month) }
{
    day <= 28 || day <= civil::days_in_month(year, month)
}

/// The date so many days after 1970-01-01.
pub(crate) fn date_with_number(number: i64) -> CalendarDate
    requires { IsDayNumber number }
    ensures date { IsDate result.year result.month result.day }
    ensures number { calendar.day_number result.year result.month result.day ≡ number }
{
    let date = Date::from_unix_epoch_day(number).unwrap();
    CalendarDate {
        year: date.year as u16,
        month: date.month,
        day: date.day,
    }
}
