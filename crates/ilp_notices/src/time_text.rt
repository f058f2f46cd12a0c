//! The text of a moment.
ghost use Rattle.ilp_terms.specs.Expiry.{IsMoment};
ghost use Rattle.ilp_notices.specs.TimeText.{IsTimeText};

use ilp_terms::expiry_write;

/// A moment by RFC 3339 in UTC, with milliseconds: `YYYY-MM-DDTHH:MM:SS.mmmZ`. It is in milliseconds
/// since 1970, of the years 0000 to 9999.
pub(crate) fn time_text(moment: i64) -> [u8; 24]
    requires { IsMoment moment }
    ensures { IsTimeText moment result }
{
    let d = expiry_write(moment);
    [
        d[0], d[1], d[2], d[3], b'-', d[4], d[5], b'-', d[6], d[7], b'T', d[8], d[9], b':', d[10],
        d[11], b':', d[12], d[13], b'.', d[14], d[15], d[16], b'Z',
    ]
}
