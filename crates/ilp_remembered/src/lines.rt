//! What the lines of a text say.
ghost use Rattle.std.specs.Prelude.{◌≡◌, option_map};
ghost use Rattle.ilp_remembered.specs.Remembered as remembered;

// The line with which a text begins, and that with which it ends behind another.
const FIRST_LINE: &[u8] = b"ilp-remembered 1\n";

const LAST_LINE: &[u8] = b"\nend\n";

/// Whether a text is whole, from its first line to its last.
pub(crate) fn is_whole(text: &[u8]) -> bool
    ensures { result ≡ remembered.is_whole text.now }
{
    text.starts_with(FIRST_LINE) && text.ends_with(LAST_LINE)
}

/// Whether a text has another line than this, of the first that begins with this front.
pub(crate) fn is_other(text: &[u8], front: &[u8], line: &[u8]) -> bool
    ensures { result ≡ remembered.is_other line.now (remembered.told_line text.now front.now) }
{
    match told_line(text, front) {
        Some(told) => told != line,
        None => false,
    }
}

// The first line that begins so.
fn told_line<'t>(text: &'t [u8], front: &[u8]) -> Option<&'t [u8]>
    ensures { option_map (λ line. line.now) result ≡ remembered.told_line text.now front.now }
{
    text.split(|octet| *octet == b'\n')
        .find(|line| line.starts_with(front))
}
