//! The lines of a script.
ghost use Rattle.std.specs.Prelude.{◌≡◌, ◌<◌, ◌∷◌, length, IfSome, IfNone};
ghost use Rattle.ilp_offline.specs.Script.{lines_of, StandsFirst, HasNoneBelow};

/// The first line of a text, and the text after it.
pub(crate) fn split_line(text: &[u8]) -> (&[u8], &[u8])
    requires { 0 < length text.now }
    ensures lines { lines_of text.now ≡ result.0.now ∷ lines_of result.1.now }
    ensures shorter { length result.1.now < length text.now }
{
    match first_place(text, b'\n') {
        Some(end) => (&text[..end], &text[end + 1..]),
        None => (text, &[]),
    }
}

/// The place of the first octet that is the wanted one.
pub(crate) fn first_place(text: &[u8], wanted: u8) -> Option<usize>
    ensures found { IfSome result (StandsFirst wanted text.now) }
    ensures none { IfNone result (HasNoneBelow wanted text.now (length text.now)) }
{
    text.iter().position(|octet| *octet == wanted)
}
