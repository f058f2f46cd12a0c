//! Lines of a text, one after another.
ghost use Rattle.std.specs.Prelude.{◌≡◌, [], drop, IfSome, IfNone};
ghost use Rattle.ilp_line_file.specs.Text.{recovered, text_of, IsText};
ghost use Rattle.ilp_log_text.specs.Lines.{CutsLine};

use ilp_line_file::end_of;

/// The whole lines before the first NUL.
pub(crate) fn whole_lines(octets: &[u8]) -> &[u8]
    ensures text { IsText result.now }
    ensures lines { recovered result.now ≡ recovered octets.now }
{
    &octets[..end_of(octets)]
}

/// The first line, without its end, and what stands behind that. `None` where there is no line.
pub(crate) fn next_line(text: &[u8]) -> Option<(&[u8], &[u8])>
    requires { IsText text.now }
    ensures line { IfSome result (λ cut. CutsLine text.now cut.0.now cut.1.now) }
    ensures none { IfNone result (recovered text.now ≡ []) }
{
    let end = memchr::memchr(b'\n', text)?;
    Some((&text[..end], &text[end + 1..]))
}

/// What stands behind so many lines: nothing where there are no more.
#[tactic(auto, using(crate::proofs::Cutting::drop_next, crate::proofs::Cutting::drop_past))]
pub(crate) fn behind_lines(text: &[u8], count: u32) -> &[u8]
    requires { IsText text.now }
    ensures text { IsText result.now }
    ensures lines { recovered result.now ≡ drop count (recovered text.now) }
{
    let mut rest = text;
    for _passed in 0..count {
        match next_line(rest) {
            Some((_, behind)) => rest = behind,
            None => return rest,
        }
    }
    rest
}
