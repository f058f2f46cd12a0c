//! The whole text of a period, of that of its journal and of its log.
ghost use Rattle.std.specs.Prelude.{◌≡◌, ◌++◌, codes, option_map, string_bytes, IfOk, IfSome};
ghost use Rattle.std.specs.Fmt.{decimal};
ghost use Rattle.ilp_journal_text.specs.Text.{end_line};
ghost use Rattle.ilp_starting.specs.Beginning.{saved_or_none};
ghost use Rattle.ilp_starting.specs.Ended.{IsWholeText};

use crate::carrying::{NO_ENTRIES, line_count};
use ilp_io::{Sink, WriteFault, put_all};
use ilp_journal_file::Content;
use ilp_log_text::LogText;
use std::alloc::{AllocError, Global};

/// The whole text of a period: that of its journal without the last line, the lines of its log, and a last line.
#[derive(Drop)]
pub(crate) struct WholePeriod<'t> {
    front: &'t [u8],
    lines: &'t [u8],
    end: String,
    count: u64,
}

impl<'t> WholePeriod<'t> {
    /// The whole text of a period whose log goes on from this text of its journal, or from none. Nothing where the
    /// text hasn't the number of entries that the log says.
    pub(crate) fn of(
        alloc: Global,
        text: Option<&'t [u8]>,
        log: &LogText<'t>,
    ) -> Result<Option<WholePeriod<'t>>, AllocError>
        ensures whole { IfOk result (λ found. IfSome found (λ whole.
            IsWholeText (saved_or_none (option_map (λ t. t.now) text.entry)) log.now
            (whole.front.now ++ (whole.lines.now ++ string_bytes whole.end)))) }
    {
        match text {
            Some(saved) => WholePeriod::behind(alloc, saved, log),
            None => WholePeriod::behind(alloc, NO_ENTRIES, log),
        }
    }

    // The same behind a text.
    fn behind(
        alloc: Global,
        saved: &'t [u8],
        log: &LogText<'t>,
    ) -> Result<Option<WholePeriod<'t>>, AllocError>
        ensures whole { IfOk result (λ found. IfSome found (λ whole.
            IsWholeText saved.now log.now (whole.front.now ++ (whole.lines.now ++ string_bytes whole.end)))) }
    {
        let last = end_line(alloc, u64::from(log.count()))?;
        let Some(front) = saved.strip_suffix(last.as_bytes()) else {
            return Ok(None);
        };
        let lines = log.lines();
        let Some(count) = u64::from(log.count()).checked_add(line_count(lines) as u64) else {
            return Ok(None);
        };
        Ok(Some(WholePeriod {
            front,
            lines,
            end: end_line(alloc, count)?,
            count,
        }))
    }
}

// The last line of a journal of so many entries.
fn end_line(alloc: Global, count: u64) -> Result<String, AllocError>
    ensures { IfOk result (λ line. string_bytes line ≡ end_line count) }
{
    end_text(alloc, count)
}

fn end_text(alloc: Global, count: u64) -> Result<String, AllocError>
    ensures { IfOk result (λ line. string_bytes line ≡ codes "end " ++ (decimal count ++ codes "\n")) }
{
    format!(in alloc; "end {count}\n")
}

impl Content for WholePeriod<'_> {
    ghost use Rattle.std.specs.Prelude.{◌++◌, string_bytes};

    ghost text = { λ whole. whole.front.now ++ (whole.lines.now ++ string_bytes whole.end) };

    fn entries(&self) -> u32 {
        u32::try_from(self.count).unwrap_or(u32::MAX)
    }

    fn put<W: Sink>(&self, sink: &mut W) -> Result<(), WriteFault> {
        put_all(sink, self.front)?;
        put_all(sink, self.lines)?;
        put_all(sink, self.end.as_bytes())
    }
}
