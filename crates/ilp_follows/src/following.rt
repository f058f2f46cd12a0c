//! Whether the text of one period follows that of the one before.
ghost use Rattle.std.specs.Prelude.{◌≡◌, IfOk, IfErr, IfSome, IfNone};
ghost use Rattle.ilp_journal_text.specs.Reading.{LacksFirstLine};
ghost use Rattle.ilp_follows.specs.Follows.{BeginWith, IsFollowedBy, IsOfPeriod, IsWhyNotFollowed, lines_behind};

use crate::beginning::first_difference;
use crate::ended::EndedPeriod;
use crate::fault::FollowFault;
use crate::lines::lines_of;
use crate::reading::read_period;
use ilp_accounts::Config;
use ilp_journal::Entry;
use ilp_journal_text::JournalText;
use std::alloc::Global;

/// The text of a period, and a configuration that names its peers and their assets. Of that no more is looked at but its
/// run.
#[derive(Clone, Copy)]
pub struct PeriodText<'t> {
    pub config: &'t Config,
    pub text: &'t [u8],
}

/// Whether the next text begins with just what the period before it brings forward, balances in any order: the number of
/// its period. Of the next text the head alone is looked at.
///
/// It is refused where the text before is none with these peers, its books can't be brought forward to the next ones, or
/// the next text begins otherwise, with the first entry that shows it; and where memory is short.
pub fn follows(
    alloc: Global,
    ended: PeriodText<'_>,
    next: PeriodText<'_>,
) -> Result<u32, FollowFault>
    ensures follows { IfOk result
        (IsFollowedBy ended.entry.config.now ended.entry.text.now next.entry.config.now next.entry.text.now) }
    ensures refused { IfErr result
        (IsWhyNotFollowed ended.entry.config.now ended.entry.text.now next.entry.config.now next.entry.text.now) }
{
    // They tell that both configurations are valid.
    let _ = ended.config.peers();
    let _ = next.config.peers();
    let read = read_period(alloc, ended.config, ended.text)?;
    let period = EndedPeriod {
        config: ended.config,
        number: read.number,
        journal: &read.journal,
    };
    period.judge_next(next.config)?;
    let head = period.head(alloc, next.config)?;
    let number = read.number + 1;
    let found = period_of(next.text);
    if found != Some(number) {
        return Err(FollowFault::OtherPeriod { period: found });
    }
    match difference(alloc, next, &head)? {
        None => Ok(number),
        Some(entry) => Err(FollowFault::Differs { entry }),
    }
}

// The number of the period that a text is of, if it is of one.
fn period_of(text: &[u8]) -> Option<u32>
    ensures some { IfSome result (λ period. IsOfPeriod period text.now) }
    ensures none { IfNone result (LacksFirstLine text.now) }
{
    match JournalText::begin(text) {
        Ok(text) => Some(text.period()),
        Err(_) => None,
    }
}

// The number of the first entry of this head that a text tells otherwise.
fn difference(
    alloc: Global,
    next: PeriodText<'_>,
    head: &[Entry],
) -> Result<Option<u32>, FollowFault>
    ensures same { IfOk result (λ found. IfNone found
        (BeginWith next.entry.config.now head.now (lines_behind next.entry.text.now))) }
    ensures other { IfOk result (λ found. IfSome found
        (λ n. ¬ (BeginWith next.entry.config.now head.now (lines_behind next.entry.text.now)))) }
    ensures denied { IfErr result (λ fault. fault ≡ FollowFault.Memory) }
{
    let lines = lines_of(alloc, next.text)?;
    let behind = lines.get(1..).unwrap_or(&[]);
    match first_difference(next.config, head, behind) {
        Some(number) => Ok(Some(u32::try_from(number).unwrap_or(u32::MAX))),
        None => Ok(None),
    }
}
