//! Whether each period of a chain follows the one before.
ghost use Rattle.std.specs.Prelude.{◌<◌, IfErr, IfOk, IfSome};
ghost use Rattle.ilp_new_period.specs.Beginning.{NamesPeers};

use crate::beginning::why_closed;
use crate::boundary::boundary_path;
use crate::kept_before::{journal_in, kept_beside};
use crate::remembered::{Between, between_of};
use ilp_accounts::Config;
use ilp_follows::{FollowFault, PeriodText, follows};
use ilp_journal_file::{JournalFile, read_text};
use ilp_journal_text::JournalText;
use ilp_refusals::Refusal;
use ilp_starting::{Refused, RunFault, configured};
use std::alloc::{AllocError, Global};
use std::fs;
use std::rt::{Files, Runtime};

/// Says of each period that lies beside a journal, and at last of the journal, that it begins with what the one before
/// has brought forward. The path is that of the journal, or of a folder in which its periods lie and those of no other.
/// Peers, assets and runs are those that were kept as each period ended; behind an older program, which kept none, those
/// of two of these configurations. No file is changed. Prints `period P follows period N` for each, in order, and of a
/// first period, behind which none lies, `period 0 follows none`.
///
/// Refusals: those of `configured`; those of the journal's files, also where a text lacks between two, or nothing says
/// its peers; those of `next_of`, but for what hangs on other fields; `NotFollowing`, with the first entry that differs.
/// The line on standard error names the two.
pub fn follows_all<R>(rt: &R, path: &str, configs: &[String]) -> Result<(), RunFault>
where
    R: Runtime + AllocGlobal + Files + Copy,
{
    let given = given_configs(rt, configs)?;
    match found_journal(rt, path)? {
        Some(found) => follows_beside(rt, found.as_str(), &given),
        None => follows_beside(rt, path, &given),
    }
}

// The configurations at these paths.
fn given_configs<R>(rt: &R, paths: &[String]) -> Result<Vec<Config>, Refused>
where
    R: Runtime + AllocGlobal,
{
    let mut configs = Vec::with_capacity(rt.alloc(), paths.len())?;
    for path in paths {
        let config = configured(rt, path.as_str())?;
        if configs.push(config).is_err() {
            return Err(Refused::from(Refusal::Memory));
        }
    }
    Ok(configs)
}

// The path of the journal in a folder, where the path is one of a folder.
fn found_journal<R>(rt: &R, path: &str) -> Result<Option<String>, Refused>
where
    R: Runtime + AllocGlobal + Files + Copy,
{
    match fs::metadata(rt, path) {
        Ok(there) if there.is_dir() => {}
        _ => return Ok(None),
    }
    match journal_in(rt, path)? {
        Some(journal) => Ok(Some(journal)),
        None => {
            let why = format!(in rt.alloc();
                "{path:?}: periods of no journal lie there, or of more than one: give the path of the journal"
            );
            Err(Refused::because(Refusal::JournalUnread, why))
        }
    }
}

fn follows_beside<R>(rt: &R, path: &str, given: &[Config]) -> Result<(), RunFault>
where
    R: Runtime + AllocGlobal + Files + Copy,
{
    let last = read_text(rt, rt.alloc(), path)?;
    let own = period_of(rt.alloc(), path, &last)?;
    let kept = kept_beside(rt, path)?;
    let first = first_of(rt.alloc(), path, &kept, own)?;
    let chain = Chain { rt, path, given };
    let Some(first) = first else {
        return print_first(rt, own);
    };
    chain.judge(first, own, last)
}

// The number of the period that the text at a path is of.
fn period_of(alloc: Global, path: &str, text: &[u8]) -> Result<u32, Refused> {
    match JournalText::begin(text) {
        Ok(text) => Ok(text.period()),
        Err(_) => {
            let why = format!(in alloc; "{path:?}: the first line is none of a journal's text");
            let refusal = Refusal::BadJournalText { line: 1 };
            Err(Refused::because(refusal, why))
        }
    }
}

// The first of the periods that are kept before that of the journal, if it is not the first of all. One that is kept of
// the journal's own period is passed over: a next one did not begin.
fn first_of(alloc: Global, path: &str, kept: &[u32], own: u32) -> Result<Option<u32>, Refused>
    ensures { IfOk result (λ found. IfSome found (λ first. first < own)) }
{
    if let Some(last) = kept.last()
        && *last > own
    {
        let why = format!(in alloc;
            "{path:?} is of the period {own}, and beside it lies the period {last}: put back the journal that was there last"
        );
        return Err(Refused::because(Refusal::JournalUnread, why));
    }
    match kept.first() {
        Some(first) if *first < own => Ok(Some(*first)),
        _ if own == 0 => Ok(None),
        _ => Ok(Some(own - 1)),
    }
}

fn print_first<R: Runtime>(rt: &R, period: u32) -> Result<(), RunFault> {
    match println!(rt; "period {period} follows none") {
        Ok(()) => Ok(()),
        Err(_) => Err(RunFault::OutputFailed),
    }
}

// The periods beside a journal, and configurations for where nothing is kept of those by which they ended.
#[derive(Clone, Copy)]
struct Chain<'c, R> {
    rt: &'c R,
    path: &'c str,
    given: &'c [Config],
}

// Two texts, one of a period and one of the next, and their paths.
#[derive(Clone, Copy)]
struct Pair<'p> {
    path: &'p str,
    text: &'p [u8],
    next_path: &'p str,
    next_text: &'p [u8],
}

impl<'c, R> Chain<'c, R>
where
    R: Runtime + AllocGlobal + Files + Copy,
{
    // Judges the periods from the first on to the journal, which is of this one and has this text.
    fn judge(&self, first: u32, own: u32, last: Vec<u8>) -> Result<(), RunFault>
        requires { first < own }
    {
        let mut text = self.kept(first)?;
        for number in first..own - 1 {
            let next = self.kept(number + 1)?;
            let next_path = self.path_of(number + 1)?;
            self.judge_next(number, &text, next_path.as_str(), &next)?;
            text = next;
        }
        self.judge_next(own - 1, &text, self.path, &last)
    }

    // The path of the text of a period.
    fn path_of(&self, period: u32) -> Result<String, AllocError> {
        let path = self.path;
        format!(in self.rt.alloc(); "{path}.{period}")
    }

    // The text that is kept of a period.
    fn kept(&self, period: u32) -> Result<Vec<u8>, Refused> {
        let path = self.path_of(period)?;
        let text = read_text(self.rt, self.rt.alloc(), path.as_str())?;
        Ok(text)
    }

    // Judges a period of this number and the one behind it, and prints that it follows.
    fn judge_next(
        &self,
        period: u32,
        text: &[u8],
        next_path: &str,
        next_text: &[u8],
    ) -> Result<(), RunFault> {
        let path = self.path_of(period)?;
        let pair = Pair {
            path: path.as_str(),
            text,
            next_path,
            next_text,
        };
        let number = match self.between(period)? {
            Some(between) => pair.judge(self.rt.alloc(), &between.ended, &between.next)?,
            None => pair.judge_by(self.rt.alloc(), self.given)?,
        };
        let before = number.saturating_sub(1);
        match println!(self.rt; "period {number} follows period {before}") {
            Ok(()) => Ok(()),
            Err(_) => Err(RunFault::OutputFailed),
        }
    }

    // What is kept of the configurations between which a period ended, where it is kept whole.
    fn between(&self, period: u32) -> Result<Option<Between>, Refused> {
        let alloc = self.rt.alloc();
        let path = boundary_path(alloc, self.path, period)?;
        let file = JournalFile::untaken(alloc, path.as_str())?;
        match file.read(self.rt, alloc)? {
            Some(octets) => Ok(between_of(alloc, &octets)?),
            None => Ok(None),
        }
    }
}

impl Pair<'_> {
    // The number of the next period, where it follows by what these configurations name.
    fn judge(&self, alloc: Global, ended: &Config, next: &Config) -> Result<u32, Refused> {
        match self.follows(alloc, ended, next) {
            Ok(number) => Ok(number),
            Err(fault) => Err(self.refused(alloc, ended, next, fault)),
        }
    }

    // The same by two of these configurations, or twice by one; else what is in the way by the first of them.
    fn judge_by(&self, alloc: Global, given: &[Config]) -> Result<u32, Refused> {
        let mut refused = None;
        for ended in given {
            match self.judge_behind(alloc, ended, given) {
                Ok(number) => return Ok(number),
                Err(why) => {
                    if refused.is_none() {
                        refused = why;
                    }
                }
            }
        }
        match refused {
            Some(refused) => Err(refused),
            None => Err(self.nothing_kept(alloc)),
        }
    }

    // The same by this one of the period that ended, and one of these of the next; else what is in the way by the first,
    // if there is one.
    fn judge_behind(
        &self,
        alloc: Global,
        ended: &Config,
        given: &[Config],
    ) -> Result<u32, Option<Refused>> {
        let mut refused = None;
        for next in given {
            match self.judge(alloc, ended, next) {
                Ok(number) => return Ok(number),
                Err(why) => {
                    if refused.is_none() {
                        refused = Some(why);
                    }
                }
            }
        }
        Err(refused)
    }

    #[tactic(auto, using(crate::proofs::NamedPeers::named_by))]
    fn follows(&self, alloc: Global, ended: &Config, next: &Config) -> Result<u32, FollowFault>
        ensures { IfErr result (NamesPeers ended.now) }
    {
        let before = PeriodText {
            config: ended,
            text: self.text,
        };
        let behind = PeriodText {
            config: next,
            text: self.next_text,
        };
        follows(alloc, before, behind)
    }

    // That nothing says who the peers of a period are.
    fn nothing_kept(&self, alloc: Global) -> Refused {
        let path = self.path;
        let why = format!(in alloc;
            "{path:?}: no whole \"{path}.remembered\" lies beside it, as behind an older program: give the configurations by which it ended and the next began"
        );
        Refused::because(Refusal::JournalUnread, why)
    }

    // Why the next one doesn't follow, with a line that names the two.
    fn refused(&self, alloc: Global, ended: &Config, next: &Config, fault: FollowFault) -> Refused
        requires { NamesPeers ended.now fault }
    {
        let (path, next_path) = (self.path, self.next_path);
        match fault {
            FollowFault::BadLine { line } => Refused::because(
                Refusal::BadJournalText { line },
                format!(in alloc;
                    "{path:?}: the line {line} is none of a journal's with the peers of its period"
                ),
            ),
            FollowFault::NamesNothing { entry } => Refused::because(
                Refusal::Unlawful { entry },
                format!(in alloc;
                    "{path:?}: the entry {entry} names no hold or settlement before it"
                ),
            ),
            FollowFault::Closing(fault) => Refused::because(
                Refusal::from(fault),
                why_closed(alloc, ended, next, fault),
            ),
            FollowFault::OtherPeriod { period } => Refused::because(
                Refusal::NotFollowing { entry: 0 },
                why_other(alloc, path, next_path, period),
            ),
            FollowFault::Differs { entry } => Refused::because(
                Refusal::NotFollowing { entry },
                format!(in alloc;
                    "{next_path:?} has another entry {entry} than what {path:?} brings forward"
                ),
            ),
            FollowFault::Memory => Refused::from(Refusal::Memory),
        }
    }
}

// Why a text of another period doesn't follow, for a person.
fn why_other(
    alloc: Global,
    path: &str,
    next_path: &str,
    period: Option<u32>,
) -> Result<String, AllocError> {
    match period {
        Some(period) => {
            format!(in alloc;
                "{next_path:?} is of the period {period}, and not of the one behind {path:?}"
            )
        }
        None => {
            format!(in alloc;
                "{next_path:?} is the text of no period, and not of the one behind {path:?}"
            )
        }
    }
}
