//! A connector from its first period on.
ghost use Rattle.std.specs.Prelude.{◌≡◌, Some, None, Option, IfOk, IfErr, IfSome, IsSome};
ghost use Rattle.ilp_accounts.specs.Configuration.{Configuration};
ghost use Rattle.ilp_running.specs.Serving.{desk_of_book, IsClosed, IsOfNoDesk, IsWhyUnclosed};
ghost use Rattle.ilp_serve.specs.Following.{Follows, FollowsAs};
ghost use Rattle.ilp_serve.specs.Periods.{ComesTo, EndsBy};

use crate::config_path::{ConnectorFiles, ReadsConfigs};
use crate::followed::{Change, Followed, FollowedBy, NextPeriod};
use crate::journal_periods::JournalPeriods;
use crate::keeping::KeepsPeriods;
use crate::memory_periods::follow_unkept;
use crate::reading::ConfigAsker;
use crate::telling::tell_asker;
use ilp_accounts::Config;
use ilp_book::Book;
use ilp_journal_file::{JournalWatch, LogDevice, PlacesFiles};
use ilp_line_file::Device;
use ilp_links::{SystemClock, TcpLinks};
use ilp_notices::Notices;
use ilp_running::{
    Asker, BegunPeriod, ClosedRun, NextConfig, RunPeriod, ServeFault, Sides, SidesRoom, Unprinted,
    open_sides, run_begun,
};
use ilp_starting::Host;
use std::alloc::{AllocError, Global};
use std::fs::File;
use std::net::{Net, TcpListener, TcpStream};
use std::rt::{Files, Runtime};

/// The periods of a connector: on what it runs, and where its books are kept, if they are.
#[derive(Clone, Copy)]
pub(crate) struct Periods<'r, 'f, R> {
    pub(crate) rt: &'r R,
    /// Where the configuration is read again, and by what.
    pub(crate) config_path: &'r str,
    pub(crate) configs: Option<&'f ConfigAsker>,
    pub(crate) kept: Option<JournalPeriods<'r, 'f, R>>,
}

impl<'r, R> Periods<'r, '_, R>
where
    R: Host
        + Files<File = File>
        + PlacesFiles<File = File>
        + ReadsConfigs
        + KeepsPeriods
        + Net<Listener = TcpListener, Stream = TcpStream>,
{
    /// Runs a connector from its first period on, and from each to the next, until it is asked to close. The
    /// book of the last one is given back: each was closed as `ilp_running::run_begun` closes one, and each
    /// next one began with a book that follows the one before. Where books are kept a period ends by itself
    /// too.
    ///
    /// A refusal gives nothing back. It is of the last period, or `NextRefused` where none could be begun.
    pub(crate) fn run(&self, first: BegunPeriod<LogDevice<'r, R, File>>) -> Result<Book, ServeFault>
        requires logged { IsSome self.now.kept → IsSome first.log }
        ensures closed { IfOk result (ComesTo first.entry.book) }
        ensures refused { IfErr result (EndsBy first.entry.book) }
    {
        let rt = self.rt;
        let mut sides = open_sides(rt, first.book.config(), self.kept.is_some())?;
        let mut next = NextPeriod {
            period: first,
            unkept: None,
        };
        for _ in rt.forever() {
            let RunPeriod { run, sides: left } = self.run_one(next, sides)?;
            let Some(left) = left else {
                return Ok(book_of(run));
            };
            sides = left;
            next = self.go_on(run, &mut sides)?;
        }
        unreachable!()
    }

    // Runs it for a period.
    fn run_one(
        &self,
        next: NextPeriod<LogDevice<'r, R, File>>,
        sides: Sides,
    ) -> Result<RunPeriod<LogDevice<'r, R, File>>, ServeFault>
        ensures closed { IfOk result (λ period. IsClosed (desk_of_book next.entry.period.book) period.run.book) }
        ensures refused { IfErr result (IsWhyUnclosed (desk_of_book next.entry.period.book)) }
    {
        let rt = self.rt;
        let NextPeriod {
            period: begun,
            unkept,
        } = next;
        let Ok(links) = links_of(rt, begun.book.config()) else {
            return Err(ServeFault::Unprinted(Unprinted::Memory));
        };
        let Ok(on_disk) = self.on_disk(begun.book.config().allocator()) else {
            return Err(ServeFault::Unprinted(Unprinted::Memory));
        };
        match &self.kept {
            Some(kept) => kept.run(begun, unkept, &links, on_disk, sides),
            None => run_begun(rt, begun, &links, on_disk, sides),
        }
    }

    // What its watcher looks at on the disk.
    fn on_disk(&self, alloc: Global) -> Result<ConnectorFiles<'r, R>, AllocError> {
        let configs = match self.configs {
            Some(configs) => Some(configs.try_clone()?),
            None => None,
        };
        Ok(ConnectorFiles {
            rt: *self.rt,
            config_path: self.config_path,
            configs,
            journal: self.watch(alloc)?,
        })
    }

    fn watch(&self, alloc: Global) -> Result<Option<JournalWatch>, AllocError> {
        match &self.kept {
            Some(kept) => Ok(Some(kept.file.watch(alloc)?)),
            None => Ok(None),
        }
    }

    // Keeps the books of a period that has ended, and begins the next, for which connections wait at the
    // sides.
    fn go_on(
        &self,
        ended: ClosedRun<LogDevice<'r, R, File>>,
        sides: &mut Sides,
    ) -> Result<NextPeriod<LogDevice<'r, R, File>>, ServeFault>
        ensures follows { IfOk result (λ next. (asked : Option Configuration)
            × Follows ended.entry.book asked next.period.book) }
        ensures unkept { IfOk result (λ next. IfSome next.unkept (λ book. book ≡ ended.entry.book)) }
        ensures refused { IfErr result IsOfNoDesk }
    {
        let rt = self.rt;
        let Some(NextConfig { config, asker }) = sides.take_next(rt) else {
            return self.go_on_by_own(ended, sides);
        };
        match sides.room_for(&config) {
            Ok(room) => self.go_on_by(ended, config, room, asker, sides),
            Err(_) => {
                tell_asker(rt, sides, asker, Change::None, &None);
                self.go_on_by_own(ended, sides)
            }
        }
    }

    // The same by the configuration in force.
    fn go_on_by_own(
        &self,
        ended: ClosedRun<LogDevice<'r, R, File>>,
        sides: &mut Sides,
    ) -> Result<NextPeriod<LogDevice<'r, R, File>>, ServeFault>
        ensures follows { IfOk result (λ next. Follows ended.entry.book None next.period.book) }
        ensures unkept { IfOk result (λ next. IfSome next.unkept (λ book. book ≡ ended.entry.book)) }
        ensures refused { IfErr result IsOfNoDesk }
    {
        let Followed {
            period,
            unkept,
            change,
            ..
        } = self.follow(ended, None)?;
        if change == Change::None {
            sides.go_on_for_now(self.rt);
        }
        Ok(NextPeriod { period, unkept })
    }

    // The same by another configuration, for which the sides have room. Who asked for it is told what became
    // of that.
    fn go_on_by(
        &self,
        ended: ClosedRun<LogDevice<'r, R, File>>,
        config: Config,
        room: SidesRoom,
        asker: Asker,
        sides: &mut Sides,
    ) -> Result<NextPeriod<LogDevice<'r, R, File>>, ServeFault>
        ensures follows { IfOk result (λ next. Follows ended.entry.book (Some config) next.period.book) }
        ensures unkept { IfOk result (λ next. IfSome next.unkept (λ book. book ≡ ended.entry.book)) }
        ensures refused { IfErr result IsOfNoDesk }
    {
        let Followed {
            period,
            unkept,
            change,
            told,
        } = self.follow(ended, Some(config))?;
        if change == Change::NewPeriod {
            sides.take_over(room);
        } else {
            sides.go_on_for_now(self.rt);
        }
        tell_asker(self.rt, sides, asker, change, &told);
        Ok(NextPeriod { period, unkept })
    }

    // What comes behind a period: by another configuration where one is given, else by the same.
    fn follow(
        &self,
        ended: ClosedRun<LogDevice<'r, R, File>>,
        next: Option<Config>,
    ) -> Result<FollowedBy<'r, R>, ServeFault>
        ensures follows { IfOk result (λ f. FollowsAs f.change ended.entry.book next f.period.book) }
        ensures unkept { IfOk result (λ f. IfSome f.unkept (λ book. book ≡ ended.entry.book)) }
        ensures refused { IfErr result IsOfNoDesk }
    {
        let ClosedRun { book, log } = ended;
        let is_logged = log.is_some();
        // Its file is closed before another log is begun there.
        drop(log);
        let Some(kept) = &self.kept else {
            return follow_unkept(self.rt.alloc(), book, next);
        };
        kept.follow(book, next, is_logged)
    }
}

// The links of a connector of this configuration.
fn links_of<R>(rt: &R, config: &Config) -> Result<TcpLinks<SystemClock<R>>, AllocError>
where
    R: Runtime + AllocGlobal + Copy,
{
    let notices = Notices::new(rt.alloc(), config)?;
    Ok(TcpLinks::new(SystemClock::new(*rt), notices))
}

// The book of a period that was closed. What else there is of it goes here.
fn book_of<D: Device + Drop>(run: ClosedRun<D>) -> Book
    ensures { result ≡ run.book }
{
    run.book
}
