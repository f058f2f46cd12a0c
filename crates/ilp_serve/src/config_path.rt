//! What a connector that runs has on the disk: where its configuration is read again, and its journal.

use crate::keeping::KeepsPeriods;
use crate::reading::ConfigAsker;
use crate::restart::needs_restart;
use crate::telling::line_of_refusal;
use ilp_accounts::Config;
use ilp_journal_file::JournalWatch;
use ilp_refusals::Refusal;
use ilp_running::OnDisk;
use ilp_starting::{Refused, Telling, config_octets, config_of, tell_warnings};
use std::alloc::Global;
use std::fs;
use std::rt::{Files, Runtime};
use std::sync::Wait;
use std::time::Clock;

/// A runtime that reads configurations. It is asked for beside what else a runtime has: the kit's prover
/// carries to another thread what is asked for so.
pub trait ReadsConfigs {
    /// The configuration that stands at this path, with a notice of each thing in it that is to be looked
    /// at. Refusals are those of `ilp_starting::configured`, and `ConfigUnread` where what stands there is no
    /// file: nobody waits for whoever writes to a named pipe.
    fn read_config(&self, path: &str) -> Result<Config, Refused>;
}

impl<R: Runtime + AllocGlobal> ReadsConfigs for R {
    fn read_config(&self, path: &str) -> Result<Config, Refused> {
        if is_no_file(self, path) {
            let alloc = self.alloc();
            let why = format!(in alloc;
                "{path:?}: no plain file, and a pipe is read at a start alone"
            );
            return Err(Refused::because(Refusal::ConfigUnread, why));
        }
        let octets = config_octets(self, path)?;
        let config = config_of(self.alloc(), &octets)?;
        tell_warnings(self, path, &octets, Telling::Notice);
        Ok(config)
    }
}

// Whether a pipe, a folder or a device stands at the path of a configuration, or behind a link there. Where the
// system doesn't say what does, opening it will.
fn is_no_file(rt: &impl Files, path: &str) -> bool {
    match fs::metadata(rt, path) {
        Ok(metadata) => path != "-" && !metadata.is_file(),
        Err(_) => false,
    }
}

/// The path of the configuration, and the journal, where there is one.
#[derive(Drop)]
pub(crate) struct ConnectorFiles<'f, R> {
    pub(crate) rt: R,
    pub(crate) config_path: &'f str,
    /// By what the configuration is read again; none where no thread could be started for that.
    pub(crate) configs: Option<ConfigAsker>,
    pub(crate) journal: Option<JournalWatch>,
}

impl<R: ReadsConfigs + KeepsPeriods + Wait + Clock> ConnectorFiles<'_, R> {
    // The configuration that stands at the path. It is refused as `ConfigUnread` too where that isn't read within a
    // second.
    fn read(&self, alloc: Global) -> Result<Config, Refused> {
        let Some(configs) = &self.configs else {
            return self.rt.read_config(self.config_path);
        };
        if let Some(config) = configs.read(&self.rt, alloc)? {
            return Ok(config);
        }
        let path = self.config_path;
        let why = format!(in alloc; "{path:?}: not read within a second");
        Err(Refused::because(Refusal::ConfigUnread, why))
    }
}

impl<R: ReadsConfigs + KeepsPeriods + Wait + Clock> OnDisk for ConnectorFiles<'_, R> {
    fn read_again(&self, in_force: &Config) -> Result<Config, Option<String>> {
        let alloc = in_force.allocator();
        let next = match self.read(alloc) {
            Ok(next) => next,
            Err(refused) => return Err(line_of_refusal(alloc, &refused)),
        };
        match needs_restart(in_force, &next) {
            None => Ok(next),
            Some(field) => {
                let line = format!(in alloc; "`{field}` needs a restart\n");
                Err(line.ok())
            }
        }
    }

    fn has_journal(&self) -> bool {
        match &self.journal {
            Some(watch) => self.rt.has_journal(watch),
            None => true,
        }
    }

    fn has_log(&self) -> bool {
        match &self.journal {
            Some(watch) => self.rt.has_log(watch),
            None => true,
        }
    }
}
