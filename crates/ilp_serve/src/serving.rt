//! The command `serve`.
ghost use denote.Param.Send.{IsSend, IsSync};

use crate::config_path::ReadsConfigs;
use crate::keeping::KeepsPeriods;
use crate::reading::{ConfigAsker, reading_pair};
use crate::run::Run;
use ilp_accounts::Config;
use ilp_journal_file::PlacesFiles;
use ilp_starting::{Host, RunFault, noticed};
use std::fs::File;
use std::net::{Net, TcpListener, TcpStream};
use std::rt::Files;
use std::thread;

/// Runs a connector of the configuration at this path until it is asked to close, and prints its report.
/// Where there is a path of a journal, it begins with what that has, keeps it there period by period, and
/// saves it in the end, whatever became of the report. Where it is asked to, it reads the configuration
/// again, and goes on by that. What it reads then it waits for within a second; where the system gives back a file
/// later, the process is over only then, with all of this done.
///
/// Refusals: those of `configured`; of the journal's file and its text, before anything runs; and why a
/// connector gave no book back (`ilp_running::ServeFault`). Then nothing is saved.
pub fn serve<'r, R>(rt: &'r R, path: &'r str, journal: Option<&str>) -> Result<(), RunFault>
where
    R: Host
        + Files<File = File>
        + PlacesFiles<File = File>
        + ReadsConfigs
        + KeepsPeriods
        + Net<Listener = TcpListener, Stream = TcpStream>,
{
    let config = noticed(rt, path)?;
    let (asker, reader) = reading_pair(rt.alloc())?;
    thread::scope(
        thread::scope_env(),
        rt,
        move |scope| -> Result<(), RunFault>
            requires { IsSend R.row × IsSync R.row }
        {
            // Without such a thread the watcher reads.
            let configs = match scope.spawn(move || reader.run(rt, path)) {
                Ok(_reading) => Some(&asker),
                Err(_) => None,
            };
            serve_by(rt, path, &config, configs, journal)
        },
    )
}

// The same by this configuration, which is read again by that; else by the watcher.
fn serve_by<'f, R>(
    rt: &'f R,
    path: &'f str,
    config: &'f Config,
    configs: Option<&'f ConfigAsker>,
    journal: Option<&str>,
) -> Result<(), RunFault>
where
    R: Host
        + Files<File = File>
        + PlacesFiles<File = File>
        + ReadsConfigs
        + KeepsPeriods
        + Net<Listener = TcpListener, Stream = TcpStream>,
{
    let run = Run {
        rt,
        path,
        config,
        configs,
    };
    match journal {
        Some(path) => run.serve_journal(path),
        None => run.serve_once(),
    }
}
