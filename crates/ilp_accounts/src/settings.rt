//! What stands at the top of a configuration.
ghost use Rattle.std.specs.Prelude.{◌≡◌, string_bytes, IfOk};
ghost use Rattle.toml.specs.View.{table_view};
ghost use Rattle.ilp_fields.specs.Checks.{Reads};
ghost use Rattle.ilp_accounts.specs.Views.{plain_settings};
ghost use Rattle.ilp_accounts.specs.Configuration.{settings_of, sync_of};
ghost use Rattle.ilp_accounts.specs.Faults.{settings_fault};

use ilp_fields::{
    ConfigFault, Field, Form, defaulted_number, defaulted_text, optional_number, required_text,
};
use std::alloc::{AllocError, Global};
use toml::Table;

const HOUR_MS: u32 = 3_600_000;

const MINUTE_MS: u32 = 60_000;

/// When the lines of a log reach the disk.
#[derive(Clone, Copy, Debug, PartialEq, Eq)]
pub enum LogSync {
    /// Before anybody is told of them, with all lines that were written by then.
    Group,
    /// When the system sees fit: the end of the process takes none of them, and that of the machine
    /// may.
    Off,
}

/// What holds for the connector as a whole: times in milliseconds, the journal in entries. Its texts
/// lie in a table of TOML, or are its own.
#[derive(Debug, Drop)]
pub(crate) struct Settings<T> {
    pub(crate) address: T,
    pub(crate) run: T,
    pub(crate) listen: T,
    pub(crate) engine_listen: T,
    pub(crate) path: T,
    pub(crate) workers: u32,
    pub(crate) journal: u32,
    pub(crate) window_ms: u32,
    pub(crate) max_hold_ms: u32,
    pub(crate) sweep_ms: u32,
    pub(crate) settle_ms: u32,
    pub(crate) sync: LogSync,
    pub(crate) in_flight: u32,
    pub(crate) new_period_at: Option<u32>,
}

/// Reads the top fields.
#[tactic(auto, unfolding(crate::specs::Faults::settings_fault, crate::specs::Configuration::settings_of))]
pub(crate) fn settings_of(table: &Table) -> Result<Settings<&str>, ConfigFault>
    ensures { Reads (plain_settings (λ text. text.now)) result
        (settings_fault (table_view table.now)) (settings_of (table_view table.now)) }
{
    let address = required_text(table, Field::Address, Form::Address)?;
    let run = required_text(table, Field::Run, Form::Run)?;
    let listen = defaulted_text(table, Field::Listen, Form::SocketAddress, "127.0.0.1:7768")?;
    let engine_listen = defaulted_text(
        table,
        Field::EngineListen,
        Form::SocketAddress,
        "127.0.0.1:7769",
    )?;
    let path = defaulted_text(table, Field::Path, Form::Path, "/ilp")?;
    let workers = defaulted_number(table, Field::Workers, 1, 64, 4)?;
    let journal = defaulted_number(table, Field::Journal, 2, 16_777_216, 65_536)?;
    let window_ms = defaulted_number(table, Field::WindowMs, 0, HOUR_MS, 1_000)?;
    let max_hold_ms = defaulted_number(table, Field::MaxHoldMs, 1, HOUR_MS, 30_000)?;
    let sweep_ms = defaulted_number(table, Field::SweepMs, 1, MINUTE_MS, 100)?;
    let settle_ms = defaulted_number(table, Field::SettleMs, 1, MINUTE_MS, 1_000)?;
    let sync = defaulted_text(table, Field::Sync, Form::Sync, "group")?;
    let in_flight = defaulted_number(table, Field::InFlight, 1, 65_536, 4_096)?;
    let new_period_at = optional_number(table, Field::NewPeriodAt, 1, 95)?;
    Ok(Settings {
        address,
        run,
        listen,
        engine_listen,
        path,
        workers,
        journal,
        window_ms,
        max_hold_ms,
        sweep_ms,
        settle_ms,
        sync: sync_of(sync),
        in_flight,
        new_period_at,
    })
}

// What a text of the field stands for.
fn sync_of(text: &str) -> LogSync
    ensures { result ≡ sync_of text.now }
{
    if text == "off" {
        return LogSync::Off;
    }
    LogSync::Group
}

impl Settings<&str> {
    /// The settings, with texts of their own in place of those in the table.
    pub(crate) fn owned(&self, alloc: Global) -> Result<Settings<String>, AllocError>
        ensures { IfOk result (λ settings.
            plain_settings string_bytes settings ≡ plain_settings (λ text. text.now) self.now) }
    {
        Ok(Settings {
            address: String::from_str(alloc, self.address)?,
            run: String::from_str(alloc, self.run)?,
            listen: String::from_str(alloc, self.listen)?,
            engine_listen: String::from_str(alloc, self.engine_listen)?,
            path: String::from_str(alloc, self.path)?,
            workers: self.workers,
            journal: self.journal,
            window_ms: self.window_ms,
            max_hold_ms: self.max_hold_ms,
            sweep_ms: self.sweep_ms,
            settle_ms: self.settle_ms,
            sync: self.sync,
            in_flight: self.in_flight,
            new_period_at: self.new_period_at,
        })
    }
}

impl Settings<String> {
    /// The settings, with their texts where they lie.
    pub(crate) fn fields(&self) -> Settings<&str>
        ensures { plain_settings (λ text. text.now) result ≡ plain_settings string_bytes self.now }
    {
        Settings {
            address: self.address.as_str(),
            run: self.run.as_str(),
            listen: self.listen.as_str(),
            engine_listen: self.engine_listen.as_str(),
            path: self.path.as_str(),
            workers: self.workers,
            journal: self.journal,
            window_ms: self.window_ms,
            max_hold_ms: self.max_hold_ms,
            sweep_ms: self.sweep_ms,
            settle_ms: self.settle_ms,
            sync: self.sync,
            in_flight: self.in_flight,
            new_period_at: self.new_period_at,
        }
    }
}
