//! What is told of the settings at the top.
ghost use Rattle.std.specs.Prelude.{OnOk};
ghost use Rattle.ilp_warnings.specs.Complete.{KeepsAll, AreTopTold};
ghost use Rattle.ilp_warnings.specs.Told.{AreWarranted};

use crate::addresses::{is_open, is_shared};
use crate::examined::Examined;
use crate::telling::{tell, tell_address};
use crate::warning::{ConfigTable, Warning};
use ilp_accounts::Field;
use std::alloc::AllocError;

/// Tells of the settings.
pub(crate) fn tell_top(examined: Examined<'_>, told: &mut Vec<Warning>) -> Result<(), AllocError>
    requires { AreWarranted examined told.old.items }
    ensures sound { OnOk result (AreWarranted examined.entry told.new.items) }
    ensures kept { OnOk result (KeepsAll told.old.items told.new.items) }
    ensures top { OnOk result (AreTopTold examined.entry.config.now told.new.items) }
{
    let config = examined.config;
    let listen = config.listen();
    let engine_listen = config.engine_listen();
    tell_address(examined, told, ConfigTable::Top, Field::Listen, listen)?;
    tell_address(
        examined,
        told,
        ConfigTable::Top,
        Field::EngineListen,
        engine_listen,
    )?;
    tell(examined, told, is_open(engine_listen), Warning::OpenEngines)?;
    tell(
        examined,
        told,
        is_shared(listen, engine_listen),
        Warning::SharedListen,
    )?;
    tell(
        examined,
        told,
        config.max_hold_ms() <= config.window_ms(),
        Warning::ShortHolds,
    )?;
    tell(examined, told, config.routes() == 0, Warning::NoRoutes)
}
