//! What a connector that runs can't take over from another configuration.
ghost use Rattle.std.specs.Prelude.{IfNone, IfSome};
ghost use Rattle.ilp_serve.specs.Restart.{MayTakeOver, NeedsRestart};

use ilp_accounts::Config;
use ilp_fields::Field;

/// The first field of the next configuration that a connector of the one in force takes over at a start
/// alone: its own address and run, where it listens, and its number of workers. None where these are the
/// same.
pub(crate) fn needs_restart(in_force: &Config, next: &Config) -> Option<Field>
    ensures same { IfNone result (MayTakeOver in_force.now next.now) }
    ensures other { IfSome result (NeedsRestart in_force.now next.now) }
{
    if next.address() != in_force.address() {
        return Some(Field::Address);
    }
    if next.run() != in_force.run() {
        return Some(Field::Run);
    }
    if next.listen() != in_force.listen() {
        return Some(Field::Listen);
    }
    if next.engine_listen() != in_force.engine_listen() {
        return Some(Field::EngineListen);
    }
    if next.workers() != in_force.workers() {
        return Some(Field::Workers);
    }
    None
}
