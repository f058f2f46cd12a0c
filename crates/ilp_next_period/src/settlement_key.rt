//! The keys under which settlements are asked for.
ghost use Rattle.std.specs.Prelude.{◌≡◌, ◌++◌, IfOk, codes, string_bytes};
ghost use Rattle.std.specs.Fmt.{decimal};
ghost use Rattle.ilp_journal.specs.Keys.{IsKey};
ghost use Rattle.ilp_rules.specs.Heads.{settlement_key_of};

use ilp_accounts::Config;
use ilp_journal::Key;
use std::alloc::{AllocError, Global};

/// The key under which the settlement of this number is asked for in a period: `RUN-N` in the first, and
/// `RUN.P-N` in the period P above 0. `AllocError` tells that memory for it is short.
pub(crate) fn settlement_key(
    alloc: Global,
    config: &Config,
    period: u32,
    number: u32,
) -> Result<Key, AllocError>
    requires { IsKey (settlement_key_of config.now period number) }
    ensures { IfOk result (λ key. key ≡ settlement_key_of config.now period number) }
{
    let text = key_text(alloc, config, period, number)?;
    match Key::new(alloc, text.as_bytes())? {
        Some(key) => Ok(key),
        None => unreachable!(),
    }
}

// The key as a text.
fn key_text(alloc: Global, config: &Config, period: u32, number: u32) -> Result<String, AllocError>
    ensures { IfOk result (λ text. string_bytes text ≡ settlement_key_of config.now period number) }
{
    if period == 0 {
        first_key(alloc, config.run(), number)
    } else {
        later_key(alloc, config.run(), period, number)
    }
}

// That of the first period.
fn first_key(alloc: Global, run: &str, number: u32) -> Result<String, AllocError>
    ensures { IfOk result (λ text. string_bytes text ≡ run.now ++ (codes "-" ++ decimal number)) }
{
    format!(in alloc; "{run}-{number}")
}

// That of a later one.
fn later_key(alloc: Global, run: &str, period: u32, number: u32) -> Result<String, AllocError>
    ensures { IfOk result (λ text. string_bytes text
        ≡ run.now ++ (codes "." ++ (decimal period ++ (codes "-" ++ decimal number)))) }
{
    format!(in alloc; "{run}.{period}-{number}")
}
