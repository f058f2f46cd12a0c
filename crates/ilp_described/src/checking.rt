//! What a configuration and a journal have, as a line of text, for people.
ghost use Rattle.std.specs.Prelude.{◌≡◌, ◌⊎◌, Err, IfOk, string_bytes};
ghost use Rattle.toml.specs.Data.{Members};
ghost use Rattle.ilp_accounts.specs.Checks.{Reads};
ghost use Rattle.ilp_accounts.specs.Configuration.{configuration};
ghost use Rattle.ilp_accounts.specs.Faults.{IsToml, first_fault};
ghost use Rattle.ilp_described.specs.CheckText.{check_line, book_line};

use ilp_accounts::{Config, ConfigFault};
use ilp_book::Book;
use std::alloc::{AllocError, Global};

/// How many peers, assets and routes a configuration in TOML has, as one line without its end.
///
/// It is refused by its first fault, as `Config::read` tells it. `Memory` may come in place of any
/// answer, where a growth of memory was denied.
pub fn check(alloc: Global, octets: &[u8]) -> Result<String, ConfigFault>
    ensures toml { (t : Members) → IsToml octets.now t
        → Reads string_bytes result (first_fault t) (check_line (configuration t)) }
    ensures other { ((t : Members) → ¬ IsToml octets.now t)
        → (result ≡ Err ConfigFault.NotToml) ⊎ (result ≡ Err ConfigFault.Memory) }
{
    let config = match Config::read(alloc, octets) {
        Ok(config) => config,
        Err(fault) => return Err(fault),
    };
    match line_of(alloc, &config) {
        Ok(line) => Ok(line),
        Err(AllocError) => Err(ConfigFault::Memory),
    }
}

/// The same of a configuration that was read. `AllocError` tells that memory is short.
pub fn line_of(alloc: Global, config: &Config) -> Result<String, AllocError>
    ensures { IfOk result (λ line. string_bytes line ≡ check_line config.now) }
{
    let peers = config.peers();
    let assets = config.assets().asset_count();
    let routes = config.routes();
    format!(in alloc; "ok {peers} peers {assets} assets {routes} routes")
}

/// How many peers, assets and routes the configuration of a book has, and how many entries the book has,
/// as one line without its end. `AllocError` tells that memory is short.
pub fn check_book(alloc: Global, book: &Book) -> Result<String, AllocError>
    ensures { IfOk result (λ line. string_bytes line ≡ book_line book.now) }
{
    let line = line_of(alloc, book.config())?;
    let entries = book.len();
    format!(in alloc; "{line} {entries} entries")
}
