//! Each growth denied in turn: books, settlements, books that are carried over, reports.

use ilp_accounts::Config;
use std::alloc::Global;
use std::test::Fail;

mod books;
mod carrying;
mod configurations;
mod largest;
mod reports;
mod settlements;

// More growths than any of these calls makes.
const GROWTHS: u64 = 1_000;

// How many growths a new book makes: one for each of its lists, which are the pages of the journal,
// the peers' assets, the sums of the peers, their open settlements, and the sums of the assets.
const FIRST_OF_A_BOOK: u64 = 5;

// Two peers in one asset, each of which may owe 200,000 units, and is settled with from 1,000 on.
const LENDING: &str = r#"address = "test.hub"
run = "r1"
[[asset]]
code = "USD"
scale = 2
[[peer]]
name = "alice"
asset = "USD/2"
token = "a-token"
out_token = "to-alice"
host = "127.0.0.1:7001"
least = -200000
engine = "127.0.0.1:7003"
threshold = 1000
settle_to = 200
[[peer]]
name = "bob"
asset = "USD/2"
token = "b-token"
out_token = "to-bob"
host = "127.0.0.1:7002"
least = -200000
engine = "127.0.0.1:7003"
threshold = 1000
settle_to = 200
[[route]]
prefix = "test.alice"
peer = "alice"
[[route]]
prefix = "test.bob"
peer = "bob"
"#;

fn lending(alloc: Global) -> Result<Config, Fail> {
    let config = Config::read(alloc, LENDING.as_bytes())?;
    Ok(config)
}
