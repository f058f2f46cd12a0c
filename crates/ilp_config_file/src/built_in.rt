//! The configuration of a connector that is given none.

/// The built-in configuration, as TOML: two peers, alice and bob, with accounts in USD at scale 2
/// whose balances don't fall below -100 units, and a route to each. Bob's account is settled between
/// the levels 200 and 1000.
pub const BUILT_IN: &str = r#"address = "test.hub"
run = "r1"
[[asset]]
code = "USD"
scale = 2
[[peer]]
name = "alice"
asset = "USD/2"
token = "a-token"
out_token = "to-alice"
host = "127.0.0.1:7001"
least = -100
[[peer]]
name = "bob"
asset = "USD/2"
token = "b-token"
out_token = "to-bob"
host = "127.0.0.1:7002"
least = -100
engine = "127.0.0.1:7003"
threshold = 1000
settle_to = 200
[[route]]
prefix = "test.alice"
peer = "alice"
[[route]]
prefix = "test.bob"
peer = "bob"
"#;
