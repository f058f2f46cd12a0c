//! A log that is written, torn and read back.

use super::*;
use ilp_accounts::Config;
use std::test::*;

const TWO_PEERS: &str = r#"address = "test.hub"
run = "r1"
[[asset]]
code = "USD"
scale = 2
[[asset]]
code = "XRP"
scale = 9
[[peer]]
name = "alice"
asset = "XRP/9"
token = "a-token"
out_token = "to-alice"
host = "127.0.0.1:7001"
least = 0
[[peer]]
name = "bob"
asset = "USD/2"
token = "b-token"
out_token = "to-bob"
host = "127.0.0.1:7002"
least = 0
"#;

const SAVED: &[u8] = b"ilp-journal 1\n600 0 asked bob 800\nend 1\n";

const LATER: &[u8] = b"ilp-journal 1\n600 0 asked bob 800\n700 0 confirmed 0\nend 2\n";

#[test]
fn a_torn_log_is_read_back(rt: HostRuntime) -> Result<(), Fail> {
    let alloc = rt.alloc();
    let Ok(config) = Config::read(alloc, TWO_PEERS.as_bytes()) else {
        panic!(rt; "no configuration");
    };
    let mut octets = head_text(alloc, &config, 1, SAVED)?.into_bytes();
    octets.extend_from_slice(b"700 0 confirmed 0\n800 0 as\0\0\0 bob 7\n")?;
    let Ok(log) = LogText::read(&octets) else {
        panic!(rt; "no log");
    };
    assert_eq!(rt; log.count(), 1);
    assert_eq!(rt; log.lines(), b"700 0 confirmed 0\n".as_slice());
    assert!(rt; log.is_of(SAVED));
    assert!(rt; !log.is_of(LATER));
    assert!(rt; log.is_in(LATER));
    assert!(rt; !log.is_in(SAVED));
    Ok(())
}

#[test]
fn a_log_is_in_the_journal_of_a_later_period(rt: HostRuntime) -> Result<(), Fail> {
    let saved = b"ilp-journal 2 17\n600 0 pending bob 800 72312d30\nend 1\n";
    let later = b"ilp-journal 2 17\n600 0 pending bob 800 72312d30\n700 0 confirmed 0\nend 2\n";
    let other = b"ilp-journal 3 17\n600 0 pending bob 800 72312d30\n700 0 confirmed 0\nend 2\n";
    let head = "ilp-log 1 1 e3b0c44298fc1c149afbf4c8996fb92427ae41e4649b934ca495991b7852b855";
    let octets = format!(in rt.alloc(); "{head}\nrun r1\n700 0 confirmed 0\n")?;
    let Ok(log) = LogText::read(octets.as_bytes()) else {
        panic!(rt; "no log");
    };
    assert!(rt; log.is_in(later));
    assert!(rt; !log.is_in(saved));
    assert!(rt; !log.is_in(other));
    Ok(())
}

#[test]
fn what_is_remembered_comes_back(rt: HostRuntime) -> Result<(), Fail> {
    let text = remembered_in(rt.alloc(), b"run r1; peer alice XRP 9; peer bob USD 2")?;
    assert_eq!(rt;
        text.as_slice(),
        b"ilp-remembered 1\nrun r1\npeer alice XRP 9\npeer bob USD 2\nend\n".as_slice()
    );
    Ok(())
}

#[test]
fn a_torn_head_is_no_log(rt: HostRuntime) {
    let torn = b"ilp-log 1 0 e3b0c44298fc1c149afbf4c8996fb92427ae41e4649b934ca495991b7852b855\nrun";
    assert!(rt; LogText::read(b"ilp-log 1 0").is_err_and(|bad| bad == BadHead::First));
    assert!(rt; LogText::read(torn).is_err_and(|bad| bad == BadHead::Second));
}
