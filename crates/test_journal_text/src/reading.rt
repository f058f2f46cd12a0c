//! Texts that are read: whole ones, bad ones, and one text cut and changed at each octet.

use crate::oracle::first_bad_line;
use crate::printed::line_of;
use ilp_accounts::Config;
use ilp_journal_text::{JournalText, TextFault};
use std::alloc::{AllocError, Global};
use std::process::Abort;
use std::test::Fail;

const CONFIG: &str = r#"address = "test.hub"
run = "r1"
[[asset]]
code = "USD"
scale = 2
[[peer]]
name = "alice"
asset = "USD/2"
token = "a-token"
out_token = "to-alice"
host = "127.0.0.1:7001"
least = -100
[[peer]]
name = "bob"
asset = "USD/2"
token = "b-token"
out_token = "to-bob"
host = "127.0.0.1:7002"
least = -100
"#;

const TEXT: &str = "\
ilp-journal 1
1735689600000 0 hold alice bob 18446744073709551615 1 18446744073709551614 9223372036854775807 00ff00ff00ff00ff00ff00ff00ff00ff00ff00ff00ff00ff00ff00ff00ff00ff
1735689600001 65 released 0 Peer 463939
1735689600001 65 released 1 Late
1735689600001 65 released 2 WrongPreimage
1735689600001 65 released 3 NoReply
1735689600001 65 released 4 Restart
1735689600001 65 fulfilled 10 abababababababababababababababababababababababababababababababab
1735689600001 4294967295 credited bob 2d7e00 340282366920938463463374607431768211455 255 0
1735689600001 1 asked bob 10
1735689600002 1 confirmed 8
9223372036854775807 1 undone 4294967295
end 11
";

// What an octet is changed to.
const OTHERS: [u8; 10] = *b"0 \n9aAz+-\xff";

// What stands behind the first line of a text, with `~` for LF, after the number of its first bad line.
const BAD: &str = "\
2:
2:end 0
2:end 1~
2:end 00~
2:end +0~
2:end~
3:end 0~~
3:end 0~end 0~
2:end 0 ~
2:~end 0~
2:7 1 confirmed 8
3:7 1 confirmed 8~
3:7 1 confirmed 8~end 0~
3:7 1 confirmed 8~end 1
2:7 1 confirmed 8 ~end 1~
2:7 1 confirmed  8~end 1~
2: 7 1 confirmed 8~end 1~
2:7 1 confirmed~end 1~
2:7 1 confirmed 8 8~end 1~
2:7 01 confirmed 8~end 1~
2:+7 1 confirmed 8~end 1~
2:-7 1 confirmed 8~end 1~
2:9223372036854775808 1 confirmed 8~end 1~
2:7 4294967296 confirmed 8~end 1~
2:7 1 confirmed 4294967296~end 1~
2:7 1 released 0 Peer 46393A~end 1~
2:7 1 asked carol 10~end 1~
2:7 1 asked bob 18446744073709551616~end 1~
";

// Reads a text to its end, and prints again what it says.
fn read(
    rt: &(impl Abort + AllocGlobal),
    config: &Config,
    text: &[u8],
) -> Result<Result<String, TextFault>, Fail> {
    let mut journal = match JournalText::begin(text) {
        Ok(journal) => journal,
        Err(fault) => return Ok(Err(fault)),
    };
    let mut printed = String::from_str(rt.alloc(), "ilp-journal 1\n")?;
    for count in 0..=text.len() {
        match journal.next(config) {
            Ok(Some(entry)) => {
                let line = line_of(rt.alloc(), &entry)?;
                printed.push_str(line.as_str())?;
            }
            Ok(None) => {
                let end = format!(in rt.alloc(); "end {count}\n")?;
                printed.push_str(end.as_str())?;
                return Ok(Ok(printed));
            }
            Err(fault) => return Ok(Err(fault)),
        }
    }
    panic!(rt; "a text with more lines than octets");
}

// Reads a text, and compares with what the rules say of it.
fn check(rt: &(impl Abort + AllocGlobal), config: &Config, text: &[u8]) -> Result<(), Fail> {
    let outcome = read(rt, config, text)?;
    match (outcome, first_bad_line(text)) {
        (Ok(printed), None) => assert_eq!(rt; printed.as_bytes(), text),
        (Err(TextFault::BadLine { line }), Some(bad)) => assert_eq!(rt; line, bad as u64),
        (Ok(_), Some(bad)) => panic!(rt; "line {bad} is bad"),
        (Err(fault), _) => panic!(rt; "{fault}"),
    }
    Ok(())
}

fn config_of(rt: &(impl Abort + AllocGlobal)) -> Config {
    match Config::read(rt.alloc(), CONFIG.as_bytes()) {
        Ok(config) => config,
        Err(fault) => panic!(rt; "{fault}"),
    }
}

#[test]
fn reads_each_kind_back(rt: HostRuntime) -> Result<(), Fail> {
    let config = config_of(&rt);
    match read(&rt, &config, TEXT.as_bytes())? {
        Ok(printed) => assert_eq!(rt; printed.as_str(), TEXT),
        Err(fault) => panic!(rt; "{fault}"),
    }
    Ok(())
}

// The text that a row writes.
fn text_of(alloc: Global, row: &str) -> Result<String, AllocError> {
    let mut text = String::from_str(alloc, "ilp-journal 1")?;
    for line in row.split('~') {
        text.push_str("\n")?;
        text.push_str(line)?;
    }
    Ok(text)
}

// Checks that the line of this number is the first bad one.
fn check_row(
    rt: &(impl Abort + AllocGlobal),
    config: &Config,
    number: &str,
    row: &str,
) -> Result<(), Fail> {
    let text = text_of(rt.alloc(), row)?;
    match read(rt, config, text.as_bytes())? {
        Err(TextFault::BadLine { line }) => {
            let bad = format!(in rt.alloc(); "{line}")?;
            assert_eq!(rt; bad.as_str(), number, "of {row}");
        }
        _ => panic!(rt; "read {row}"),
    }
    Ok(())
}

// Checks each row.
fn check_rows(rt: &(impl Abort + AllocGlobal), config: &Config, rows: &str) -> Result<(), Fail> {
    for row in rows.lines() {
        let Some((number, text)) = row.split_once(':') else {
            panic!(rt; "no number in {row}");
        };
        check_row(rt, config, number, text)?;
    }
    Ok(())
}

#[test]
fn names_the_first_bad_line(rt: HostRuntime) -> Result<(), Fail> {
    let config = config_of(&rt);
    check_rows(&rt, &config, BAD)
}

// Checks each front of a text.
fn check_cuts(rt: &(impl Abort + AllocGlobal), config: &Config, text: &[u8]) -> Result<(), Fail> {
    for end in 0..=text.len() {
        check(rt, config, &text[..end])?;
    }
    Ok(())
}

// Checks a text with each octet changed in turn.
fn check_changes(
    rt: &(impl Abort + AllocGlobal),
    config: &Config,
    text: &mut [u8],
) -> Result<(), Fail> {
    for place in 0..text.len() {
        check_octets(rt, config, text, place)?;
    }
    Ok(())
}

// Checks a text with the octet at a place changed.
fn check_octets(
    rt: &(impl Abort + AllocGlobal),
    config: &Config,
    text: &mut [u8],
    place: usize,
) -> Result<(), Fail> {
    let Some(kept) = text.get(place).copied() else {
        return Ok(());
    };
    for other in OTHERS {
        if let Some(octet) = text.get_mut(place) {
            *octet = other;
        }
        check(rt, config, text)?;
    }
    if let Some(octet) = text.get_mut(place) {
        *octet = kept;
    }
    Ok(())
}

#[test]
fn reads_no_text_that_is_cut(rt: HostRuntime) -> Result<(), Fail> {
    let config = config_of(&rt);
    check_cuts(&rt, &config, TEXT.as_bytes())
}

#[test]
fn reads_what_a_changed_text_says(rt: HostRuntime) -> Result<(), Fail> {
    let config = config_of(&rt);
    let mut text = Vec::from_slice(rt.alloc(), TEXT.as_bytes())?;
    check_changes(&rt, &config, text.as_mut_slice())
}

#[test]
fn reads_no_key_that_is_too_long(rt: HostRuntime) -> Result<(), Fail> {
    let config = config_of(&rt);
    for octets in 0..131 {
        let mut key = String::new(rt.alloc());
        for _ in 0..octets {
            key.push_str("7e")?;
        }
        let text = format!(in rt.alloc(); "ilp-journal 1\n7 1 credited bob {key} 1 0 1\nend 1\n")?;
        check(&rt, &config, text.as_bytes())?;
    }
    Ok(())
}
