//! Texts that are read: whole ones, bad ones, and one text cut and changed at each octet.

use crate::oracle::first_bad_line;
use crate::printed::{first_line_of, line_of};
use ilp_accounts::Config;
use ilp_journal_text::{JournalLines, JournalText, TextFault};
use std::alloc::{AllocError, Global};
use std::process::Abort;
use std::test::Fail;

const CONFIG: &str = r#"address = "test.hub"
run = "r1"
[[asset]]
code = "USD"
scale = 2
[[peer]]
name = "alice"
asset = "USD/2"
token = "a-token"
out_token = "to-alice"
host = "127.0.0.1:7001"
least = -100
[[peer]]
name = "bob"
asset = "USD/2"
token = "b-token"
out_token = "to-bob"
host = "127.0.0.1:7002"
least = -100
"#;

const TEXT: &str = "\
ilp-journal 2 4294967295
1735689600000 0 opened alice 9223372036854775807
1735689600000 0 opened bob -9223372036854775808
1735689600000 0 known bob 2d7e00 340282366920938463463374607431768211455 255 0
1735689600000 0 pending alice 18446744073709551615 72312e342d3130
1735689600001 65 asked bob 10
1735689600002 1 confirmed 3
1735689600002 7 credited alice 7e 1 0 1
9223372036854775807 4294967295 undone 4294967295
end 8
";

// What an octet is changed to.
const OTHERS: [u8; 11] = *b"01 \n9aAz+-\xff";

// First lines of no form.
const NO_FORM: &str = "\
ilp-journal 2 0
ilp-journal 2 00
ilp-journal 2 01
ilp-journal 2 +1
ilp-journal 2 -1
ilp-journal 2 4294967296
ilp-journal 2 18446744073709551617
ilp-journal 2 1 
ilp-journal 2  1
ilp-journal 2 
ilp-journal 2
ilp-journal 2 a
ilp-journal 2 1 1
ilp-journal 1 1
ilp-journal 3 1
 ilp-journal 2 1
Ilp-journal 2 1
";

// What stands behind the first line of a text of the period 1, with `~` for LF, after the number of its
// first bad line.
const BAD: &str = "\
2:
2:end 1~
3:7 0 opened alice 5~
2:7 0 opened alice~end 1~
2:7 0 opened alice 5 5~end 1~
2:7 0 opened alice -0~end 1~
2:7 0 opened alice +5~end 1~
2:7 0 opened alice 05~end 1~
2:7 0 opened alice --5~end 1~
2:7 0 opened alice -05~end 1~
2:7 0 opened alice -~end 1~
2:7 0 opened alice 9223372036854775808~end 1~
2:7 0 opened alice -9223372036854775809~end 1~
2:7 0 opened carol 5~end 1~
2:7 0 Opened alice 5~end 1~
2:7 0 opened  alice 5~end 1~
2:7 0 known alice 7e 1 0~end 1~
2:7 0 known alice 7E 1 0 1~end 1~
2:7 0 known alice 7 1 0 1~end 1~
2:7 0 known alice  1 0 1~end 1~
2:7 0 known carol 7e 1 0 1~end 1~
2:7 0 known alice 7e 340282366920938463463374607431768211456 0 1~end 1~
2:7 0 known alice 7e 1 256 1~end 1~
2:7 0 known alice 7e 1 0 18446744073709551616~end 1~
2:7 0 pending alice 7e 1~end 1~
2:7 0 pending alice 1~end 1~
2:7 0 pending alice 1 ~end 1~
2:7 0 pending alice 1 7e 7e~end 1~
2:7 0 pending alice -1 7e~end 1~
2:7 0 pending alice 18446744073709551616 7e~end 1~
2:7 0 pending carol 1 7e~end 1~
2:-7 0 opened alice 5~end 1~
2:7 4294967296 opened alice 5~end 1~
4:7 0 opened alice 5~7 1 asked bob 10~7 0 pending bob 10~end 3~
";

// Lines that stand in no text of the first period, and in no log.
const LATER_ALONE: &str = "\
7 0 opened alice 5
7 0 known alice 7e 1 0 1
7 0 pending alice 1 7e
";

// Reads a text to its end, and prints again what it says.
fn read(
    rt: &(impl Abort + AllocGlobal),
    config: &Config,
    text: &[u8],
) -> Result<Result<String, TextFault>, Fail> {
    let mut journal = match JournalText::begin(text) {
        Ok(journal) => journal,
        Err(fault) => return Ok(Err(fault)),
    };
    let mut printed = first_line_of(rt.alloc(), journal.period())?;
    for count in 0..=text.len() {
        match journal.next(config) {
            Ok(Some(entry)) => {
                let line = line_of(rt.alloc(), &entry)?;
                printed.push_str(line.as_str())?;
            }
            Ok(None) => {
                let end = format!(in rt.alloc(); "end {count}\n")?;
                printed.push_str(end.as_str())?;
                return Ok(Ok(printed));
            }
            Err(fault) => return Ok(Err(fault)),
        }
    }
    panic!(rt; "a text with more lines than octets");
}

// Reads a text, and compares with what the rules say of it.
fn check(rt: &(impl Abort + AllocGlobal), config: &Config, text: &[u8]) -> Result<(), Fail> {
    let outcome = read(rt, config, text)?;
    match (outcome, first_bad_line(text)) {
        (Ok(printed), None) => assert_eq!(rt; printed.as_bytes(), text),
        (Err(TextFault::BadLine { line }), Some(bad)) => assert_eq!(rt; line, bad as u64),
        (Ok(_), Some(bad)) => panic!(rt; "line {bad} is bad"),
        (Err(fault), _) => panic!(rt; "{fault}"),
    }
    Ok(())
}

fn config_of(rt: &(impl Abort + AllocGlobal)) -> Config {
    match Config::read(rt.alloc(), CONFIG.as_bytes()) {
        Ok(config) => config,
        Err(fault) => panic!(rt; "{fault}"),
    }
}

#[test]
fn reads_each_kind_back(rt: HostRuntime) -> Result<(), Fail> {
    let config = config_of(&rt);
    match read(&rt, &config, TEXT.as_bytes())? {
        Ok(printed) => assert_eq!(rt; printed.as_str(), TEXT),
        Err(fault) => panic!(rt; "{fault}"),
    }
    Ok(())
}

// Checks that the line of this number is the first bad one of a text.
fn check_bad(
    rt: &(impl Abort + AllocGlobal),
    config: &Config,
    number: &str,
    text: &str,
) -> Result<(), Fail> {
    match read(rt, config, text.as_bytes())? {
        Err(TextFault::BadLine { line }) => {
            let bad = format!(in rt.alloc(); "{line}")?;
            assert_eq!(rt; bad.as_str(), number, "of {text}");
        }
        _ => panic!(rt; "read {text}"),
    }
    Ok(())
}

#[test]
fn reads_no_first_line_of_another_form(rt: HostRuntime) -> Result<(), Fail> {
    let config = config_of(&rt);
    for line in NO_FORM.lines() {
        let text = format!(in rt.alloc(); "{line}\nend 0\n")?;
        check_bad(&rt, &config, "1", text.as_str())?;
        check(&rt, &config, text.as_bytes())?;
    }
    Ok(())
}

// The text that a row writes.
fn text_of(alloc: Global, row: &str) -> Result<String, AllocError> {
    let mut text = String::from_str(alloc, "ilp-journal 2 1")?;
    for line in row.split('~') {
        text.push_str("\n")?;
        text.push_str(line)?;
    }
    Ok(text)
}

#[test]
fn names_the_first_bad_line(rt: HostRuntime) -> Result<(), Fail> {
    let config = config_of(&rt);
    for row in BAD.lines() {
        let Some((number, lines)) = row.split_once(':') else {
            panic!(rt; "no number in {row}");
        };
        let text = text_of(rt.alloc(), lines)?;
        check_bad(&rt, &config, number, text.as_str())?;
        check(&rt, &config, text.as_bytes())?;
    }
    Ok(())
}

#[test]
fn reads_what_a_period_begins_with_in_its_form_alone(rt: HostRuntime) -> Result<(), Fail> {
    let config = config_of(&rt);
    for line in LATER_ALONE.lines() {
        let later = format!(in rt.alloc(); "ilp-journal 2 1\n{line}\nend 1\n")?;
        check(&rt, &config, later.as_bytes())?;
        assert!(rt; read(&rt, &config, later.as_bytes())?.is_ok());
        let first = format!(in rt.alloc(); "ilp-journal 1\n{line}\nend 1\n")?;
        check_bad(&rt, &config, "2", first.as_str())?;
        let logged = format!(in rt.alloc(); "7 1 asked bob 10\n{line}\n")?;
        check_log(&rt, &config, logged.as_bytes());
    }
    Ok(())
}

// Checks that the second line of a log is its first bad one.
fn check_log(rt: &(impl Abort + AllocGlobal), config: &Config, logged: &[u8]) {
    let mut lines = JournalLines::begin(logged);
    match lines.next(config) {
        Ok(Some(_)) => {}
        _ => panic!(rt; "no first line"),
    }
    match lines.next(config) {
        Err(TextFault::BadLine { line }) => assert_eq!(rt; line, 2),
        _ => panic!(rt; "a log that brings forward"),
    }
}

#[test]
fn reads_no_text_that_is_cut(rt: HostRuntime) -> Result<(), Fail> {
    let config = config_of(&rt);
    let text = TEXT.as_bytes();
    for end in 0..=text.len() {
        check(&rt, &config, &text[..end])?;
    }
    Ok(())
}

#[test]
fn reads_what_a_changed_text_says(rt: HostRuntime) -> Result<(), Fail> {
    let config = config_of(&rt);
    let mut text = Vec::from_slice(rt.alloc(), TEXT.as_bytes())?;
    check_changes(&rt, &config, text.as_mut_slice())
}

// Checks a text with each octet changed in turn.
fn check_changes(
    rt: &(impl Abort + AllocGlobal),
    config: &Config,
    text: &mut [u8],
) -> Result<(), Fail> {
    for place in 0..text.len() {
        check_octets(rt, config, text, place)?;
    }
    Ok(())
}

// Checks a text with the octet at a place changed.
fn check_octets(
    rt: &(impl Abort + AllocGlobal),
    config: &Config,
    text: &mut [u8],
    place: usize,
) -> Result<(), Fail> {
    let Some(kept) = text.get(place).copied() else {
        return Ok(());
    };
    for other in OTHERS {
        if let Some(octet) = text.get_mut(place) {
            *octet = other;
        }
        check(rt, config, text)?;
    }
    if let Some(octet) = text.get_mut(place) {
        *octet = kept;
    }
    Ok(())
}
