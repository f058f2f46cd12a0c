//! Configurations read to their end, up to their limit and where a read fails.

use ilp_accounts::{Config, Levels};
use ilp_config_file::{BUILT_IN, read_config};
use ilp_io::Pieces;
use ilp_refusals::Refusal;
use std::alloc::{AllocError, Global};
use std::process::Abort;
use std::test::Fail;

// How many octets are read of a source of so many, in pieces.
fn read_of(
    alloc: Global,
    count: usize,
    piece: usize,
) -> Result<Result<usize, Refusal>, AllocError> {
    let octets = vec![in alloc; b'#'; count]?;
    let mut reader = Pieces::new(&octets, piece.max(1));
    match read_config(alloc, &mut reader) {
        Ok(read) => Ok(Ok(read.len())),
        Err(refusal) => Ok(Err(refusal)),
    }
}

#[test]
fn reads_configurations_up_to_their_limit(rt: HostRuntime) -> Result<(), Fail> {
    for (count, piece, expected) in [
        (0, 1, Ok(0)),
        (1_000, 7, Ok(1_000)),
        (1_048_576, 4096, Ok(1_048_576)),
        (1_048_576, 1_000, Ok(1_048_576)),
        (1_048_577, 4096, Err(Refusal::ConfigUnread)),
        (1_048_577, 1_000, Err(Refusal::ConfigUnread)),
        (1_100_000, 4096, Err(Refusal::ConfigUnread)),
    ] {
        assert_eq!(rt;
            read_of(rt.alloc(), count, piece)?,
            expected,
            "of {count} octets"
        );
    }
    Ok(())
}

#[test]
fn reads_the_whole_of_a_configuration(rt: HostRuntime) -> Result<(), Fail> {
    let mut reader = Pieces::new(BUILT_IN.as_bytes(), 10);
    let octets = read_config(rt.alloc(), &mut reader)?;
    assert_eq!(rt; octets.as_slice(), BUILT_IN.as_bytes());
    let mut again = BUILT_IN.as_bytes();
    assert_eq!(rt; read_config(rt.alloc(), &mut again)?.len(), BUILT_IN.len());
    Ok(())
}

#[test]
fn reads_no_configuration_where_a_read_fails(rt: HostRuntime) {
    for place in [0, 1, 100, BUILT_IN.len()] {
        let mut reader = Pieces::failing(BUILT_IN.as_bytes(), 50, place);
        let outcome = read_config(rt.alloc(), &mut reader);
        assert!(rt; matches!(outcome, Err(Refusal::ConfigUnread)), "at {place}");
        assert_eq!(rt; reader.failures, 1);
    }
}

#[test]
fn reads_the_terms_of_the_built_in_configuration(rt: HostRuntime) -> Result<(), Fail> {
    let config = Config::read(rt.alloc(), BUILT_IN.as_bytes())?;
    assert_terms(&rt, &config);
    Ok(())
}

// What alice and bob may owe, when bob is settled with, and where packets for each go.
fn assert_terms(rt: &impl Abort, config: &Config) {
    assert!(rt; config.peers() == 2);
    assert_eq!(rt; (config.name(0), config.name(1)), ("alice", "bob"));
    assert_eq!(rt; (config.least(0), config.least(1)), (-100, -100));
    assert_eq!(rt; (config.fee_ppm(0), config.fee_ppm(1)), (0, 0));
    assert_eq!(rt; (config.scale(0), config.scale(1)), (2, 2));
    assert_eq!(rt; config.levels(0), None);
    let levels = Levels {
        threshold: 1_000,
        settle_to: 200,
        settle_max: u64::MAX,
    };
    assert_eq!(rt; config.levels(1), Some(levels));
    assert_eq!(rt; config.routes(), 2);
    assert_eq!(rt; config.route(b"test.alice"), Some(0));
    assert_eq!(rt; config.route(b"test.bob"), Some(1));
}
