//! Configurations of what is remembered: they name peers, their assets and the run, and say nothing else that counts.

use ilp_accounts::{Config, ConfigFault};
use std::alloc::{AllocError, Global};
use std::str;

// The line with which what is kept of a configuration begins, and what stands behind its lines, before the digest of its
// file.
const FIRST_LINE: &str = "ilp-remembered 1\n";

const BEFORE_DIGEST: &str = "\nend\nconfig ";

// How many octets a digest's hexadecimal digits have, and the end of their line.
const DIGEST_OCTETS: usize = 65;

// What stands at the top beside the run, and in each table of a peer beside its name, its asset and its token. None of
// it is looked at.
const TOP: &str = "address = \"test.remembered\"";

const PEER: &str = "out_token = \"none\"\nhost = \"127.0.0.1:1\"\nleast = 0";

/// What names the peers of a period that ended and of the one behind it.
#[derive(Drop)]
pub(crate) struct Between {
    pub(crate) ended: Config,
    pub(crate) next: Config,
}

/// The configurations between which a period ended, by what is kept of both; nothing where that is not whole. It is
/// refused where memory is short alone.
pub(crate) fn between_of(alloc: Global, octets: &[u8]) -> Result<Option<Between>, AllocError> {
    let Some((before, behind)) = texts_in(octets) else {
        return Ok(None);
    };
    let Some(ended) = config_of(alloc, before)? else {
        return Ok(None);
    };
    match config_of(alloc, behind)? {
        Some(next) => Ok(Some(Between { ended, next })),
        None => Ok(None),
    }
}

// The lines that name the peers in each of two texts that are whole.
fn texts_in(octets: &[u8]) -> Option<(&str, &str)> {
    let text = str::from_utf8(octets).ok()?;
    let (before, behind) = text.strip_prefix(FIRST_LINE)?.split_once(FIRST_LINE)?;
    Some((lines_in(before)?, lines_in(behind)?))
}

// The lines that name the peers, where a whole digest stands behind them.
fn lines_in(text: &str) -> Option<&str> {
    let (lines, digest) = text.split_once(BEFORE_DIGEST)?;
    let is_whole = digest.len() == DIGEST_OCTETS && digest.ends_with('\n');
    is_whole.then_some(lines)
}

// The configuration that has this run, these peers and their assets; none where the lines name none.
fn config_of(alloc: Global, lines: &str) -> Result<Option<Config>, AllocError> {
    let Some(text) = toml_of(alloc, lines)? else {
        return Ok(None);
    };
    match Config::read(alloc, text.as_bytes()) {
        Ok(config) => Ok(Some(config)),
        Err(ConfigFault::Memory) => Err(AllocError),
        Err(_) => Ok(None),
    }
}

// Its text; none where a line is none of what is remembered.
fn toml_of(alloc: Global, lines: &str) -> Result<Option<String>, AllocError> {
    let Some(run) = run_in(lines) else {
        return Ok(None);
    };
    let mut text = format!(in alloc; "{TOP}\nrun = \"{run}\"\n")?;
    let mut peers = String::new(alloc);
    for (place, line) in lines.lines().skip(1).enumerate() {
        let Some(peer) = peer_in(line) else {
            return Ok(None);
        };
        if is_first(lines, place, peer) {
            push_asset(alloc, &mut text, peer)?;
        }
        push_peer(alloc, &mut peers, place, peer)?;
    }
    text.push_str(peers.as_str())?;
    Ok(Some(text))
}

// What a line says of a peer.
#[derive(Clone, Copy)]
struct PeerLine<'t> {
    name: &'t str,
    code: &'t str,
    scale: &'t str,
}

// The run that the first line names.
fn run_in(lines: &str) -> Option<&str> {
    lines.lines().next()?.strip_prefix("run ")
}

// What a line says of a peer, if it is one of a peer.
fn peer_in(line: &str) -> Option<PeerLine<'_>> {
    let (name, asset) = line.strip_prefix("peer ")?.split_once(' ')?;
    let (code, scale) = asset.split_once(' ')?;
    Some(PeerLine { name, code, scale })
}

// Whether no peer before the one at a place has its asset.
fn is_first(lines: &str, place: usize, peer: PeerLine<'_>) -> bool {
    let mut before = lines.lines().skip(1).take(place);
    !before.any(|line| has_asset_of(line, peer))
}

fn has_asset_of(line: &str, peer: PeerLine<'_>) -> bool {
    match peer_in(line) {
        Some(other) => other.code == peer.code && other.scale == peer.scale,
        None => false,
    }
}

fn push_asset(alloc: Global, text: &mut String, peer: PeerLine<'_>) -> Result<(), AllocError> {
    let PeerLine { code, scale, .. } = peer;
    let table = format!(in alloc; "[[asset]]\ncode = \"{code}\"\nscale = {scale}\n")?;
    text.push_str(table.as_str())
}

// Its token is its place, since no two may have one.
fn push_peer(
    alloc: Global,
    text: &mut String,
    place: usize,
    peer: PeerLine<'_>,
) -> Result<(), AllocError> {
    let PeerLine { name, code, scale } = peer;
    let table = format!(in alloc;
        "[[peer]]\nname = \"{name}\"\nasset = \"{code}/{scale}\"\ntoken = \"{place}\"\n{PEER}\n"
    )?;
    text.push_str(table.as_str())
}
