//! The first two lines of a log's file.
ghost use Rattle.std.specs.Prelude.{◌≡◌, string_bytes, IfOk};
ghost use Rattle.hex.specs.Hex.{IsBytes, encode_lower};
ghost use Rattle.ilp_line_file.specs.Text.{text_of, AreLines};
ghost use Rattle.ilp_log_text.specs.Head.{head_lines, second_line};

use ilp_accounts::Config;
use ilp_remembered::{peer_line, run_line};
use sha2::{Digest, Sha256};
use std::alloc::{AllocError, Global};

/// The first two lines of a log that goes on from this text of a journal of `count` entries, each
/// with its end: the number and the text's digest, and what is remembered of the run by this
/// configuration. Where no text was saved yet, it is that of nothing, and `count` is 0.
///
/// Neither line has a NUL, or a line end within it. It is refused where memory is short alone.
pub fn head_text(
    alloc: Global,
    config: &Config,
    count: u32,
    saved: &[u8],
) -> Result<String, AllocError>
    ensures text { IfOk result (λ head.
        string_bytes head ≡ text_of (head_lines config.now count saved.now)) }
    ensures lines { AreLines (head_lines config.now count saved.now) }
{
    // Tells that the configuration is valid.
    let _ = config.peers();
    let digest = digits_of(alloc, Sha256::digest(saved).as_slice())?;
    let second = second_line(alloc, config)?;
    format!(in alloc; "ilp-log 1 {count} {digest}\n{second}\n")
}

// The hexadecimal digits of a digest.
fn digits_of(alloc: Global, digest: &[u8]) -> Result<String, AllocError>
    ensures digits { IfOk result (λ digits. string_bytes digits ≡ encode_lower digest.now) }
    ensures octets { IsBytes digest.now }
{
    hex::encode(alloc, digest)
}

// The second line, without its end.
fn second_line(alloc: Global, config: &Config) -> Result<String, AllocError>
    ensures { IfOk result (λ line. string_bytes line ≡ second_line config.now) }
{
    let mut line = run_line(alloc, config)?;
    for peer in 0..config.peers() {
        line.push_str("; ")?;
        line.push_str(peer_line(alloc, config, peer)?.as_str())?;
    }
    Ok(line)
}
