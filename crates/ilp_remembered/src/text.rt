//! The text of a configuration.
ghost use Rattle.std.specs.Prelude.{◌≡◌, ◌<◌, length, string_bytes, IfOk};
ghost use Rattle.std.specs.List.{flat_map};
ghost use Rattle.ilp_accounts.specs.Configuration.{peer_at};
ghost use Rattle.ilp_remembered.specs.Remembered as remembered;

use ilp_accounts::Config;
use ilp_assets::Asset;
use std::alloc::{AllocError, Global};

/// What is to be remembered of a configuration, as a text: its first line names the form, then comes a line
/// of the run and one of each peer, and the last is `end`.
pub fn remembered_text(alloc: Global, config: &Config) -> Result<String, AllocError>
    ensures { IfOk result (λ t. string_bytes t ≡ remembered.remembered_text config.now) }
{
    let run = run_line(alloc, config)?;
    let peers = peer_lines(alloc, config)?;
    format!(in alloc; "ilp-remembered 1\n{run}\n{peers}end\n")
}

/// The line of the run, without its end.
pub fn run_line(alloc: Global, config: &Config) -> Result<String, AllocError>
    ensures { IfOk result (λ t. string_bytes t ≡ remembered.run_line config.now.settings.run) }
{
    let run = config.run();
    format!(in alloc; "run {run}")
}

/// The line of a peer, without its end: its name and its asset.
pub fn peer_line(alloc: Global, config: &Config, peer: u32) -> Result<String, AllocError>
    requires { peer < length config.now.peers }
    ensures { IfOk result (λ t. string_bytes t ≡ remembered.peer_line (peer_at config.now peer).name
        (remembered.asset_of config.now (peer_at config.now peer))) }
{
    let name = config.name(peer);
    let asset = config
        .assets()
        .asset(config.asset(peer))
        .unwrap_or(Asset { code: "", scale: 0 });
    let (code, scale) = (asset.code, asset.scale);
    format!(in alloc; "peer {name} {code} {scale}")
}

// The lines of all peers.
fn peer_lines(alloc: Global, config: &Config) -> Result<String, AllocError>
    ensures { IfOk result (λ t. string_bytes t ≡
        flat_map (remembered.whole_peer_line config.now) config.now.peers) }
{
    let mut lines = String::new(alloc);
    for peer in 0..config.peers() {
        lines.push_str(peer_line(alloc, config, peer)?.as_str())?;
        lines.push_str("\n")?;
    }
    Ok(lines)
}
