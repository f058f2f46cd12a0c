//! Whose payouts are paused, and what a period leaves of the turns with settlement engines to the next one.
ghost use Rattle.std.specs.Prelude.{◌≡◌, ◌++◌, ◌∷◌, [], ◌<◌, ◌≤◌, ℕ, pos, List, map, codes, length, replicate, OnOk, OnErr, IfOk, string_bytes, if◌then◌else◌};
ghost use Rattle.ilp_report.specs.Report.{line};
ghost use Rattle.ilp_shared.specs.Payouts.{is_among, without, peer_line, paused_lines};

use ilp_accounts::Config;
use std::alloc::{AllocError, Global};
use std::sync::atomic::{AtomicBool, Ordering};
use std::sync::{Mutex, Wait};
use std::time::Duration;

// How wide the report's column of names is.
const NAME_WIDTH: usize = 20;

/// The peers whose payouts are paused: their settlement engines are asked for no new settlement; and what is left of
/// peers' turns from one period to the next. It is by names, since a reload may change the places of peers. Threads
/// share it by reference.
#[derive(Drop)]
pub struct Payouts {
    // Whether somebody is named. It is written under the lock.
    has_any: AtomicBool,
    named: Mutex<Vec<String>>,
    left: Mutex<Vec<LeftOfPeer>>,
}

/// What a period leaves of a peer's turns to the next one. Times are by the clock that never goes back.
#[derive(Clone, Copy, Debug, PartialEq, Eq)]
pub struct LeftTurns {
    /// Since when the peer's balance is seen at its threshold or above, if it is.
    pub reached: Option<Duration>,
    /// How long the last pause was after a refusal, in milliseconds; 0 where none was since a settlement was accepted.
    pub pause: u64,
    /// Behind a pause, when the next turn begins.
    pub until: Duration,
}

// What is left of the turns of the peer of this name.
#[derive(Drop)]
struct LeftOfPeer {
    name: String,
    turns: LeftTurns,
}

impl Payouts {
    /// Nobody's are paused, and no period was before.
    pub fn new(alloc: Global) -> Payouts {
        Payouts {
            has_any: AtomicBool::new(false),
            named: Mutex::new(Vec::new(alloc)),
            left: Mutex::new(Vec::new(alloc)),
        }
    }

    /// Those of the peer of this name are paused from now on. Where memory is denied all is as it was.
    pub fn pause(&self, rt: &impl Wait, alloc: Global, name: &str) -> Result<(), AllocError> {
        let mut named = self.named.lock(rt);
        add(&mut named, alloc, name)?;
        self.has_any.store(true, Ordering::SeqCst);
        Ok(())
    }

    /// Those of the peer of this name go on.
    pub fn resume(&self, rt: &impl Wait, name: &str) {
        let mut named = self.named.lock(rt);
        remove(&mut named, name);
        self.has_any.store(!named.is_empty(), Ordering::SeqCst);
    }

    /// Whether those of the peer of this name are paused. Where nobody's are this takes no lock.
    pub fn is_paused(&self, rt: &impl Wait, name: &str) -> bool {
        self.has_any.load(Ordering::SeqCst) && is_among(&self.named.lock(rt), name)
    }

    /// The lines that the report has of the peers whose payouts are paused, in the configuration's order.
    /// Where nobody's are this takes no lock and no memory.
    pub fn lines(&self, rt: &impl Wait, config: &Config) -> Result<Vec<u8>, AllocError>
        ensures { IfOk result (λ lines. (named : List (List ℕ))
            × (lines.items ≡ paused_lines named config.now)) }
    {
        if self.has_any.load(Ordering::SeqCst) {
            return lines_of(&self.named.lock(rt), config);
        }
        lines_of(&[], config)
    }

    /// What the period before left of the turns of the peer of this name.
    pub fn left(&self, rt: &impl Wait, name: &str) -> Option<LeftTurns> {
        let left = self.left.lock(rt);
        let found = left.iter().find(|of_peer| of_peer.name.as_str() == name)?;
        Some(found.turns)
    }

    /// Leaves the turns of the peer of this name to the next period. Where memory is denied they begin anew there: at
    /// once, and its payouts wait anew.
    pub fn leave(&self, rt: &impl Wait, alloc: Global, name: &str, turns: LeftTurns) {
        let mut left = self.left.lock(rt);
        if let Ok(name) = String::from_str(alloc, name) {
            let _ = left.push(LeftOfPeer { name, turns });
        }
    }

    /// Forgets what the period before left of all peers.
    pub fn forget_left(&self, rt: &impl Wait) {
        self.left.lock(rt).clear();
    }
}

// Adds a name, unless it is there.
fn add(named: &mut Vec<String>, alloc: Global, name: &str) -> Result<(), AllocError>
    ensures ok { OnOk result (map string_bytes named.new.items
        ≡ (if is_among (map string_bytes named.old.items) name.now then map string_bytes named.old.items
        else map string_bytes named.old.items ++ name.now ∷ [])) }
    ensures err { OnErr result (named.new.items ≡ named.old.items) }
{
    if is_among(named, name) {
        return Ok(());
    }
    let name = String::from_str(alloc, name)?;
    match named.push(name) {
        Ok(()) => Ok(()),
        Err(_) => Err(AllocError),
    }
}

// Removes a name, if it is there.
fn remove(named: &mut Vec<String>, name: &str)
    ensures { map string_bytes named.new.items ≡ without name.now (map string_bytes named.old.items) }
{
    named.retain(|other| other.as_str() != name);
}

// Whether a name is there.
fn is_among(named: &[String], name: &str) -> bool
    ensures { result ≡ is_among (map string_bytes named.now) name.now }
{
    named.iter().any(|other| other.as_str() == name)
}

// The lines of the peers that are named.
fn lines_of(named: &[String], config: &Config) -> Result<Vec<u8>, AllocError>
    ensures { IfOk result (λ lines. lines.items ≡ paused_lines (map string_bytes named.now) config.now) }
{
    let mut lines = Vec::new(config.allocator());
    for peer in 0..config.peers() {
        put_peer(&mut lines, named, config, peer)?;
    }
    Ok(lines)
}

// Puts the line of a peer, if it is named.
fn put_peer(
    lines: &mut Vec<u8>,
    named: &[String],
    config: &Config,
    peer: u32,
) -> Result<(), AllocError>
    requires { peer < length config.now.peers }
    ensures { OnOk result (lines.new.items ≡ lines.old.items ++ peer_line (map string_bytes named.now) config.now peer) }
{
    let name = config.name(peer);
    if is_among(named, name) {
        put_line(lines, name)?;
    }
    Ok(())
}

// Puts the line of this name.
fn put_line(lines: &mut Vec<u8>, name: &str) -> Result<(), AllocError>
    ensures { OnOk result (lines.new.items ≡ lines.old.items ++ line (codes "paused") name.now (pos 1)) }
{
    lines.extend_from_slice(b"paused    ")?;
    lines.extend_from_slice(name.as_bytes())?;
    put_spaces(lines, NAME_WIDTH.saturating_sub(name.len()))?;
    lines.extend_from_slice(b"                             1\n")?;
    Ok(())
}

// Puts so many spaces.
fn put_spaces(lines: &mut Vec<u8>, count: usize) -> Result<(), AllocError>
    requires { count ≤ NAME_WIDTH }
    ensures { OnOk result (lines.new.items ≡ lines.old.items ++ replicate count 32) }
{
    let spaces = [b' '; NAME_WIDTH];
    lines.extend_from_slice(&spaces[..count])
}
