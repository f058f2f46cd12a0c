//! What a start would change of what is remembered.
ghost use Rattle.std.specs.Prelude.{◌≡◌, ◌<◌, ◌↔◌, length, IfOk, IsTrue};
ghost use Rattle.ilp_remembered.specs.Remembered as remembered;
ghost use Rattle.ilp_remembered.specs.Remembered.{FindsChange, FindsRun, FirstOf, IsChanged, is_of_another};

use crate::hanging::{is_counted, is_unsettled};
use crate::lines::{is_other, is_whole};
use crate::text::{peer_line, run_line};
use ilp_accounts::Config;
use ilp_book::Book;
use std::alloc::{AllocError, Global};

/// What a configuration has otherwise than a journal remembers it, where that would make the book false.
#[derive(Clone, Copy, Debug, PartialEq, Eq)]
pub enum Change {
    /// It has another run, and a settlement with this peer is open, which would be asked for under another
    /// key.
    Run { peer: u32 },
    /// This peer has another asset, and something is counted in it.
    Asset { peer: u32 },
}

/// What the configuration of a book has otherwise than this text says, which was remembered of the one
/// before; and nothing where that matters to no entry, or the text is not whole.
///
/// It is refused where memory is short alone.
#[tactic(auto, using(crate::proofs::Found::changes_whole))]
pub fn change_of(alloc: Global, book: &Book, text: &[u8]) -> Result<Option<Change>, AllocError>
    ensures { IfOk result (FindsChange book.now.config book.now.entries text.now) }
{
    if !is_whole(text) {
        return Ok(None);
    }
    match changed_run(alloc, book, text)? {
        Some(peer) => Ok(Some(Change::Run { peer })),
        None => match first_changed(alloc, book, text)? {
            Some(peer) => Ok(Some(Change::Asset { peer })),
            None => Ok(None),
        },
    }
}

/// Whether a text that is whole names another run than this configuration, or another asset of the peer, be it that
/// nothing hangs on them: keys and amounts would be told otherwise.
///
/// It is refused where memory is short alone.
pub fn is_of_another(
    alloc: Global,
    config: &Config,
    text: &[u8],
    peer: u32,
) -> Result<bool, AllocError>
    requires { peer < length config.now.peers }
    ensures { IfOk result (λ other. other ≡ is_of_another config.now text.now peer) }
{
    Ok(
        is_whole(text)
            && (has_other_run(alloc, config, text)? || has_other_asset(alloc, config, text, peer)?),
    )
}

// The first peer with which a settlement is open, where a text names another run.
fn changed_run(alloc: Global, book: &Book, text: &[u8]) -> Result<Option<u32>, AllocError>
    ensures { IfOk result (FindsRun book.now.config book.now.entries text.now) }
{
    if has_other_run(alloc, book.config(), text)? {
        Ok(first_unsettled(book))
    } else {
        Ok(None)
    }
}

// Whether a text names another run.
fn has_other_run(alloc: Global, config: &Config, text: &[u8]) -> Result<bool, AllocError>
    ensures { IfOk result (λ other. other ≡ remembered.has_other_run config.now text.now) }
{
    let line = run_line(alloc, config)?;
    Ok(is_other(text, b"run ", line.as_bytes()))
}

// Whether it has another asset of a peer.
fn has_other_asset(
    alloc: Global,
    config: &Config,
    text: &[u8],
    peer: u32,
) -> Result<bool, AllocError>
    requires { peer < length config.now.peers }
    ensures { IfOk result (λ other. other ≡ remembered.has_other_asset config.now text.now peer) }
{
    let line = peer_line(alloc, config, peer)?;
    let name = config.name(peer);
    let front = format!(in alloc; "peer {name} ")?;
    Ok(is_other(text, front.as_bytes(), line.as_bytes()))
}

// The first peer with which a settlement is open.
fn first_unsettled(book: &Book) -> Option<u32>
    ensures { FirstOf (remembered.IsUnsettled book.now.entries) (length book.now.config.peers) result }
{
    for peer in 0..book.config().peers() {
        if is_unsettled(book, peer) {
            return Some(peer);
        }
    }
    None
}

// The first peer in whose asset something is counted, and of which a text has another.
fn first_changed(alloc: Global, book: &Book, text: &[u8]) -> Result<Option<u32>, AllocError>
    ensures { IfOk result (FirstOf (IsChanged book.now.config book.now.entries text.now)
        (length book.now.config.peers)) }
{
    let config = book.config();
    for peer in 0..config.peers() {
        if is_changed(alloc, book, text, peer)? {
            return Ok(Some(peer));
        }
    }
    Ok(None)
}

// Whether something is counted in a peer's asset, of which a text has another. Few are other ones, so that is asked first.
fn is_changed(alloc: Global, book: &Book, text: &[u8], peer: u32) -> Result<bool, AllocError>
    requires { peer < length book.now.config.peers }
    ensures { IfOk result (λ is. IsTrue is ↔ IsChanged book.now.config book.now.entries text.now peer) }
{
    if !has_other_asset(alloc, book.config(), text, peer)? {
        return Ok(false);
    }
    Ok(is_counted(book, peer))
}
