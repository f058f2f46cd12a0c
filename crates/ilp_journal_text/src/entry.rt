//! The line of an entry.
ghost use Rattle.std.specs.Prelude.{◌≡◌, ◌+◌, ◌<◌, ◌≤◌, ◌^◌, ◌++◌, ◌∷◌, [], length, FitsSigned};
ghost use Rattle.std.specs.Int.{w64};
ghost use Rattle.std.specs.List.{flat_map};
ghost use Rattle.hex.specs.Hex.{IsBytes, encode_lower};
ghost use Rattle.ilp_journal.specs.Keys.{IsKey};
ghost use Rattle.ilp_journal_text.specs.Reading.{CauseStands, KindStands, CreditIsTyped, HasNoNul, HoldIsTyped, IsLine, IsTyped, WhatIsTyped};
ghost use Rattle.ilp_journal_text.specs.Text.{after_space, name_at, cause_fields, kind_fields, credit_word, credited_fields, what_fields, entry_line};

use crate::line::Line;
use ilp_accounts::Config;
use ilp_journal::{Cause, CreditKind, Credited, Entry, Hold, Key, Reason, What};

// The most octets that stand before what an entry's line tells.
const LONGEST_FRONT: usize = 81;

// The most octets of the word for what happened, with the space before it.
const LONGEST_WORD: usize = 10;

/// The line of an entry, as it stands in the text of a journal, with the peers' names in the
/// configuration. A peer that isn't there has no name. Its only line feed is its end, and no octet of it
/// is NUL. No memory is taken.
///
/// It tells too that the numbers of the entry are of their types, as those that a text may have.
pub fn entry_line(config: &Config, entry: &Entry) -> Line
    ensures octets { result ≡ entry_line config.now entry.now }
    ensures line { IsLine result }
    ensures no_nul { HasNoNul result }
    ensures typed { IsTyped entry.now }
{
    // Tells that the configuration is valid.
    let _ = config.peers();
    let mut line = Line::at(entry.moment);
    line.number(u64::from(entry.actor));
    put_what(&mut line, config, &entry.what);
    line.end();
    line
}

// Adds what happened.
fn put_what(line: &mut Line, config: &Config, what: &What)
    requires front { length line.old ≤ LONGEST_FRONT }
    ensures octets { line.new ≡ line.old ++ flat_map after_space (what_fields config.now what.now) }
    ensures short { length line.new ≤ 767 }
    ensures typed { WhatIsTyped what.now }
{
    match what {
        What::Hold(hold) => put_hold(line, config, hold),
        What::Fulfilled { hold, preimage } => {
            line.word("fulfilled");
            line.number(u64::from(*hold));
            line.hexadecimal(preimage);
        }
        What::Released { hold, cause } => {
            line.word("released");
            line.number(u64::from(*hold));
            put_cause(line, *cause);
        }
        What::Credited(credited) => {
            line.word(credit_word(&credited.kind));
            put_credit(line, config, credited);
        }
        What::Asked(ask) => {
            line.word("asked");
            line.word(name_of(config, ask.peer));
            line.number(ask.amount);
        }
        What::Confirmed { ask } => {
            line.word("confirmed");
            line.number(u64::from(*ask));
        }
        What::Undone { ask } => {
            line.word("undone");
            line.number(u64::from(*ask));
        }
        What::Opened { peer, balance } => put_opened(line, config, *peer, *balance),
        What::Known(credited) => {
            line.word("known");
            put_credit(line, config, credited);
        }
        What::Pending { peer, amount, key } => put_pending(line, config, *peer, *amount, key),
    }
}

// Adds a hold.
fn put_hold(line: &mut Line, config: &Config, hold: &Hold)
    requires front { length line.old ≤ LONGEST_FRONT }
    ensures octets { line.new ≡ line.old
        ++ flat_map after_space (what_fields config.now (What.Hold hold.now)) }
    ensures short { length line.new ≤ 511 }
    ensures typed { HoldIsTyped hold.now }
{
    line.word("hold");
    line.word(name_of(config, hold.from));
    line.word(name_of(config, hold.to));
    line.number(hold.amount);
    line.number(hold.fee);
    line.number(hold.out);
    line.signed_number(hold.deadline);
    line.hexadecimal(&hold.condition);
}

// The word of a credit, and that of a correction.
fn credit_word(kind: &CreditKind) -> &'static str
    ensures word { result.now ≡ credit_word kind.now }
    ensures short { length result.now + 1 ≤ LONGEST_WORD }
{
    match kind {
        CreditKind::Settled => "credited",
        CreditKind::Raised(_) | CreditKind::Lowered(_) => "corrected",
    }
}

// Adds what a credit or a correction tells.
fn put_credit(line: &mut Line, config: &Config, credited: &Credited)
    requires front { length line.old ≤ LONGEST_FRONT + LONGEST_WORD }
    ensures octets { line.new ≡ line.old
        ++ flat_map after_space (credited_fields config.now credited.now) }
    ensures short { length line.new ≤ 767 }
    ensures typed { CreditIsTyped credited.now }
{
    line.word(name_of(config, credited.peer));
    line.hexadecimal(credited.key.as_slice());
    line.wide_number(credited.named);
    line.number(u64::from(credited.scale));
    line.number(credited.credited);
    put_kind(line, &credited.kind);
}

// Adds which way a correction goes, and why.
fn put_kind(line: &mut Line, kind: &CreditKind)
    requires front { length line.old ≤ 490 }
    ensures octets { line.new ≡ line.old ++ flat_map after_space (kind_fields kind.now) }
    ensures short { length line.new ≤ 767 }
    ensures typed { KindStands kind.now }
{
    match kind {
        CreditKind::Settled => {}
        CreditKind::Raised(reason) => put_correction(line, "rises", reason),
        CreditKind::Lowered(reason) => put_correction(line, "falls", reason),
    }
}

// Adds the word of a direction, and a reason.
fn put_correction(line: &mut Line, way: &str, reason: &Reason)
    requires front { length line.old ≤ 490 }
    requires way { length way.now ≤ LONGEST_WORD }
    ensures octets { line.new ≡ line.old
        ++ flat_map after_space (way.now ∷ encode_lower reason.now ∷ []) }
    ensures short { length line.new ≤ 767 }
    ensures typed { IsKey reason.now × IsBytes reason.now }
{
    line.word(way);
    line.hexadecimal(reason.as_slice());
}

// Adds a balance that is brought forward.
fn put_opened(line: &mut Line, config: &Config, peer: u32, balance: i64)
    requires front { length line.old ≤ LONGEST_FRONT }
    ensures octets { line.new ≡ line.old
        ++ flat_map after_space (what_fields config.now (What.Opened peer balance)) }
    ensures short { length line.new ≤ 511 }
    ensures typed { FitsSigned w64 balance }
{
    line.word("opened");
    line.word(name_of(config, peer));
    line.signed_number(balance);
}

// Adds a settlement that is still open.
fn put_pending(line: &mut Line, config: &Config, peer: u32, amount: u64, key: &Key)
    requires front { length line.old ≤ LONGEST_FRONT }
    ensures octets { line.new ≡ line.old
        ++ flat_map after_space (what_fields config.now (What.Pending peer amount key.now)) }
    ensures short { length line.new ≤ 511 }
    ensures typed { (amount < 2 ^ 64) × (IsKey key.now × IsBytes key.now) }
{
    line.word("pending");
    line.word(name_of(config, peer));
    line.number(amount);
    line.hexadecimal(key.as_slice());
}

// Adds why a hold was released.
fn put_cause(line: &mut Line, cause: Cause)
    requires front { length line.old ≤ 200 }
    ensures octets { line.new ≡ line.old ++ flat_map after_space (cause_fields cause) }
    ensures short { length line.new ≤ 511 }
    ensures typed { CauseStands cause }
{
    match cause {
        Cause::Late => line.word("Late"),
        Cause::WrongPreimage => line.word("WrongPreimage"),
        Cause::NoReply => line.word("NoReply"),
        Cause::Restart => line.word("Restart"),
        Cause::Peer(code) => {
            line.word("Peer");
            line.hexadecimal(&code);
        }
    }
}

// The name of a peer, empty where there is no such peer.
fn name_of(config: &Config, peer: u32) -> &str
    ensures name { result.now ≡ name_at config.now peer }
    ensures short { length result.now ≤ 16 }
{
    if peer < config.peers() {
        config.name(peer)
    } else {
        ""
    }
}
