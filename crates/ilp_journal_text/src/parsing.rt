//! An entry, from the fields of its line. Spellings that are not those of a text are taken too: the
//! reader writes the entry again and compares.
ghost use Rattle.std.specs.Prelude.{◌≡◌, ◌<◌, ◌^◌, ◌∷◌, [], ℕ, ℤ, List, codes, IfOk, FitsSigned};
ghost use Rattle.std.specs.Int.{w64};
ghost use Rattle.std.specs.Fmt.{decimal, signed_decimal};
ghost use Rattle.hex.specs.Hex.{IsBytes, encode_lower};
ghost use Rattle.ilp_journal.specs.Keys.{IsKey};
ghost use Rattle.ilp_accounts.specs.Configuration.{Configuration};
ghost use Rattle.ilp_journal.specs.declared.entry.What.{What as PlainWhat};
ghost use Rattle.ilp_journal.specs.declared.entry.Hold.{Hold as PlainHold};
ghost use Rattle.ilp_journal.specs.declared.entry.Credited.{Credited as PlainCredited};
ghost use Rattle.ilp_journal.specs.declared.credit_kind.CreditKind.{CreditKind as PlainKind};
ghost use Rattle.ilp_journal.specs.declared.credit_kind.CreditKind.TheVariants as PlainKinds;
ghost use Rattle.ilp_journal.specs.declared.entry.Ask.{Ask as PlainAsk};
ghost use Rattle.ilp_journal.specs.declared.entry.Cause.{Cause as PlainCause};
ghost use Rattle.ilp_journal.specs.declared.entry.Entry.{Entry as PlainEntry};
ghost use Rattle.ilp_journal_text.specs.Text.{name_at, what_fields, cause_fields, hold_fields, credited_fields, kind_fields};
ghost use Rattle.ilp_journal_text.specs.Reading.{IsPeer, AreOctets, CanStand, WhatStands, HoldStands, CreditStands, KindStands, CauseStands};
ghost use Rattle.ilp_journal_text.specs.Fields.{octets_of, entry_fields, kind_of, named_cause, Gives};

use crate::fields::{
    Fields, LineFault, amount_in, balance_in, key_in, moment_in, number_in, octets_in, peer_in,
    scale_in, wide_amount_in,
};
use ilp_accounts::Config;
use ilp_journal::{Ask, Cause, CreditKind, Credited, Entry, Hold, Reason, What};

// The kinds of what happened.
#[derive(Clone, Copy)]
enum Kind {
    Hold,
    Fulfilled,
    Released,
    /// A credit, or a correction.
    Credited,
    Asked,
    Confirmed,
    Undone,
    Opened,
    Known,
    Pending,
}

/// The entry of these fields.
pub(crate) fn entry_in(config: &Config, fields: &[&[u8]]) -> Result<Entry, LineFault>
    ensures read { (e : PlainEntry) → CanStand config.now e
        → octets_of fields.now ≡ entry_fields config.now e → Gives result e }
    ensures stands { IfOk result (CanStand config.now) }
{
    let [moment, actor, word, told @ ..] = fields else {
        return Err(LineFault::Bad);
    };
    Ok(Entry {
        moment: moment_in(moment)?,
        actor: number_in(actor)?,
        what: what_in(config, word, told)?,
    })
}

// What happened, by its word and what it tells.
fn what_in(config: &Config, word: &[u8], told: &[&[u8]]) -> Result<What, LineFault>
    ensures read { (w : PlainWhat) → WhatStands config.now w
        → word.now ∷ octets_of told.now ≡ what_fields config.now w → Gives result w }
    ensures stands { IfOk result (WhatStands config.now) }
{
    let Some(kind) = kind_of(word) else {
        return Err(LineFault::Bad);
    };
    match kind {
        Kind::Hold => hold_in(config, told),
        Kind::Fulfilled => fulfilled_in(told),
        Kind::Released => released_in(told),
        Kind::Credited => Ok(What::Credited(credit_in(config, told)?)),
        Kind::Asked => asked_in(config, told),
        Kind::Confirmed => Ok(What::Confirmed {
            ask: only_number_in(told)?,
        }),
        Kind::Undone => Ok(What::Undone {
            ask: only_number_in(told)?,
        }),
        Kind::Opened => opened_in(config, told),
        Kind::Known => Ok(What::Known(credit_in(config, told)?)),
        Kind::Pending => pending_in(config, told),
    }
}

// The kind of what has this word.
fn kind_of(word: &[u8]) -> Option<Kind>
    ensures { result ≡ kind_of word.now }
{
    if word == b"hold".as_slice() {
        Some(Kind::Hold)
    } else if word == b"fulfilled".as_slice() {
        Some(Kind::Fulfilled)
    } else if word == b"released".as_slice() {
        Some(Kind::Released)
    } else if word == b"credited".as_slice() {
        Some(Kind::Credited)
    } else if word == b"corrected".as_slice() {
        Some(Kind::Credited)
    } else if word == b"asked".as_slice() {
        Some(Kind::Asked)
    } else if word == b"confirmed".as_slice() {
        Some(Kind::Confirmed)
    } else if word == b"undone".as_slice() {
        Some(Kind::Undone)
    } else if word == b"opened".as_slice() {
        Some(Kind::Opened)
    } else if word == b"known".as_slice() {
        Some(Kind::Known)
    } else if word == b"pending".as_slice() {
        Some(Kind::Pending)
    } else {
        None
    }
}

// A hold.
fn hold_in(config: &Config, told: &[&[u8]]) -> Result<What, LineFault>
    ensures read { (h : PlainHold) → HoldStands config.now h
        → octets_of told.now ≡ hold_fields config.now h → result ≡ Ok (What.Hold h) }
    ensures stands { IfOk result (WhatStands config.now) }
{
    let [from, to, amount, fee, out, deadline, condition] = told else {
        return Err(LineFault::Bad);
    };
    Ok(What::Hold(Hold {
        from: peer_in(config, from)?,
        to: peer_in(config, to)?,
        amount: amount_in(amount)?,
        fee: amount_in(fee)?,
        out: amount_in(out)?,
        deadline: moment_in(deadline)?,
        condition: octets_in(condition)?,
    }))
}

// A fulfillment.
fn fulfilled_in(told: &[&[u8]]) -> Result<What, LineFault>
    ensures read { (n : ℕ) (p : List ℕ) → n < 2 ^ 32 → AreOctets 32 p
        → octets_of told.now ≡ decimal n ∷ encode_lower p ∷ [] → result ≡ Ok (What.Fulfilled n p) }
    ensures stands { (C : Configuration) → IfOk result (WhatStands C) }
{
    let [hold, preimage] = told else {
        return Err(LineFault::Bad);
    };
    Ok(What::Fulfilled {
        hold: number_in(hold)?,
        preimage: octets_in(preimage)?,
    })
}

// A release.
fn released_in(told: &[&[u8]]) -> Result<What, LineFault>
    ensures read { (n : ℕ) (c : PlainCause) → n < 2 ^ 32 → CauseStands c
        → octets_of told.now ≡ decimal n ∷ cause_fields c → result ≡ Ok (What.Released n c) }
    ensures stands { (C : Configuration) → IfOk result (WhatStands C) }
{
    let [hold, cause @ ..] = told else {
        return Err(LineFault::Bad);
    };
    Ok(What::Released {
        hold: number_in(hold)?,
        cause: cause_in(cause)?,
    })
}

// Why a hold was released.
fn cause_in(fields: &[&[u8]]) -> Result<Cause, LineFault>
    ensures read { (c : PlainCause) → CauseStands c
        → octets_of fields.now ≡ cause_fields c → result ≡ Ok c }
    ensures stands { IfOk result CauseStands }
{
    match fields {
        [word] => named_cause(word).ok_or(LineFault::Bad),
        [word, code] => coded_cause(word, code),
        _ => Err(LineFault::Bad),
    }
}

// The cause that has this word, and no code.
fn named_cause(word: &[u8]) -> Option<Cause>
    ensures { result ≡ named_cause word.now }
{
    if word == b"Late".as_slice() {
        Some(Cause::Late)
    } else if word == b"WrongPreimage".as_slice() {
        Some(Cause::WrongPreimage)
    } else if word == b"NoReply".as_slice() {
        Some(Cause::NoReply)
    } else if word == b"Restart".as_slice() {
        Some(Cause::Restart)
    } else {
        None
    }
}

// A peer's Reject with this code.
fn coded_cause(word: &[u8], code: &[u8]) -> Result<Cause, LineFault>
    ensures read { (octets : List ℕ) → AreOctets 3 octets → word.now ≡ codes "Peer"
        → code.now ≡ encode_lower octets → result ≡ Ok (Cause.Peer octets) }
    ensures stands { IfOk result CauseStands }
{
    if word != b"Peer".as_slice() {
        return Err(LineFault::Bad);
    }
    Ok(Cause::Peer(octets_in(code)?))
}

// A credit, or a correction.
fn credit_in(config: &Config, told: &[&[u8]]) -> Result<Credited, LineFault>
    ensures read { (c : PlainCredited) → CreditStands config.now c
        → octets_of told.now ≡ credited_fields config.now c → Gives result c }
    ensures stands { IfOk result (CreditStands config.now) }
{
    let [peer, key, named, scale, credited, kind @ ..] = told else {
        return Err(LineFault::Bad);
    };
    Ok(Credited {
        peer: peer_in(config, peer)?,
        key: key_in(config, key)?,
        named: wide_amount_in(named)?,
        scale: scale_in(scale)?,
        credited: amount_in(credited)?,
        kind: kind_in(config, kind)?,
    })
}

// What a credit is, by what stands behind its other fields.
fn kind_in(config: &Config, told: &[&[u8]]) -> Result<CreditKind, LineFault>
    ensures read { (k : PlainKind) → KindStands k → octets_of told.now ≡ kind_fields k
        → Gives result k }
    ensures stands { IfOk result KindStands }
{
    match told {
        [] => Ok(CreditKind::Settled),
        [word, reason] => correction_in(config, word, reason),
        _ => Err(LineFault::Bad),
    }
}

// A correction, by its direction and its reason.
fn correction_in(config: &Config, word: &[u8], reason: &[u8]) -> Result<CreditKind, LineFault>
    ensures raised { (r : List ℕ) → IsKey r → IsBytes r → word.now ≡ codes "rises"
        → reason.now ≡ encode_lower r → Gives result (PlainKinds.Raised r) }
    ensures lowered { (r : List ℕ) → IsKey r → IsBytes r → word.now ≡ codes "falls"
        → reason.now ≡ encode_lower r → Gives result (PlainKinds.Lowered r) }
    ensures stands { IfOk result KindStands }
{
    let reason = Reason::of(key_in(config, reason)?);
    if word == b"rises".as_slice() {
        Ok(CreditKind::Raised(reason))
    } else if word == b"falls".as_slice() {
        Ok(CreditKind::Lowered(reason))
    } else {
        Err(LineFault::Bad)
    }
}

// A balance that is brought forward.
fn opened_in(config: &Config, told: &[&[u8]]) -> Result<What, LineFault>
    ensures read { (p : ℕ) (b : ℤ) → IsPeer config.now p → FitsSigned w64 b
        → octets_of told.now ≡ name_at config.now p ∷ signed_decimal b ∷ []
        → result ≡ Ok (What.Opened p b) }
    ensures stands { IfOk result (WhatStands config.now) }
{
    let [peer, balance] = told else {
        return Err(LineFault::Bad);
    };
    Ok(What::Opened {
        peer: peer_in(config, peer)?,
        balance: balance_in(balance)?,
    })
}

// A settlement that is still open.
fn pending_in(config: &Config, told: &[&[u8]]) -> Result<What, LineFault>
    ensures read { (p a : ℕ) (k : List ℕ) → IsPeer config.now p → a < 2 ^ 64 → IsKey k → IsBytes k
        → octets_of told.now ≡ name_at config.now p ∷ decimal a ∷ encode_lower k ∷ []
        → Gives result (What.Pending p a k) }
    ensures stands { IfOk result (WhatStands config.now) }
{
    let [peer, amount, key] = told else {
        return Err(LineFault::Bad);
    };
    Ok(What::Pending {
        peer: peer_in(config, peer)?,
        amount: amount_in(amount)?,
        key: key_in(config, key)?,
    })
}

// A settlement to a peer.
fn asked_in(config: &Config, told: &[&[u8]]) -> Result<What, LineFault>
    ensures read { (a : PlainAsk) → IsPeer config.now a.peer → a.amount < 2 ^ 64
        → octets_of told.now ≡ name_at config.now a.peer ∷ decimal a.amount ∷ []
        → result ≡ Ok (What.Asked a) }
    ensures stands { IfOk result (WhatStands config.now) }
{
    let [peer, amount] = told else {
        return Err(LineFault::Bad);
    };
    Ok(What::Asked(Ask {
        peer: peer_in(config, peer)?,
        amount: amount_in(amount)?,
    }))
}

// The number of an entry, where nothing else is told.
fn only_number_in(told: &[&[u8]]) -> Result<u32, LineFault>
    ensures read { (n : ℕ) → n < 2 ^ 32 → octets_of told.now ≡ decimal n ∷ [] → result ≡ Ok n }
    ensures stands { IfOk result (λ n. n < 2 ^ 32) }
{
    match told {
        [number] => number_in(number),
        _ => Err(LineFault::Bad),
    }
}
