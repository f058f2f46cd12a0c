//! Which kinds of replies came up, and of ends of holds at a start.

use crate::calls::Reply;
use ilp_assets::QuoteFault;
use ilp_book::{AskFault, CreditFault, HoldFault, NotOpen, Outcome};
use ilp_journal::Cause;

/// A kind of a reply, or of what ends a hold as a book is carried over.
#[derive(Clone, Copy)]
enum Kind {
    Held,
    AmountTooLarge,
    NoRoute,
    BackToSender,
    Expired,
    TooShort,
    OutTooLarge,
    RoundsToNothing,
    Full,
    TotalFull,
    BelowLeast,
    Fulfilled,
    Late,
    WrongPreimage,
    Peer,
    NoReply,
    AnsweredBefore,
    NoHold,
    Swept,
    NothingDue,
    Credited,
    CreditedBefore,
    TooLarge,
    KeyTaken,
    CreditFull,
    CreditBelowLeast,
    Asked,
    StillOpen,
    NotDue,
    AskFull,
    Closed,
    ClosedBefore,
    NoAsk,
    LateAtStart,
    EndedByStart,
    /// None that is to come up.
    Other,
}

const KINDS: usize = Kind::Other as usize;

/// Which kinds came up so far.
#[derive(Drop)]
pub(crate) struct Kinds {
    came: [bool; KINDS],
}

impl Kinds {
    /// None.
    pub(crate) fn new() -> Kinds {
        Kinds {
            came: [false; KINDS],
        }
    }

    /// Notes the kind of a reply.
    pub(crate) fn note(&mut self, reply: &Reply) {
        self.note_kind(kind_of(reply));
    }

    /// Notes why a hold ended as a book was carried over.
    pub(crate) fn note_end(&mut self, cause: Cause) {
        self.note_kind(kind_of_end(cause));
    }

    fn note_kind(&mut self, kind: Kind) {
        if let Some(came) = self.came.get_mut(kind as usize) {
            *came = true;
        }
    }

    /// Whether each kind came up.
    pub(crate) fn have_all(&self) -> bool {
        self.came.iter().all(|came| *came)
    }
}

fn kind_of(reply: &Reply) -> Kind {
    match reply {
        Reply::Hold(Ok(_)) => Kind::Held,
        Reply::Hold(Err(fault)) => kind_of_hold(fault),
        Reply::Answer(Ok(outcome)) => kind_of_outcome(outcome),
        Reply::Answer(Err(NotOpen { closer: Some(_) })) => Kind::AnsweredBefore,
        Reply::Answer(Err(NotOpen { closer: None })) => Kind::NoHold,
        Reply::Expire(Some(_)) => Kind::Swept,
        Reply::Expire(None) => Kind::NothingDue,
        Reply::Credit(Ok(kept)) if kept.fresh => Kind::Credited,
        Reply::Credit(Ok(_)) => Kind::CreditedBefore,
        Reply::Credit(Err(fault)) => kind_of_credit(fault),
        Reply::Ask(Ok(_)) => Kind::Asked,
        Reply::Ask(Err(fault)) => kind_of_ask(fault),
        Reply::Close(Ok(_)) => Kind::Closed,
        Reply::Close(Err(NotOpen { closer: Some(_) })) => Kind::ClosedBefore,
        Reply::Close(Err(NotOpen { closer: None })) => Kind::NoAsk,
        Reply::NotMade => Kind::Other,
    }
}

fn kind_of_hold(fault: &HoldFault) -> Kind {
    match fault {
        HoldFault::AmountTooLarge { .. } => Kind::AmountTooLarge,
        HoldFault::NoRoute => Kind::NoRoute,
        HoldFault::BackToSender => Kind::BackToSender,
        HoldFault::Expired => Kind::Expired,
        HoldFault::TooShort => Kind::TooShort,
        HoldFault::Quote(QuoteFault::OutTooLarge) => Kind::OutTooLarge,
        HoldFault::Quote(QuoteFault::RoundsToNothing) => Kind::RoundsToNothing,
        HoldFault::Quote(QuoteFault::NoPrice) | HoldFault::Memory => Kind::Other,
        HoldFault::Full => Kind::Full,
        HoldFault::TotalFull => Kind::TotalFull,
        HoldFault::BelowLeast { .. } => Kind::BelowLeast,
    }
}

fn kind_of_outcome(outcome: &Outcome) -> Kind {
    let Outcome::Released { cause, .. } = outcome else {
        return Kind::Fulfilled;
    };
    match cause {
        Cause::Late => Kind::Late,
        Cause::WrongPreimage => Kind::WrongPreimage,
        Cause::NoReply => Kind::NoReply,
        Cause::Peer(_) => Kind::Peer,
        Cause::Restart => Kind::Other,
    }
}

fn kind_of_credit(fault: &CreditFault) -> Kind {
    match fault {
        CreditFault::TooLarge => Kind::TooLarge,
        CreditFault::KeyTaken { .. } => Kind::KeyTaken,
        CreditFault::Full => Kind::CreditFull,
        CreditFault::BelowLeast { .. } => Kind::CreditBelowLeast,
        CreditFault::Memory => Kind::Other,
    }
}

fn kind_of_ask(fault: &AskFault) -> Kind {
    match fault {
        AskFault::StillOpen { .. } => Kind::StillOpen,
        AskFault::NotDue { .. } => Kind::NotDue,
        AskFault::Full => Kind::AskFull,
        AskFault::Memory => Kind::Other,
    }
}

// No hold ends for another cause then.
fn kind_of_end(cause: Cause) -> Kind {
    match cause {
        Cause::Late => Kind::LateAtStart,
        Cause::Restart => Kind::EndedByStart,
        Cause::WrongPreimage | Cause::NoReply | Cause::Peer(_) => Kind::Other,
    }
}
