//! Sessions of a desk that a receipt is shown.
ghost use Rattle.std.specs.Prelude.{◌≡◌};
ghost use Rattle.ilp_packet.specs.Packet.{plain_prepare};
ghost use Rattle.ilp_book.specs.Book.{by};
ghost use Rattle.ilp_book.specs.Configured.{IsKnown};
ghost use Rattle.ilp_book.specs.HoldStep.{incoming, hold_step, growth_of};
ghost use Rattle.ilp_book.specs.AnswerStep.{answer_step, expire_step};
ghost use Rattle.ilp_book.specs.SettleStep.{payment, credit_growth, credit_step, ask_growth, ask_step, close_step};
ghost use Rattle.ilp_desk.specs.Session.{IsShownAt, IsShownLook};

use crate::desk::Desk;
use crate::naming::Naming;
use crate::receipt::JournalReceipt;
use crate::share::Share;
use ilp_book::{
    AskFault, Asked, CreditFault, EngineVerdict, Held, HoldFault, Kept, NotOpen, Outcome, PeerReply,
};
use ilp_journal::{CreditKind, Key};
use ilp_packet::Prepare;
use ilp_settlement::Quantity;
use std::sync::Wait;

/// Each call is the one of like name without `_shown`. It shows the receipt the journal that the
/// session found, which what it had seen begins, and the one that it left, with its entry if it booked
/// one. The receipt is shown both where the session is refused too.
impl<J: Naming> Desk<J> {
    /// `hold`, shown to a receipt.
    pub fn hold_shown(
        &self,
        rt: &impl Wait,
        share: &mut Share<J>,
        receipt: &mut JournalReceipt<J>,
        from: u32,
        prepare: &Prepare<'_>,
        now: i64,
    ) -> Result<Held, HoldFault>
        requires known { IsKnown J.desk.config from }
        ensures { IsShownAt J.desk (λ book. hold_step book (by share.old.actor now)
            (incoming book.config from (plain_prepare prepare.now)) (growth_of result))
            receipt.old receipt.new share.old share.new result }
    {
        let mut book = self.lock(rt);
        book.show(receipt);
        let reply = book.hold(share, from, prepare, now);
        book.show(receipt);
        reply
    }

    /// `answer`, shown to a receipt.
    pub fn answer_shown(
        &self,
        rt: &impl Wait,
        share: &mut Share<J>,
        receipt: &mut JournalReceipt<J>,
        number: u32,
        reply: PeerReply,
        now: i64,
    ) -> Result<Outcome, NotOpen>
        ensures { IsShownAt J.desk (λ book. answer_step book (by share.old.actor now) number reply)
            receipt.old receipt.new share.old share.new result }
    {
        let mut book = self.lock(rt);
        book.show(receipt);
        let outcome = book.answer(share, number, reply, now);
        book.show(receipt);
        outcome
    }

    /// `expire_one`, shown to a receipt.
    pub fn expire_one_shown(
        &self,
        rt: &impl Wait,
        share: &mut Share<J>,
        receipt: &mut JournalReceipt<J>,
        now: i64,
    ) -> Option<u32>
        ensures { IsShownAt J.desk (λ book. expire_step book (by share.old.actor now))
            receipt.old receipt.new share.old share.new result }
    {
        let mut book = self.lock(rt);
        book.show(receipt);
        let reply = book.expire_one(share, now);
        book.show(receipt);
        reply
    }

    /// `credit`, shown to a receipt.
    pub fn credit_shown(
        &self,
        rt: &impl Wait,
        share: &mut Share<J>,
        receipt: &mut JournalReceipt<J>,
        peer: u32,
        key: Key,
        quantity: &Quantity,
        kind: CreditKind,
        now: i64,
    ) -> Result<Kept, CreditFault>
        requires known { IsKnown J.desk.config peer }
        ensures { IsShownAt J.desk (λ book. credit_step book (by share.old.actor now)
            (payment peer key quantity.now kind) (credit_growth result))
            receipt.old receipt.new share.old share.new result }
    {
        let mut book = self.lock(rt);
        book.show(receipt);
        let reply = book.credit(share, peer, key, quantity, kind, now);
        book.show(receipt);
        reply
    }

    /// `ask`, shown to a receipt.
    pub fn ask_shown(
        &self,
        rt: &impl Wait,
        share: &mut Share<J>,
        receipt: &mut JournalReceipt<J>,
        peer: u32,
        now: i64,
    ) -> Result<Asked, AskFault>
        requires known { IsKnown J.desk.config peer }
        ensures { IsShownAt J.desk (λ book. ask_step book (by share.old.actor now) peer
            (ask_growth result)) receipt.old receipt.new share.old share.new result }
    {
        let mut book = self.lock(rt);
        book.show(receipt);
        let reply = book.ask(share, peer, now);
        book.show(receipt);
        reply
    }

    /// `settle_close`, shown to a receipt.
    pub fn settle_close_shown(
        &self,
        rt: &impl Wait,
        share: &mut Share<J>,
        receipt: &mut JournalReceipt<J>,
        number: u32,
        verdict: EngineVerdict,
        now: i64,
    ) -> Result<u32, NotOpen>
        ensures { IsShownAt J.desk (λ book. close_step book (by share.old.actor now) number
            verdict) receipt.old receipt.new share.old share.new result }
    {
        let mut book = self.lock(rt);
        book.show(receipt);
        let reply = book.settle_close(share, number, verdict, now);
        book.show(receipt);
        reply
    }

    /// `open_settlement`, shown to a receipt. Nothing is booked, and no share is raised.
    pub fn open_settlement_shown(
        &self,
        rt: &impl Wait,
        receipt: &mut JournalReceipt<J>,
        peer: u32,
        tried: Option<u32>,
    ) -> Option<Asked>
        ensures { IsShownLook J.desk peer tried receipt.old receipt.new result }
    {
        let mut book = self.lock(rt);
        book.show(receipt);
        book.open_settlement(peer, tried)
    }
}
