//! The desk: a book under its lock, and the shares of its actors.
ghost use Rattle.std.specs.Prelude.{◌≡◌, ◌≤◌, [], IfOk, IfErr, OnOk, vec_capacity};
ghost use Rattle.ilp_packet.specs.Packet.{plain_prepare};
ghost use Rattle.ilp_book.specs.Book.{by};
ghost use Rattle.ilp_book.specs.Configured.{IsKnown};
ghost use Rattle.ilp_book.specs.HoldStep.{incoming, hold_step, growth_of};
ghost use Rattle.ilp_book.specs.AnswerStep.{answer_step, expire_step};
ghost use Rattle.ilp_book.specs.SettleStep.{payment, credit_growth, credit_step, ask_growth, ask_step, close_step};
ghost use Rattle.ilp_desk.specs.Desk.{actors_of, base_of};
ghost use Rattle.ilp_desk.specs.Opening.{IsWhyNot, IsWorkerCount, first_shares};
ghost use Rattle.ilp_desk.specs.Session.{IsReplyAt, IsLookAt, IsCopyOf, IsSeenAt, IsSeenSince};

use crate::locked::LockedBook;
use crate::naming::Naming;
use crate::receipt::{EntryList, JournalReceipt};
use crate::share::Share;
use crate::unlocked::UnlockedDesk;
use ilp_accounts::Config;
use ilp_book::{
    AskFault, Asked, Book, CreditFault, EngineVerdict, Held, HoldFault, Kept, NotOpen, Outcome,
    PeerReply,
};
use ilp_journal::{CreditKind, Key};
use ilp_packet::Prepare;
use ilp_report::Snapshot;
use ilp_settlement::Quantity;
use std::alloc::{AllocError, Allocator};
use std::sync::ledger::Blank;
use std::sync::{Mutex, MutexGuard, Wait, ledger};
use thiserror::Error;

const MOST_WORKERS: u32 = 64;

/// A book under its lock, and its configuration beside it. Whoever takes the lock finds a
/// `LockedBook`.
#[derive(Drop)]
pub struct Desk<J: Naming> {
    config: Config,
    locked: Mutex<LockedBook<J>>,
    ghost configured: { config ≡ J.desk.config },
}

/// Why no desk was opened, in the order in which these are looked for.
#[derive(Clone, Copy, Debug, PartialEq, Eq, Error)]
pub enum WhyNoDesk {
    /// A desk has 1 to 64 workers.
    #[error("a desk has 1 to 64 workers")]
    BadWorkers,
    /// Memory was denied.
    #[error("memory is short")]
    Memory,
}

/// The book that no desk was opened for, as it was given.
#[derive(Drop)]
pub struct NoDesk {
    /// The book.
    pub book: Book,
    /// Why it has no desk.
    pub why: WhyNoDesk,
}

impl<J: Naming> Desk<J> {
    /// Opens a desk of 1 to 64 workers over a book that is at its base, with a copy of the
    /// configuration. The shares are those of the workers from 0 on, of the sweeper and of the
    /// settler, in this order; nothing is booked with them yet. A refusal hands the book back as it
    /// was, and spends the blanks and the list. `alloc` is for the shares; the copy lies on the heap
    /// of the configuration.
    pub fn open<A: Allocator>(
        alloc: A,
        config: &Config,
        book: Book,
        workers: u32,
        blanks: Blank,
        list: EntryList,
    ) -> Result<(Desk<J>, Vec<Share<J>, A>), NoDesk>
        requires config { (config.now ≡ J.desk.config) × (book.config ≡ J.desk.config) }
        requires workers { workers ≡ J.desk.workers }
        requires period { book.period ≡ J.desk.period }
        requires opening { (book.entries ≡ J.desk.opening) × (book.base ≡ base_of J.desk) }
        requires ledger { (blanks.name ≡ J.name) × (blanks.parts ≡ J.parts) }
        requires parts { J.parts ≡ actors_of J.desk }
        requires list { list ≡ J.list }
        ensures workers { OnOk result (IsWorkerCount workers) }
        ensures shares { IfOk result (λ r. r.1.items ≡ first_shares J.desk) }
        ensures book { IfErr result (λ e. e.book ≡ book) }
        ensures why { IfErr result (λ e. IsWhyNot workers e.why) }
    {
        if workers < 1 || workers > MOST_WORKERS {
            let why = WhyNoDesk::BadWorkers;
            return Err(NoDesk { book, why });
        }
        let actors = workers + 2;
        let Ok((config, room)) = prepared::<J, A>(alloc, config, actors) else {
            let why = WhyNoDesk::Memory;
            return Err(NoDesk { book, why });
        };
        let (total, parts) = blanks.open::<J>();
        let shares = cut(room, parts, actors);
        let locked = LockedBook::new(book, total, workers, list);
        Ok((Desk::new(config, locked), shares))
    }

    /// What the desk is configured to do, without the lock.
    pub fn config(&self) -> &Config
        ensures { result.now ≡ J.desk.config }
    {
        &self.config
    }

    /// Takes the lock, and waits for it while another thread has it. A thread that has it and takes
    /// it again waits forever.
    pub fn lock(&self, rt: &impl Wait) -> MutexGuard<'_, LockedBook<J>> {
        self.locked.lock(rt)
    }

    // Takes the book from under its lock, once nobody else has the desk.
    pub(crate) fn unlock(self) -> UnlockedDesk<J> {
        let Desk { config, locked } = self;
        UnlockedDesk::new(config, locked.into_inner())
    }

    // A book under its lock, and its configuration.
    pub(crate) fn new(config: Config, locked: LockedBook<J>) -> Desk<J>
        requires { config ≡ J.desk.config }
    {
        let locked = Mutex::new(locked);
        Desk { config, locked }
    }

    /// `LockedBook::hold`, with the lock taken for this session alone: `now` is in milliseconds
    /// since 1970, and a refusal by `HoldFault` books nothing and leaves the share as it was.
    pub fn hold(
        &self,
        rt: &impl Wait,
        share: &mut Share<J>,
        from: u32,
        prepare: &Prepare<'_>,
        now: i64,
    ) -> Result<Held, HoldFault>
        requires known { IsKnown J.desk.config from }
        ensures { IsReplyAt J.desk (λ book. hold_step book (by share.old.actor now)
            (incoming book.config from (plain_prepare prepare.now)) (growth_of result))
            share.old share.new result }
    {
        self.lock(rt).hold(share, from, prepare, now)
    }

    /// `LockedBook::answer`, with the lock taken for this session alone: `now` is in milliseconds
    /// since 1970, and where the hold is not open nothing is booked and the share is left as it
    /// was.
    pub fn answer(
        &self,
        rt: &impl Wait,
        share: &mut Share<J>,
        number: u32,
        reply: PeerReply,
        now: i64,
    ) -> Result<Outcome, NotOpen>
        ensures { IsReplyAt J.desk (λ book. answer_step book (by share.old.actor now) number reply)
            share.old share.new result }
    {
        self.lock(rt).answer(share, number, reply, now)
    }

    /// `LockedBook::expire_one`, with the lock taken for this session alone: `now` is in
    /// milliseconds since 1970, and where no hold is due nothing is booked and the share is left as
    /// it was.
    pub fn expire_one(&self, rt: &impl Wait, share: &mut Share<J>, now: i64) -> Option<u32>
        ensures { IsReplyAt J.desk (λ book. expire_step book (by share.old.actor now))
            share.old share.new result }
    {
        self.lock(rt).expire_one(share, now)
    }

    /// `LockedBook::credit`, with the lock taken for this session alone: `now` is in milliseconds
    /// since 1970, and a refusal by `CreditFault`, or a key that is kept with an equal quantity and kind,
    /// books nothing and leaves the share as it was.
    pub fn credit(
        &self,
        rt: &impl Wait,
        share: &mut Share<J>,
        peer: u32,
        key: Key,
        quantity: &Quantity,
        kind: CreditKind,
        now: i64,
    ) -> Result<Kept, CreditFault>
        requires known { IsKnown J.desk.config peer }
        ensures { IsReplyAt J.desk (λ book. credit_step book (by share.old.actor now)
            (payment peer key quantity.now kind) (credit_growth result))
            share.old share.new result }
    {
        self.lock(rt).credit(share, peer, key, quantity, kind, now)
    }

    /// `LockedBook::ask`, with the lock taken for this session alone: `now` is in milliseconds
    /// since 1970, and a refusal by `AskFault` books nothing and leaves the share as it was.
    pub fn ask(
        &self,
        rt: &impl Wait,
        share: &mut Share<J>,
        peer: u32,
        now: i64,
    ) -> Result<Asked, AskFault>
        requires known { IsKnown J.desk.config peer }
        ensures { IsReplyAt J.desk (λ book. ask_step book (by share.old.actor now) peer
            (ask_growth result)) share.old share.new result }
    {
        self.lock(rt).ask(share, peer, now)
    }

    /// `LockedBook::settle_close`, with the lock taken for this session alone: `now` is in
    /// milliseconds since 1970, and where the settlement is not open nothing is booked and the
    /// share is left as it was.
    pub fn settle_close(
        &self,
        rt: &impl Wait,
        share: &mut Share<J>,
        number: u32,
        verdict: EngineVerdict,
        now: i64,
    ) -> Result<u32, NotOpen>
        ensures { IsReplyAt J.desk (λ book. close_step book (by share.old.actor now) number
            verdict) share.old share.new result }
    {
        self.lock(rt).settle_close(share, number, verdict, now)
    }

    /// The open settlement to a peer that comes next: the one of least number behind that which was
    /// tried last, else the first of all. The book is looked at once. Nothing is booked, and no share
    /// is raised.
    pub fn open_settlement(&self, rt: &impl Wait, peer: u32, tried: Option<u32>) -> Option<Asked>
        ensures { IsLookAt J.desk peer tried result }
    {
        self.lock(rt).open_settlement(peer, tried)
    }

    /// A receipt for all entries so far. Nothing is booked, and no share is raised.
    pub fn receipt(&self, rt: &impl Wait) -> JournalReceipt<J>
        ensures { IsSeenAt J.desk result }
    {
        self.lock(rt).receipt()
    }

    /// Shows the journal to a receipt that was taken earlier. Nothing is booked, and no share is
    /// raised.
    pub fn show(&self, rt: &impl Wait, receipt: &mut JournalReceipt<J>)
        ensures { IsSeenSince J.desk receipt.old receipt.new }
    {
        self.lock(rt).show(receipt);
    }

    /// What the report of the book tells, in units of each asset. The copy is made with the lock
    /// taken, so it is of one moment; `ilp_report::print` writes it when the lock is free again.
    /// `AllocError` tells that memory is short. Nothing is booked, and no share is raised.
    pub fn snapshot<A: Allocator + Copy>(
        &self,
        rt: &impl Wait,
        alloc: A,
    ) -> Result<Snapshot<A>, AllocError>
        ensures { IfOk result (λ snapshot. IsCopyOf J.desk snapshot) }
    {
        self.lock(rt).snapshot(alloc)
    }
}

// A copy of the configuration, and room for the shares.
fn prepared<J: Naming, A: Allocator>(
    alloc: A,
    config: &Config,
    actors: u32,
) -> Result<(Config, Vec<Share<J>, A>), AllocError>
    ensures config { IfOk result (λ r. r.0 ≡ config.now) }
    ensures shares { IfOk result (λ r. r.1.items ≡ []) }
    ensures room { IfOk result (λ r. actors ≤ vec_capacity r.1) }
{
    let room = Vec::with_capacity(alloc, actors as usize)?;
    let config = config.copy()?;
    Ok((config, room))
}

// The ledger is cut into the shares of all actors.
fn cut<J: Naming, A: Allocator>(
    room: Vec<Share<J>, A>,
    parts: ledger::Share<J>,
    actors: u32,
) -> Vec<Share<J>, A>
    requires actors { actors ≡ actors_of J.desk }
    requires room { (room.items ≡ []) × (actors ≤ vec_capacity room) }
    requires parts { (parts.parts ≡ actors) × (parts.amount ≡ 0) }
    ensures { result.items ≡ first_shares J.desk }
{
    let mut shares = room;
    let mut rest = parts;
    for actor in 0..actors {
        let part = rest.split_off(1, 0);
        shares.push_reserved(Share::new(actor, part));
    }
    shares
}
