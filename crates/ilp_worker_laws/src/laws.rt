//! What holds of the definitions. These functions do nothing: their contracts are the laws. A law
//! tells whoever reads the definitions what follows from them; no code needs to call it.
ghost use Rattle.std.specs.Prelude.{◌≡◌, ◌⊎◌, ℕ, ◌+◌, List, [], Option, Some, None, IsSome, Result, Ok, Err};
ghost use Rattle.ilp_oer.specs.Octets.{AreOctets};
ghost use Rattle.ilp_packet.specs.Packet.{PlainPrepare, prepare, Spells};
ghost use Rattle.ilp_accounts.specs.Configuration.{Configuration};
ghost use Rattle.ilp_book.specs.declared.fault.HoldFault.{HoldFault};
ghost use Rattle.ilp_book.specs.HoldStep.{incoming};
ghost use Rattle.ilp_book.specs.declared.calls.Kept.{Kept};
ghost use Rattle.ilp_book.specs.SettleStep.{Payment};
ghost use Rattle.ilp_desk.specs.Desk.{PlainDesk};
ghost use Rattle.ilp_desk.specs.Totals.{packets};
ghost use Rattle.ilp_keeping.specs.declared.keeper.NotKept.{NotKept};
ghost use Rattle.ilp_keeping.specs.Keeping.{ToKeeper};
ghost use Rattle.ilp_replies.specs.Rejects.{reject_of_fault};
ghost use Rattle.ilp_replies.specs.declared.answer.Receipt.{Receipt};
ghost use Rattle.ilp_workers.specs.Worker.{PlainWorker, replied};
ghost use Rattle.ilp_workers.specs.Forwarding.{Order, IsForwardedBy};
ghost use Rattle.ilp_workers.specs.Pending.{PlainPending};
ghost use Rattle.ilp_workers.specs.Booked.{PlainBooked};
ghost use Rattle.ilp_replies.specs.EngineMessage.{PlainEngineMessage, PlainPeerMessage};
ghost use Rattle.ilp_replies.specs.Messages.{IsMessageTold, IsForEngine, peer_answer_of};
ghost use Rattle.ilp_workers.specs.MessageHalves.{IsAsked, IsEngineHanded, IsAddressed, IsPeerAsked};
ghost use Rattle.ilp_workers.specs.Halves.{IsBegun, IsHanded, IsBooked, IsHandedOn, IsKeptFor, IsFinished};
ghost use Rattle.ilp_worker_laws.specs.Runs.{Step, IsRun, fulfills_told};
ghost use Rattle.ilp_workers.specs.Messaging.{IsMessaged, IsTried};
ghost use Rattle.ilp_workers.specs.Arrivals.{Arrival, IsForPeers, Forwards};
ghost use Rattle.ilp_workers.specs.Crediting.{PlainBookedCredit, BooksCredit, Credits};
ghost use Rattle.ilp_worker_laws.specs.Outcome.{IsFulfilled, IsRejected, IsFulfilledEnd, IsRejectedEnd, IsToldBehind, IsRefusedAs, IsCreditBehind, IsCreditWithin, standing_refusal};

use ilp_replies::MessageFault;

/// Whoever sends a Prepare to another address than `peer.settle` is answered a Fulfill exactly where
/// the worker keeps one packet more, and else a Reject, which the receipt names. The premise is that
/// the answer consists of octets, as all that lies in memory does.
pub fn fulfills_are_kept()
    ensures { (a : Arrival) (before after : PlainWorker) (receipt : Receipt)
        → AreOctets after.reply → IsForPeers a → Forwards a before after (Ok receipt)
        → IsFulfilled a before after receipt ⊎ IsRejected before after receipt }
{}

/// Whoever sends a Prepare to another address than `peer.settle` is told a Fulfill only behind its
/// entry: where the worker's keeper tells, the last that it was asked is to keep a journal that has it.
pub fn fulfills_are_told_behind_their_entries()
    ensures { (a : Arrival) (before after : PlainWorker) (receipt : Receipt) (told : List ToKeeper)
        → IsForPeers a → Forwards a before after (Ok receipt) → receipt.rejected ≡ None
        → after.kept ≡ Some told → IsToldBehind told receipt }
{}

/// A packet that a worker began, that the next peer was handed, that the worker finished and whose
/// sender it answered so was forwarded.
pub fn halves_make_a_forward()
    ensures { (o : Order) (before begun handed after : PlainWorker) (p : PlainPending)
        (came : Option (List ℕ)) (receipt : Receipt) (octets : List ℕ) → IsBegun o before begun p
        → IsHanded p came begun handed → IsFinished o.desk p came handed after receipt octets
        → IsForwardedBy o before (replied after octets) receipt.hold receipt.answer receipt.rejected }
{}

/// A packet that a worker booked, and of which the keeper was then handed the journal if its sender is
/// owed a Fulfill, was finished.
pub fn booked_and_kept_is_finished()
    ensures { (desk : PlainDesk) (p : PlainPending) (came : Option (List ℕ))
        (before left after : PlainWorker) (b : PlainBooked) → IsBooked desk p came before left b
        → IsKeptFor b.receipt.rejected left after
        → IsFinished desk p came before after b.receipt b.octets }
{}

/// The sender of a packet that waited is to be answered a Fulfill exactly where the worker that booked
/// it keeps one packet more, which is this one, and else a Reject, whatever else waits.
pub fn booked_fulfills_are_kept()
    ensures { (desk : PlainDesk) (p : PlainPending) (came : Option (List ℕ))
        (before after : PlainWorker) (b : PlainBooked) → AreOctets b.octets
        → IsBooked desk p came before after b
        → IsFulfilledEnd desk p before after b.receipt b.octets
        ⊎ IsRejectedEnd before after b.receipt b.octets }
{}

/// And so is the sender of one that was finished.
pub fn finished_fulfills_are_kept()
    ensures { (desk : PlainDesk) (p : PlainPending) (came : Option (List ℕ))
        (before after : PlainWorker) (receipt : Receipt) (octets : List ℕ) → AreOctets octets
        → IsFinished desk p came before after receipt octets
        → IsFulfilledEnd desk p before after receipt octets
        ⊎ IsRejectedEnd before after receipt octets }
{}

/// While a worker refuses, begins, finishes, books and keeps any packets for peers, in any order, it
/// keeps as many packets more as Fulfills are to be told.
pub fn runs_keep_what_is_told()
    ensures { (desk : PlainDesk) (steps : List Step) (before after : PlainWorker)
        → IsRun desk steps before after
        → packets after.records ≡ packets before.records + fulfills_told steps }
{}

/// Whatever a worker does after it booked a packet: where it then has the keeper keep the journal, and
/// the keeper tells, this journal has the entry of a Fulfill that the packet's sender is owed.
pub fn booked_fulfills_are_told_behind_their_entries()
    ensures { (desk : PlainDesk) (p : PlainPending) (came : Option (List ℕ)) (b : PlainBooked)
        (before left later after : PlainWorker) (steps : List Step) (said : Result (Unit {0}) NotKept)
        (told : List ToKeeper) → IsBooked desk p came before left b → IsRun desk steps left later
        → IsHandedOn said later after → b.receipt.rejected ≡ None → after.kept ≡ Some told
        → IsToldBehind told b.receipt }
{}

/// A message that a peer's engine is owed an answer to, that the engine here was handed, and whose
/// sender was answered by what came, was handed on.
pub fn halves_make_a_message()
    ensures { (C : Configuration) (from : ℕ) (packet : PlainPrepare)
        (before asked handed : PlainWorker) (m : PlainEngineMessage) (came : Option (List ℕ))
        (receipt : Receipt) (octets : List ℕ) → IsAsked C from packet before asked m
        → IsEngineHanded m came asked handed → IsMessageTold C came receipt octets
        → IsMessaged C from packet before (replied handed octets) receipt.rejected }
{}

/// A message that a peer was handed is tried: its engine answered where a Fulfill of 32 zero octets
/// came, and else there is no answer.
pub fn halves_make_a_message_to_a_peer()
    ensures answered { (C : Configuration) (peer : ℕ) (octets : List ℕ)
        (before addressed after : PlainWorker) (m : PlainPeerMessage) (reply : List ℕ)
        → IsAddressed C peer octets before addressed m → IsPeerAsked m (Some reply) addressed after
        → IsSome (peer_answer_of (Some reply))
        → IsTried C peer octets before (replied after reply) (Ok tt) }
    ensures unanswered { (C : Configuration) (peer : ℕ) (octets : List ℕ)
        (before addressed after : PlainWorker) (m : PlainPeerMessage) (came : Option (List ℕ))
        → IsAddressed C peer octets before addressed m → IsPeerAsked m came addressed after
        → peer_answer_of came ≡ None
        → IsTried C peer octets before (replied after []) (Err MessageFault.NoAnswer) }
{}

/// An engine is told of a credit only behind its entry: where the worker's keeper tells, the last that
/// it was asked is to keep a journal that has it, and it said that this is kept.
pub fn credits_are_told_behind_their_entries()
    ensures { (desk : PlainDesk) (p : Payment) (before after : PlainWorker) (credit : Kept)
        (told : List ToKeeper) → Credits desk p before after (Ok credit) → after.kept ≡ Some told
        → IsCreditBehind told p credit }
{}

/// A credit that is booked, and that nobody is told yet, waits for a journal that has its entry: the worker has seen it,
/// among as many entries as are to be kept first.
pub fn booked_credits_wait_for_their_entries()
    ensures { (desk : PlainDesk) (p : Payment) (before after : PlainWorker) (b : PlainBookedCredit)
        → BooksCredit desk p before after (Ok b) → IsCreditWithin after.seen p b }
{}

/// A Prepare of too great an amount, without a route or with one back to its sender is refused as
/// that, or as T00 for want of memory or since entries are not kept, whatever the time is and
/// whatever the book has, unless it is for the engine here.
pub fn standing_refusals_are_told()
    ensures { (a : Arrival) (before after : PlainWorker) (receipt : Receipt)
        (packet : PlainPrepare) (fault : HoldFault)
        → Forwards a before after (Ok receipt) → Spells a.octets (prepare packet)
        → (¬ IsForEngine packet)
        → standing_refusal a.desk.config (incoming a.desk.config a.from packet) ≡ Some fault
        → IsRefusedAs a.desk after receipt (reject_of_fault packet.amount fault) }
{}
