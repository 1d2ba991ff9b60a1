// A request that a grant guards.
ghost use Rattle.std.specs.Prelude.{◌≡◌, ◌≤◌, IfOk, IfSome, None, OnErr, Some, is_some, true, []};
ghost use Rattle.ec_brick.specs.Fit.{IsFit, IsFitReply};
ghost use Rattle.ec_brick.specs.Index.{IndexIs};
ghost use Rattle.ec_brick.specs.Inner.{KeepsLocks};
ghost use Rattle.ec_brick.specs.Meets.{IsFencedOff, Meets, failing_of, is_fault};
ghost use Rattle.ec_brick.specs.Rows.{fence, row_of};
ghost use Rattle.ec_brick.specs.State.{IsAsBefore, indexed, state};
ghost use Rattle.ec_brick.specs.Step.{by_row, version_of, work};
ghost use Rattle.ec_store.specs.Causes.{Rose};
ghost use Rattle.ec_wire.specs.declared.reply.Reply.{Reply as ReplyOf};

use crate::brick::Brick;
use crate::effects::Effects;
use crate::row::Row;
use crate::table::{fence, is_writers, refusal};
use ec_attr::Head;
use ec_locks::WaiterList;
use ec_store::{BrickStore, StoreFault};
use ec_wire::{Reply, Request};
use std::alloc::{AllocError, Global};

/// The effects of a request that lets nobody in.
pub fn effects_of(alloc: Global, reply: Option<Reply>, version: Option<u64>) -> Effects
    ensures { result ≡ record { reply = reply; version = version; granted = [] } }
{
    Effects {
        reply,
        version,
        granted: WaiterList::new(alloc),
    }
}

/// The content version of a head, if there is one.
pub fn version_of(head: &Option<Head>) -> Option<u64>
    ensures { result ≡ version_of head.now }
{
    match head {
        Some(h) => Some(h.version.content),
        None => None,
    }
}

impl Brick {
    /// A request with its row: refused by the lock table, then by the head of its subject, or done.
    #[tactic(auto, using(crate::proofs::Ready::readiness, crate::proofs::Exits::as_before))]
    pub(crate) fn guarded<S: BrickStore>(
        &mut self,
        store: &mut S,
        request: &Request,
        row: &Row,
    ) -> Result<Effects, AllocError>
        requires row { row_of request.now ≡ Some row.now }
        requires fit { IsFit request.now }
        ensures kept { KeepsLocks self.old self.new }
        ensures tells { S.told store.new ≡ S.told store.old }
        ensures fence { (y : ReplyOf) → fence self.old.locks row.now ≡ Some y → IsFencedOff y self.old self.new store.old store.new result }
        ensures step { IfOk result (λ e. S.told store.old ≡ true → Meets (by_row (state self.old (S.records store.old)) (failing_of e.reply e.version) (work (state self.old (S.records store.old)) request.now) (Some row.now)) e (state self.new (S.records store.new))) }
        ensures replied { IfOk result (λ e. is_some e.reply ≡ true) }
        ensures fits { IfOk result (λ e. IfSome e.reply (λ y. IsFitReply request.now y)) }
        ensures granted { IfOk result (λ e. e.granted ≡ []) }
        ensures index { S.told store.old ≡ true → IndexIs (indexed self.old) (S.records store.old) → IndexIs (indexed self.new) (S.records store.new) }
        ensures err { OnErr result (IsAsBefore self.old self.new) }
        ensures same_records { OnErr result (S.told store.old ≡ true → S.records store.new ≡ S.records store.old) }
        ensures later { S.faults store.old ≤ S.faults store.new }
        ensures fault { IfOk result (λ e. is_fault e.reply ≡ true → Rose (S.faults store.old) (S.faults store.new)) }
    {
        if let Some(reply) = fence(row, &self.locks) {
            return Ok(effects_of(self.alloc, Some(reply), None));
        }
        let head = match store.head(row.subject) {
            Ok(head) => head,
            Err(StoreFault::Failed) => return Ok(effects_of(self.alloc, Some(Reply::Fault), None)),
            Err(StoreFault::NoMemory) => return Err(AllocError),
        };
        let version = version_of(&head);
        let writer = is_writers(row, &self.locks);
        let gone = self.removed.has(row.subject);
        if let Some(reply) = refusal(row, writer, gone, &head) {
            return Ok(effects_of(self.alloc, Some(reply), version));
        }
        match self.work(store, request, row.subject, &head) {
            Ok(reply) => Ok(effects_of(self.alloc, Some(reply), version)),
            Err(StoreFault::Failed) => Ok(effects_of(self.alloc, Some(Reply::Fault), version)),
            Err(StoreFault::NoMemory) => Err(AllocError),
        }
    }
}
