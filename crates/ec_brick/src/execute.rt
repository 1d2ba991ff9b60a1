// The execution of requests.
ghost use Rattle.std.specs.Prelude.{◌≡◌, ◌≤◌, IfOk, IfSome, None, OnErr, Some, [], false, is_some, true};
ghost use Rattle.ec_brick.specs.Fit.{IsFit, IsFitReply};
ghost use Rattle.ec_brick.specs.Index.{IndexIs};
ghost use Rattle.ec_brick.specs.Inner.{granted_reply};
ghost use Rattle.ec_brick.specs.Meets.{IsFencedOff, Meets, MeetsLocks, failing_of, is_fault, is_locking};
ghost use Rattle.ec_brick.specs.Replies.{own_of};
ghost use Rattle.ec_brick.specs.Rows.{fence, row_of};
ghost use Rattle.ec_brick.specs.State.{IsAsBefore, asks_of, indexed, is_up, state};
ghost use Rattle.ec_brick.specs.Step.{Failing, asked, released, step, unguarded};
ghost use Rattle.ec_brick.specs.declared.row.Row.{Row};
ghost use Rattle.ec_store.specs.Causes.{Rose};
ghost use Rattle.ec_store.specs.Records.{Records};
ghost use Rattle.ec_wire.specs.declared.reply.Reply.{Reply as ReplyOf};
ghost use Rattle.ec_wire.specs.declared.request.Request.{Request as RequestOf};
ghost use Rattle.ec_wire.specs.declared.request.Request.TheVariants.{GfidsAfter};

use crate::brick::Brick;
use crate::effects::Effects;
use crate::gfids::{dirty_gfids, record_gfids};
use crate::guarded::effects_of;
use crate::table::row_of;
use ec_attr::{Domain, Gfid, LockKind};
use ec_locks::{Asked, WaiterList};
use ec_store::{BrickStore, StoreFault};
use ec_wire::{Reply, Request};
use std::alloc::AllocError;

/// The reply to an ask, now or later.
fn granted_reply(asked: Asked) -> Option<Reply>
    ensures { result ≡ granted_reply asked }
{
    match asked {
        Asked::Granted => Some(Reply::Granted),
        Asked::Queued(_) => None,
    }
}

impl Brick {
    fn ask(
        &mut self,
        number: u64,
        client: u8,
        gfid: Gfid,
        domain: Domain,
        kind: LockKind,
    ) -> Result<Effects, AllocError>
        ensures step { IfOk result (λ e. (m : Records) → Meets (asked (state self.old m) (record { number = number; client = client; gfid = gfid; domain = domain; kind = kind })) e (state self.new m)) }
        ensures index { indexed self.new ≡ indexed self.old }
        ensures plain { IfOk result (λ e. is_fault e.reply ≡ false) }
        ensures fits { IfOk result (λ e. (q : RequestOf) → IfSome e.reply (λ y. IsFitReply q y)) }
        ensures err { OnErr result (IsAsBefore self.old self.new) }
    {
        let asked = self.locks.ask(number, client, gfid, domain, kind)?;
        Ok(effects_of(self.alloc, granted_reply(asked), None))
    }

    fn release(&mut self, grant: u64) -> Result<Effects, AllocError>
        ensures step { IfOk result (λ e. (m : Records) → Meets (released (state self.old m) grant) e (state self.new m)) }
        ensures index { indexed self.new ≡ indexed self.old }
        ensures plain { IfOk result (λ e. e.reply ≡ None) }
        ensures err { OnErr result (IsAsBefore self.old self.new) }
    {
        let nobody = WaiterList::new(self.alloc);
        Ok(Effects {
            reply: None,
            version: None,
            granted: self.locks.release(grant)?.unwrap_or(nobody),
        })
    }

    fn gfids<S: BrickStore>(
        &self,
        store: &mut S,
        after: Option<Gfid>,
        dirty: bool,
    ) -> Result<Effects, AllocError>
        ensures tells { S.told store.new ≡ S.told store.old }
        ensures same { S.told store.old ≡ true → S.records store.new ≡ S.records store.old }
        ensures step { IfOk result (λ e. S.told store.old ≡ true → IndexIs (indexed self.now) (S.records store.old) → Meets (unguarded (state self.now (S.records store.old)) (failing_of e.reply e.version) (own_of (GfidsAfter after dirty) (S.records store.old))) e (state self.now (S.records store.old))) }
        ensures replied { IfOk result (λ e. is_some e.reply ≡ true) }
        ensures fits { IfOk result (λ e. IfSome e.reply (λ y. IsFitReply (GfidsAfter after dirty) y)) }
        ensures granted { IfOk result (λ e. e.granted ≡ []) }
        ensures later { S.faults store.old ≤ S.faults store.new }
        ensures fault { IfOk result (λ e. is_fault e.reply ≡ true → Rose (S.faults store.old) (S.faults store.new)) }
    {
        if dirty {
            let list = dirty_gfids(self.alloc, &self.index, after)?;
            return Ok(effects_of(self.alloc, Some(Reply::Gfids(list)), None));
        }
        match record_gfids(self.alloc, store, after) {
            Ok(list) => Ok(effects_of(self.alloc, Some(Reply::Gfids(list)), None)),
            Err(StoreFault::Failed) => Ok(effects_of(self.alloc, Some(Reply::Fault), None)),
            Err(StoreFault::NoMemory) => Err(AllocError),
        }
    }

    /// Executes the request of message `number` by a client, by the table: refused by the lock table, then by the head of
    /// the record, or done. A brick that is up executes it whole or not at all, except for a write of bytes in which the
    /// store fails. Where there is no memory all is as before.
    pub fn execute<S: BrickStore>(
        &mut self,
        store: &mut S,
        client: u8,
        number: u64,
        request: &Request,
    ) -> Result<Effects, AllocError>
        requires up { is_up self.now ≡ true }
        requires fit { IsFit request.now }
        ensures tells { S.told store.new ≡ S.told store.old }
        ensures step { IfOk result (λ e. S.told store.old ≡ true → IndexIs (indexed self.old) (S.records store.old) → Meets (step (state self.old (S.records store.old)) (failing_of e.reply e.version) client number request.now) e (state self.new (S.records store.new))) }
        ensures fence { (r : Row) (y : ReplyOf) → row_of request.now ≡ Some r → fence (asks_of self.old) r ≡ Some y → IsFencedOff y self.old self.new store.old store.new result }
        ensures locks { IfOk result (λ e. (m : Records) (f : Failing) → MeetsLocks (step (state self.old m) f client number request.now) request.now e (state self.new m)) }
        ensures replied { IfOk result (λ e. is_locking request.now ≡ false → is_some e.reply ≡ true) }
        ensures fits { IfOk result (λ e. IfSome e.reply (λ y. IsFitReply request.now y)) }
        ensures index { S.told store.old ≡ true → IndexIs (indexed self.old) (S.records store.old) → IndexIs (indexed self.new) (S.records store.new) }
        ensures err { OnErr result (IsAsBefore self.old self.new) }
        ensures same_records { OnErr result (S.told store.old ≡ true → S.records store.new ≡ S.records store.old) }
        ensures later { S.faults store.old ≤ S.faults store.new }
        ensures fault { IfOk result (λ e. is_fault e.reply ≡ true → Rose (S.faults store.old) (S.faults store.new)) }
    {
        match request {
            Request::Ask { gfid, domain, kind } => self.ask(number, client, *gfid, *domain, *kind),
            Request::Release { grant, .. } => self.release(*grant),
            Request::GfidsAfter { after, dirty } => self.gfids(store, *after, *dirty),
            _ => match row_of(request) {
                Some(row) => self.guarded(store, request, &row),
                None => Ok(effects_of(self.alloc, None, None)),
            },
        }
    }
}
