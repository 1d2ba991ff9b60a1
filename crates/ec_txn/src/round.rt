// A call that goes by a table: one round after another, each to several bricks at a time.
ghost use Rattle.std.specs.Prelude.{◌≡◌, ◌≢◌, ◌⊎◌, ◌++◌, true, false, ℕ, ◌+◌, ◌<◌, ◌≤◌, ◌^◌, List, [], length, Option, Some, None, IfOk, OnOk, vec_len, All, map, IsTrue, ◌↔◌};
ghost use Rattle.ec_conduct.specs.Account.{Account};
ghost use Rattle.ec_conduct.specs.Given.{Given};
ghost use Rattle.ec_conduct.specs.Table.{to_bricks};
ghost use Rattle.ec_txn.specs.Digest.{Shows, all_sent, any_waits, place_at};
ghost use Rattle.ec_txn.specs.Lists.{Extends, back_at, back_of, refused_at, refused_of};
ghost use Rattle.ec_txn.specs.Rounds.{one, subject, where_so};
ghost use Rattle.ec_txn.specs.Steps.{answer_of};
ghost use Rattle.ec_txn.specs.Tables.{Sees, TakesStep};

use crate::call::{Call, Conduct};
use crate::ctx::Ctx;
use crate::known::{Held, Known};
use crate::plan::{Plan, Work};
use crate::stage::Next;
use crate::turn::{Sends, Turn};
use ec_attr::{BrickSet, Gfid};
use ec_wire::{Answer, Phase, Reply, Request};
use std::alloc::{AllocError, Global};

/// A call that goes by a plan. `stage` is None once it is answered.
#[derive(Drop)]
pub struct Round<P: Plan> {
    pub ctx: Ctx,
    pub gfid: Gfid,
    pub plan: P,
    pub known: Known,
    pub stage: Option<P::Stage>,
    pub answer: Option<Answer>,
}

/// The Release of an ask that wasn't granted.
fn refused(gfid: Gfid, lock: Option<Held>) -> Option<Request>
    ensures { one result ≡ refused_of gfid.0 lock }
{
    match lock {
        Some(lock) if !lock.granted => Some(Request::Release {
            gfid,
            grant: lock.number,
        }),
        _ => None,
    }
}

/// The Release of a lock.
fn given_back(gfid: Gfid, lock: Option<Held>) -> Option<Request>
    ensures { one result ≡ back_of gfid.0 lock }
{
    match lock {
        Some(lock) if lock.granted => Some(Request::Release {
            gfid,
            grant: lock.number,
        }),
        _ => None,
    }
}

fn push(brick: u8, request: Option<Request>, sends: &mut Sends) -> Result<(), AllocError>
    ensures { OnOk result (sends.new ≡ sends.old ++ map (λ r. (brick, r)) (one request)) }
{
    if let Some(request) = request {
        sends.push((brick, request))?;
    }
    Ok(())
}

/// Releases each ask that wasn't granted.
fn unlock(gfid: Gfid, bricks: u8, known: &Known, sends: &mut Sends) -> Result<(), AllocError>
    ensures sends { OnOk result (sends.new ≡ sends.old ++ to_bricks bricks (refused_at gfid.0 known.now.places.items)) }
    ensures within { OnOk result (Extends bricks bricks sends.old sends.new) }
{
    for brick in 0..bricks {
        push(brick, refused(gfid, known.place(brick).lock), sends)?;
    }
    Ok(())
}

/// Releases each lock.
fn give_back(gfid: Gfid, bricks: u8, known: &Known, sends: &mut Sends) -> Result<(), AllocError>
    ensures sends { OnOk result (sends.new ≡ sends.old ++ to_bricks bricks (back_at gfid.0 known.now.places.items)) }
    ensures within { OnOk result (Extends bricks bricks sends.old sends.new) }
{
    for brick in 0..bricks {
        push(brick, given_back(gfid, known.place(brick).lock), sends)?;
    }
    Ok(())
}

/// Enters what was sent.
fn mark(known: &mut Known, next: u64, sends: &Sends)
    requires below { All (λ s. s.0 < vec_len known.old.places) sends.now }
    requires next { next + length sends.now < 2 ^ 63 }
    ensures sent { place_at known.new.places.items ≡ all_sent (place_at known.old.places.items) next sends.now }
    ensures same { vec_len known.new.places ≡ vec_len known.old.places }
    ensures replies { known.new.replies ≡ known.old.replies }
{
    for (index, send) in sends.items().iter().enumerate() {
        known.sent(send.0, next + index as u64, &send.1);
    }
}

/// Sends what a stage asks.
fn ask<T, P: Work<T>>(
    plan: &P,
    ctx: &Ctx,
    stage: &P::Stage,
    known: &Known,
    sends: &mut Sends,
) -> Result<(), AllocError>
    ensures sends { OnOk result ((c : Account) → Sees ctx.now (P.fits plan.now) known.now c → sends.new ≡ sends.old ++ to_bricks ctx.now.geometry.n (λ x. one ((P.table ctx.now).asks stage.now c x))) }
    ensures within { OnOk result (Extends ctx.now.geometry.n ctx.now.geometry.n sends.old sends.new) }
{
    for brick in 0..ctx.geometry.n {
        let request = plan.request(ctx, stage, known, brick)?;
        push(brick, request, sends)?;
    }
    Ok(())
}

/// Whether a stage lasts: a reply is waited for, or something was asked again.
fn lasts(known: &Known, sends: &Sends) -> bool
    ensures yes { result ≡ true → (any_waits known.now.places.items (vec_len known.now.places) ≡ true) ⊎ (sends.now ≢ []) }
    ensures no { result ≡ false → (any_waits known.now.places.items (vec_len known.now.places) ≡ false) × (sends.now ≡ []) }
{
    sends.len() > 0 || known.is_waiting()
}

/// Sends what a stage that asks again asks by now.
fn ask_again<T, P: Work<T>>(
    plan: &P,
    ctx: &Ctx,
    stage: &P::Stage,
    known: &Known,
    sends: &mut Sends,
) -> Result<(), AllocError>
    ensures sends { OnOk result ((c : Account) → Sees ctx.now (P.fits plan.now) known.now c → sends.new ≡ sends.old ++ to_bricks ctx.now.geometry.n (λ x. one (where_so ((P.table ctx.now).again stage.now) ((P.table ctx.now).asks stage.now c) x))) }
    ensures within { OnOk result (Extends ctx.now.geometry.n ctx.now.geometry.n sends.old sends.new) }
{
    if !P::asks_again(ctx, stage) {
        return Ok(());
    }
    ask::<T, P>(plan, ctx, stage, known, sends)
}

impl<P: Plan> Round<P> {
    /// Whether a brick has its place in what is known.
    fn has_room(&self, brick: u8) -> bool
        ensures { IsTrue result ↔ (vec_len self.now.known.places ≡ self.now.ctx.geometry.n) × (vec_len self.now.known.replies.items ≡ self.now.ctx.geometry.n) × (brick < self.now.ctx.geometry.n) }
    {
        let bricks = usize::from(self.ctx.geometry.n);
        self.known.places.len() == bricks
            && self.known.replies.items.len() == bricks
            && brick < self.ctx.geometry.n
    }

    /// Asks again, or goes on where nobody is waited for any more.
    fn go_on<T>(&mut self, rows: &T, next: u64, sends: &mut Sends) -> Result<Turn, AllocError>
    where
        P: Work<T>,
        requires len { vec_len self.old.known.places ≡ self.old.ctx.geometry.n }
        requires next { next < 2 ^ 62 }
        requires empty { sends.old ≡ [] }
        ensures step { IfOk result (λ turn. (p : P.Stage) (c : Account) → self.old.stage ≡ Some p → self.old.answer ≡ None → subject c.given.op ≡ self.old.gfid.0 → Sees self.old.ctx (P.fits self.old.plan) self.old.known c → TakesStep (P.table self.old.ctx) p c next self.old.known self.new.known self.new.stage (answer_of turn) sends.new × (self.new.answer ≡ answer_of turn)) }
        ensures same { OnOk result ((self.new.ctx ≡ self.old.ctx) × (self.new.gfid ≡ self.old.gfid) × (self.new.plan ≡ self.old.plan) × (vec_len self.new.known.places ≡ vec_len self.old.known.places) × (self.new.known.replies ≡ self.old.known.replies)) }
    {
        let Some(stage) = &self.stage else {
            return Ok(Turn::Wait);
        };
        ask_again::<T, P>(&self.plan, &self.ctx, stage, &self.known, sends)?;
        if lasts(&self.known, sends) {
            mark(&mut self.known, next, sends);
            return Ok(Turn::Wait);
        }
        unlock(self.gfid, self.ctx.geometry.n, &self.known, sends)?;
        match self.plan.next(&self.ctx, stage, &self.known, rows)? {
            Next::Go(stage) => {
                ask::<T, P>(&self.plan, &self.ctx, &stage, &self.known, sends)?;
                mark(&mut self.known, next, sends);
                self.stage = Some(stage);
                Ok(Turn::Wait)
            }
            Next::Say(answer) => {
                give_back(self.gfid, self.ctx.geometry.n, &self.known, sends)?;
                mark(&mut self.known, next, sends);
                self.answer = Some(answer.copy()?);
                self.stage = None;
                Ok(Turn::Done(answer))
            }
        }
    }
}

impl<P: Plan + Drop> Round<P> {
    ghost use Rattle.ec_txn.specs.Steps.{Adds};
    ghost use Rattle.ec_txn.specs.Tables.{IsOf, Stands};

    /// Begins a call. What it sends has the numbers from `next` on; the list is handed in empty.
    pub fn begin<T>(
        alloc: Global,
        ctx: &Ctx,
        plan: P,
        next: u64,
        sends: &mut Sends,
    ) -> Result<Round<P>, AllocError>
    where
        P: Work<T>,
        requires next { next < 2 ^ 62 }
        requires empty { sends.old ≡ [] }
        ensures adds { IfOk result (λ call. (given : Given) → IsOf ctx.now given → P.fits plan given → Adds (Stands ctx.now given (P.fits call.plan given) (P.table ctx.now) (P.during ctx.now) call.ctx call.gfid.0 call.known call.stage call.answer) ctx.now.geometry.n [] next sends.new call.answer) }
    {
        let gfid = plan.gfid();
        let mut known = Known::new(alloc, ctx.geometry.n)?;
        match plan.start(ctx) {
            Next::Go(stage) => {
                ask::<T, P>(&plan, ctx, &stage, &known, sends)?;
                mark(&mut known, next, sends);
                Ok(Round {
                    ctx: *ctx,
                    gfid,
                    plan,
                    known,
                    stage: Some(stage),
                    answer: None,
                })
            }
            Next::Say(answer) => Ok(Round {
                ctx: *ctx,
                gfid,
                plan,
                known,
                stage: None,
                answer: Some(answer),
            }),
        }
    }
}

impl<P: Plan> Conduct for Round<P> {
    ghost use Rattle.ec_txn.specs.Tables.{Begins, Goes, Stands};

    type Stage = P::Stage;

    ghost begins = { λ x given step. Begins (P.table x) given step };

    ghost goes = { λ x stage c step. Goes (P.table x) stage c step };

    ghost phase_of = { P.phase_of };

    ghost stage = { λ call. call.stage };

    ghost stands = { λ x given call es. Stands x given (P.fits call.plan given) (P.table x) (P.during x) call.ctx call.gfid.0 call.known call.stage call.answer es };
}

impl<T, P: Work<T>> Call<T> for Round<P> {
    fn phase(&self) -> Phase {
        match &self.stage {
            Some(stage) => P::phase(stage),
            None => Phase::Lock,
        }
    }

    fn waiting(&self) -> BrickSet {
        self.known.waiting()
    }

    fn awaits(&self, brick: u8) -> Option<u64> {
        match self.known.place(brick).waits {
            Some(wait) => Some(wait.number),
            None => None,
        }
    }

    fn ready(&self) -> Result<Option<Answer>, AllocError> {
        match &self.answer {
            Some(answer) => Ok(Some(answer.copy()?)),
            None => Ok(None),
        }
    }

    fn hear(
        &mut self,
        rows: &T,
        next: u64,
        brick: u8,
        reply: &Reply,
        sends: &mut Sends,
    ) -> Result<Turn, AllocError> {
        if !self.has_room(brick) {
            return Ok(Turn::Wait);
        }
        self.known.told(brick, reply)?;
        self.go_on(rows, next, sends)
    }

    fn give_up(
        &mut self,
        rows: &T,
        next: u64,
        brick: u8,
        sends: &mut Sends,
    ) -> Result<Turn, AllocError> {
        if !self.has_room(brick) {
            return Ok(Turn::Wait);
        }
        self.known.gave_up(brick);
        self.go_on(rows, next, sends)
    }

    ghost keeps = { λ x given call es s. s.keeps };

    ghost by_table = { λ x given call es s. s.by_table };

    ghost releases = { λ x given call es kept s over. s.released over };
}
