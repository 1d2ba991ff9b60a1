// The table of a call on one gfid, as data and as code.
ghost use Rattle.std.specs.Prelude.{◌≡◌, ◌<◌, IfOk, vec_len};
ghost use Rattle.ec_conduct.specs.Account.{Account};
ghost use Rattle.ec_conduct.specs.Given.{Given};
ghost use Rattle.ec_txn.specs.Rounds.{Asks, subject};
ghost use Rattle.ec_txn.specs.Tables.{IsOf, IsSound, Sees, Table};
ghost use Rattle.ec_txn.specs.declared.ctx.Ctx.{Ctx as CtxOf};
ghost use Rattle.ec_wire.specs.declared.phase.Phase.{Phase as PhaseOf};

use crate::ctx::Ctx;
use crate::known::Known;
use crate::stage::Next;
use ec_attr::Gfid;
use ec_wire::{Phase, Request};
use std::alloc::AllocError;

/// The table of a call, as data. How a call is added:
///
/// 1. Its stages are an enum. Those that all calls share come first, as `Opening`; a stage holds what it has to remember
///    beside what is known of each brick, as the group that the Queries gave.
/// 2. Its table is stated once, in `specs/`: which stage comes first; what a stage asks of a brick, as a function of the
///    account at which it begins, so at most one request a brick, all on the call's gfid; and what follows once nobody is
///    waited for, as a relation, since what is coded or decoded is told by one. What is sent in which order, when an ask
///    is released, and how a call ends is the same for all tables: `Goes` of `specs/Tables` tells it.
/// 3. That the table keeps the conduct is a law on the table, `IsSound`, whose proof stands in `specs/` too. `during` says
///    what holds of the account at which a stage begins; `goes` shows it for the next stage from what came of the round
///    (`IsRound` tells for each brick that it was not asked, or its one reply), and `may` that what the stage asks may be
///    sent, in the midst of the round (`IsSent`). For the opening these are lemmas of `proofs/Openings`.
/// 4. `Work` is the table in code: `request` and `next`. Neither sends nor counts anything; `Round` does.
///
/// `Stat` of the crate of reads is the shortest example.
pub trait Plan {
    type Stage: Drop;

    /// Which stage comes first, what each asks, and what follows it.
    ghost table: { CtxOf → Table Self.Stage };

    /// What holds of an account at which a stage sends what it asks.
    ghost during: { CtxOf → Self.Stage → Account → Asks → Type 0 };

    /// The phase that a stage is in.
    ghost phase_of: { Self.Stage → PhaseOf };

    /// The plan is of a call that was begun with these.
    ghost fits: { Self → Given → Type 0 };
}

/// The code of a table: it says of each brick what a stage asks, and what follows. T is what a call codes with.
pub trait Work<T>: Plan + Drop {
    /// The gfid that the call is on.
    fn gfid(&self) -> Gfid
        ensures { (given : Given) → Self.fits self.now given → subject given.op ≡ result.0 };

    fn phase(stage: &Self::Stage) -> Phase
        ensures { result ≡ Self.phase_of stage.now };

    /// Whether a stage asks again by what is known at each turn, as where a brick that failed is replaced by another.
    fn asks_again(ctx: &Ctx, stage: &Self::Stage) -> bool
        ensures { result ≡ (Self.table ctx.now).again stage.now };

    /// What comes first.
    fn start(&self, ctx: &Ctx) -> Next<Self::Stage>
        ensures { (given : Given) → IsOf ctx.now given → Self.fits self.now given → (Self.table ctx.now).starts given result };

    /// What a stage asks of a brick as it begins.
    fn request(
        &self,
        ctx: &Ctx,
        stage: &Self::Stage,
        known: &Known,
        brick: u8,
    ) -> Result<Option<Request>, AllocError>
        requires { brick < 31 }
        ensures { IfOk result (λ request. (c : Account) → Sees ctx.now (Self.fits self.now) known.now c → request ≡ (Self.table ctx.now).asks stage.now c brick) };

    /// What follows a stage, once nobody is waited for.
    fn next(
        &self,
        ctx: &Ctx,
        stage: &Self::Stage,
        known: &Known,
        rows: &T,
    ) -> Result<Next<Self::Stage>, AllocError>
        requires { vec_len known.now.places ≡ ctx.now.geometry.n }
        ensures { IfOk result (λ next. (c : Account) → Sees ctx.now (Self.fits self.now) known.now c → (Self.table ctx.now).follows stage.now c next) };

    /// The table keeps the conduct.
    ghost sound: { (x : CtxOf) → IsSound x (Self.table x) (Self.during x) };
}
