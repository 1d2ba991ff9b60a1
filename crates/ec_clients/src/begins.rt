// How calls begin.
ghost use Rattle.std.specs.Prelude.{◌≡◌, ℕ, ◌<◌, ◌^◌, IfOk, List, None, []};
ghost use Rattle.std.specs.declared.option.Option.{Option};
ghost use Rattle.ec_txn.specs.Steps.{Adds, given_of};
ghost use Rattle.ec_wire.specs.declared.answer.Answer.{Answer as AnswerOf};

use ec_txn::{Call, Ctx, Sends};
use ec_wire::Op;
use std::alloc::{AllocError, Global};

/// A type of calls that clients make.
pub trait Begins<T>: Call<T> {
    /// Begins a call, on no kept grants. What it sends has the numbers from `next` on; the list is handed in empty.
    fn begin(
        alloc: Global,
        ctx: &Ctx,
        op: &Op,
        next: u64,
        sends: &mut Sends,
    ) -> Result<Self, AllocError>
        requires next { next < 2 ^ 62 }
        requires empty { sends.old ≡ [] }
        ensures adds { IfOk result (λ call. (answer : Option AnswerOf) × Adds (Self.stands ctx.now (given_of ctx.now op.now None []) call) ctx.now.geometry.n [] next sends.new answer) };
}
