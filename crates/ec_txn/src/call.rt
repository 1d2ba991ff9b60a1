// What a call is to the history of a run, and to the one who drives it.
ghost use Rattle.std.specs.Prelude.{◌≡◌, ℕ, ◌++◌, ◌∷◌, [], ◌<◌, ◌^◌, IfOk, IfSome, List, Some, None, is_some, true};
ghost use Rattle.std.specs.declared.option.Option.{Option};
ghost use Rattle.ec_attr.specs.Bricks.{is_in};
ghost use Rattle.ec_brick.specs.Fit.{IsFitReply};
ghost use Rattle.ec_conduct.specs.Account.{Account, Wait};
ghost use Rattle.ec_conduct.specs.Conduct.{Keeps};
ghost use Rattle.ec_conduct.specs.Given.{Given};
ghost use Rattle.ec_conduct.specs.Opened.{account};
ghost use Rattle.ec_conduct.specs.Own.{GivesUp, Hears, Own};
ghost use Rattle.ec_conduct.specs.Table.{IsByTable, Step};
ghost use Rattle.ec_txn.specs.Released.{HoldsNothing};
ghost use Rattle.ec_txn.specs.Steps.{Adds, answer_of, number_of};
ghost use Rattle.ec_txn.specs.declared.ctx.Ctx.{Ctx as CtxOf};
ghost use Rattle.ec_wire.specs.declared.phase.Phase.{Phase as PhaseOf};

use crate::turn::{Sends, Turn};
use ec_attr::BrickSet;
use ec_wire::{Answer, Phase, Reply};
use std::alloc::AllocError;

/// What a call is to the history of a run: its table, and the own entries that it stands for.
pub trait Conduct {
    /// The stages of its table, with what they keep.
    type Stage;

    /// How it begins, and what comes in a stage as its account has become this by a reply or a giving up.
    ghost begins: { CtxOf → Given → Step Self.Stage → Type 0 };

    ghost goes: { CtxOf → Self.Stage → Account → Step Self.Stage → Type 0 };

    /// The phase that a stage is in.
    ghost phase_of: { Self.Stage → PhaseOf };

    /// The stage that the call is in; None once it is answered.
    ghost stage: { Self → Option Self.Stage };

    /// The call, begun with these, stands for these own entries.
    ghost stands: { CtxOf → Given → Self → List Own → Type 0 };
}

/// A call, to the one who drives it. A call that wants memory isn't used again.
pub trait Call<T>: Conduct + Drop {
    /// The phase that it is in.
    fn phase(&self) -> Phase
        ensures { IfSome (Self.stage self.now) (λ stage. result ≡ Self.phase_of stage) };

    /// The bricks whose replies it waits for.
    fn waiting(&self) -> BrickSet
        ensures { (x : CtxOf) (given : Given) (es : List Own) → Self.stands x given self.now es → (b : ℕ) → is_in result b ≡ is_some ((account given es).waits b) };

    /// The number of the request to this brick that it waits for.
    fn awaits(&self, brick: u8) -> Option<u64>
        ensures { (x : CtxOf) (given : Given) (es : List Own) → Self.stands x given self.now es → result ≡ number_of ((account given es).waits brick) };

    /// Its answer, where it was answered as it began.
    fn ready(&self) -> Result<Option<Answer>, AllocError>
        ensures { IfOk result (λ answer. (x : CtxOf) (given : Given) (es : List Own) → Self.stands x given self.now es → answer ≡ (account given es).answer) };

    /// Hears the reply that it waits for from a brick. What it sends has the numbers from `next` on; the list is handed
    /// in empty.
    fn hear(
        &mut self,
        rows: &T,
        next: u64,
        brick: u8,
        reply: &Reply,
        sends: &mut Sends,
    ) -> Result<Turn, AllocError>
        requires next { next < 2 ^ 62 }
        requires empty { sends.old ≡ [] }
        ensures adds { IfOk result (λ turn. (x : CtxOf) (given : Given) (es : List Own) (w : Wait) → Self.stands x given self.old es → (account given es).waits brick ≡ Some w → IsFitReply w.request reply.now → Adds (Self.stands x given self.new) given.geometry.n (es ++ Hears brick w.number reply.now ∷ []) next sends.new (answer_of turn)) };

    /// Waits no more for the reply of a brick.
    fn give_up(
        &mut self,
        rows: &T,
        next: u64,
        brick: u8,
        sends: &mut Sends,
    ) -> Result<Turn, AllocError>
        requires next { next < 2 ^ 62 }
        requires empty { sends.old ≡ [] }
        ensures adds { IfOk result (λ turn. (x : CtxOf) (given : Given) (es : List Own) (w : Wait) → Self.stands x given self.old es → (account given es).waits brick ≡ Some w → Adds (Self.stands x given self.new) given.geometry.n (es ++ GivesUp brick w.number ∷ []) next sends.new (answer_of turn)) };

    /// The own entries that it stands for keep the conduct,
    ghost keeps: { (x : CtxOf) (given : Given) (call : Self) (es : List Own) → Self.stands x given call es → Keeps given es };

    /// and are by its table.
    ghost by_table: { (x : CtxOf) (given : Given) (call : Self) (es : List Own) → Self.stands x given call es → IsByTable (Self.begins x) (Self.goes x) given es (Self.stage call) };

    /// A call that was begun with no kept grants has released all of its asks once it is answered.
    ghost releases: { (x : CtxOf) (given : Given) (call : Self) (es : List Own) → given.kept ≡ None → Self.stands x given call es → is_some (account given es).answer ≡ true → HoldsNothing (account given es) };
}
