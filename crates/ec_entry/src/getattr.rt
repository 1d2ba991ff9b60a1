// The attribute of a file or directory.
ghost use Rattle.std.specs.Prelude.{◌≡◌, ◌<◌, ◌^◌, IfOk, Ok, []};
ghost use Rattle.ec_entry.specs.GetAttr.{getattr_answer};
ghost use Rattle.ec_txn.specs.Steps.{Adds, given_of};
ghost use Rattle.std.specs.declared.option.Option.TheVariants.{None};
ghost use Rattle.ec_wire.specs.declared.op.Op.TheVariants.{GetAttr as GetAttrOp};

use ec_answers::Grouped;
use ec_attr::{Gfid, LockKind};
use ec_txn::{Conduct, Ctx, Known, Next, Opening, Plan, Round, Sends, Work, after_lock, come_to};
use ec_wire::{Answer, Phase, Request};
use std::alloc::{AllocError, Global};

/// What a getattr keeps: the gfid that it is on.
#[derive(Drop)]
pub struct GetAttr {
    gfid: Gfid,
}

/// A getattr: a shared lock at each brick, the Queries, and the attribute that the good group has.
pub type GetAttrCall = Round<GetAttr>;

/// What a getattr is answered.
fn answer_by(grouped: &Grouped) -> Answer
    ensures { result ≡ getattr_answer grouped.now }
{
    match grouped {
        Grouped::Group(group) => Answer::Attr(group.head.attr),
        Grouped::Gone(_) => Answer::NoSuch,
        Grouped::Fewer(most) => Answer::NoQuorum {
            phase: Phase::Query,
            most: *most,
        },
    }
}

impl Plan for GetAttr {
    ghost use Rattle.ec_entry.specs.GetAttr.{DuringGetAttr, getattr_table};
    ghost use Rattle.ec_txn.specs.Opening.{opening_phase};

    type Stage = Opening;

    ghost table = { λ x. getattr_table };

    ghost during = { λ x. DuringGetAttr };

    ghost phase_of = { opening_phase };

    ghost fits = { λ getattr given. given.op ≡ GetAttrOp getattr.gfid };
}

impl<T> Work<T> for GetAttr {
    ghost use Rattle.ec_entry.specs.GetAttrSound.{getattr_sound};

    fn gfid(&self) -> Gfid {
        self.gfid
    }

    fn phase(stage: &Opening) -> Phase {
        stage.phase()
    }

    fn asks_again(ctx: &Ctx, stage: &Opening) -> bool {
        false
    }

    fn start(&self, ctx: &Ctx) -> Next<Opening> {
        Next::Go(Opening::Lock { at: 0 })
    }

    fn request(
        &self,
        ctx: &Ctx,
        stage: &Opening,
        known: &Known,
        brick: u8,
    ) -> Result<Option<Request>, AllocError> {
        Ok(stage.request(ctx, self.gfid, LockKind::Shared, known, brick))
    }

    fn next(
        &self,
        ctx: &Ctx,
        stage: &Opening,
        known: &Known,
        rows: &T,
    ) -> Result<Next<Opening>, AllocError> {
        Ok(match stage {
            Opening::Lock { at } => after_lock(ctx, known, *at),
            Opening::Query => Next::Say(answer_by(&come_to(known, &ctx.geometry))),
        })
    }

    ghost sound = { getattr_sound };
}

/// Begins a getattr of this gfid. What it sends has the numbers from `next` on; the list is handed in empty.
pub fn begin_getattr(
    alloc: Global,
    ctx: &Ctx,
    gfid: Gfid,
    next: u64,
    sends: &mut Sends,
) -> Result<GetAttrCall, AllocError>
    requires next { next < 2 ^ 62 }
    requires empty { sends.old ≡ [] }
    ensures adds { IfOk result (λ call. Adds (⟦<GetAttrCall as Conduct>⟧.stands ctx.now (given_of ctx.now (GetAttrOp gfid) None []) call) ctx.now.geometry.n [] next sends.new call.answer) }
{
    GetAttrCall::begin::<()>(alloc, ctx, GetAttr { gfid }, next, sends)
}
