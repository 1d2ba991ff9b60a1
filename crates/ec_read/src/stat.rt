// The size of a file.
ghost use Rattle.std.specs.Prelude.{◌≡◌, ◌<◌, ◌^◌, IfOk, Ok, []};
ghost use Rattle.ec_read.specs.Stat.{stat_answer};
ghost use Rattle.ec_txn.specs.Steps.{Adds, given_of};
ghost use Rattle.std.specs.declared.option.Option.TheVariants.{None};
ghost use Rattle.ec_wire.specs.declared.op.Op.TheVariants.{Stat as StatOp};

use ec_answers::Grouped;
use ec_attr::{Gfid, Kind, LockKind};
use ec_txn::{Conduct, Ctx, Known, Next, Opening, Plan, Round, Sends, Work, after_lock, come_to};
use ec_wire::{Answer, Phase, Request};
use std::alloc::{AllocError, Global};

/// What a stat keeps: the gfid that it is on.
#[derive(Drop)]
pub struct Stat {
    gfid: Gfid,
}

/// A stat: a shared lock at each brick, the Queries, and the size that the good group has.
pub type StatCall = Round<Stat>;

/// What a stat is answered.
fn answer_by(grouped: &Grouped) -> Answer
    ensures { result ≡ stat_answer grouped.now }
{
    match grouped {
        Grouped::Group(group) => match group.head.kind {
            Kind::File => Answer::Size(group.head.size),
            Kind::Dir => Answer::IsDir,
        },
        Grouped::Gone(_) => Answer::NoSuch,
        Grouped::Fewer(most) => Answer::NoQuorum {
            phase: Phase::Query,
            most: *most,
        },
    }
}

impl Plan for Stat {
    ghost use Rattle.ec_read.specs.Stat.{DuringStat, stat_table};
    ghost use Rattle.ec_txn.specs.Opening.{opening_phase};

    type Stage = Opening;

    ghost table = { λ x. stat_table };

    ghost during = { λ x. DuringStat };

    ghost phase_of = { opening_phase };

    ghost fits = { λ stat given. given.op ≡ StatOp stat.gfid };
}

impl<T> Work<T> for Stat {
    ghost use Rattle.ec_read.specs.Sound.{stat_sound};

    fn gfid(&self) -> Gfid {
        self.gfid
    }

    fn phase(stage: &Opening) -> Phase {
        stage.phase()
    }

    fn asks_again(ctx: &Ctx, stage: &Opening) -> bool {
        false
    }

    fn start(&self, ctx: &Ctx) -> Next<Opening> {
        Next::Go(Opening::Lock { at: 0 })
    }

    fn request(
        &self,
        ctx: &Ctx,
        stage: &Opening,
        known: &Known,
        brick: u8,
    ) -> Result<Option<Request>, AllocError> {
        Ok(stage.request(ctx, self.gfid, LockKind::Shared, known, brick))
    }

    fn next(
        &self,
        ctx: &Ctx,
        stage: &Opening,
        known: &Known,
        rows: &T,
    ) -> Result<Next<Opening>, AllocError> {
        Ok(match stage {
            Opening::Lock { at } => after_lock(ctx, known, *at),
            Opening::Query => Next::Say(answer_by(&come_to(known, &ctx.geometry))),
        })
    }

    ghost sound = { stat_sound };
}

/// Begins a stat of this gfid. What it sends has the numbers from `next` on; the list is handed in empty.
pub fn begin_stat(
    alloc: Global,
    ctx: &Ctx,
    gfid: Gfid,
    next: u64,
    sends: &mut Sends,
) -> Result<StatCall, AllocError>
    requires next { next < 2 ^ 62 }
    requires empty { sends.old ≡ [] }
    ensures adds { IfOk result (λ call. Adds (⟦<StatCall as Conduct>⟧.stands ctx.now (given_of ctx.now (StatOp gfid) None []) call) ctx.now.geometry.n [] next sends.new call.answer) }
{
    StatCall::begin::<()>(alloc, ctx, Stat { gfid }, next, sends)
}
