// A change of the attribute of a file or directory.
ghost use Rattle.std.specs.Prelude.{◌≡◌, ◌<◌, ◌≤◌, ◌^◌, ℕ, IfOk, Ok, [], Some, vec_len};
ghost use Rattle.ec_conduct.specs.Account.{Account};
ghost use Rattle.ec_conduct.specs.Ballots.{attr_after};
ghost use Rattle.ec_conduct.specs.Given.{bricks_of};
ghost use Rattle.ec_entry.specs.SetAttr.{SetAttrJudges, SetAttrVotes, opens};
ghost use Rattle.ec_entry.specs.declared.setattr.SetAttrStage.TheVariants.{Opens};
ghost use Rattle.ec_txn.specs.Digest.{Shows};
ghost use Rattle.ec_txn.specs.Opening.{OpeningFollows};
ghost use Rattle.ec_txn.specs.Rounds.{subject};
ghost use Rattle.ec_txn.specs.Steps.{Adds, given_of};
ghost use Rattle.ec_txn.specs.Tables.{IsOf};
ghost use Rattle.std.specs.declared.option.Option.TheVariants.{None};
ghost use Rattle.ec_wire.specs.declared.op.Op.TheVariants.{SetAttr as SetAttrOp};

use ec_answers::Grouped;
use ec_attr::{Attr, Gfid, LockKind};
use ec_txn::{
    Ballot, Conduct, Ctx, Known, Next, Opening, Plan, Round, Sends, Work, after_lock, come_to,
    count_serving, is_within,
};
use ec_wire::{Answer, Phase, Request};
use std::alloc::{AllocError, Global};

/// What a setattr keeps: the gfid that it is on, and its new attribute.
#[derive(Drop)]
pub struct SetAttr {
    gfid: Gfid,
    attr: Attr,
}

/// The stages of a setattr: it opens, and its ballot changes nothing between PreOp and PostOp.
#[derive(Clone, Copy, Debug, Drop)]
pub enum SetAttrStage {
    Opens(Opening),
    Votes(Ballot),
}

/// A setattr: an exclusive lock at each brick, the Queries, and the ballot.
pub type SetAttrCall = Round<SetAttr>;

/// The stage of a setattr as it opens.
fn opens(next: Next<Opening>) -> Next<SetAttrStage>
    ensures { result ≡ opens next }
{
    match next {
        Next::Go(stage) => Next::Go(SetAttrStage::Opens(stage)),
        Next::Say(answer) => Next::Say(answer),
    }
}

/// What follows the Queries.
fn judge(grouped: &Grouped) -> Next<SetAttrStage>
    ensures { (c : Account) → SetAttrJudges c grouped.now result }
{
    match grouped {
        Grouped::Group(group) => {
            if is_within(&group.head) {
                Next::Go(SetAttrStage::Votes(Ballot::Pre { group: *group }))
            } else {
                Next::Say(Answer::Limit(group.head.version.content))
            }
        }
        Grouped::Gone(_) => Next::Say(Answer::NoSuch),
        Grouped::Fewer(most) => Next::Say(Answer::NoQuorum {
            phase: Phase::Query,
            most: *most,
        }),
    }
}

/// What follows a stage of the opening.
fn after_opening(ctx: &Ctx, known: &Known, stage: &Opening) -> Next<SetAttrStage>
    requires { vec_len known.now.places ≡ ctx.now.geometry.n }
    ensures { (c : Account) → IsOf ctx.now c.given → Shows (subject c.given.op) (bricks_of c.given) known.now c → OpeningFollows Opens SetAttrJudges stage.now c result }
{
    match stage {
        Opening::Lock { at } => opens(after_lock(ctx, known, *at)),
        Opening::Query => judge(&come_to(known, &ctx.geometry)),
    }
}

/// What follows a stage of the ballot.
fn after_ballot(ctx: &Ctx, known: &Known, stage: &Ballot, attr: Attr) -> Next<SetAttrStage>
    ensures { (c : Account) → IsOf ctx.now c.given → Shows (subject c.given.op) (bricks_of c.given) known.now c → attr_after c.given.op ≡ Some attr → SetAttrVotes stage.now c result }
{
    match stage {
        Ballot::Pre { group } => {
            let most = count_serving(ctx, known, group);
            if most < ctx.geometry.k() {
                return Next::Say(Answer::NoQuorum {
                    phase: Phase::Pre,
                    most,
                });
            }
            Next::Go(SetAttrStage::Votes(Ballot::Post { group: *group }))
        }
        Ballot::Post { group } => {
            let most = count_serving(ctx, known, group);
            if most < ctx.geometry.k() {
                return Next::Say(Answer::NoQuorum {
                    phase: Phase::Post,
                    most,
                });
            }
            if ctx.geometry.n <= most {
                Next::Go(SetAttrStage::Votes(Ballot::Clear { group: *group }))
            } else {
                Next::Say(Answer::Attr(attr))
            }
        }
        Ballot::Clear { .. } => Next::Say(Answer::Attr(attr)),
    }
}

impl Plan for SetAttr {
    ghost use Rattle.ec_entry.specs.SetAttr.{DuringSetAttr, setattr_phase, setattr_table};

    type Stage = SetAttrStage;

    ghost table = { λ x. setattr_table };

    ghost during = { λ x. DuringSetAttr };

    ghost phase_of = { setattr_phase };

    ghost fits = { λ setattr given. given.op ≡ SetAttrOp setattr.gfid setattr.attr };
}

impl<T> Work<T> for SetAttr {
    ghost use Rattle.ec_entry.specs.SetAttrSound.{setattr_sound};

    fn gfid(&self) -> Gfid {
        self.gfid
    }

    fn phase(stage: &SetAttrStage) -> Phase {
        match stage {
            SetAttrStage::Opens(stage) => stage.phase(),
            SetAttrStage::Votes(stage) => stage.phase(),
        }
    }

    fn asks_again(ctx: &Ctx, stage: &SetAttrStage) -> bool {
        false
    }

    fn start(&self, ctx: &Ctx) -> Next<SetAttrStage> {
        Next::Go(SetAttrStage::Opens(Opening::Lock { at: 0 }))
    }

    fn request(
        &self,
        ctx: &Ctx,
        stage: &SetAttrStage,
        known: &Known,
        brick: u8,
    ) -> Result<Option<Request>, AllocError> {
        Ok(match stage {
            SetAttrStage::Opens(stage) => {
                stage.request(ctx, self.gfid, LockKind::Exclusive, known, brick)
            }
            SetAttrStage::Votes(stage) => {
                let size = stage.group().head.size;
                stage.request(ctx, self.gfid, size, Some(self.attr), known, brick)
            }
        })
    }

    fn next(
        &self,
        ctx: &Ctx,
        stage: &SetAttrStage,
        known: &Known,
        rows: &T,
    ) -> Result<Next<SetAttrStage>, AllocError> {
        Ok(match stage {
            SetAttrStage::Opens(stage) => after_opening(ctx, known, stage),
            SetAttrStage::Votes(stage) => after_ballot(ctx, known, stage, self.attr),
        })
    }

    ghost sound = { setattr_sound };
}

/// Begins a setattr of this gfid. What it sends has the numbers from `next` on; the list is handed in empty.
pub fn begin_setattr(
    alloc: Global,
    ctx: &Ctx,
    gfid: Gfid,
    attr: Attr,
    next: u64,
    sends: &mut Sends,
) -> Result<SetAttrCall, AllocError>
    requires next { next < 2 ^ 62 }
    requires empty { sends.old ≡ [] }
    ensures adds { IfOk result (λ call. Adds (⟦<SetAttrCall as Conduct>⟧.stands ctx.now (given_of ctx.now (SetAttrOp gfid attr) None []) call) ctx.now.geometry.n [] next sends.new call.answer) }
{
    SetAttrCall::begin::<()>(alloc, ctx, SetAttr { gfid, attr }, next, sends)
}
