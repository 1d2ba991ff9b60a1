// What a name in a directory leads to.
ghost use Rattle.std.specs.Prelude.{◌≡◌, ◌<◌, ◌^◌, ℕ, IfOk, Ok, [], vec_len};
ghost use Rattle.std.specs.declared.option.Option.TheVariants.{None};
ghost use Rattle.ec_conduct.specs.Account.{Account};
ghost use Rattle.ec_txn.specs.Digest.{Shows};
ghost use Rattle.ec_txn.specs.Rounds.{subject};
ghost use Rattle.ec_txn.specs.Tables.{IsOf};
ghost use Rattle.ec_conduct.specs.Given.{bricks_of};
ghost use Rattle.ec_entry.specs.Lookup.{LookupFollows, lookup_answer, lookup_next, lookup_phase};
ghost use Rattle.ec_txn.specs.Steps.{Adds, given_of};
ghost use Rattle.ec_txn.specs.Next.{next_as};
ghost use Rattle.ec_wire.specs.declared.op.Op.TheVariants.{Lookup as LookupOp};
ghost use Rattle.ec_entry.specs.declared.lookup.LookupStage.TheVariants.{Opens as OpensOf};

use crate::asked::name_request;
use crate::named::{Named, name_value};
use ec_answers::Grouped;
use ec_attr::{BrickSet, Gfid, Kind, LockKind, Name};
use ec_txn::{Conduct, Ctx, Known, Next, Opening, Plan, Round, Sends, Work, after_lock, come_to};
use ec_wire::{Answer, Phase, Request};
use std::alloc::{AllocError, Global};

/// What a lookup keeps: the directory and the name.
#[derive(Drop)]
pub struct Lookup {
    parent: Gfid,
    name: Name,
}

/// The stages of a lookup: the opening, then the name, which the good group is asked for.
#[derive(Clone, Copy, Debug)]
pub enum LookupStage {
    Opens(Opening),
    Name(BrickSet),
}

/// A lookup: a shared lock at each brick, the Queries, and what a quorum of the good group has under the name.
pub type LookupCall = Round<Lookup>;

/// What follows the Queries.
fn after_query(grouped: &Grouped) -> Next<LookupStage>
    ensures { result ≡ lookup_next grouped.now }
{
    match grouped {
        Grouped::Group(group) => match group.head.kind {
            Kind::File => Next::Say(Answer::NotDir),
            Kind::Dir => Next::Go(LookupStage::Name(group.bricks)),
        },
        Grouped::Gone(_) => Next::Say(Answer::NoSuch),
        Grouped::Fewer(most) => Next::Say(Answer::NoQuorum {
            phase: Phase::Query,
            most: *most,
        }),
    }
}

/// What a lookup is answered.
fn answer_by(named: Named) -> Answer
    ensures { result ≡ lookup_answer named }
{
    match named {
        Named::Fewer(most) => Answer::NoQuorum {
            phase: Phase::Name,
            most,
        },
        Named::Alike(Some(child)) => Answer::Child(child),
        Named::Alike(None) => Answer::NoName,
        Named::Split(a, b) => Answer::Split(a, b),
    }
}

fn opens(next: Next<Opening>) -> Next<LookupStage>
    ensures { result ≡ next_as OpensOf next }
{
    match next {
        Next::Go(opening) => Next::Go(LookupStage::Opens(opening)),
        Next::Say(answer) => Next::Say(answer),
    }
}

/// What follows a stage of the opening.
fn after_opening(ctx: &Ctx, opening: &Opening, known: &Known) -> Next<LookupStage>
    requires { vec_len known.now.places ≡ ctx.now.geometry.n }
    ensures { (c : Account) → IsOf ctx.now c.given → Shows (subject c.given.op) (bricks_of c.given) known.now c → LookupFollows (OpensOf opening.now) c result }
{
    match opening {
        Opening::Lock { at } => opens(after_lock(ctx, known, *at)),
        Opening::Query => after_query(&come_to(known, &ctx.geometry)),
    }
}

impl Plan for Lookup {
    ghost use Rattle.ec_entry.specs.Lookup.{DuringLookup, lookup_table};

    type Stage = LookupStage;

    ghost table = { λ x. lookup_table };

    ghost during = { λ x. DuringLookup };

    ghost phase_of = { lookup_phase };

    ghost fits = { λ lookup given. given.op ≡ LookupOp lookup.parent lookup.name };
}

impl<T> Work<T> for Lookup {
    ghost use Rattle.ec_entry.specs.LookupSound.{lookup_sound};

    fn gfid(&self) -> Gfid {
        self.parent
    }

    fn phase(stage: &LookupStage) -> Phase {
        match stage {
            LookupStage::Opens(opening) => opening.phase(),
            LookupStage::Name(_) => Phase::Name,
        }
    }

    fn asks_again(ctx: &Ctx, stage: &LookupStage) -> bool {
        false
    }

    fn start(&self, ctx: &Ctx) -> Next<LookupStage> {
        Next::Go(LookupStage::Opens(Opening::Lock { at: 0 }))
    }

    fn request(
        &self,
        ctx: &Ctx,
        stage: &LookupStage,
        known: &Known,
        brick: u8,
    ) -> Result<Option<Request>, AllocError> {
        match stage {
            LookupStage::Opens(opening) => {
                Ok(opening.request(ctx, self.parent, LockKind::Shared, known, brick))
            }
            LookupStage::Name(bricks) => {
                name_request(ctx, self.parent, &self.name, bricks, known, brick)
            }
        }
    }

    fn next(
        &self,
        ctx: &Ctx,
        stage: &LookupStage,
        known: &Known,
        rows: &T,
    ) -> Result<Next<LookupStage>, AllocError> {
        Ok(match stage {
            LookupStage::Opens(opening) => after_opening(ctx, opening, known),
            LookupStage::Name(bricks) => {
                Next::Say(answer_by(name_value(known, bricks, ctx.geometry.k())))
            }
        })
    }

    ghost sound = { lookup_sound };
}

/// Begins a lookup of a name in a directory. What it sends has the numbers from `next` on; the list is handed in empty.
pub fn begin_lookup(
    alloc: Global,
    ctx: &Ctx,
    parent: Gfid,
    name: &Name,
    next: u64,
    sends: &mut Sends,
) -> Result<LookupCall, AllocError>
    requires next { next < 2 ^ 62 }
    requires empty { sends.old ≡ [] }
    ensures adds { IfOk result (λ call. Adds (⟦<LookupCall as Conduct>⟧.stands ctx.now (given_of ctx.now (LookupOp parent name.now) None []) call) ctx.now.geometry.n [] next sends.new call.answer) }
{
    let name = name.copy()?;
    LookupCall::begin::<()>(alloc, ctx, Lookup { parent, name }, next, sends)
}
