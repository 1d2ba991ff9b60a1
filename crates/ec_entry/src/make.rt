// A new file or directory under a name.
ghost use Rattle.std.specs.Prelude.{◌≡◌, ◌<◌, ◌^◌, ℕ, IfOk, Ok, Some, [], vec_len};
ghost use Rattle.std.specs.declared.option.Option.TheVariants.{None};
ghost use Rattle.ec_conduct.specs.Account.{Account};
ghost use Rattle.ec_conduct.specs.Given.{bricks_of};
ghost use Rattle.ec_entry.specs.Make.{BallotGoes, MakeFollows, child_of, make_op, name_next, query_next, where_all};
ghost use Rattle.ec_entry.specs.Members.{grant_in, under_grant};
ghost use Rattle.ec_entry.specs.declared.make.MakeStage.TheVariants.{Opens as OpensOf};
ghost use Rattle.ec_txn.specs.Ballot.{IfQuorum};
ghost use Rattle.ec_txn.specs.Digest.{Shows, place_at};
ghost use Rattle.ec_txn.specs.Next.{next_as};
ghost use Rattle.ec_txn.specs.Rounds.{subject};
ghost use Rattle.ec_txn.specs.Steps.{Adds, given_of};
ghost use Rattle.ec_txn.specs.Tables.{IsOf};
ghost use Rattle.ec_txn.specs.declared.stage.Next.TheVariants.{Go};
ghost use Rattle.ec_wire.specs.declared.request.Request.TheVariants.{Made as MadeOf, Make as MakeOf, NameSet};

use crate::asked::name_request;
use crate::members::member_grant;
use crate::named::{Named, name_value};
use ec_answers::{Group, Grouped};
use ec_attr::{Child, Gfid, Kind, LockKind, Name};
use ec_txn::{
    Ballot, Conduct, Ctx, Known, Next, Opening, Plan, Round, Sends, Work, after_lock, come_to,
    count_serving, is_within,
};
use ec_wire::{Answer, Phase, Request};
use std::alloc::{AllocError, Global};

/// What a create or mkdir keeps: the directory, the name, and the kind of what it makes.
#[derive(Drop)]
pub struct Make {
    parent: Gfid,
    name: Name,
    kind: Kind,
}

/// The stages of a create or mkdir: the opening and the name; the PreOps; the child's record and the name, set under the
/// directory's grants; the PostOps and the Clears; and at last the child's record is said to be whole.
#[derive(Clone, Copy, Debug, Drop)]
pub enum MakeStage {
    Opens(Opening),
    Name(Group),
    Votes(Ballot),
    Makes(Group),
    Enters(Group),
    Made(Group),
}

/// The greatest gfid that is taken.
const LAST_GFID: u128 = 1 << 96;

/// A create or mkdir: an exclusive lock at each brick, the Queries, the name, and the ballot with the child's record and
/// the name between PreOp and PostOp.
pub type MakeCall = Round<Make>;

/// What follows the Queries.
fn after_query(grouped: &Grouped) -> Next<MakeStage>
    ensures { result ≡ query_next grouped.now }
{
    match grouped {
        Grouped::Group(group) => match group.head.kind {
            Kind::File => Next::Say(Answer::NotDir),
            Kind::Dir => Next::Go(MakeStage::Name(*group)),
        },
        Grouped::Gone(_) => Next::Say(Answer::NoSuch),
        Grouped::Fewer(most) => Next::Say(Answer::NoQuorum {
            phase: Phase::Query,
            most: *most,
        }),
    }
}

fn opens(next: Next<Opening>) -> Next<MakeStage>
    ensures { result ≡ next_as OpensOf next }
{
    match next {
        Next::Go(opening) => Next::Go(MakeStage::Opens(opening)),
        Next::Say(answer) => Next::Say(answer),
    }
}

/// What follows a stage of the opening.
fn after_opening(ctx: &Ctx, opening: &Opening, known: &Known) -> Next<MakeStage>
    requires { vec_len known.now.places ≡ ctx.now.geometry.n }
    ensures { (c : Account) → IsOf ctx.now c.given → Shows (subject c.given.op) (bricks_of c.given) known.now c → MakeFollows (OpensOf opening.now) c result }
{
    match opening {
        Opening::Lock { at } => opens(after_lock(ctx, known, *at)),
        Opening::Query => after_query(&come_to(known, &ctx.geometry)),
    }
}

/// What follows the replies to the name: a name that leads nowhere is made.
fn after_name(group: &Group, named: Named) -> Next<MakeStage>
    ensures { result ≡ name_next group.now named }
{
    match named {
        Named::Fewer(most) => Next::Say(Answer::NoQuorum {
            phase: Phase::Name,
            most,
        }),
        Named::Split(a, b) => Next::Say(Answer::Split(a, b)),
        Named::Alike(Some(child)) => Next::Say(Answer::Exists(child)),
        Named::Alike(None) => {
            if is_within(&group.head) {
                Next::Go(MakeStage::Votes(Ballot::Pre { group: *group }))
            } else {
                Next::Say(Answer::Limit(group.head.version.content))
            }
        }
    }
}

/// What follows a change: the next stage, where a quorum of the group did it.
fn where_quorum(
    ctx: &Ctx,
    known: &Known,
    group: &Group,
    phase: Phase,
    stage: MakeStage,
) -> Next<MakeStage>
    ensures { (c : Account) → IsOf ctx.now c.given → Shows (subject c.given.op) (bricks_of c.given) known.now c → IfQuorum c group.now phase (λ next. next ≡ Go stage) result }
{
    let most = count_serving(ctx, known, group);
    if most < ctx.geometry.k() {
        return Next::Say(Answer::NoQuorum { phase, most });
    }
    Next::Go(stage)
}

/// A last stage, where every brick did all before it, and else the answer.
fn where_all(
    ctx: &Ctx,
    known: &Known,
    group: &Group,
    stage: MakeStage,
    child: Child,
) -> Next<MakeStage>
    ensures { (c : Account) → IsOf ctx.now c.given → Shows (subject c.given.op) (bricks_of c.given) known.now c → child ≡ child_of c.given → result ≡ where_all c group.now stage }
{
    if ctx.geometry.n <= count_serving(ctx, known, group) {
        Next::Go(stage)
    } else {
        Next::Say(Answer::Child(child))
    }
}

/// What follows a stage of the ballot.
fn after_ballot(ctx: &Ctx, known: &Known, stage: &Ballot, child: Child) -> Next<MakeStage>
    ensures { (c : Account) → IsOf ctx.now c.given → Shows (subject c.given.op) (bricks_of c.given) known.now c → child ≡ child_of c.given → BallotGoes stage.now c result }
{
    match stage {
        Ballot::Pre { group } => {
            where_quorum(ctx, known, group, Phase::Pre, MakeStage::Makes(*group))
        }
        Ballot::Post { group } => {
            let most = count_serving(ctx, known, group);
            if most < ctx.geometry.k() {
                return Next::Say(Answer::NoQuorum {
                    phase: Phase::Post,
                    most,
                });
            }
            let clear = MakeStage::Votes(Ballot::Clear { group: *group });
            where_all(ctx, known, group, clear, child)
        }
        Ballot::Clear { group } => { where_all(ctx, known, group, MakeStage::Made(*group), child) }
    }
}

impl Make {
    /// What it makes.
    fn child(&self, ctx: &Ctx) -> Child
        ensures { result ≡ record { kind = self.now.kind; gfid = ctx.now.child } }
    {
        Child {
            kind: self.kind,
            gfid: ctx.child,
        }
    }

    /// The child's record, made under the directory's grant.
    fn make_of(&self, ctx: &Ctx, group: &Group, known: &Known, brick: u8) -> Option<Request>
        requires { brick < 31 }
        ensures { result ≡ under_grant (grant_in group.now ctx.now.geometry.n (place_at known.now.places.items brick) brick) (λ grant. MakeOf self.now.parent grant (record { kind = self.now.kind; gfid = ctx.now.child })) }
    {
        let grant = member_grant(known, group, ctx.geometry.n, brick)?;
        Some(Request::Make {
            gfid: self.parent,
            grant,
            child: self.child(ctx),
        })
    }

    /// The name, set to the child.
    fn entry_of(
        &self,
        ctx: &Ctx,
        group: &Group,
        known: &Known,
        brick: u8,
    ) -> Result<Option<Request>, AllocError>
        requires { brick < 31 }
        ensures { IfOk result (λ request. request ≡ under_grant (grant_in group.now ctx.now.geometry.n (place_at known.now.places.items brick) brick) (λ grant. NameSet self.now.parent grant self.now.name (Some (record { kind = self.now.kind; gfid = ctx.now.child })))) }
    {
        match member_grant(known, group, ctx.geometry.n, brick) {
            Some(grant) => Ok(Some(Request::NameSet {
                gfid: self.parent,
                grant,
                name: self.name.copy()?,
                child: Some(self.child(ctx)),
            })),
            None => Ok(None),
        }
    }

    /// The child's record, said to be whole.
    fn made_of(&self, ctx: &Ctx, group: &Group, known: &Known, brick: u8) -> Option<Request>
        requires { brick < 31 }
        ensures { result ≡ under_grant (grant_in group.now ctx.now.geometry.n (place_at known.now.places.items brick) brick) (λ grant. MadeOf self.now.parent grant ctx.now.child) }
    {
        let grant = member_grant(known, group, ctx.geometry.n, brick)?;
        Some(Request::Made {
            gfid: self.parent,
            grant,
            child: ctx.child,
        })
    }
}

impl Plan for Make {
    ghost use Rattle.ec_entry.specs.Make.{DuringMake, make_op, make_phase, make_table};

    type Stage = MakeStage;

    ghost table = { λ x. make_table };

    ghost during = { λ x. DuringMake };

    ghost phase_of = { make_phase };

    ghost fits = { λ make given. given.op ≡ make_op make.kind make.parent.0 make.name };
}

impl<T> Work<T> for Make {
    ghost use Rattle.ec_entry.specs.MakeSound.{make_sound};

    fn gfid(&self) -> Gfid {
        self.parent
    }

    fn phase(stage: &MakeStage) -> Phase {
        match stage {
            MakeStage::Opens(opening) => opening.phase(),
            MakeStage::Name(_) => Phase::Name,
            MakeStage::Votes(ballot) => ballot.phase(),
            MakeStage::Makes(_) => Phase::Make,
            MakeStage::Enters(_) => Phase::Entry,
            MakeStage::Made(_) => Phase::Made,
        }
    }

    fn asks_again(ctx: &Ctx, stage: &MakeStage) -> bool {
        false
    }

    fn start(&self, ctx: &Ctx) -> Next<MakeStage> {
        if ctx.child.0 <= LAST_GFID {
            Next::Go(MakeStage::Opens(Opening::Lock { at: 0 }))
        } else {
            Next::Say(Answer::Spent)
        }
    }

    fn request(
        &self,
        ctx: &Ctx,
        stage: &MakeStage,
        known: &Known,
        brick: u8,
    ) -> Result<Option<Request>, AllocError> {
        match stage {
            MakeStage::Opens(opening) => {
                Ok(opening.request(ctx, self.parent, LockKind::Exclusive, known, brick))
            }
            MakeStage::Name(group) => {
                name_request(ctx, self.parent, &self.name, &group.bricks, known, brick)
            }
            MakeStage::Votes(ballot) => {
                let size = ballot.group().head.size;
                Ok(ballot.request(ctx, self.parent, size, None, known, brick))
            }
            MakeStage::Makes(group) => Ok(self.make_of(ctx, group, known, brick)),
            MakeStage::Enters(group) => self.entry_of(ctx, group, known, brick),
            MakeStage::Made(group) => Ok(self.made_of(ctx, group, known, brick)),
        }
    }

    fn next(
        &self,
        ctx: &Ctx,
        stage: &MakeStage,
        known: &Known,
        rows: &T,
    ) -> Result<Next<MakeStage>, AllocError> {
        Ok(match stage {
            MakeStage::Opens(opening) => after_opening(ctx, opening, known),
            MakeStage::Name(group) => {
                after_name(group, name_value(known, &group.bricks, ctx.geometry.k()))
            }
            MakeStage::Votes(ballot) => after_ballot(ctx, known, ballot, self.child(ctx)),
            MakeStage::Makes(group) => {
                where_quorum(ctx, known, group, Phase::Make, MakeStage::Enters(*group))
            }
            MakeStage::Enters(group) => {
                let post = MakeStage::Votes(Ballot::Post { group: *group });
                where_quorum(ctx, known, group, Phase::Entry, post)
            }
            MakeStage::Made(_) => Next::Say(Answer::Child(self.child(ctx))),
        })
    }

    ghost sound = { make_sound };
}

/// Begins a create, of a file, or a mkdir under this name; what it makes has the gfid `ctx.child`. What it sends has the
/// numbers from `next` on; the list is handed in empty.
pub fn begin_make(
    alloc: Global,
    ctx: &Ctx,
    parent: Gfid,
    name: &Name,
    kind: Kind,
    next: u64,
    sends: &mut Sends,
) -> Result<MakeCall, AllocError>
    requires next { next < 2 ^ 62 }
    requires empty { sends.old ≡ [] }
    ensures adds { IfOk result (λ call. Adds (⟦<MakeCall as Conduct>⟧.stands ctx.now (given_of ctx.now (make_op kind parent.0 name.now) None []) call) ctx.now.geometry.n [] next sends.new call.answer) }
{
    let name = name.copy()?;
    MakeCall::begin::<()>(alloc, ctx, Make { parent, name, kind }, next, sends)
}
