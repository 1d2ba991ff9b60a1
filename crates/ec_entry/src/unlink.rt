// The removal of a name that leads to a file.
ghost use Rattle.std.specs.Prelude.{◌≡◌, ◌<◌, ◌^◌, ℕ, IfOk, [], vec_len};
ghost use Rattle.std.specs.declared.option.Option.TheVariants.{None};
ghost use Rattle.ec_conduct.specs.Account.{Account};
ghost use Rattle.ec_conduct.specs.Given.{bricks_of};
ghost use Rattle.ec_entry.specs.Members.{grant_in, under_grant};
ghost use Rattle.ec_entry.specs.Named.{said};
ghost use Rattle.ec_entry.specs.Unlink.{BallotGoes, FirstRemoved, NameFollows, UnlinkFollows, asked_unmake, name_next, query_next, removes_child, removes_name, unlink_phase};
ghost use Rattle.ec_entry.specs.declared.unlink.UnlinkStage.TheVariants.{Opens as OpensOf};
ghost use Rattle.ec_txn.specs.Ballot.{IfQuorum};
ghost use Rattle.ec_txn.specs.Digest.{Shows, place_at};
ghost use Rattle.ec_txn.specs.Next.{next_as};
ghost use Rattle.ec_txn.specs.Replies.{reply_at};
ghost use Rattle.ec_txn.specs.Rounds.{subject};
ghost use Rattle.ec_txn.specs.Steps.{Adds, given_of};
ghost use Rattle.ec_txn.specs.Tables.{IsOf};
ghost use Rattle.ec_txn.specs.declared.stage.Next.TheVariants.{Go};
ghost use Rattle.ec_wire.specs.declared.op.Op.TheVariants.{Unlink as UnlinkOp};
ghost use Rattle.ec_wire.specs.declared.request.Request.TheVariants.{NameSet};

use crate::asked::name_request;
use crate::children::{Children, count_dirs, first_past, named_children};
use crate::members::member_grant;
use crate::named::{Named, name_value};
use ec_answers::{Group, Grouped};
use ec_attr::{Gfid, Kind, LockKind, Name};
use ec_txn::{
    Ballot, Conduct, Ctx, Known, Next, Opening, Plan, Round, Sends, Work, after_lock, come_to,
    count_serving, is_within,
};
use ec_wire::{Answer, Phase, Request};
use std::alloc::{AllocError, Global};

/// What an unlink keeps: the directory and the name.
#[derive(Drop)]
pub struct Unlink {
    parent: Gfid,
    name: Name,
}

/// The stages of an unlink: the opening and the name; the PreOps, the name set to none, the PostOps and the Clears; and at
/// last the records of the children that the replies to the name named, one after another.
#[derive(Clone, Copy, Debug)]
pub enum UnlinkStage {
    Opens(Opening),
    Name(Group),
    Votes(Ballot, Children),
    Enters(Group, Children),
    Unmakes(Gfid, Children),
}

/// An unlink: an exclusive lock at each brick, the Queries, the name, the ballot with the name set to none between PreOp
/// and PostOp, and the removal of the children's records.
pub type UnlinkCall = Round<Unlink>;

/// What follows the Queries.
fn after_query(grouped: &Grouped) -> Next<UnlinkStage>
    ensures { result ≡ query_next grouped.now }
{
    match grouped {
        Grouped::Group(group) => match group.head.kind {
            Kind::File => Next::Say(Answer::NotDir),
            Kind::Dir => Next::Go(UnlinkStage::Name(*group)),
        },
        Grouped::Gone(_) => Next::Say(Answer::NoSuch),
        Grouped::Fewer(most) => Next::Say(Answer::NoQuorum {
            phase: Phase::Query,
            most: *most,
        }),
    }
}

fn opens(next: Next<Opening>) -> Next<UnlinkStage>
    ensures { result ≡ next_as OpensOf next }
{
    match next {
        Next::Go(opening) => Next::Go(UnlinkStage::Opens(opening)),
        Next::Say(answer) => Next::Say(answer),
    }
}

/// What follows a stage of the opening.
fn after_opening(ctx: &Ctx, opening: &Opening, known: &Known) -> Next<UnlinkStage>
    requires { vec_len known.now.places ≡ ctx.now.geometry.n }
    ensures { (c : Account) → IsOf ctx.now c.given → Shows (subject c.given.op) (bricks_of c.given) known.now c → UnlinkFollows (OpensOf opening.now) c result }
{
    match opening {
        Opening::Lock { at } => opens(after_lock(ctx, known, *at)),
        Opening::Query => after_query(&come_to(known, &ctx.geometry)),
    }
}

/// A name that is removed, where the version allows it.
fn remove_name(group: &Group, children: Children) -> Next<UnlinkStage>
    ensures { result ≡ removes_name group.now children }
{
    if is_within(&group.head) {
        Next::Go(UnlinkStage::Votes(Ballot::Pre { group: *group }, children))
    } else {
        Next::Say(Answer::Limit(group.head.version.content))
    }
}

/// What follows the replies to the name, of which `dirs` named a directory.
fn after_name(group: &Group, children: Children, dirs: u8, named: Named) -> Next<UnlinkStage>
    ensures { result ≡ name_next group.now children dirs named }
{
    match named {
        Named::Fewer(most) => Next::Say(Answer::NoQuorum {
            phase: Phase::Name,
            most,
        }),
        Named::Alike(value) => {
            if 0 < dirs {
                return Next::Say(Answer::IsDir);
            }
            match value {
                Some(_) => remove_name(group, children),
                None => Next::Say(Answer::NoName),
            }
        }
        Named::Split(_, _) => {
            if 0 < dirs {
                Next::Say(Answer::IsDir)
            } else {
                remove_name(group, children)
            }
        }
    }
}

/// What follows the round in which the group was asked for the name, where K bricks suffice.
fn judge_name(group: &Group, known: &Known, k: u8) -> Next<UnlinkStage>
    requires { 0 < k }
    ensures { NameFollows group.now k (said group.now.bricks (reply_at known.now.replies.items.items)) result }
{
    let named = name_value(known, &group.bricks, k);
    let dirs = count_dirs(known, &group.bricks);
    let children = named_children(known, &group.bricks);
    after_name(group, children, dirs, named)
}

/// The removal of the next child's record, or the end.
fn remove_child(children: &Children, first: Option<Gfid>) -> Next<UnlinkStage>
    ensures { result ≡ removes_child children.now first }
{
    match first {
        Some(child) => Next::Go(UnlinkStage::Unmakes(child, *children)),
        None => Next::Say(Answer::Gone),
    }
}

/// The removal of the first child's record past `past`, or the end.
fn remove_past(children: &Children, past: Option<Gfid>) -> Next<UnlinkStage>
    ensures { FirstRemoved children.now past result }
{
    remove_child(children, first_past(children, past))
}

/// What follows a change: the next stage, where a quorum of the group did it.
fn where_quorum(
    ctx: &Ctx,
    known: &Known,
    group: &Group,
    phase: Phase,
    stage: UnlinkStage,
) -> Next<UnlinkStage>
    ensures { (c : Account) → IsOf ctx.now c.given → Shows (subject c.given.op) (bricks_of c.given) known.now c → IfQuorum c group.now phase (λ next. next ≡ Go stage) result }
{
    let most = count_serving(ctx, known, group);
    if most < ctx.geometry.k() {
        return Next::Say(Answer::NoQuorum { phase, most });
    }
    Next::Go(stage)
}

/// What follows a stage of the ballot.
fn after_ballot(ctx: &Ctx, known: &Known, stage: &Ballot, children: &Children) -> Next<UnlinkStage>
    ensures { (c : Account) → IsOf ctx.now c.given → Shows (subject c.given.op) (bricks_of c.given) known.now c → BallotGoes stage.now children.now c result }
{
    match stage {
        Ballot::Pre { group } => {
            let enters = UnlinkStage::Enters(*group, *children);
            where_quorum(ctx, known, group, Phase::Pre, enters)
        }
        Ballot::Post { group } => {
            let most = count_serving(ctx, known, group);
            if most < ctx.geometry.k() {
                return Next::Say(Answer::NoQuorum {
                    phase: Phase::Post,
                    most,
                });
            }
            let first = first_past(children, None);
            if ctx.geometry.n <= most {
                Next::Go(UnlinkStage::Votes(Ballot::Clear { group: *group }, *children))
            } else {
                remove_child(children, first)
            }
        }
        Ballot::Clear { .. } => remove_past(children, None),
    }
}

impl Unlink {
    /// The name, set to none.
    fn entry_of(
        &self,
        ctx: &Ctx,
        group: &Group,
        known: &Known,
        brick: u8,
    ) -> Result<Option<Request>, AllocError>
        requires { brick < 31 }
        ensures { IfOk result (λ request. request ≡ under_grant (grant_in group.now ctx.now.geometry.n (place_at known.now.places.items brick) brick) (λ grant. NameSet self.now.parent grant self.now.name None)) }
    {
        match member_grant(known, group, ctx.geometry.n, brick) {
            Some(grant) => Ok(Some(Request::NameSet {
                gfid: self.parent,
                grant,
                name: self.name.copy()?,
                child: None,
            })),
            None => Ok(None),
        }
    }

    /// The removal of a child's record, at a brick that granted the lock.
    fn unmake_of(&self, ctx: &Ctx, child: Gfid, known: &Known, brick: u8) -> Option<Request>
        ensures { result ≡ asked_unmake ctx.now.geometry.n self.now.parent.0 child (place_at known.now.places.items brick).lock brick }
    {
        if brick >= ctx.geometry.n {
            return None;
        }
        match known.place(brick).lock {
            Some(lock) if lock.granted => Some(Request::Unmake {
                gfid: self.parent,
                grant: lock.number,
                child,
            }),
            _ => None,
        }
    }
}

impl Plan for Unlink {
    ghost use Rattle.ec_entry.specs.Unlink.{DuringUnlink, unlink_table};

    type Stage = UnlinkStage;

    ghost table = { λ x. unlink_table };

    ghost during = { λ x. DuringUnlink };

    ghost phase_of = { unlink_phase };

    ghost fits = { λ unlink given. given.op ≡ UnlinkOp unlink.parent unlink.name };
}

impl<T> Work<T> for Unlink {
    ghost use Rattle.ec_entry.specs.UnlinkSound.{unlink_sound};

    fn gfid(&self) -> Gfid {
        self.parent
    }

    fn phase(stage: &UnlinkStage) -> Phase {
        match stage {
            UnlinkStage::Opens(opening) => opening.phase(),
            UnlinkStage::Name(_) => Phase::Name,
            UnlinkStage::Votes(ballot, _) => ballot.phase(),
            UnlinkStage::Enters(_, _) => Phase::Entry,
            UnlinkStage::Unmakes(_, _) => Phase::Unmake,
        }
    }

    fn asks_again(ctx: &Ctx, stage: &UnlinkStage) -> bool {
        false
    }

    fn start(&self, ctx: &Ctx) -> Next<UnlinkStage> {
        Next::Go(UnlinkStage::Opens(Opening::Lock { at: 0 }))
    }

    fn request(
        &self,
        ctx: &Ctx,
        stage: &UnlinkStage,
        known: &Known,
        brick: u8,
    ) -> Result<Option<Request>, AllocError> {
        match stage {
            UnlinkStage::Opens(opening) => {
                Ok(opening.request(ctx, self.parent, LockKind::Exclusive, known, brick))
            }
            UnlinkStage::Name(group) => {
                name_request(ctx, self.parent, &self.name, &group.bricks, known, brick)
            }
            UnlinkStage::Votes(ballot, _) => {
                let size = ballot.group().head.size;
                Ok(ballot.request(ctx, self.parent, size, None, known, brick))
            }
            UnlinkStage::Enters(group, _) => self.entry_of(ctx, group, known, brick),
            UnlinkStage::Unmakes(child, _) => Ok(self.unmake_of(ctx, *child, known, brick)),
        }
    }

    fn next(
        &self,
        ctx: &Ctx,
        stage: &UnlinkStage,
        known: &Known,
        rows: &T,
    ) -> Result<Next<UnlinkStage>, AllocError> {
        Ok(match stage {
            UnlinkStage::Opens(opening) => after_opening(ctx, opening, known),
            UnlinkStage::Name(group) => judge_name(group, known, ctx.geometry.k()),
            UnlinkStage::Votes(ballot, children) => after_ballot(ctx, known, ballot, children),
            UnlinkStage::Enters(group, children) => {
                let post = UnlinkStage::Votes(Ballot::Post { group: *group }, *children);
                where_quorum(ctx, known, group, Phase::Entry, post)
            }
            UnlinkStage::Unmakes(child, children) => remove_past(children, Some(*child)),
        })
    }

    ghost sound = { unlink_sound };
}

/// Begins an unlink of a name in a directory. What it sends has the numbers from `next` on; the list is handed in empty.
pub fn begin_unlink(
    alloc: Global,
    ctx: &Ctx,
    parent: Gfid,
    name: &Name,
    next: u64,
    sends: &mut Sends,
) -> Result<UnlinkCall, AllocError>
    requires next { next < 2 ^ 62 }
    requires empty { sends.old ≡ [] }
    ensures adds { IfOk result (λ call. Adds (⟦<UnlinkCall as Conduct>⟧.stands ctx.now (given_of ctx.now (UnlinkOp parent name.now) None []) call) ctx.now.geometry.n [] next sends.new call.answer) }
{
    let name = name.copy()?;
    UnlinkCall::begin::<()>(alloc, ctx, Unlink { parent, name }, next, sends)
}
