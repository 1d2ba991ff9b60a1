// The names of a directory.
ghost use Rattle.std.specs.Prelude.{◌≡◌, ◌<◌, ◌^◌, ℕ, IfOk, [], vec_len};
ghost use Rattle.std.specs.declared.option.Option.TheVariants.{None};
ghost use Rattle.ec_conduct.specs.Account.{Account};
ghost use Rattle.ec_conduct.specs.Given.{bricks_of};
ghost use Rattle.ec_entry.specs.Paging.{paged};
ghost use Rattle.ec_entry.specs.Readdir.{PageFollows, ReaddirFollows, asked_names, goes_on, readdir_next, readdir_phase};
ghost use Rattle.ec_entry.specs.declared.readdir.ReaddirStage.TheVariants.{Opens as OpensOf};
ghost use Rattle.ec_txn.specs.Digest.{Shows, place_at};
ghost use Rattle.ec_txn.specs.Next.{next_as};
ghost use Rattle.ec_txn.specs.Replies.{reply_at};
ghost use Rattle.ec_txn.specs.Rounds.{subject};
ghost use Rattle.ec_txn.specs.Steps.{Adds, given_of};
ghost use Rattle.ec_txn.specs.Tables.{IsOf};
ghost use Rattle.ec_wire.specs.declared.op.Op.TheVariants.{Readdir as ReaddirOp};

use crate::paging::{count_paged, push_part, upto};
use ec_answers::Grouped;
use ec_attr::{BrickSet, Gfid, Kind, LockKind, Name};
use ec_txn::{Conduct, Ctx, Known, Next, Opening, Plan, Round, Sends, Work, after_lock, come_to};
use ec_wire::{Answer, Listing, Phase, Request};
use std::alloc::{AllocError, Global};

/// What a readdir keeps: the directory.
#[derive(Drop)]
pub struct Readdir {
    gfid: Gfid,
}

/// The stages of a readdir: the opening, then rounds of pages of names, for which the good group is asked. A round asks
/// for the names past `past`, which is None in the first; `list` has those that are listed by then.
#[derive(Debug, Drop)]
pub enum ReaddirStage {
    Opens(Opening),
    Names {
        bricks: BrickSet,
        past: Option<Name>,
        list: Listing,
    },
}

/// A readdir: a shared lock at each brick, the Queries, and what the good group has in the directory, page by page.
pub type ReaddirCall = Round<Readdir>;

/// What follows the Queries.
fn after_query(alloc: Global, grouped: &Grouped) -> Next<ReaddirStage>
    ensures { result ≡ readdir_next grouped.now }
{
    match grouped {
        Grouped::Group(group) => match group.head.kind {
            Kind::File => Next::Say(Answer::NotDir),
            Kind::Dir => Next::Go(ReaddirStage::Names {
                bricks: group.bricks,
                past: None,
                list: Listing::new(alloc),
            }),
        },
        Grouped::Gone(_) => Next::Say(Answer::NoSuch),
        Grouped::Fewer(most) => Next::Say(Answer::NoQuorum {
            phase: Phase::Query,
            most: *most,
        }),
    }
}

fn opens(next: Next<Opening>) -> Next<ReaddirStage>
    ensures { result ≡ next_as OpensOf next }
{
    match next {
        Next::Go(opening) => Next::Go(ReaddirStage::Opens(opening)),
        Next::Say(answer) => Next::Say(answer),
    }
}

/// What follows a stage of the opening.
fn after_opening(ctx: &Ctx, opening: &Opening, known: &Known) -> Next<ReaddirStage>
    requires { vec_len known.now.places ≡ ctx.now.geometry.n }
    ensures { (c : Account) → IsOf ctx.now c.given → Shows (subject c.given.op) (bricks_of c.given) known.now c → ReaddirFollows (OpensOf opening.now) c result }
{
    match opening {
        Opening::Lock { at } => opens(after_lock(ctx, known, *at)),
        Opening::Query => {
            let alloc = *known.replies.items.allocator();
            after_query(alloc, &come_to(known, &ctx.geometry))
        }
    }
}

/// The next round, or the answer where a round tells to the end.
fn go_on(bricks: BrickSet, upto: Option<Name>, list: Listing) -> Next<ReaddirStage>
    ensures { result ≡ goes_on bricks upto list }
{
    match upto {
        Some(upto) => Next::Go(ReaddirStage::Names {
            bricks,
            past: Some(upto),
            list,
        }),
        None => Next::Say(Answer::Names(list)),
    }
}

/// What follows a round, where K bricks suffice.
fn after_names(
    k: u8,
    bricks: &BrickSet,
    past: &Option<Name>,
    list: &Listing,
    known: &Known,
) -> Result<Next<ReaddirStage>, AllocError>
    ensures { IfOk result (λ next. PageFollows k bricks.now past.now list.now (paged bricks.now (reply_at known.now.replies.items.items)) next) }
{
    let most = count_paged(known, bricks);
    if most < k {
        return Ok(Next::Say(Answer::NoQuorum {
            phase: Phase::Names,
            most,
        }));
    }
    let upto = upto(known, bricks)?;
    let mut list = list.copy()?;
    push_part(known, bricks, k, past.as_ref(), upto.as_ref(), &mut list)?;
    Ok(go_on(*bricks, upto, list))
}

/// An equal name, or none.
fn copied(name: &Option<Name>) -> Result<Option<Name>, AllocError>
    ensures { IfOk result (λ n. n ≡ name.now) }
{
    match name {
        Some(name) => Ok(Some(name.copy()?)),
        None => Ok(None),
    }
}

/// What a brick of the set is asked for names, where it did all that it was sent.
fn names_request(
    ctx: &Ctx,
    gfid: Gfid,
    bricks: &BrickSet,
    past: &Option<Name>,
    known: &Known,
    brick: u8,
) -> Result<Option<Request>, AllocError>
    requires { brick < 31 }
    ensures { IfOk result (λ request. request ≡ asked_names bricks.now past.now ctx.now.geometry.n gfid.0 (place_at known.now.places.items brick) brick) }
{
    if !bricks.has(brick) || brick >= ctx.geometry.n {
        return Ok(None);
    }
    let place = known.place(brick);
    if place.failed {
        return Ok(None);
    }
    match place.lock {
        Some(lock) if lock.granted => Ok(Some(Request::NamesAfter {
            gfid,
            grant: lock.number,
            after: copied(past)?,
        })),
        _ => Ok(None),
    }
}

impl Plan for Readdir {
    ghost use Rattle.ec_entry.specs.Readdir.{DuringReaddir, readdir_table};

    type Stage = ReaddirStage;

    ghost table = { λ x. readdir_table };

    ghost during = { λ x. DuringReaddir };

    ghost phase_of = { readdir_phase };

    ghost fits = { λ readdir given. given.op ≡ ReaddirOp readdir.gfid };
}

impl<T> Work<T> for Readdir {
    ghost use Rattle.ec_entry.specs.ReaddirSound.{readdir_sound};

    fn gfid(&self) -> Gfid {
        self.gfid
    }

    fn phase(stage: &ReaddirStage) -> Phase {
        match stage {
            ReaddirStage::Opens(opening) => opening.phase(),
            ReaddirStage::Names { .. } => Phase::Names,
        }
    }

    fn asks_again(ctx: &Ctx, stage: &ReaddirStage) -> bool {
        false
    }

    fn start(&self, ctx: &Ctx) -> Next<ReaddirStage> {
        Next::Go(ReaddirStage::Opens(Opening::Lock { at: 0 }))
    }

    fn request(
        &self,
        ctx: &Ctx,
        stage: &ReaddirStage,
        known: &Known,
        brick: u8,
    ) -> Result<Option<Request>, AllocError> {
        match stage {
            ReaddirStage::Opens(opening) => {
                Ok(opening.request(ctx, self.gfid, LockKind::Shared, known, brick))
            }
            ReaddirStage::Names { bricks, past, .. } => {
                names_request(ctx, self.gfid, bricks, past, known, brick)
            }
        }
    }

    fn next(
        &self,
        ctx: &Ctx,
        stage: &ReaddirStage,
        known: &Known,
        rows: &T,
    ) -> Result<Next<ReaddirStage>, AllocError> {
        match stage {
            ReaddirStage::Opens(opening) => Ok(after_opening(ctx, opening, known)),
            ReaddirStage::Names { bricks, past, list } => {
                after_names(ctx.geometry.k(), bricks, past, list, known)
            }
        }
    }

    ghost sound = { readdir_sound };
}

/// Begins a readdir of a directory. What it sends has the numbers from `next` on; the list is handed in empty.
pub fn begin_readdir(
    alloc: Global,
    ctx: &Ctx,
    gfid: Gfid,
    next: u64,
    sends: &mut Sends,
) -> Result<ReaddirCall, AllocError>
    requires next { next < 2 ^ 62 }
    requires empty { sends.old ≡ [] }
    ensures adds { IfOk result (λ call. Adds (⟦<ReaddirCall as Conduct>⟧.stands ctx.now (given_of ctx.now (ReaddirOp gfid) None []) call) ctx.now.geometry.n [] next sends.new call.answer) }
{
    ReaddirCall::begin::<()>(alloc, ctx, Readdir { gfid }, next, sends)
}
