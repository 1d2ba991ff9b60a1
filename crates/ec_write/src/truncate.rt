// A truncate of a file.
ghost use Rattle.std.specs.Prelude.{◌≡◌, ◌<◌, ◌^◌, ◌-◌, ◌&&◌, ℕ, IfOk, Ok, [], vec_len, cond, is_some, nat_lt};
ghost use Rattle.std.specs.declared.option.Option.{Option};
ghost use Rattle.std.specs.declared.option.Option.TheVariants.{None};
ghost use Rattle.ec_conduct.specs.Account.{Account};
ghost use Rattle.ec_conduct.specs.Changes.{stripes_of as stripes_in};
ghost use Rattle.ec_conduct.specs.Given.{bricks_of};
ghost use Rattle.ec_txn.specs.declared.ballot.Ballot.TheVariants.{Post as PostOf};
ghost use Rattle.ec_txn.specs.Ballot.{IfQuorum, is_within, serving_by, under, version_at};
ghost use Rattle.ec_txn.specs.declared.stage.Next.TheVariants.{Go};
ghost use Rattle.ec_wire.specs.declared.phase.Phase.TheVariants.{Trim as TrimPhase, Write as WritePhase};
ghost use Rattle.ec_txn.specs.Digest.{Shows, place_at};
ghost use Rattle.ec_txn.specs.Next.{next_as};
ghost use Rattle.ec_txn.specs.Opening.{OpeningFollows};
ghost use Rattle.ec_txn.specs.Replies.{reply_at};
ghost use Rattle.ec_txn.specs.Rounds.{subject};
ghost use Rattle.ec_txn.specs.Steps.{Adds, given_of};
ghost use Rattle.ec_txn.specs.Tables.{IsOf, Sees};
ghost use Rattle.ec_wire.specs.declared.op.Op.{Op as OpOf};
ghost use Rattle.ec_wire.specs.declared.op.Op.TheVariants.{Truncate as TruncateOp};
ghost use Rattle.ec_write.specs.Range.{first_stripe as first_stripe_of};
ghost use Rattle.ec_write.specs.Stripes.{list_at as list_of};
ghost use Rattle.ec_write.specs.Truncate.{TailEnds, Trims, TruncateFollows, TruncateJudges, cut_asks, cut_request, low_of, tail_asks, trims_from, truncate_asks, truncate_judged};
ghost use Rattle.ec_write.specs.Write.{read_asks, write_request};
ghost use Rattle.ec_write.specs.declared.stage.TruncateStage.TheVariants.{Cuts, Opens, Votes};

use crate::code::coded;
use crate::members::{chunk_asked, chunks_sent, is_member, reading_of, serving};
use crate::old::{count_gave, old_stripe};
use crate::place::{first_stripe, head_of, stripes_of};
use crate::rows::PlainRows;
use crate::stage::TruncateStage;
use ec_answers::{Group, Grouped};
use ec_attr::{Gfid, Kind, LockKind};
use ec_bank::RowTimes;
use ec_txn::{
    Ballot, Conduct, Ctx, Known, Next, Opening, Plan, Reading, Round, Sends, Work, after_lock,
    come_to, count_serving, is_within,
};
use ec_wire::{Answer, ChunkList, ItemList, Phase, Request};
use std::alloc::{AllocError, Global};

/// Where a file ends at most.
const END: u64 = 1 << 40;

/// What a truncate keeps: the file, and its new size.
#[derive(Drop)]
pub struct Truncate {
    gfid: Gfid,
    size: u64,
}

/// A truncate: an exclusive lock at each brick, the Queries, the PreOps, the stripe in which the lesser of both sizes lies
/// at K bricks, its chunks with a tail of zeros at each brick that did all so far, the cut, the PostOps and the Clears.
pub type TruncateCall = Round<Truncate>;

fn opens(next: Next<Opening>) -> Next<TruncateStage>
    ensures { result ≡ next_as Opens next }
{
    match next {
        Next::Go(stage) => Next::Go(TruncateStage::Opens(stage)),
        Next::Say(answer) => Next::Say(answer),
    }
}

impl Truncate {
    /// The lesser of the old and the new size.
    fn low(&self, group: &Group) -> u64
        ensures { result ≡ low_of (TruncateOp self.now.gfid self.now.size) group.now }
    {
        group.head.size.min(self.size)
    }

    /// What follows the Queries.
    fn judge(&self, grouped: &Grouped) -> Next<TruncateStage>
        ensures { (c : Account) → TruncateJudges c grouped.now result }
    {
        match grouped {
            Grouped::Group(group) => self.of_group(group),
            Grouped::Gone(_) => Next::Say(Answer::NoSuch),
            Grouped::Fewer(most) => Next::Say(Answer::NoQuorum {
                phase: Phase::Query,
                most: *most,
            }),
        }
    }

    fn of_group(&self, group: &Group) -> Next<TruncateStage>
        ensures { result ≡ truncate_judged group.now.head.kind group.now }
    {
        match group.head.kind {
            Kind::Dir => Next::Say(Answer::IsDir),
            Kind::File => {
                if is_within(&group.head) {
                    Next::Go(TruncateStage::Votes(Ballot::Pre { group: *group }))
                } else {
                    Next::Say(Answer::Limit(group.head.version.content))
                }
            }
        }
    }

    /// What follows a stage of the opening.
    fn after_opening(&self, ctx: &Ctx, known: &Known, stage: &Opening) -> Next<TruncateStage>
        requires { vec_len known.now.places ≡ ctx.now.geometry.n }
        ensures { (c : Account) → c.given.op ≡ TruncateOp self.now.gfid self.now.size → IsOf ctx.now c.given → Shows (subject c.given.op) (bricks_of c.given) known.now c → OpeningFollows Opens TruncateJudges stage.now c result }
    {
        match stage {
            Opening::Lock { at } => opens(after_lock(ctx, known, *at)),
            Opening::Query => self.judge(&come_to(known, &ctx.geometry)),
        }
    }

    /// What follows the PreOps where enough bricks did them: the cut alone where the lesser size is on a border.
    fn after_pre(&self, ctx: &Ctx, group: &Group) -> Next<TruncateStage>
        ensures { result ≡ trims_from ctx.now ctx.now.geometry (TruncateOp self.now.gfid self.now.size) group.now }
    {
        let k = ctx.geometry.k();
        let low = self.low(group);
        if head_of(k, low) == 0 {
            Next::Go(TruncateStage::Cuts { group: *group })
        } else {
            Next::Go(TruncateStage::Reads {
                group: *group,
                reading: reading_of(ctx, self.gfid, group, first_stripe(k, low)),
            })
        }
    }

    fn after_post(&self, ctx: &Ctx, known: &Known, group: &Group) -> Next<TruncateStage>
        ensures { (c : Account) → c.given.op ≡ TruncateOp self.now.gfid self.now.size → IsOf ctx.now c.given → Shows (subject c.given.op) (bricks_of c.given) known.now c → TruncateFollows ctx.now (Votes (PostOf group.now)) c result }
    {
        let most = count_serving(ctx, known, group);
        if most < ctx.geometry.k() {
            return Next::Say(Answer::NoQuorum {
                phase: Phase::Post,
                most,
            });
        }
        if ctx.geometry.n <= most {
            Next::Go(TruncateStage::Votes(Ballot::Clear { group: *group }))
        } else {
            Next::Say(Answer::Size(self.size))
        }
    }

    /// What follows a stage of the ballot.
    fn after_ballot(&self, ctx: &Ctx, known: &Known, stage: &Ballot) -> Next<TruncateStage>
        ensures { (c : Account) → c.given.op ≡ TruncateOp self.now.gfid self.now.size → IsOf ctx.now c.given → Shows (subject c.given.op) (bricks_of c.given) known.now c → TruncateFollows ctx.now (Votes stage.now) c result }
    {
        match stage {
            Ballot::Pre { group } => {
                let most = count_serving(ctx, known, group);
                if most < ctx.geometry.k() {
                    return Next::Say(Answer::NoQuorum {
                        phase: Phase::Pre,
                        most,
                    });
                }
                self.after_pre(ctx, group)
            }
            Ballot::Post { group } => self.after_post(ctx, known, group),
            Ballot::Clear { .. } => Next::Say(Answer::Size(self.size)),
        }
    }

    /// What follows the stage that reads: the stripe is coded as in a file that ends at the lesser size.
    fn after_read<T: RowTimes>(
        &self,
        ctx: &Ctx,
        known: &Known,
        rows: &T,
        group: &Group,
        reading: &Reading,
    ) -> Result<Next<TruncateStage>, AllocError>
        ensures { IfOk result (λ next. TailEnds ctx.now.geometry (TruncateOp self.now.gfid self.now.size) group.now reading.now (place_at known.now.places.items) (reply_at known.now.replies.items.items) next) }
    {
        let k = ctx.geometry.k();
        let alloc = *known.places.allocator();
        let most = count_gave(reading, known);
        if most < k {
            return Ok(Next::Say(Answer::NoQuorum {
                phase: Phase::Read,
                most,
            }));
        }
        let stripe = old_stripe(rows, alloc, &ctx.geometry, reading, known)?;
        let end = self.low(group);
        let lists = coded(
            rows,
            alloc,
            &ctx.geometry,
            end,
            &[],
            end,
            stripe.items(),
            &[],
        )?;
        Ok(Next::Go(TruncateStage::Writes {
            group: *group,
            lists,
        }))
    }

    /// What follows the stage that writes.
    fn after_write(&self, ctx: &Ctx, known: &Known, group: &Group) -> Next<TruncateStage>
        ensures { (c : Account) → IsOf ctx.now c.given → Shows (subject c.given.op) (bricks_of c.given) known.now c → IfQuorum c group.now WritePhase (λ next. next ≡ Go (Cuts group.now)) result }
    {
        let most = count_serving(ctx, known, group);
        if most < ctx.geometry.k() {
            return Next::Say(Answer::NoQuorum {
                phase: Phase::Write,
                most,
            });
        }
        Next::Go(TruncateStage::Cuts { group: *group })
    }

    /// What follows the cut.
    fn after_cut(&self, ctx: &Ctx, known: &Known, group: &Group) -> Next<TruncateStage>
        ensures { (c : Account) → IsOf ctx.now c.given → Shows (subject c.given.op) (bricks_of c.given) known.now c → IfQuorum c group.now TrimPhase (λ next. next ≡ Go (Votes (PostOf group.now))) result }
    {
        let most = count_serving(ctx, known, group);
        if most < ctx.geometry.k() {
            return Next::Say(Answer::NoQuorum {
                phase: Phase::Trim,
                most,
            });
        }
        Next::Go(TruncateStage::Votes(Ballot::Post { group: *group }))
    }
}

impl Truncate {
    /// What a stage of the ballot asks of a brick.
    fn vote(&self, ctx: &Ctx, stage: &Ballot, known: &Known, brick: u8) -> Option<Request>
        requires { brick < 31 }
        ensures { (c : Account) → c.given.op ≡ TruncateOp self.now.gfid self.now.size → IsOf ctx.now c.given → Shows (subject c.given.op) (bricks_of c.given) known.now c → result ≡ truncate_asks (Votes stage.now) c brick }
    {
        stage.request(ctx, self.gfid, self.size, None, known, brick)
    }

    /// What the stage that reads asks of a brick.
    fn read(&self, ctx: &Ctx, reading: &Reading, known: &Known, brick: u8) -> Option<Request>
        requires { brick < 31 }
        ensures { (c : Account) → c.given.op ≡ TruncateOp self.now.gfid self.now.size → IsOf ctx.now c.given → Shows (subject c.given.op) (bricks_of c.given) known.now c → result ≡ read_asks reading.now c brick }
    {
        chunk_asked(ctx, self.gfid, reading, known, brick)
    }

    fn write_by(
        &self,
        ctx: &Ctx,
        group: &Group,
        lists: &ItemList<ChunkList>,
        known: &Known,
        brick: u8,
    ) -> Result<Option<Request>, AllocError>
        requires { brick < 31 }
        ensures { IfOk result (λ request. request ≡ cond (is_within group.now.head && nat_lt brick ctx.now.geometry.n)
            (under (serving_by (place_at known.now.places.items brick)) (version_at group.now brick) (write_request self.now.gfid.0 (first_stripe_of (ctx.now.geometry.n - ctx.now.geometry.r) (low_of (TruncateOp self.now.gfid self.now.size) group.now)) (list_of lists.now brick))) None) }
    {
        let first = first_stripe(ctx.geometry.k(), self.low(group));
        chunks_sent(ctx, self.gfid, first, group, lists, known, brick)
    }

    /// The chunk of a brick that did all so far.
    fn write(
        &self,
        ctx: &Ctx,
        group: &Group,
        lists: &ItemList<ChunkList>,
        known: &Known,
        brick: u8,
    ) -> Result<Option<Request>, AllocError>
        requires { brick < 31 }
        ensures { IfOk result (λ request. (c : Account) → c.given.op ≡ TruncateOp self.now.gfid self.now.size → IsOf ctx.now c.given → Shows (subject c.given.op) (bricks_of c.given) known.now c → request ≡ tail_asks group.now lists.now c brick) }
    {
        self.write_by(ctx, group, lists, known, brick)
    }

    fn cut_by(&self, ctx: &Ctx, group: &Group, known: &Known, brick: u8) -> Option<Request>
        requires { brick < 31 }
        ensures { result ≡ cond (is_within group.now.head && nat_lt brick ctx.now.geometry.n)
            (under (serving_by (place_at known.now.places.items brick)) (version_at group.now brick) (cut_request self.now.gfid.0 (stripes_in (ctx.now.geometry.n - ctx.now.geometry.r) (low_of (TruncateOp self.now.gfid self.now.size) group.now)) (stripes_in (ctx.now.geometry.n - ctx.now.geometry.r) self.now.size))) None }
    {
        if !is_within(&group.head) || brick >= ctx.geometry.n || !is_member(group, brick) {
            return None;
        }
        let k = ctx.geometry.k();
        match serving(known, brick) {
            Some(grant) => Some(Request::SetLength {
                gfid: self.gfid,
                grant,
                keep: stripes_of(k, self.low(group)),
                length: stripes_of(k, self.size),
            }),
            None => None,
        }
    }

    /// The cut of a brick that did all so far.
    fn cut(&self, ctx: &Ctx, group: &Group, known: &Known, brick: u8) -> Option<Request>
        requires { brick < 31 }
        ensures { (c : Account) → c.given.op ≡ TruncateOp self.now.gfid self.now.size → IsOf ctx.now c.given → Shows (subject c.given.op) (bricks_of c.given) known.now c → result ≡ cut_asks group.now c brick }
    {
        self.cut_by(ctx, group, known, brick)
    }
}

impl Plan for Truncate {
    ghost use Rattle.ec_write.specs.DuringTruncate.{DuringTruncate};
    ghost use Rattle.ec_write.specs.Truncate.{truncate_phase, truncate_table};

    type Stage = TruncateStage;

    ghost table = { truncate_table };

    ghost during = { DuringTruncate };

    ghost phase_of = { truncate_phase };

    ghost fits = { λ truncate given. given.op ≡ TruncateOp truncate.gfid truncate.size };
}

impl<T: RowTimes> Work<T> for Truncate {
    ghost use Rattle.ec_write.specs.TruncateSound.{truncate_sound};

    fn gfid(&self) -> Gfid {
        self.gfid
    }

    fn phase(stage: &TruncateStage) -> Phase {
        match stage {
            TruncateStage::Opens(stage) => stage.phase(),
            TruncateStage::Votes(stage) => stage.phase(),
            TruncateStage::Reads { .. } => Phase::Read,
            TruncateStage::Writes { .. } => Phase::Write,
            TruncateStage::Cuts { .. } => Phase::Trim,
        }
    }

    fn asks_again(ctx: &Ctx, stage: &TruncateStage) -> bool {
        matches!(stage, TruncateStage::Reads { .. })
    }

    fn start(&self, ctx: &Ctx) -> Next<TruncateStage> {
        if self.size > END {
            Next::Say(Answer::TooBig(self.size))
        } else {
            Next::Go(TruncateStage::Opens(Opening::Lock { at: 0 }))
        }
    }

    fn request(
        &self,
        ctx: &Ctx,
        stage: &TruncateStage,
        known: &Known,
        brick: u8,
    ) -> Result<Option<Request>, AllocError> {
        match stage {
            TruncateStage::Opens(stage) => {
                Ok(stage.request(ctx, self.gfid, LockKind::Exclusive, known, brick))
            }
            TruncateStage::Votes(stage) => Ok(self.vote(ctx, stage, known, brick)),
            TruncateStage::Reads { reading, .. } => Ok(self.read(ctx, reading, known, brick)),
            TruncateStage::Writes { group, lists } => self.write(ctx, group, lists, known, brick),
            TruncateStage::Cuts { group } => Ok(self.cut(ctx, group, known, brick)),
        }
    }

    fn next(
        &self,
        ctx: &Ctx,
        stage: &TruncateStage,
        known: &Known,
        rows: &T,
    ) -> Result<Next<TruncateStage>, AllocError> {
        match stage {
            TruncateStage::Opens(stage) => Ok(self.after_opening(ctx, known, stage)),
            TruncateStage::Votes(stage) => Ok(self.after_ballot(ctx, known, stage)),
            TruncateStage::Reads { group, reading } => {
                self.after_read(ctx, known, rows, group, reading)
            }
            TruncateStage::Writes { group, .. } => Ok(self.after_write(ctx, known, group)),
            TruncateStage::Cuts { group } => Ok(self.after_cut(ctx, known, group)),
        }
    }

    ghost sound = { truncate_sound };
}

/// Begins a truncate to this size. What it sends has the numbers from `next` on; the list is handed in empty.
pub fn begin_truncate(
    alloc: Global,
    ctx: &Ctx,
    gfid: Gfid,
    size: u64,
    next: u64,
    sends: &mut Sends,
) -> Result<TruncateCall, AllocError>
    requires next { next < 2 ^ 62 }
    requires empty { sends.old ≡ [] }
    ensures adds { IfOk result (λ call. Adds (⟦<TruncateCall as Conduct>⟧.stands ctx.now (given_of ctx.now (TruncateOp gfid size) None []) call) ctx.now.geometry.n [] next sends.new call.answer) }
{
    TruncateCall::begin::<PlainRows>(alloc, ctx, Truncate { gfid, size }, next, sends)
}
